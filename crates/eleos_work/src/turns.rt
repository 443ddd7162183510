// One turn of a worker.
ghost use Rattle.std.specs.Prelude.{◌<◌};
ghost use Rattle.eleos_words.specs.declared.layout.TheConstants.{CELLS};
ghost use Rattle.eleos_work.specs.Passes.{IsOf};
ghost use Rattle.eleos_work.specs.Jobs.{Serves};
ghost use Rattle.eleos_work.specs.Turns.{TakesTurn};

use crate::read::read_job;
use crate::reply::store_reply;
use crate::{JobPass, Jobs};
use eleos_words::{MOST_BYTES, RingPort};
use std::sync::Wait;

impl Jobs {
    /// Takes a number from the queue and does the job of its cell, once.
    /// It answers false where its pop found the queue empty. It waits only for the queue and for
    /// the lock of what the host keeps.
    pub fn worker_turn<R: Wait, P: RingPort>(
        &self,
        rt: &R,
        pass: &mut JobPass,
        port: &mut P,
    ) -> bool
        requires { IsOf self.now pass.old }
        ensures of { IsOf self.now pass.new }
        ensures turn { TakesTurn P.RingPort.own pass.old pass.new port.old port.new result }
    {
        let Some(cell) = self.pop(rt, pass) else {
            return false;
        };
        self.serve(rt, port, cell);
        true
    }

    // Does the job of the cell.
    #[tactic(auto, using(crate::proofs::JobLooks::served_calls))]
    fn serve<R: Wait, P: RingPort>(&self, rt: &R, port: &mut P, cell: u32)
        requires { cell < CELLS }
        ensures { Serves P.RingPort.own cell port.old port.new }
    {
        let mut text = [0; MOST_BYTES];
        let mut reply = [0; MOST_BYTES];
        let job = read_job(port, cell, &mut text);
        let answered = self
            .table
            .lock(rt)
            .act(job.call, &text, job.length, &mut reply);
        store_reply(
            port,
            cell,
            job.id,
            answered.status,
            &reply[..answered.length],
        );
    }
}
