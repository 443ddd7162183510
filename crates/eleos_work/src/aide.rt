// A client's aide that takes a worker's turn.
ghost use Rattle.std.specs.Prelude.{◌≡◌};
ghost use Rattle.eleos_work.specs.Passes.{IsOf};

use crate::{JobPass, Jobs};
use eleos_ring::Aide;
use eleos_words::RingPort;
use std::sync::Wait;

/// Takes one turn of a worker, by a port of its own.
#[derive(Drop)]
pub struct JobAide<'a, R, P> {
    jobs: &'a Jobs,
    rt: &'a R,
    pass: JobPass,
    port: P,
    ghost of_jobs: { IsOf jobs.now pass },
}

impl Jobs {
    /// An aide with this pass and this port.
    pub fn aide<'a, R: Wait, P: RingPort>(
        &'a self,
        rt: &'a R,
        pass: JobPass,
        port: P,
    ) -> JobAide<'a, R, P>
        requires { IsOf self.now pass }
        ensures { result.pass ≡ pass }
    {
        JobAide {
            jobs: self,
            rt,
            pass,
            port,
        }
    }
}

impl<'a, R: Wait, P: RingPort> Aide for JobAide<'a, R, P> {
    ghost use Rattle.std.specs.Prelude.{Bool};
    ghost use Rattle.eleos_work.specs.Turns.{TakesTurn};

    fn turn(&mut self)
        ensures { (found : Bool) × TakesTurn P.RingPort.own
            self.old.pass self.new.pass self.old.port self.new.port found }
    {
        let _ = self
            .jobs
            .worker_turn(self.rt, &mut self.pass, &mut self.port);
    }
}
