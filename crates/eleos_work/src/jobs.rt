// The queue of cells that have jobs, and its passes.
ghost use Rattle.std.specs.Prelude.{◌≡◌, ◌<◌, ◌≤◌, ◌+◌, ◌*◌, length, IfOk, MatchOption};
ghost use Rattle.std.specs.List.{All};
ghost use Rattle.eleos_words.specs.declared.layout.TheConstants.{CELLS};
ghost use Rattle.eleos_ring.specs.declared.cells.TheConstants.{CELLS_EACH, CLIENTS};
ghost use Rattle.eleos_work.specs.Passes.{IsOf, IsNewPass, HasPopped, HasFoundNone, Pushes};
ghost use Rattle.eleos_work.specs.Passes.{room_of};

use crate::rule::{JobRule, JobView, Popped, Pushed};
use crate::table::CallTable;
use crossbeam_queue::{Pass, RuledArrayQueue};
use eleos_base::NoMemory;
use eleos_ring::CELLS_EACH;
use std::alloc::Global;
use std::sync::{Mutex, Wait};

/// A queue of cell numbers under the rule.
pub type JobQueue = RuledArrayQueue<u32, JobView, JobRule>;

// The queue has room for each of a client's cells so many times.
const ROOM_EACH: u32 = 4;

/// The cells that have jobs, and what the host keeps.
#[derive(Drop)]
pub struct Jobs {
    queue: JobQueue,
    pub(crate) table: Mutex<CallTable>,
}

/// The right of one thread to push and pop, and how many of its pops found the queue empty.
#[derive(Drop)]
pub struct JobPass {
    pass: Pass<u32, JobView>,
    empty: u64,
}

impl Jobs {
    /// The queue for so many clients, four times as long as they have cells, and its passes: two
    /// for each client and two more. All room is taken here.
    pub fn make(alloc: Global, clients: u32) -> Result<(Jobs, Vec<JobPass>), NoMemory>
        requires some { 0 < clients }
        requires few { clients ≤ CLIENTS }
        ensures room { IfOk result (λ r. room_of r.0 ≡ 4 * CELLS_EACH * clients) }
        ensures passes { IfOk result (λ r. All (IsNewPass r.0) r.1.items) }
        ensures count { IfOk result (λ r. length r.1.items ≡ 2 * clients + 2) }
    {
        let table = CallTable::make(alloc)?;
        let room = ROOM_EACH * CELLS_EACH * clients;
        let (queue, _first) = JobQueue::ruled(alloc, room as usize)?;
        let jobs = Jobs {
            queue,
            table: Mutex::new(table),
        };
        let passes = jobs.passes(alloc, 2 * clients + 2)?;
        Ok((jobs, passes))
    }

    // So many new passes.
    fn passes(&self, alloc: Global, count: u32) -> Result<Vec<JobPass>, NoMemory>
        ensures passes { IfOk result (λ v. All (IsNewPass self.now) v.items) }
        ensures count { IfOk result (λ v. length v.items ≡ count) }
    {
        let mut passes = Vec::with_capacity(alloc, count as usize)?;
        for _done in 0..count {
            passes.push(self.new_pass())?;
        }
        Ok(passes)
    }

    // A pass that has pushed and popped nothing.
    fn new_pass(&self) -> JobPass
        ensures { IsNewPass self.now result }
    {
        JobPass {
            pass: self.queue.pass(),
            empty: 0,
        }
    }

    /// The next number, or None where the queue was empty.
    pub(crate) fn pop<R: Wait>(&self, rt: &R, pass: &mut JobPass) -> Option<u32>
        requires { IsOf self.now pass.old }
        ensures of { IsOf self.now pass.new }
        ensures cases { MatchOption result
            (HasFoundNone pass.old pass.new)
            (λ cell. HasPopped pass.old pass.new cell) }
    {
        let found = self.queue.pop_as::<Popped, R>(rt, &mut pass.pass);
        if found.is_none() {
            pass.empty = pass.empty.saturating_add(1);
        }
        found
    }

    /// Puts a number at the end, and answers whether there was room.
    pub(crate) fn push<R: Wait>(&self, rt: &R, pass: &mut JobPass, cell: u32) -> bool
        requires of { IsOf self.now pass.old }
        requires cell { cell < CELLS }
        ensures of { IsOf self.now pass.new }
        ensures pushed { Pushes self.now pass.old pass.new cell result }
    {
        self.queue
            .push_as::<Pushed, R>(rt, &mut pass.pass, cell)
            .is_ok()
    }
}
