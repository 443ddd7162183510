// A client's bell that puts the cell into the queue of jobs.
ghost use Rattle.std.specs.Prelude.{◌≡◌};
ghost use Rattle.eleos_work.specs.Passes.{IsOf};

use crate::{JobPass, Jobs};
use eleos_ring::Bell;
use std::sync::Wait;

/// Puts the number of the cell into the queue of jobs; where that is full, the number is dropped.
#[derive(Drop)]
pub struct JobBell<'a, R> {
    jobs: &'a Jobs,
    rt: &'a R,
    pass: JobPass,
    ghost of_jobs: { IsOf jobs.now pass },
}

impl Jobs {
    /// A bell with this pass.
    pub fn bell<'a, R: Wait>(&'a self, rt: &'a R, pass: JobPass) -> JobBell<'a, R>
        requires { IsOf self.now pass }
        ensures { result.pass ≡ pass }
    {
        JobBell {
            jobs: self,
            rt,
            pass,
        }
    }
}

impl<'a, R: Wait> Bell for JobBell<'a, R> {
    ghost use Rattle.eleos_work.specs.Passes.{HasRung};

    // It pushed the number, or found the queue full.
    ghost rung = { λ old new cell. HasRung old.jobs.now old.pass new.pass cell };

    fn ring(&mut self, cell: u32) {
        let _ = self.jobs.push(self.rt, &mut self.pass, cell);
    }
}
