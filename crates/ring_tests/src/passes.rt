// The passes that `make` gave, as the tests hand them out.
ghost use Rattle.std.specs.Prelude.{All, IfSome};
ghost use Rattle.eleos_work.specs.Passes.{IsNewPass, IsOf};

use eleos_work::{JobPass, Jobs};

/// Two of the passes.
pub(crate) fn two_of(jobs: &Jobs, passes: &mut Vec<JobPass>) -> Option<(JobPass, JobPass)>
    requires { All (IsNewPass jobs.now) passes.old.items }
    ensures taken { IfSome result (λ two. IsOf jobs.now two.0 × IsOf jobs.now two.1) }
    ensures rest { All (IsNewPass jobs.now) passes.new.items }
{
    let _ = jobs;
    let first = passes.pop()?;
    let second = passes.pop()?;
    Some((first, second))
}
