// Searches among frames: what a sweep saw of them.
ghost use Rattle.std.specs.Prelude.{◌≡◌, ◌↔◌, IsTrue};
ghost use Rattle.std.specs.List.{list_all};
ghost use Rattle.eleos_core.specs.Words.{IsTaken, is_taken};

mod lists;
mod quiet;
mod surveys;
mod waiting;

use crate::sweeps::lists::are_same;
use eleos_base::{CellWord, Looked};
pub use surveys::survey_reply;
pub use waiting::address_of;

/// The sweep names just these frames, each once, and saw pins or BUSY on each.
pub fn is_all_taken(sweep: &[Looked], frames: &[u32]) -> bool
    ensures { IsTrue result ↔ IsTaken sweep.now frames.now }
{
    if !are_taken(sweep) {
        return false;
    }
    are_same(sweep, frames)
}

/// Pins or BUSY were seen on each.
fn are_taken(sweep: &[Looked]) -> bool
    ensures { result ≡ list_all (λ seen. is_taken seen.word) sweep.now }
{
    sweep.iter().all(|seen| CellWord::new(seen.word).is_taken())
}
