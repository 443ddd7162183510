// The numbers of cells: each enclave's alloc cell, each enclave's clock cell, the pool's, the
// pages,
// the frames.
ghost use Rattle.std.specs.Prelude.{◌≡◌, ◌+◌, ◌<◌, ◌≤◌, length};
ghost use Rattle.eleos_base.specs.Plans.{IsGood};
ghost use Rattle.eleos_core.specs.Legal.{IsOwner};
ghost use Rattle.eleos_core.specs.Parts.{clock_cell, frame_cell, page_cell};
ghost use Rattle.eleos_base.specs.Places.{all_frames, all_pages};
ghost use Rattle.eleos_machine.specs.Machines.{plan_at};

use crate::machine::Machine;
use eleos_base::{Plan, Sealer};

/// The number of a page's cell.
pub fn page_cell(plan: &Plan, page: u32) -> u32
    requires good { IsGood plan.now }
    requires page { page < all_pages plan.now }
    ensures { result ≡ page_cell plan.now page }
{
    let enclaves = plan.enclaves.len() as u32;
    enclaves + enclaves + 1 + page
}

/// The number of the clock cell of an enclave, or of the pool.
pub fn clock_cell(plan: &Plan, owner: Option<u16>) -> u32
    requires good { IsGood plan.now }
    requires owner { IsOwner plan.now owner }
    ensures { result ≡ clock_cell plan.now owner }
{
    let enclaves = plan.enclaves.len() as u32;
    match owner {
        Some(enclave) => enclaves + u32::from(enclave),
        None => enclaves + enclaves,
    }
}

/// The number of the first frame's cell.
pub(crate) fn first_frame(plan: &Plan) -> u32
    requires { IsGood plan.now }
    ensures { result ≡ frame_cell plan.now 0 }
{
    let enclaves = plan.enclaves.len() as u32;
    enclaves + enclaves + 1 + page_count(plan)
}

/// The pages of all enclaves.
fn page_count(plan: &Plan) -> u32
    requires { IsGood plan.now }
    ensures count { result ≡ all_pages plan.now }
    ensures few { result ≤ 4096 }
{
    let mut pages = 0;
    for made in plan.enclaves.as_slice() {
        pages += made.pages;
    }
    pages
}

impl<S: Sealer> Machine<S> {
    /// The number of a frame's cell.
    pub fn frame_cell(&self, frame: u32) -> u32
        requires { frame < all_frames (plan_at self.now) }
        ensures { result ≡ frame_cell (plan_at self.now) frame }
    {
        self.first_frame + frame
    }
}
