// The machine before its first event.
ghost use Rattle.std.specs.Prelude.{◌≡◌, ◌≤◌, ◌*◌, [], replicate, IfOk};
ghost use Rattle.eleos_core.specs.Words.{IsGood, Seals, Shows};

mod frames;
mod lives;
mod pages;

use crate::machine::Core;
use crate::opening::frames::{make_clocks, make_frames};
use crate::opening::lives::make_lives;
use crate::opening::pages::make_pages;
use eleos_base::{NoMemory, Plan};
use std::alloc::Global;

impl Core {
    /// The machine of a plan before its first event. The memory of all its cells is taken here.
    /// A header block for which there is no room is left out.
    pub fn make(alloc: Global, plan: &Plan) -> Result<Core, NoMemory>
        requires good { IsGood plan.now }
        ensures plan { IfOk result (λ core. core.plan ≡ plan.now) }
        ensures shown { IfOk result (λ core. (x : Seals) → Shows x [] core) }
    {
        let live = make_lives(alloc, plan)?;
        let clocks = make_clocks(alloc, plan)?;
        let pages = make_pages(alloc, plan, &live)?;
        let frames = make_frames(alloc, plan)?;
        let links = no_links(alloc, plan.callers.len(), pages.len())?;
        Ok(Core {
            plan: plan.copy(alloc)?,
            live,
            clocks,
            pages,
            frames,
            links,
        })
    }
}

/// No link by any of so many callers on any of so many pages.
fn no_links(alloc: Global, callers: usize, pages: usize) -> Result<Vec<u64>, NoMemory>
    requires callers { callers ≤ 8 }
    requires pages { pages ≤ 4096 }
    ensures { IfOk result (λ links. links.items ≡ replicate (callers * pages) 0) }
{
    let mut links = Vec::new(alloc);
    links.resize(callers * pages, 0)?;
    Ok(links)
}
