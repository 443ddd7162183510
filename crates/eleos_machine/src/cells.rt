// The cells of a machine before its first event, in the order of their numbers.
ghost use Rattle.std.specs.Prelude.{◌≡◌, ◌++◌, [], map, IfOk, OnOk};
ghost use Rattle.std.specs.List.{AllByRecursion};
ghost use Rattle.eleos_base.specs.Plans.{IsGood};
ghost use Rattle.eleos_core.specs.Applying.{Shows};
ghost use Rattle.eleos_core.specs.Cells.{IsPage, IsUse, part_of_frame, part_of_page};
ghost use Rattle.eleos_core.specs.Parts.{alloc_part, clock_part};
ghost use Rattle.eleos_core.specs.declared.cells.frame.Frame.{Frame as Frames};
ghost use Rattle.eleos_base.specs.Places.{all_frames, all_pages};
ghost use Rattle.eleos_core.specs.Seals.{Seals};
ghost use Rattle.eleos_plot.specs.Cells.{part_of_cell};
ghost use Rattle.eleos_machine.specs.Machines.{AreOpening};

use eleos_base::{NoMemory, Plan};
use eleos_core::{Alloc, Clock, Core, CoreCells, Frame, Page};
use eleos_plot::{BlockList, Cell, FrameList};
use std::alloc::Global;

/// The alloc cells, the clock cells with the pool's last, the pages and the frames.
pub(crate) fn opening_cells(alloc: Global, plan: &Plan) -> Result<Vec<Cell>, NoMemory>
    requires good { IsGood plan.now }
    ensures { IfOk result (λ cells. AreOpening plan.now (map part_of_cell cells.items)) }
{
    let core = Core::make(alloc, plan)?;
    in_order(alloc, plan, core)
}

/// The cells of a core of the plan.
fn in_order(alloc: Global, _plan: &Plan, core: Core) -> Result<Vec<Cell>, NoMemory>
    requires plan { core.plan ≡ _plan.now }
    requires shown { (x : Seals) → Shows x [] core }
    ensures { IfOk result (λ cells. AreOpening _plan.now (map part_of_cell cells.items)) }
{
    let CoreCells {
        live,
        clocks,
        pages,
        frames,
    } = core.into_cells();
    let mut cells = Vec::new(alloc);
    add_allocs(&mut cells, live)?;
    add_clocks(&mut cells, clocks)?;
    add_pages(&mut cells, pages, _plan)?;
    add_frames(&mut cells, frames, _plan)?;
    Ok(cells)
}

fn add_allocs(cells: &mut Vec<Cell>, live: Vec<Alloc>) -> Result<(), NoMemory>
    ensures { OnOk result (map part_of_cell cells.new.items
        ≡ map part_of_cell cells.old.items ++ map alloc_part live.items) }
{
    for alloc in live {
        cells.push(Cell::Alloc(BlockList::make(alloc)?))?;
    }
    Ok(())
}

/// Adds clocks whose hands stand at the first frame.
fn add_clocks(cells: &mut Vec<Cell>, clocks: Vec<Clock>) -> Result<(), NoMemory>
    ensures { OnOk result (map part_of_cell cells.new.items
        ≡ map part_of_cell cells.old.items ++ map clock_part clocks.items) }
{
    for clock in clocks {
        let clock = FrameList::make(clock)?;
        cells.push(Cell::Clock { clock, hand: 0 })?;
    }
    Ok(())
}

fn add_pages(cells: &mut Vec<Cell>, pages: Vec<Page>, _plan: &Plan) -> Result<(), NoMemory>
    requires { AllByRecursion (IsPage _plan.now.wear (all_frames _plan.now)) pages.items }
    ensures { OnOk result (map part_of_cell cells.new.items
        ≡ map part_of_cell cells.old.items ++ map part_of_page pages.items) }
{
    for page in pages {
        cells.push(Cell::Page(page))?;
    }
    Ok(())
}

fn add_frames(cells: &mut Vec<Cell>, frames: Vec<Frame>, _plan: &Plan) -> Result<(), NoMemory>
    requires { AllByRecursion (λ (frame : Frames). IsUse (all_pages _plan.now) frame.used)
        frames.items }
    ensures { OnOk result (map part_of_cell cells.new.items
        ≡ map part_of_cell cells.old.items ++ map part_of_frame frames.items) }
{
    for frame in frames {
        cells.push(Cell::Frame(frame))?;
    }
    Ok(())
}
