// What becomes of a page's cell, where some of its sub-pages lie in a block.
ghost use Rattle.std.specs.Prelude.{◌≡◌};
ghost use Rattle.eleos_base.specs.declared.plan.Plan.{Plan};
ghost use Rattle.eleos_core.specs.Allots.{IsWholePage, KeepsPage, page_marked};
ghost use Rattle.eleos_core.specs.Cells.{part_of_page};
ghost use Rattle.eleos_plot.specs.Cells.{part_of_cell};
ghost use Rattle.eleos_plot.specs.Fits.{IsPageCell};
ghost use Rattle.eleos_alloc.specs.Runs.{Touches};

use crate::runs::Run;
use eleos_base::SUBS_PER_PAGE;
use eleos_core::{Mark, Page, mark_sub};
use eleos_plot::Cell;

/// The cell of the page with this number, with those of its sub-pages marked that lie in the run.
pub(crate) fn marked_cell(value: Cell, number: u32, run: Run, mark: Mark) -> Cell
    requires page { (k : Plan) × IsPageCell k value }
    requires touches { Touches run number }
    ensures { part_of_cell result
        ≡ page_marked mark run.start run.len number (part_of_cell value) }
{
    match value {
        Cell::Page(mut page) => {
            mark_page(&mut page, number, run, mark);
            Cell::Page(page)
        }
        _ => unreachable!(),
    }
}

/// Marks those of the page's sub-pages that lie in the run.
fn mark_page(page: &mut Page, number: u32, run: Run, mark: Mark)
    requires page { IsWholePage page.old }
    requires touches { Touches run number }
    ensures part { part_of_page page.new
        ≡ page_marked mark run.start run.len number (part_of_page page.old) }
    ensures keeps { KeepsPage page.old page.new }
{
    let first = number * SUBS_PER_PAGE;
    let low = run.start.max(first);
    let high = (run.start + run.len).min(first + SUBS_PER_PAGE);
    for sub in low..high {
        mark_sub(page, (sub - first) as usize, mark);
    }
}
