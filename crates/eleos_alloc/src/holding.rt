// The turns of a call: first that of the enclave's live blocks, then those of the block's pages, by
// rising number.
ghost use Rattle.std.specs.Prelude.{◌≡◌, ◌+◌, ◌<◌, ◌≤◌, [], length};
ghost use Rattle.eleos_machine.specs.Machines.{plan_at};
ghost use Rattle.eleos_alloc.specs.Stamping.{CanStampWith, HasStampedWith, HasTaken};

use crate::pages::marked_cell;
use crate::runs::Run;
use eleos_base::Sealer;
use eleos_core::Mark;
use eleos_machine::{Machine, Pass, page_cell};
use eleos_plot::{BlockList, Cell};
use eleos_turn::Taken;
use std::sync::Wait;

/// Takes the turn of the cell of the enclave's live blocks.
pub(crate) fn take_blocks<S: Sealer, R: Wait>(
    rt: &R,
    m: &Machine<S>,
    pass: &mut Pass,
    enclave: u16,
) -> BlockList
    requires own { pass.old.hand.home ≡ m.now }
    requires enclave { enclave < length (plan_at m.now).enclaves }
    requires idle { pass.old.hand.turns ≡ [] }
    requires made { 0 < pass.old.hand.number }
    ensures { HasTaken enclave pass.old result pass.new }
{
    let Taken { word: _, value } = m.take(rt, pass, u32::from(enclave), false);
    match value {
        Cell::Alloc(blocks) => blocks,
        _ => unreachable!(),
    }
}

/// Stamps the pass's draft with the turns of the run's pages from this one on, and marks the run's
/// sub-pages in them.
pub(crate) fn stamp_with_pages<S: Sealer, R: Wait>(
    rt: &R,
    m: &Machine<S>,
    pass: &mut Pass,
    page: u32,
    run: Run,
    mark: Mark,
)
    requires own { pass.old.hand.home ≡ m.now }
    requires can { CanStampWith pass.old run mark page }
    ensures { HasStampedWith pass.old pass.new }
{
    if page == run.end_page() {
        m.stamp(pass);
        return;
    }
    let cell = page_cell(m.plan(), page);
    let Taken { word: _, value } = m.take(rt, pass, cell, false);
    stamp_with_pages(rt, m, pass, page + 1, run, mark);
    m.give(pass, cell, marked_cell(value, page, run, mark));
}
