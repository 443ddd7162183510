// A page is put into a frame.
ghost use Rattle.std.specs.Prelude.{◌≡◌, ◌<◌, ◌≤◌, []};
ghost use Rattle.eleos_base.specs.Places.{home_of};
ghost use Rattle.eleos_core.specs.Fills.{fill_stamp};
ghost use Rattle.eleos_core.specs.Legal.{IsActor};
ghost use Rattle.eleos_core.specs.Parts.{frame_cell, owner_in};
ghost use Rattle.eleos_host.specs.declared.slot.TheConstants.{SLOTS};
ghost use Rattle.eleos_machine.specs.Holding.{HasAbsent, HasFree};
ghost use Rattle.eleos_machine.specs.Machines.{plan_at};
ghost use Rattle.eleos_machine.specs.Passes.{part_seen};
ghost use Rattle.eleos_pages.specs.Crossed.{blocks_below};
ghost use Rattle.eleos_pages.specs.Filled.{Fills};

use crate::begins::begin;
use crate::fills::fill_page;
use eleos_base::{Reply, Sealer};
use eleos_host::{HostPort, Tap};
use eleos_machine::{FreeFrame, HeldPage, Machine, Pass};
use eleos_plot::{Cell, EventRef, ReplyRef};

/// What became of a page that was to be put into a frame.
#[derive(Debug, Drop)]
pub enum Filled {
    /// It is in the frame, whose turn went back.
    Done {
        page: HeldPage,
    },
    /// The block that came for this sub-page, the last of so many, was not the one last sealed
    /// there: page and frame are in hand as they were, and nothing was stamped.
    Tampered {
        page: HeldPage,
        frame: FreeFrame,
        sub: u32,
        blocks: usize,
    },
}

/// Puts an absent page into a free frame of its enclave. The blocks of its sealed sub-pages come
/// from the host one after another, each into a slot of its own, and none comes behind one that
/// does not pass. Waits for nothing and takes no memory.
pub fn fill<S: Sealer, P: HostPort>(
    m: &Machine<S>,
    pass: &mut Pass,
    page: HeldPage,
    frame: FreeFrame,
    tap: &mut Tap<P>,
) -> Filled
    requires own { pass.old.hand.home ≡ m.now }
    requires actor { IsActor (plan_at m.now) pass.old.hand.number }
    requires left { 0 < pass.old.hand.left }
    requires page { HasAbsent pass.old page }
    requires frame { HasFree pass.old frame }
    requires home { owner_in (part_seen pass.old (frame_cell (plan_at m.now) frame.frame))
        ≡ home_of (plan_at m.now) page.page }
    ensures { Fills P.HostPort.own P.HostStore.own pass.old tap.old page frame
        result pass.new tap.new }
{
    begin(tap);
    // A machine has few pages.
    let _ = m.plan();
    let HeldPage {
        page: number,
        cell: page_value,
    } = page;
    let FreeFrame {
        frame: frame_number,
        cell: frame_value,
    } = frame;
    let Cell::Page(mut filled) = page_value else {
        unreachable!()
    };
    let Cell::Frame(mut lent) = frame_value else {
        unreachable!()
    };
    let cell = m.frame_cell(frame_number);
    let came = fill_page(
        m.sealer(),
        tap,
        &mut filled,
        number,
        &mut lent,
        frame_number,
    );
    match came.spoiled {
        Some(sub) => Filled::Tampered {
            page: HeldPage {
                page: number,
                cell: Cell::Page(filled),
            },
            frame: FreeFrame {
                frame: frame_number,
                cell: Cell::Frame(lent),
            },
            sub,
            blocks: came.blocks,
        },
        None => {
            draft_fill(pass, tap, number, frame_number, came.blocks);
            m.stamp(pass);
            m.give(pass, cell, Cell::Frame(lent));
            Filled::Done {
                page: HeldPage {
                    page: number,
                    cell: Cell::Page(filled),
                },
            }
        }
    }
}

/// Makes the draft the fill, with the blocks that came into the first slots.
fn draft_fill<P: HostPort>(pass: &mut Pass, tap: &Tap<P>, page: u32, frame: u32, count: usize)
    requires few { count ≤ SLOTS }
    ensures { pass.new ≡ record pass.old {
      draft = fill_stamp pass.old.hand.number page frame (blocks_below count tap.now) Reply.Done;
    } }
{
    pass.set(EventRef::Fill { page, frame }, ReplyRef::Done);
    add_blocks(pass, tap, count);
}

/// Appends the blocks in the first slots to the draft, which has none.
pub fn add_blocks<P: HostPort>(pass: &mut Pass, tap: &Tap<P>, count: usize)
    requires none { pass.old.draft.entry.blocks ≡ [] }
    requires few { count ≤ SLOTS }
    ensures { pass.new ≡ record pass.old {
      draft = record pass.old.draft {
        entry = record pass.old.draft.entry { blocks = blocks_below count tap.now };
      };
    } }
{
    for slot in 0..count {
        pass.add_block(tap.block(slot));
    }
}
