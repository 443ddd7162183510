// A page leaves its frame.
ghost use Rattle.std.specs.Prelude.{◌≡◌, ◌<◌};
ghost use Rattle.eleos_core.specs.Legal.{IsActor};
ghost use Rattle.eleos_machine.specs.Holding.{HasSole};
ghost use Rattle.eleos_machine.specs.Machines.{plan_at};
ghost use Rattle.eleos_pages.specs.Evicted.{HasEvicted};

use crate::begins::begin;
use crate::evicts::evict_page;
use eleos_base::{SUBS_PER_PAGE, Sealer};
use eleos_host::{HostPort, Tap};
use eleos_machine::{FreeFrame, Machine, Pass, SolePage, page_cell};
use eleos_plot::{Cell, EventRef, ReplyRef};

/// Lets a page that nobody links leave its frame. The writes to it that are not sealed yet are
/// sealed, and each block is handed to the host. The turn of the page goes back; the frame, which
/// is free then, stays in hand. Answers it, and how many blocks went to the host. Waits for nothing
/// and takes no memory.
pub fn evict<S: Sealer, P: HostPort>(
    m: &Machine<S>,
    pass: &mut Pass,
    sole: SolePage,
    tap: &mut Tap<P>,
) -> (FreeFrame, u32)
    requires own { pass.old.hand.home ≡ m.now }
    requires actor { IsActor (plan_at m.now) pass.old.hand.number }
    requires left { 0 < pass.old.hand.left }
    requires has { HasSole pass.old sole }
    ensures { HasEvicted P.HostPort.own P.HostStore.own pass.old tap.old
        sole result.0 result.1 pass.new tap.new }
{
    begin(tap);
    let plan = m.plan();
    let SolePage {
        page: number,
        frame: frame_number,
        page_cell: page_value,
        frame_cell: frame_value,
    } = sole;
    let Cell::Page(mut page) = page_value else {
        unreachable!()
    };
    let Cell::Frame(mut frame) = frame_value else {
        unreachable!()
    };
    let cell = page_cell(plan, number);
    let first = number * SUBS_PER_PAGE;
    let gone = evict_page(m.sealer(), tap, &mut page, &mut frame, first);
    let event = EventRef::Evict {
        page: number,
        frame: frame_number,
    };
    pass.set(event, ReplyRef::Done);
    m.stamp(pass);
    m.give(pass, cell, Cell::Page(page));
    let free = FreeFrame {
        frame: frame_number,
        cell: Cell::Frame(frame),
    };
    (free, gone)
}
