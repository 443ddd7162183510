// An absent page is brought into a frame.
ghost use Rattle.std.specs.Prelude.{◌≡◌, ◌<◌, ◌≤◌, length, is_some};
ghost use Rattle.eleos_base.specs.Plans.{IsCaller};
ghost use Rattle.eleos_core.specs.Quiet.{spoiled_stamp};
ghost use Rattle.eleos_base.specs.declared.memory.Reply.TheVariants as replies;
ghost use Rattle.eleos_host.specs.declared.slot.TheConstants.{SLOTS};
ghost use Rattle.eleos_plot.specs.Refs.{wanted_bytes, wanted_of};
ghost use Rattle.eleos_machine.specs.Holding.{HasPage, frame_seen};
ghost use Rattle.eleos_machine.specs.Machines.{plan_at};
ghost use Rattle.eleos_machine.specs.Passes.{gave};
ghost use Rattle.eleos_pages.specs.Crossed.{blocks_below};
ghost use Rattle.eleos_spointer.specs.Brought.{Brings, Frees, HasFound, HasStarved, MayBring};
ghost use Rattle.eleos_spointer.specs.Brought.{MayPutIn, MayStarve, PutsIn, cell_of_held};

use crate::refusing::LinkRefused;
use eleos_base::{MOST_WRITTEN, Sealer};
use eleos_clock::{Found, NoVictim, give_clock, victim};
use eleos_host::{HostPort, Tap};
use eleos_machine::{ClockTurn, FreeFrame, HeldPage, Machine, Pass, page_cell};
use eleos_pages::{Filled, add_blocks, evict, fill};
use eleos_plot::{Cell, EventRef, ReplyRef, WantedRef};

/// Brings an absent page into a frame of its enclave: a free one, or one that a page leaves which
/// nobody links. The turn of the clock cell goes back, that of the page stays in hand. Where there
/// is no such frame, or a block does not pass, it stamps that what was wanted is refused, and the
/// page's turn goes back too.
pub(crate) fn bring_in<S: Sealer, P: HostPort>(
    m: &Machine<S>,
    pass: &mut Pass,
    page: HeldPage,
    clock: ClockTurn,
    wanted: WantedRef<'_>,
    tap: &mut Tap<P>,
) -> Result<HeldPage, LinkRefused>
    requires may { MayBring m.now pass.old page clock (wanted_of wanted) }
    requires written { length (wanted_bytes wanted) ≤ MOST_WRITTEN }
    ensures { Brings P.HostPort.own P.HostStore.own pass.old tap.old page (wanted_of wanted.entry)
        result pass.new tap.new }
{
    // What it has seen is a legal history.
    let _ = pass.left();
    let mut clock = clock;
    match victim(m, pass, &mut clock, true) {
        Err(NoVictim) => {
            starve(m, pass, page, clock, wanted);
            Err(LinkRefused::NoFrame)
        }
        Ok(found) => {
            let frame = free(m, pass, found, tap);
            give_clock(m, pass, clock);
            put_in(m, pass, page, frame, wanted, tap)
        }
    }
}

/// Makes a free frame of what was found: the page in it leaves it.
fn free<S: Sealer, P: HostPort>(
    m: &Machine<S>,
    pass: &mut Pass,
    found: Found,
    tap: &mut Tap<P>,
) -> FreeFrame
    requires own { pass.old.hand.home ≡ m.now }
    requires caller { IsCaller (plan_at m.now) pass.old.hand.number }
    requires left { 0 < pass.old.hand.left }
    requires has { HasFound pass.old found }
    ensures { Frees P.HostPort.own P.HostStore.own pass.old tap.old found result pass.new tap.new }
{
    match found {
        Found::Free(frame) => frame,
        Found::Sole(sole) => evict(m, pass, sole, tap).0,
    }
}

/// Puts an absent page into a free frame. Where a block does not pass, it stamps that, and the turns
/// of page and frame go back.
fn put_in<S: Sealer, P: HostPort>(
    m: &Machine<S>,
    pass: &mut Pass,
    page: HeldPage,
    frame: FreeFrame,
    wanted: WantedRef<'_>,
    tap: &mut Tap<P>,
) -> Result<HeldPage, LinkRefused>
    requires may { MayPutIn m.now pass.old page frame (wanted_of wanted) }
    requires written { length (wanted_bytes wanted) ≤ MOST_WRITTEN }
    ensures { PutsIn P.HostPort.own P.HostStore.own pass.old tap.old page frame (wanted_of wanted.entry)
        result pass.new tap.new }
{
    match fill(m, pass, page, frame, tap) {
        Filled::Done { page } => Ok(page),
        Filled::Tampered {
            page,
            frame,
            sub,
            blocks,
        } => {
            draft_spoiled(pass, tap, wanted, sub, blocks);
            m.stamp(pass);
            m.give(pass, m.frame_cell(frame.frame), frame.cell);
            give_page(m, pass, page);
            Err(LinkRefused::Tampered { sub })
        }
    }
}

/// Stamps that each frame of the enclave was found taken, by the words that the pass noted. The
/// turns of the clock cell and of the page go back after that.
fn starve<S: Sealer>(
    m: &Machine<S>,
    pass: &mut Pass,
    page: HeldPage,
    clock: ClockTurn,
    wanted: WantedRef<'_>,
)
    requires may { MayStarve m.now pass.old page clock (wanted_of wanted) }
    requires written { length (wanted_bytes wanted) ≤ MOST_WRITTEN }
    ensures { HasStarved pass.old (wanted_of wanted.entry) pass.new }
{
    pass.set(EventRef::Starved { wanted }, ReplyRef::NoFrame);
    pass.draft_sweep();
    m.stamp(pass);
    give_clock(m, pass, clock);
    give_page(m, pass, page);
}

/// Makes the draft that of what was refused since the last of the blocks in the first slots did not
/// pass.
fn draft_spoiled<P: HostPort>(
    pass: &mut Pass,
    tap: &Tap<P>,
    wanted: WantedRef<'_>,
    sub: u32,
    count: usize,
)
    requires few { count ≤ SLOTS }
    requires written { length (wanted_bytes wanted) ≤ MOST_WRITTEN }
    ensures { pass.new ≡ record pass.old {
      draft = spoiled_stamp pass.old.hand.number (wanted_of wanted.entry) (blocks_below count tap.now)
          (replies.Tampered sub);
    } }
{
    pass.set(EventRef::Spoiled { wanted }, ReplyRef::Tampered { sub });
    add_blocks(pass, tap, count);
}

/// Gives the turn of a page back, as it was taken.
pub(crate) fn give_page<S: Sealer>(m: &Machine<S>, pass: &mut Pass, page: HeldPage)
    requires own { pass.old.hand.home ≡ m.now }
    requires has { HasPage pass.old page.page page.cell }
    ensures { pass.new ≡ gave pass.old (cell_of_held pass.old page) }
{
    let HeldPage { page: number, cell } = page;
    m.give(pass, page_cell(m.plan(), number), cell);
}

/// Whether the page in hand is in a frame.
pub(crate) fn is_present(_pass: &Pass, page: &HeldPage) -> bool
    requires { HasPage _pass.now page.now.page page.now.cell }
    ensures { result ≡ is_some (frame_seen _pass.now page.now.page) }
{
    let Cell::Page(page) = &page.cell else {
        unreachable!()
    };
    page.present.is_some()
}
