// What a read and a write on the cell of a page have in common: what they answer, and the block of
// a sub-page that lies sealed, which comes from the host.
ghost use Rattle.std.specs.Prelude.{◌≡◌, ◌<◌, [], is_some};
ghost use Rattle.eleos_core.specs.Cells.{part_with};
ghost use Rattle.eleos_core.specs.Texts.{came_for};
ghost use Rattle.eleos_host.specs.declared.slot.TheConstants.{SLOTS};
ghost use Rattle.eleos_host.specs.Taps.{IsIdle, block_of};
ghost use Rattle.eleos_pages.specs.Crossed.{Crosses, at_place, came_in, fetched_if};

use eleos_base::AccessRefused;
use eleos_core::SubPage;
use eleos_host::{HostPort, Tap};

/// The slot into which the block of an access comes from the host.
pub(crate) const COME: usize = 0;

/// The slot from which the block of an access goes to the host.
pub(crate) const GONE: usize = 1;

/// What an access on a page answers, and whether a block came from the host for it.
#[derive(Clone, Copy, Debug, PartialEq, Eq)]
pub struct Accessed {
    pub answer: Result<(), AccessRefused>,
    pub has_block: bool,
}

/// Lets the sub-page's block come into the slot, where it lies sealed. Answers whether one came.
pub(crate) fn fetch_for<P: HostPort>(
    tap: &mut Tap<P>,
    sub: &SubPage,
    place: u32,
    slot: usize,
) -> bool
    requires slot { slot < SLOTS }
    requires idle { IsIdle tap.old slot }
    ensures sealed { result ≡ is_some sub.now.tag }
    ensures tap { tap.new
        ≡ fetched_if (is_some sub.now.tag) slot tap.old tap.new.port (block_of tap.new slot) }
    ensures block { came_in slot tap.new
        ≡ came_for (part_with sub.now []) (block_of tap.new slot) }
    ensures crossed { Crosses P.HostPort.own P.HostStore.own tap.old tap.new
        (at_place place (came_in slot tap.new)) [] }
{
    if sub.tag.is_some() {
        tap.fetch(place, slot);
        return true;
    }
    false
}
