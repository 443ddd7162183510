// The text of a sub-page whose page is absent, and the blocks that it is opened from and sealed to.
ghost use Rattle.std.specs.Prelude.{◌≡◌, ◌+◌, ◌<◌, ◌≤◌, ◌^◌, ◌∷◌, [], length, Some, None, is_some};
ghost use Rattle.std.specs.Prelude.{if◌then◌else◌};
ghost use Rattle.std.specs.Option.{option_to_list};
ghost use Rattle.eleos_core.specs.Accesses.{Opens};
ghost use Rattle.eleos_core.specs.Cells.{part_with, sub_size};
ghost use Rattle.eleos_core.specs.Evicts.{sealed_block, sealed_sub};
ghost use Rattle.eleos_core.specs.Seals.{seals_by};
ghost use Rattle.eleos_core.specs.Texts.{came_for};
ghost use Rattle.eleos_pages.specs.Crossed.{Crosses, at_place, came_in, opened_by};
ghost use Rattle.eleos_base.specs.Lists.{last_of};
ghost use Rattle.eleos_host.specs.declared.slot.TheConstants.{SLOTS};
ghost use Rattle.eleos_host.specs.Taps.{IsIdle, block_of, failed_block, with_lent, with_port};

use crate::access::fetch_for;
use eleos_base::Sealer;
use eleos_core::{SubPage, open_text, seal_dirty};
use eleos_host::{HostPort, SLOTS, Tap};

/// Opens the sub-page's text: zeros where it is blank, else what the block opens to that the host
/// gives into the slot. Answers whether that block passed. Where it did not, the tap names it.
pub fn open_sub<S: Sealer, P: HostPort>(
    sealer: &S,
    tap: &mut Tap<P>,
    sub: &SubPage,
    place: u32,
    slot: usize,
    text: &mut [u8],
) -> bool
    requires slot { slot < SLOTS }
    requires idle { IsIdle tap.old slot }
    requires passed { tap.old.failed ≡ None }
    requires size { length text.old ≡ sub_size }
    ensures opens { Opens (seals_by (S.key sealer.now)) place (part_with sub.now [])
        (came_in slot tap.new) (if result then Some text.new else None) }
    ensures crossed { Crosses P.HostPort.own P.HostStore.own tap.old tap.new
        (at_place place (came_in slot tap.new)) [] }
    ensures block { came_in slot tap.new
        ≡ came_for (part_with sub.now []) (block_of tap.new slot) }
    ensures tap { tap.new ≡ opened_by (is_some sub.now.tag) result slot tap.old tap.new.port
        (block_of tap.new slot) }
    ensures failed { failed_block tap.new
        ≡ (if result then None else last_of (came_in slot tap.new)) }
{
    fetch_for(tap, sub, place, slot);
    if open_text(sealer, sub, place, tap.block(slot), text) {
        return true;
    }
    tap.fail(slot);
    false
}

/// Seals a sub-page that leaves its frame, in place, and hands the block to the host from the slot,
/// where a write to it is not sealed yet. Answers how many blocks that were.
pub fn evict_sub<S: Sealer, P: HostPort>(
    sealer: &S,
    tap: &mut Tap<P>,
    sub: &mut SubPage,
    place: u32,
    slot: usize,
    text: &mut [u8],
) -> u32
    requires slot { slot < SLOTS }
    requires room { sub.old.version ≤ 2 ^ 63 }
    requires size { length text.old ≡ sub_size }
    requires passed { tap.old.failed ≡ None }
    ensures part { part_with sub.new []
        ≡ sealed_sub (seals_by (S.key sealer.now)) place (part_with sub.old text.old) }
    ensures crossed { Crosses P.HostPort.own P.HostStore.own tap.old tap.new []
        (option_to_list (sealed_block (seals_by (S.key sealer.now)) place
        (part_with sub.old text.old))) }
    ensures count { result
        ≡ length (option_to_list (sealed_block (seals_by (S.key sealer.now)) place
        (part_with sub.old text.old))) }
    ensures passed { tap.new.failed ≡ None }
{
    if !seal_dirty(sealer, sub, place, text) {
        return 0;
    }
    hand_over(tap, place, slot, text);
    1
}

/// Hands the block to the host from the slot.
pub(crate) fn hand_over<P: HostPort>(tap: &mut Tap<P>, place: u32, slot: usize, block: &[u8])
    requires slot { slot < SLOTS }
    requires size { length block.now ≡ sub_size }
    ensures crossed { Crosses P.HostPort.own P.HostStore.own tap.old tap.new []
        ((place, block.now) ∷ []) }
    ensures tap { tap.new ≡ with_port (with_lent tap.old slot block.now) tap.new.port }
{
    tap.block_mut(slot).copy_from_slice(block);
    tap.store(place, slot);
}
