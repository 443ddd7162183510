// The sub-pages of a page that leaves its frame.
ghost use Rattle.std.specs.Prelude.{◌≡◌, ◌+◌, ◌*◌, ◌<◌, ◌≤◌, ◌^◌, [], length, map, All, None};
ghost use Rattle.eleos_base.specs.Lists.{map_from};
ghost use Rattle.eleos_base.specs.Plain.{zeros};
ghost use Rattle.eleos_base.specs.Plans.{page_bytes};
ghost use Rattle.eleos_core.specs.Cells.{IsUse, part_of_frame, part_of_page, part_with, piece};
ghost use Rattle.eleos_core.specs.Cells.{subs_per_page};
ghost use Rattle.eleos_core.specs.Evicts.{CanLeave, sealed_blocks, sealed_sub};
ghost use Rattle.eleos_core.specs.Parts.{frame_part, page_part, subs_in};
ghost use Rattle.eleos_core.specs.Seals.{seals_by};
ghost use Rattle.eleos_core.specs.declared.cells.sub_page.SubPage.{SubPage};
ghost use Rattle.eleos_pages.specs.Crossed.{Crosses};

use crate::sealing::evict_sub;
use eleos_base::Sealer;
use eleos_core::{Frame, Page, SubPage, TEXT_BYTES, Use, clear};
use eleos_host::{HostPort, Tap};

/// The slot from which the blocks of a page that leaves its frame go to the host, one after
/// another.
const GONE: usize = 0;

/// Seals the dirty sub-pages of a page in a frame one by one, the first of which has the place
/// `first`, and
/// hands each block to the host. The bytes are zero then. Answers how many blocks that were.
pub fn evict_bytes<S: Sealer, P: HostPort>(
    sealer: &S,
    tap: &mut Tap<P>,
    subs: &mut [SubPage],
    first: u32,
    bytes: &mut [u8],
) -> u32
    requires whole { length subs.old ≡ subs_per_page }
    requires first { first + subs_per_page < 2 ^ 32 }
    requires bytes { length bytes.old ≡ page_bytes }
    requires versions { All (λ (u : SubPage). u.version ≤ 2 ^ 63) subs.old }
    requires passed { tap.old.failed ≡ None }
    ensures subs { map (λ u. part_with u []) subs.new
        ≡ map_from (sealed_sub (seals_by (S.key sealer.now))) first
        (map_from (λ i u. part_with u (piece i bytes.old)) 0 subs.old) }
    ensures crossed { Crosses P.HostPort.own P.HostStore.own tap.old tap.new []
        (sealed_blocks (seals_by (S.key sealer.now)) first
        (map_from (λ i u. part_with u (piece i bytes.old)) 0 subs.old)) }
    ensures count { result ≡ length (sealed_blocks (seals_by (S.key sealer.now)) first
        (map_from (λ i u. part_with u (piece i bytes.old)) 0 subs.old)) }
    ensures cleared { bytes.new ≡ zeros page_bytes }
    ensures passed { tap.new.failed ≡ None }
{
    let mut gone = 0;
    for i in 0..subs.len() {
        let from = i * TEXT_BYTES;
        let text = &mut bytes[from..from + TEXT_BYTES];
        gone += evict_sub(sealer, tap, &mut subs[i], first + i as u32, GONE, text);
    }
    clear(bytes);
    gone
}

/// The page leaves the frame, which is free again. Answers how many blocks went to the host.
pub fn evict_page<S: Sealer, P: HostPort>(
    sealer: &S,
    tap: &mut Tap<P>,
    page: &mut Page,
    frame: &mut Frame,
    first: u32,
) -> u32
    requires page { CanLeave page.old }
    requires first { first + subs_per_page < 2 ^ 32 }
    requires passed { tap.old.failed ≡ None }
    ensures page { part_of_page page.new
        ≡ page_part None (map_from (sealed_sub (seals_by (S.key sealer.now))) first
        (subs_in (part_of_page page.old))) }
    ensures whole { length page.new.subs.items ≡ subs_per_page }
    ensures frame { part_of_frame frame.new ≡ frame_part frame.old.owner None }
    ensures zero { IsUse 0 frame.new.used }
    ensures crossed { Crosses P.HostPort.own P.HostStore.own tap.old tap.new []
        (sealed_blocks (seals_by (S.key sealer.now)) first (subs_in (part_of_page page.old))) }
    ensures count { result ≡ length (sealed_blocks (seals_by (S.key sealer.now)) first
        (subs_in (part_of_page page.old))) }
    ensures passed { tap.new.failed ≡ None }
{
    let Some(mut present) = page.present.take() else {
        unreachable!()
    };
    let gone = evict_bytes(sealer, tap, &mut page.subs, first, &mut present.bytes);
    frame.used = Use::Free {
        bytes: present.bytes,
    };
    gone
}
