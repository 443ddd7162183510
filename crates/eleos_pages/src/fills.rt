// The bytes of a page that is put into a frame.
ghost use Rattle.std.specs.Prelude.{◌≡◌, ◌+◌, ◌*◌, ◌<◌, ◌≤◌, ◌^◌, ℕ, [], length, IfNone, IfSome};
ghost use Rattle.std.specs.Prelude.{None, is_some, if◌then◌else◌};
ghost use Rattle.eleos_base.specs.Plain.{zeros};
ghost use Rattle.eleos_base.specs.Plans.{page_bytes};
ghost use Rattle.eleos_base.specs.declared.plan.Plan.{Plan};
ghost use Rattle.eleos_core.specs.Cells.{IsPresent, IsUse, part_of_frame, part_of_page};
ghost use Rattle.eleos_core.specs.Cells.{subs_per_page};
ghost use Rattle.eleos_core.specs.Fills.{IsFree, absent_page, fill_stamp, sealed_places};
ghost use Rattle.eleos_core.specs.Legal.{judged, passed};
ghost use Rattle.eleos_core.specs.Parts.{part_after, passes_in, subs_in, the_frame, the_page};
ghost use Rattle.eleos_core.specs.Seals.{seals_by};
ghost use Rattle.eleos_core.specs.Texts.{IsFilled, IsSpoiledAt};
ghost use Rattle.eleos_host.specs.declared.slot.TheConstants.{SLOTS};
ghost use Rattle.eleos_host.specs.Taps.{IsAsItCame, failed_block};
ghost use Rattle.eleos_pages.specs.Crossed.{Crosses, HasCome, blocks_below, each_at};
ghost use Rattle.eleos_base.specs.Lists.{last_of};

use crate::sealing::open_sub;
use eleos_base::{Reply, SUBS_PER_PAGE, Sealer};
use eleos_core::{Frame, Page, Present, SubPage, TEXT_BYTES, Use, block_count, clear, lend};
use eleos_host::{HostPort, Tap};

/// What came for a page that is put into a frame.
#[derive(Clone, Copy, Debug, PartialEq, Eq)]
pub struct Came {
    /// How many blocks came, each into a slot of its own from the first on.
    pub blocks: usize,
    /// The place whose block did not pass: that of the last that came.
    pub spoiled: Option<u32>,
}

/// Opens the sub-pages of an absent page one after another into zero bytes. The block of each
/// sealed one
/// comes into the next slot. It stops at the first that does not pass, which the tap names, and
/// then the
/// bytes are zero again.
pub fn fill_bytes<S: Sealer, P: HostPort>(
    sealer: &S,
    tap: &mut Tap<P>,
    subs: &[SubPage],
    page: u32,
    bytes: &mut [u8],
) -> Came
    requires whole { length subs.now ≡ subs_per_page }
    requires page { page * subs_per_page + subs_per_page < 2 ^ 32 }
    requires zero { bytes.old ≡ zeros page_bytes }
    requires room { length bytes.old ≡ page_bytes }
    requires ready { HasCome 0 tap.old }
    ensures filled { IfNone result.spoiled
        ((k : Plan) → IsFilled k (seals_by (S.key sealer.now)) page
        (absent_page subs.now) (blocks_below result.blocks tap.new) bytes.new) }
    ensures spoiled { IfSome result.spoiled (λ place. (k : Plan)
        → IsSpoiledAt k (seals_by (S.key sealer.now)) page
        (absent_page subs.now) (blocks_below result.blocks tap.new) place) }
    ensures cleared { IfSome result.spoiled (λ _. bytes.new ≡ zeros page_bytes) }
    ensures crossed { Crosses P.HostPort.own P.HostStore.own tap.old tap.new
        (each_at (sealed_places page (absent_page subs.now)) (blocks_below result.blocks tap.new))
        [] }
    ensures few { result.blocks ≤ SLOTS }
    ensures slots { (slot : ℕ) → slot < result.blocks → IsAsItCame tap.new slot }
    ensures failed { failed_block tap.new ≡ (if is_some result.spoiled
        then last_of (blocks_below result.blocks tap.new) else None) }
{
    let mut blocks = 0;
    for i in 0..subs.len() {
        let place = page * SUBS_PER_PAGE + i as u32;
        let from = i * TEXT_BYTES;
        let text = &mut bytes[from..from + TEXT_BYTES];
        if !open_sub(sealer, tap, &subs[i], place, blocks, text) {
            clear(bytes);
            return Came {
                blocks: blocks + 1,
                spoiled: Some(place),
            };
        }
        blocks += block_count(&subs[i]);
    }
    Came {
        blocks,
        spoiled: None,
    }
}

/// Puts an absent page into a free frame, which are those with these numbers.
/// Where a block does not pass, both are as they were.
pub fn fill_page<S: Sealer, P: HostPort>(
    sealer: &S,
    tap: &mut Tap<P>,
    page: &mut Page,
    page_number: u32,
    frame: &mut Frame,
    frame_number: u32,
) -> Came
    requires whole { length page.old.subs.items ≡ subs_per_page }
    requires absent { page.old.present ≡ None }
    requires free { IsFree frame.old.used }
    requires number { page_number * subs_per_page + subs_per_page < 2 ^ 32 }
    requires ready { HasCome 0 tap.old }
    ensures page { IfNone result.spoiled ((k : Plan) (who : ℕ) → part_of_page page.new
        ≡ part_after k (seals_by (S.key sealer.now)) (fill_stamp who page_number frame_number
        (blocks_below result.blocks tap.new) Reply.Done) (the_page page_number)
        (part_of_page page.old)) }
    ensures frame { IfNone result.spoiled ((k : Plan) (who : ℕ) → part_of_frame frame.new
        ≡ part_after k (seals_by (S.key sealer.now)) (fill_stamp who page_number frame_number
        (blocks_below result.blocks tap.new) Reply.Done) (the_frame frame_number)
        (part_of_frame frame.old)) }
    ensures judged { IfNone result.spoiled ((k : Plan) → judged
        (passes_in k (seals_by (S.key sealer.now)) (subs_in (part_of_page page.old)))
        (sealed_places page_number (part_of_page page.old)) (blocks_below result.blocks tap.new)
        ≡ passed) }
    ensures spoiled { IfSome result.spoiled (λ place. (k : Plan)
        → IsSpoiledAt k (seals_by (S.key sealer.now)) page_number (part_of_page page.old)
        (blocks_below result.blocks tap.new) place) }
    ensures subs { page.new.subs ≡ page.old.subs }
    ensures page_kept { IfSome result.spoiled (λ _. page.new ≡ page.old) }
    ensures frame_kept { IfSome result.spoiled (λ _.
        part_of_frame frame.new ≡ part_of_frame frame.old) }
    ensures zero { IfSome result.spoiled (λ _. IsFree frame.new.used) }
    ensures crossed { Crosses P.HostPort.own P.HostStore.own tap.old tap.new
        (each_at (sealed_places page_number (part_of_page page.old))
        (blocks_below result.blocks tap.new)) [] }
    ensures few { result.blocks ≤ SLOTS }
    ensures slots { (slot : ℕ) → slot < result.blocks → IsAsItCame tap.new slot }
    ensures failed { failed_block tap.new ≡ (if is_some result.spoiled
        then last_of (blocks_below result.blocks tap.new) else None) }
    ensures present { IsPresent (frame_number + 1) page.new.present }
    ensures used { IsUse (page_number + 1) frame.new.used }
{
    let mut bytes = lend(frame, page_number);
    let came = fill_bytes(sealer, tap, &page.subs, page_number, &mut bytes);
    match came.spoiled {
        None => {
            page.present = Some(Present {
                frame: frame_number,
                bytes,
            });
            came
        }
        Some(_) => {
            frame.used = Use::Free { bytes };
            came
        }
    }
}
