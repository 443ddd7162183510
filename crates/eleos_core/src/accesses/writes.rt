// Writes within one sub-page, on the cell of its page.
ghost use Rattle.std.specs.Prelude.{◌≡◌, ◌+◌, ◌*◌, ◌≤◌, ◌<◌, ◌^◌, ◌∷◌, [], length, IsSome, IfErr};
ghost use Rattle.std.specs.Prelude.{IsTrue, OnErr, None, false, is_ok, if◌then◌else◌};
ghost use Rattle.eleos_core.specs.Words.{IsAccess, IsCaller, IsGood, IsPage, Seals, WritesOn};
ghost use Rattle.eleos_core.specs.Words.{all_frames, came_for, is_worn_in, part_of_page};
ghost use Rattle.eleos_core.specs.Words.{refusal_for, sealed_by, seals_by, sub_for, sub_of};
ghost use Rattle.eleos_core.specs.Words.{sub_size, write_reply};

use crate::texts::{TEXT_BYTES, put_at, reseal_text};
use crate::{Page, spot_of, write_refusal};
use eleos_base::{AccessRefused, Addr, Plan, Sealer};

/// Writes within one sub-page of a page in a frame. The sub-page is dirty then.
pub fn write_present(
    plan: &Plan,
    page: &mut Page,
    who: u32,
    at: Addr,
    bytes: &[u8],
) -> Result<(), AccessRefused>
    requires good { IsGood plan.now }
    requires caller { IsCaller plan.now who }
    requires page { IsPage plan.now.wear (all_frames plan.now) page.old }
    requires present { IsSome page.old.present }
    requires range { IsAccess plan.now who at (length bytes.now) }
    ensures writes { (x : Seals) → WritesOn plan.now x who at bytes.now []
        (part_of_page page.old) (write_reply result) (part_of_page page.new) }
    ensures sealed { (x : Seals) → sealed_by plan.now x who at bytes.now []
        (part_of_page page.old) (write_reply result) ≡ [] }
    ensures page { IsPage plan.now.wear (all_frames plan.now) page.new }
{
    let spot = spot_of(plan, at);
    if let Some(refused) = write_refusal(plan, &page.subs[spot.index], who, spot.place) {
        return Err(refused);
    }
    if let Some(present) = &mut page.present {
        put_at(
            &mut present.bytes,
            TEXT_BYTES * spot.index + spot.from,
            bytes,
        );
        page.subs[spot.index].is_dirty = true;
        return Ok(());
    }
    unreachable!()
}

/// Writes within one sub-page of an absent page, which the caller may use and which is not worn.
/// The block that came for it is opened beside the page, which stays absent, and what is written is
/// sealed: the text has the block for the host then. Where the block that came does not pass the
/// write is refused. The block of a blank sub-page is not looked at.
pub fn write_absent<S: Sealer>(
    plan: &Plan,
    sealer: &S,
    page: &mut Page,
    who: u32,
    at: Addr,
    bytes: &[u8],
    block: &[u8],
    text: &mut [u8],
) -> Result<(), AccessRefused>
    requires good { IsGood plan.now }
    requires caller { IsCaller plan.now who }
    requires page { IsPage plan.now.wear (all_frames plan.now) page.old }
    requires absent { page.old.present ≡ None }
    requires accepted { refusal_for plan.now who at (length bytes.now) (part_of_page page.old)
        ≡ None }
    requires fresh { is_worn_in plan.now (sub_for plan.now at (part_of_page page.old)) ≡ false }
    requires block { IsTrue (sub_for plan.now at (part_of_page page.old)).is_sealed
        → length block.now ≡ sub_size }
    requires size { length text.old ≡ sub_size }
    ensures writes { WritesOn plan.now (seals_by (S.key sealer.now)) who at bytes.now
        (came_for (sub_for plan.now at (part_of_page page.old)) block.now)
        (part_of_page page.old) (write_reply result) (part_of_page page.new) }
    ensures sealed { sealed_by plan.now (seals_by (S.key sealer.now)) who at bytes.now
        (came_for (sub_for plan.now at (part_of_page page.old)) block.now)
        (part_of_page page.old) (write_reply result)
        ≡ (if is_ok result then (sub_of plan.now at, text.new) ∷ [] else []) }
    ensures page { IsPage plan.now.wear (all_frames plan.now) page.new }
    ensures tampered { IfErr result (λ refused.
        refused ≡ AccessRefused.Tampered (sub_of plan.now at)) }
    ensures spoiled { OnErr result
        (IsTrue (sub_for plan.now at (part_of_page page.old)).is_sealed) }
{
    let spot = spot_of(plan, at);
    let mut sub = page.subs[spot.index];
    if !reseal_text(sealer, &mut sub, spot.place, spot.from, bytes, block, text) {
        return Err(AccessRefused::Tampered { sub: spot.place });
    }
    page.subs[spot.index] = sub;
    Ok(())
}
