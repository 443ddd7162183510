// Reads within one sub-page, on the cell of its page, into a lent buffer.
ghost use Rattle.std.specs.Prelude.{◌≡◌, ◌+◌, ◌*◌, ◌≤◌, ◌<◌, [], length, take, drop, IsSome, IfErr};
ghost use Rattle.std.specs.Prelude.{IsTrue, OnErr, None};
ghost use Rattle.eleos_core.specs.Words.{IsAccess, IsCaller, IsGood, IsPage, ReadsOn, Seals};
ghost use Rattle.eleos_core.specs.Words.{all_frames, came_for, part_of_page, piece, read_reply};
ghost use Rattle.eleos_core.specs.Words.{refusal_for, seals_by, sub_for, sub_of, sub_size};

use crate::texts::{TEXT_BYTES, open_text, piece_of};
use crate::{Page, spot_of, use_refusal};
use eleos_base::{AccessRefused, Addr, Plan, Sealer};

/// Reads within one sub-page of a page in a frame into the buffer.
/// A refusal leaves the buffer as it was.
pub fn read_present(
    plan: &Plan,
    page: &Page,
    who: u32,
    at: Addr,
    buf: &mut [u8],
) -> Result<(), AccessRefused>
    requires good { IsGood plan.now }
    requires caller { IsCaller plan.now who }
    requires page { IsPage plan.now.wear (all_frames plan.now) page.now }
    requires present { IsSome page.now.present }
    requires range { IsAccess plan.now who at (length buf.old) }
    ensures reads { (x : Seals) → ReadsOn plan.now x who at (length buf.old) []
        (part_of_page page.now) (read_reply result buf.new) }
    ensures refused { OnErr result (buf.new ≡ buf.old) }
{
    let spot = spot_of(plan, at);
    if let Some(refused) = use_refusal(who, page.subs[spot.index].block) {
        return Err(refused);
    }
    let Some(present) = &page.present else {
        unreachable!()
    };
    copy_from(buf, piece_of(&present.bytes, spot.index), spot.from);
    Ok(())
}

/// Reads within one sub-page of an absent page, which the caller may use, into the buffer.
/// The block that came for it is opened beside the page, which stays absent. Where it does not pass
/// the read is refused, and the buffer stays as it was. A blank sub-page's block is not looked at.
pub fn read_absent<S: Sealer>(
    plan: &Plan,
    sealer: &S,
    page: &Page,
    who: u32,
    at: Addr,
    block: &[u8],
    buf: &mut [u8],
) -> Result<(), AccessRefused>
    requires good { IsGood plan.now }
    requires caller { IsCaller plan.now who }
    requires page { IsPage plan.now.wear (all_frames plan.now) page.now }
    requires absent { page.now.present ≡ None }
    requires accepted { refusal_for plan.now who at (length buf.old) (part_of_page page.now)
        ≡ None }
    requires block { IsTrue (sub_for plan.now at (part_of_page page.now)).is_sealed
        → length block.now ≡ sub_size }
    ensures reads { ReadsOn plan.now (seals_by (S.key sealer.now)) who at (length buf.old)
        (came_for (sub_for plan.now at (part_of_page page.now)) block.now)
        (part_of_page page.now) (read_reply result buf.new) }
    ensures refused { OnErr result (buf.new ≡ buf.old) }
    ensures tampered { IfErr result (λ refused.
        refused ≡ AccessRefused.Tampered (sub_of plan.now at)) }
    ensures spoiled { OnErr result
        (IsTrue (sub_for plan.now at (part_of_page page.now)).is_sealed) }
{
    let spot = spot_of(plan, at);
    let mut text = [0; TEXT_BYTES];
    if !open_text(sealer, &page.subs[spot.index], spot.place, block, &mut text) {
        return Err(AccessRefused::Tampered { sub: spot.place });
    }
    copy_from(buf, &text, spot.from);
    Ok(())
}

/// Fills the buffer with the bytes of a text from a place on.
fn copy_from(buf: &mut [u8], text: &[u8], from: usize)
    requires { from + length buf.old ≤ length text.now }
    ensures { buf.new ≡ take (length buf.old) (drop from text.now) }
{
    buf.copy_from_slice(&text[from..from + buf.len()]);
}
