// Writes within one sub-page, on the cell of its page, with the tap as the way of its blocks.
ghost use Rattle.std.specs.Prelude.{◌≡◌, length};
ghost use Rattle.eleos_base.specs.Places.{all_frames, sub_of};
ghost use Rattle.eleos_base.specs.Plans.{IsCaller, IsGood};
ghost use Rattle.eleos_core.specs.Accesses.{IsAccess, WritesOn, sealed_by};
ghost use Rattle.eleos_core.specs.Cells.{IsPage, IsPresent, part_of_page};
ghost use Rattle.eleos_base.specs.Answers.{write_reply};
ghost use Rattle.eleos_core.specs.Seals.{seals_by};
ghost use Rattle.eleos_host.specs.Taps.{failed_block};
ghost use Rattle.eleos_pages.specs.Crossed.{Crosses, IsReady, at_place, came, came_if, spoiled_by};

use crate::access::{Accessed, COME, GONE, fetch_for};
use crate::sealing::hand_over;
use eleos_base::{Addr, Plan, Sealer};
use eleos_core::{Page, TEXT_BYTES, spot_of, write_absent, write_present, write_refusal};
use eleos_host::{HostPort, Tap};

/// Writes within one sub-page of the page. In a frame the sub-page is dirty then; that of an absent
/// page is sealed once more and handed to the host, and the page stays absent.
pub fn write_page<S: Sealer, P: HostPort>(
    plan: &Plan,
    sealer: &S,
    tap: &mut Tap<P>,
    page: &mut Page,
    who: u32,
    at: Addr,
    bytes: &[u8],
) -> Accessed
    requires good { IsGood plan.now }
    requires caller { IsCaller plan.now who }
    requires page { IsPage plan.now.wear (all_frames plan.now) page.old }
    requires range { IsAccess plan.now who at (length bytes.now) }
    requires ready { IsReady tap.old }
    ensures writes { WritesOn plan.now (seals_by (S.key sealer.now)) who at bytes.now
        (came tap.new) (part_of_page page.old) (write_reply result.answer) (part_of_page page.new) }
    ensures crossed { Crosses P.HostPort.own P.HostStore.own tap.old tap.new
        (at_place (sub_of plan.now at) (came tap.new))
        (sealed_by plan.now (seals_by (S.key sealer.now)) who at bytes.now (came tap.new)
        (part_of_page page.old) (write_reply result.answer)) }
    ensures block { came tap.new ≡ came_if result.has_block tap.new }
    ensures failed { failed_block tap.new ≡ spoiled_by (write_reply result.answer) (came tap.new) }
    ensures present { IsPresent (all_frames plan.now) page.new.present }
{
    if page.present.is_some() {
        return Accessed {
            answer: write_present(plan, page, who, at, bytes),
            has_block: false,
        };
    }
    let spot = spot_of(plan, at);
    let sub = &page.subs[spot.index];
    if let Some(refused) = write_refusal(plan, sub, who, spot.place) {
        return Accessed {
            answer: Err(refused),
            has_block: false,
        };
    }
    let has_block = fetch_for(tap, sub, spot.place, COME);
    let block = tap.block(COME);
    let mut text = [0; TEXT_BYTES];
    match write_absent(plan, sealer, page, who, at, bytes, block, &mut text) {
        Ok(()) => {
            hand_over(tap, spot.place, GONE, &text);
            Accessed {
                answer: Ok(()),
                has_block,
            }
        }
        Err(refused) => {
            tap.fail(COME);
            Accessed {
                answer: Err(refused),
                has_block,
            }
        }
    }
}
