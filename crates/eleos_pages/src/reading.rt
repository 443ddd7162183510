// Reads within one sub-page, on the cell of its page, with the tap as the way to its block.
ghost use Rattle.std.specs.Prelude.{◌≡◌, [], length, OnErr};
ghost use Rattle.eleos_base.specs.Places.{all_frames, sub_of};
ghost use Rattle.eleos_base.specs.Plans.{IsCaller, IsGood};
ghost use Rattle.eleos_core.specs.Accesses.{IsAccess, ReadsOn};
ghost use Rattle.eleos_core.specs.Cells.{IsPage, part_of_page};
ghost use Rattle.eleos_base.specs.Answers.{read_reply};
ghost use Rattle.eleos_core.specs.Seals.{seals_by};
ghost use Rattle.eleos_host.specs.Taps.{failed_block};
ghost use Rattle.eleos_pages.specs.Crossed.{Crosses, IsReady, at_place, came, came_if, spoiled_by};

use crate::access::{Accessed, COME, fetch_for};
use eleos_base::{Addr, Plan, Sealer};
use eleos_core::{Page, read_absent, read_present, spot_of, use_refusal};
use eleos_host::{HostPort, Tap};

/// Reads within one sub-page of the page into the buffer, which a refusal leaves as it was.
/// A sub-page of an absent page is opened beside it, and the page stays absent.
pub fn read_page<S: Sealer, P: HostPort>(
    plan: &Plan,
    sealer: &S,
    tap: &mut Tap<P>,
    page: &Page,
    who: u32,
    at: Addr,
    buf: &mut [u8],
) -> Accessed
    requires good { IsGood plan.now }
    requires caller { IsCaller plan.now who }
    requires page { IsPage plan.now.wear (all_frames plan.now) page.now }
    requires range { IsAccess plan.now who at (length buf.old) }
    requires ready { IsReady tap.old }
    ensures reads { ReadsOn plan.now (seals_by (S.key sealer.now)) who at (length buf.old)
        (came tap.new) (part_of_page page.now) (read_reply result.answer buf.new) }
    ensures crossed { Crosses P.HostPort.own P.HostStore.own tap.old tap.new
        (at_place (sub_of plan.now at) (came tap.new)) [] }
    ensures block { came tap.new ≡ came_if result.has_block tap.new }
    ensures failed { failed_block tap.new
        ≡ spoiled_by (read_reply result.answer buf.new) (came tap.new) }
    ensures refused { OnErr result.answer (buf.new ≡ buf.old) }
{
    if page.present.is_some() {
        return Accessed {
            answer: read_present(plan, page, who, at, buf),
            has_block: false,
        };
    }
    let spot = spot_of(plan, at);
    let sub = &page.subs[spot.index];
    if let Some(refused) = use_refusal(who, sub.block) {
        return Accessed {
            answer: Err(refused),
            has_block: false,
        };
    }
    let has_block = fetch_for(tap, sub, spot.place, COME);
    match read_absent(plan, sealer, page, who, at, tap.block(COME), buf) {
        Ok(()) => Accessed {
            answer: Ok(()),
            has_block,
        },
        Err(refused) => {
            tap.fail(COME);
            Accessed {
                answer: Err(refused),
                has_block,
            }
        }
    }
}
