// Why pointers are not linked.
ghost use Rattle.std.specs.Prelude.{◌≡◌, [], IfSome, option_map};
ghost use Rattle.eleos_base.specs.Plans.{IsCaller, IsGood};
ghost use Rattle.eleos_base.specs.Answers.{access_refusal_reply};
ghost use Rattle.eleos_base.specs.Places.{all_frames};
ghost use Rattle.eleos_core.specs.Accesses.{IsAccess};
ghost use Rattle.eleos_core.specs.Cells.{IsPage, part_of_page};
ghost use Rattle.eleos_core.specs.Parts.{block_at, refusal_in};
ghost use Rattle.eleos_plot.specs.Refs.{reply_bytes, reply_of};
ghost use Rattle.eleos_spointer.specs.Refused.{IsOfUse, IsPlain, refusal_reply};

use eleos_base::{AccessRefused, Addr, Plan};
use eleos_core::{Page, spot_of, use_refusal};
use eleos_plot::ReplyRef;

/// Why a pointer was not linked.
#[derive(Clone, Copy, Debug, PartialEq, Eq)]
pub enum LinkRefused {
    /// It stands in no live block.
    Unallocated,
    /// It stands in a private block of another.
    NotYours { owner: u32 },
    /// Each frame of the enclave was found taken. The pass's sweep has the words that show it.
    NoFrame,
    /// The block that came for this sub-page of its page was not the one last sealed there.
    Tampered { sub: u32 },
}

/// Why a pointer was not linked by a call that never waits.
#[derive(Clone, Copy, Debug, PartialEq, Eq)]
pub enum TryLinkRefused {
    /// Somebody had the turn of its page or of the enclave's clock cell: the word that the call
    /// found there.
    Busy { word: u64 },
    Link(LinkRefused),
}

/// The refusal as a reply.
pub(crate) fn refusal_reply<'a>(refused: LinkRefused) -> ReplyRef<'a>
    ensures reply { reply_of result ≡ refusal_reply refused }
    ensures bytes { reply_bytes result ≡ [] }
{
    match refused {
        LinkRefused::Unallocated => ReplyRef::Unallocated,
        LinkRefused::NotYours { owner } => ReplyRef::NotYours { owner },
        LinkRefused::NoFrame => ReplyRef::NoFrame,
        LinkRefused::Tampered { sub } => ReplyRef::Tampered { sub },
    }
}

/// Why plain memory refuses the caller a byte at the address, which lies on the page.
pub(crate) fn refusal_of(plan: &Plan, page: &Page, who: u32, at: Addr) -> Option<LinkRefused>
    requires good { IsGood plan.now }
    requires caller { IsCaller plan.now who }
    requires page { IsPage plan.now.wear (all_frames plan.now) page.now }
    requires range { IsAccess plan.now who at 1 }
    ensures refusal { option_map (λ refused. refusal_reply refused) result
        ≡ refusal_in plan.now who at 1 (block_at plan.now (part_of_page page.now) at) }
    ensures plain { IfSome result (λ refused. IsPlain refused) }
{
    let spot = spot_of(plan, at);
    match use_refusal(who, page.subs[spot.index].block) {
        Some(refused) => Some(link_refused(refused)),
        None => None,
    }
}

/// The refusal of a link where the use of its sub-page is refused.
fn link_refused(refused: AccessRefused) -> LinkRefused
    requires { IsOfUse refused }
    ensures reply { refusal_reply result ≡ access_refusal_reply refused }
    ensures plain { IsPlain result }
{
    match refused {
        AccessRefused::Unallocated => LinkRefused::Unallocated,
        AccessRefused::NotYours { owner } => LinkRefused::NotYours { owner },
        _ => unreachable!(),
    }
}
