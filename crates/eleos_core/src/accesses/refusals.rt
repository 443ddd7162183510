// Why an access is refused, and what the refusal is as a reply.
ghost use Rattle.std.specs.Prelude.{◌≡◌, ◌==◌, ◌&&◌, not, option_map};
ghost use Rattle.eleos_core.specs.Words.{access_refusal_reply, use_refusal, write_refusal};

use crate::cells::SubPage;
use eleos_base::{AccessRefused, Live, Plan, Reply};

/// Why the caller may not use a sub-page of this block.
pub fn use_refusal(who: u32, block: Option<Live>) -> Option<AccessRefused>
    ensures { option_map (λ refused. access_refusal_reply refused) result ≡ use_refusal who block }
{
    match block {
        None => Some(AccessRefused::Unallocated),
        Some(block) if block.is_shared || block.owner == who => None,
        Some(block) => Some(AccessRefused::NotYours { owner: block.owner }),
    }
}

/// Why the caller may not write to the sub-page of this place.
pub fn write_refusal(plan: &Plan, sub: &SubPage, who: u32, place: u32) -> Option<AccessRefused>
    ensures { option_map (λ refused. access_refusal_reply refused) result
        ≡ write_refusal plan.now who sub.now place }
{
    if let Some(refused) = use_refusal(who, sub.block) {
        return Some(refused);
    }
    if is_worn(sub, plan.wear) {
        return Some(AccessRefused::Worn { sub: place });
    }
    None
}

/// The sub-page is clean, and was sealed as often as it may be.
pub fn is_worn(sub: &SubPage, wear: u64) -> bool
    ensures { result ≡ not sub.now.is_dirty && sub.now.version == wear }
{
    !sub.is_dirty && sub.version == wear
}

/// The refusal as a reply.
pub fn refusal_reply(refused: AccessRefused) -> Reply
    ensures { result ≡ access_refusal_reply refused }
{
    match refused {
        AccessRefused::BadRange => Reply::BadRange,
        AccessRefused::Unallocated => Reply::Unallocated,
        AccessRefused::NotYours { owner } => Reply::NotYours { owner },
        AccessRefused::Worn { sub } => Reply::Worn { sub },
        AccessRefused::Tampered { sub } => Reply::Tampered { sub },
    }
}
