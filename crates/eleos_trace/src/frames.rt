// Commands of the swapper and of the balloon on frames.
ghost use Rattle.std.specs.Prelude.{◌≡◌, ◌≤◌, List, ℕ, map, length};
ghost use Rattle.eleos_base.specs.Plans.{IsGood};
ghost use Rattle.eleos_trace.specs.Frames.{is_pool, is_move, is_frame_move, owner_in};
ghost use Rattle.eleos_trace.specs.Frames.{owners_of};
ghost use Rattle.eleos_trace.specs.Frames.{page_and_frame_of, move_of};
ghost use Rattle.eleos_texts.specs.Reasons.{Reads};

use crate::Word;
use crate::givers::Asked;
use crate::machines::{all_frames, all_pages, enclave_in};
use eleos_base::EnclavePlan;
use eleos_texts::counts::{three, two};
use eleos_texts::fields::{is_numeral, number_below};
use eleos_texts::{LineRefused, Why, refused};

/// The page and the frame, which are in the machine: `fill PAGE FRAME` and `evict PAGE FRAME`.
pub(crate) fn page_and_frame_of(asked: &Asked, args: &[&[u8]]) -> Result<(u32, u32), LineRefused>
    requires { IsGood asked.now.header.now.plan }
    ensures { Reads (λ x. x) result (page_and_frame_of asked.now.header.now asked.now.seen.now
        asked.now.actor asked.now.givers (map (λ arg. arg.now) args.now)) }
{
    let (page, frame) = two(args)?;
    asked.admit(is_numeral(page) && is_numeral(frame))?;
    let plan = &asked.header.plan;
    let (Some(page), Some(frame)) = (
        number_below(page, all_pages(plan)),
        number_below(frame, all_frames(plan)),
    ) else {
        return refused(Why::Range);
    };
    Ok((page, frame))
}

/// `move FRAME FROM TO`
pub(crate) fn move_of(asked: &Asked, args: &[&[u8]]) -> Result<Word, LineRefused>
    requires { IsGood asked.now.header.now.plan }
    ensures { Reads (λ x. x) result (move_of asked.now.header.now asked.now.seen.now
        asked.now.actor asked.now.givers (map (λ arg. arg.now) args.now)) }
{
    let (frame, from, to) = three(args)?;
    asked.admit(is_frame_move(frame, from, to))?;
    let plan = &asked.header.plan;
    let Some(frame) = number_below(frame, all_frames(plan)) else {
        return refused(Why::Range);
    };
    let (from, to) = owners_of(plan.enclaves.as_slice(), from, to)?;
    Ok(Word::Move { frame, from, to })
}

/// A dash stands for the pool.
fn is_pool(text: &[u8]) -> bool
    ensures { result ≡ is_pool text.now }
{
    text == b"-".as_slice()
}

/// Whether the first is a number, and the others the owners of a move.
fn is_frame_move(frame: &[u8], from: &[u8], to: &[u8]) -> bool
    ensures { result ≡ is_frame_move frame.now from.now to.now }
{
    is_numeral(frame) && is_move(from, to)
}

/// Whether one of both is the pool, and the other a number.
fn is_move(from: &[u8], to: &[u8]) -> bool
    ensures { result ≡ is_move from.now to.now }
{
    is_pool(from) && is_numeral(to) || is_numeral(from) && is_pool(to)
}

/// The owner before a move and the one behind it, where each is the pool or is declared.
#[tactic(auto, unfolding(crate::specs::Frames::owners_of))]
fn owners_of(
    enclaves: &[EnclavePlan],
    from: &[u8],
    to: &[u8],
) -> Result<(Option<u32>, Option<u32>), LineRefused>
    requires { length enclaves.now ≤ 8 }
    ensures { Reads (λ x. x) result (owners_of enclaves.now from.now to.now) }
{
    let Some(from) = owner_in(enclaves, from) else {
        return refused(Why::Enclave);
    };
    let Some(to) = owner_in(enclaves, to) else {
        return refused(Why::Enclave);
    };
    Ok((from, to))
}

/// The pool or an enclave, where it is declared.
fn owner_in(enclaves: &[EnclavePlan], text: &[u8]) -> Option<Option<u32>>
    requires { length enclaves.now ≤ 8 }
    ensures { result ≡ owner_in enclaves.now text.now }
{
    if is_pool(text) {
        return Some(None);
    }
    let enclave = enclave_in(enclaves, text)?;
    Some(Some(u32::from(enclave)))
}
