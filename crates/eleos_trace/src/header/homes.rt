// The lines of enclaves and of callers.
ghost use Rattle.std.specs.Prelude.{◌≡◌, ◌≤◌, ◌<◌, List, ℕ, map, length, IfOk};
ghost use Rattle.std.specs.List.{slice_split};
ghost use Rattle.eleos_texts.specs.Fields.{is_newline};
ghost use Rattle.eleos_trace.specs.Homes.{enclave_line, caller_line};
ghost use Rattle.eleos_trace.specs.Homes.{AreGoodEnclaves, AreGoodCallers};
ghost use Rattle.eleos_trace.specs.WholeHeader.{enclaves_of, callers_of};
ghost use Rattle.eleos_texts.specs.Reasons.{Gives, Reads};

use super::lines::is_one_of;
use super::whole::next_words;
use crate::machines::{enclave_in, frames_of, pages_of};
use eleos_base::{
    EnclavePlan, MOST_CALLERS, MOST_ENCLAVES, MOST_FRAMES, MOST_PAGES, MOST_PAGES_IN_ALL,
};
use eleos_texts::counts::{four, six};
use eleos_texts::fields::{is_number, is_numeral, number_up_to};
use eleos_texts::{LineRefused, TraceRefused, Why, at_line, refused};
use std::alloc::Global;

/// `enclave E pages P frames F`, where E counts the enclaves before it.
fn enclave_line(before: &[EnclavePlan], words: &[&[u8]]) -> Result<EnclavePlan, LineRefused>
    requires { AreGoodEnclaves before.now }
    ensures { Reads (λ x. x) result (enclave_line before.now (map (λ word. word.now) words.now)) }
{
    let (first, which, second, pages, third, frames) = six(words)?;
    if first != b"enclave".as_slice()
        || !is_number(which, before.len() as u32)
        || second != b"pages".as_slice()
        || !is_numeral(pages)
        || third != b"frames".as_slice()
        || !is_numeral(frames)
    {
        return refused(Why::Form);
    }
    if before.len() >= MOST_ENCLAVES as usize {
        return refused(Why::Range);
    }
    let (Some(pages), Some(frames)) = (
        number_up_to(pages, u64::from(MOST_PAGES)),
        number_up_to(frames, u64::from(MOST_FRAMES)),
    ) else {
        return refused(Why::Range);
    };
    if pages == 0 || u64::from(pages_of(before)) + pages > u64::from(MOST_PAGES_IN_ALL) {
        return refused(Why::Range);
    }
    if u64::from(frames_of(before)) + frames > u64::from(MOST_FRAMES) {
        return refused(Why::Range);
    }
    Ok(EnclavePlan {
        pages: pages as u32,
        frames: frames as u32,
    })
}

/// The enclaves of the lines from this one on, and the text behind them.
pub(crate) fn enclaves_of(
    alloc: Global,
    first: u32,
    text: &[u8],
) -> Result<(Vec<EnclavePlan>, &[u8]), TraceRefused>
    requires { first ≤ 1000 }
    ensures given { Gives (λ x. (x.0.items, slice_split is_newline x.1.now)) result
        (enclaves_of first (slice_split is_newline text.now)) }
    ensures good { IfOk result (λ x. AreGoodEnclaves x.0.items) }
    ensures some { IfOk result (λ x. 1 ≤ length x.0.items) }
    ensures shorter { IfOk result (λ x. length x.1.now ≤ length text.now) }
{
    let mut enclaves = Vec::new(alloc);
    let mut rest = text;
    let mut line = first;
    loop {
        let (words, after) = next_words(alloc, line, rest)?;
        if !is_one_of(b"enclave", &enclaves, &words) {
            return Ok((enclaves, rest));
        }
        let enclave = at_line(line, enclave_line(&enclaves, &words))?;
        enclaves.push(enclave)?;
        rest = after;
        line += 1;
    }
}

/// `caller C enclave E`, where C is one more than the callers before it.
fn caller_line(
    enclaves: &[EnclavePlan],
    before: &[u16],
    words: &[&[u8]],
) -> Result<u16, LineRefused>
    requires enclaves { length enclaves.now ≤ 8 }
    requires few { length before.now ≤ 8 }
    ensures { Reads (λ x. x) result
        (caller_line enclaves.now before.now (map (λ word. word.now) words.now)) }
{
    let (first, which, second, enclave) = four(words)?;
    if first != b"caller".as_slice()
        || !is_number(which, before.len() as u32 + 1)
        || second != b"enclave".as_slice()
        || !is_numeral(enclave)
    {
        return refused(Why::Form);
    }
    if before.len() >= MOST_CALLERS as usize {
        return refused(Why::Range);
    }
    let Some(enclave) = enclave_in(enclaves, enclave) else {
        return refused(Why::Enclave);
    };
    Ok(enclave)
}

/// The callers of the lines from this one on, and the text behind them.
pub(crate) fn callers_of<'a>(
    alloc: Global,
    enclaves: &[EnclavePlan],
    first: u32,
    text: &'a [u8],
) -> Result<(Vec<u16>, &'a [u8]), TraceRefused>
    requires enclaves { length enclaves.now ≤ 8 }
    requires early { first ≤ 1000 }
    ensures given { Gives (λ x. (x.0.items, slice_split is_newline x.1.now)) result
        (callers_of enclaves.now first (slice_split is_newline text.now)) }
    ensures good { IfOk result (λ x. AreGoodCallers enclaves.now x.0.items) }
    ensures some { IfOk result (λ x. 1 ≤ length x.0.items) }
    ensures shorter { IfOk result (λ x. length x.1.now ≤ length text.now) }
{
    let mut callers = Vec::new(alloc);
    let mut rest = text;
    let mut line = first;
    loop {
        let (words, after) = next_words(alloc, line, rest)?;
        if !is_one_of(b"caller", &callers, &words) {
            return Ok((callers, rest));
        }
        let caller = at_line(line, caller_line(enclaves, &callers, &words))?;
        callers.push(caller)?;
        rest = after;
        line += 1;
    }
}
