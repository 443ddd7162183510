// The lines of header blocks.
ghost use Rattle.std.specs.Prelude.{◌≡◌, ◌≤◌, ◌<◌, List, ℕ, IsTrue, map, length, IfOk};
ghost use Rattle.std.specs.List.{slice_split};
ghost use Rattle.eleos_base.specs.Plans.{IsGood};
ghost use Rattle.eleos_texts.specs.Fields.{is_newline, is_numeral, number};
ghost use Rattle.eleos_trace.specs.Blocks.{has_name, owner_in, block_line, AreGoodBlocks};
ghost use Rattle.eleos_trace.specs.WholeHeader.{blocks_of};
ghost use Rattle.eleos_texts.specs.Reasons.{Gives, Reads};

use super::NamedBlock;
use super::lines::begins;
use super::rooms::has_space;
use super::whole::next_words;
use crate::machines::{enclave_in, enclave_of};
use eleos_base::{BlockPlan, Bytes, MOST_BLOCK_BYTES, MOST_HEADER_BLOCKS, Plan};
use eleos_texts::counts::eight;
use eleos_texts::fields::{is_name, is_number, is_numeral, number_up_to};
use eleos_texts::{LineRefused, TraceRefused, Why, at_line, refused};
use std::alloc::Global;

/// `block NAME enclave E bytes N owner C`, behind the blocks before it.
fn block_line(
    alloc: Global,
    plan: &Plan,
    before: &[NamedBlock],
    words: &[&[u8]],
) -> Result<NamedBlock, LineRefused>
    requires good { IsGood plan.now }
    requires before { AreGoodBlocks plan.now before.now }
    ensures { Reads (λ x. x) result
        (block_line plan.now before.now (map (λ word. word.now) words.now)) }
{
    let (first, name, second, enclave, third, bytes, fourth, owner) = eight(words)?;
    if first != b"block".as_slice()
        || !is_name(name)
        || second != b"enclave".as_slice()
        || !is_numeral(enclave)
    {
        return refused(Why::Form);
    }
    if third != b"bytes".as_slice()
        || !is_numeral(bytes)
        || fourth != b"owner".as_slice()
        || !is_numeral(owner)
    {
        return refused(Why::Form);
    }
    if before.len() >= MOST_HEADER_BLOCKS as usize {
        return refused(Why::Range);
    }
    if is_taken(before, enclave, name) {
        return refused(Why::Name);
    }
    let Some(enclave) = enclave_in(plan.enclaves.as_slice(), enclave) else {
        return refused(Why::Enclave);
    };
    let Some(bytes) = number_up_to(bytes, u64::from(MOST_BLOCK_BYTES)) else {
        return refused(Why::BadSize);
    };
    let bytes = bytes as u32;
    if bytes == 0 {
        return refused(Why::BadSize);
    }
    if !has_space(plan, before, enclave, bytes) {
        return refused(Why::NoSpace);
    }
    let Some(owner) = owner_in(plan, enclave, owner) else {
        return refused(Why::Owner);
    };
    let name = Bytes::of(name.to_vec(alloc)?);
    Ok(NamedBlock {
        name,
        block: BlockPlan {
            enclave,
            bytes,
            owner,
        },
    })
}

/// Whether a block of the enclave that the numeral says has the name.
fn is_taken(blocks: &[NamedBlock], enclave: &[u8], name: &[u8]) -> bool
    requires { IsTrue (is_numeral enclave.now) }
    ensures { result ≡ has_name blocks.now (number enclave.now) name.now }
{
    blocks.iter().any(|named| {
        is_number(enclave, u32::from(named.block.enclave)) && named.name.as_slice() == name
    })
}

/// The owner that the numeral says, where it is nobody or a caller of the enclave.
fn owner_in(plan: &Plan, enclave: u16, text: &[u8]) -> Option<u32>
    requires good { IsGood plan.now }
    requires numeral { IsTrue (is_numeral text.now) }
    ensures { result ≡ owner_in plan.now enclave text.now }
{
    let owner = number_up_to(text, plan.callers.len() as u64)? as u32;
    if owner == 0 || enclave_of(plan, owner) == enclave {
        Some(owner)
    } else {
        None
    }
}

/// The header blocks of the lines from this one on, and the text behind them.
pub(crate) fn blocks_of<'a>(
    alloc: Global,
    plan: &Plan,
    first: u32,
    text: &'a [u8],
) -> Result<(Vec<NamedBlock>, &'a [u8]), TraceRefused>
    requires good { IsGood plan.now }
    requires early { first ≤ 1000 }
    ensures given { Gives (λ x. (x.0.items, slice_split is_newline x.1.now)) result
        (blocks_of plan.now first (slice_split is_newline text.now)) }
    ensures good { IfOk result (λ x. AreGoodBlocks plan.now x.0.items) }
    ensures shorter { IfOk result (λ x. length x.1.now ≤ length text.now) }
{
    let mut named = Vec::new(alloc);
    let mut rest = text;
    let mut line = first;
    loop {
        let (words, after) = next_words(alloc, line, rest)?;
        if !begins(b"block", &words) {
            return Ok((named, rest));
        }
        let block = at_line(line, block_line(alloc, plan, &named, &words))?;
        named.push(block)?;
        rest = after;
        line += 1;
    }
}
