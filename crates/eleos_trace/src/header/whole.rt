// The whole header, line by line.
ghost use Rattle.std.specs.Prelude.{◌≡◌, ◌≤◌, ◌<◌, List, ℕ, map, length, IfOk};
ghost use Rattle.std.specs.List.{slice_split};
ghost use Rattle.eleos_base.specs.Plans.{IsGood};
ghost use Rattle.eleos_texts.specs.Fields.{is_newline};
ghost use Rattle.eleos_trace.specs.Blocks.{AreGoodBlocks};
ghost use Rattle.eleos_trace.specs.WholeHeader.{next_words, machine_of, machine_lines, header_of};
ghost use Rattle.eleos_trace.specs.WholeHeader.{IsGoodHeader, header_lines};
ghost use Rattle.eleos_texts.specs.Reasons.{Gives};

use super::Header;
use super::blocks::blocks_of;
use super::homes::{callers_of, enclaves_of};
use super::lines::{spare_line, title_line, wear_line};
use crate::Kind;
use eleos_base::{List, Plan};
use eleos_texts::heads::{key_line, start_line};
use eleos_texts::splits::{first_line, words_of};
use eleos_texts::{TraceRefused, Why, at_line};
use std::alloc::Global;

/// The words of the next line, which has this number, and the text behind it.
pub(crate) fn next_words<'a>(
    alloc: Global,
    line: u32,
    text: &'a [u8],
) -> Result<(Vec<&'a [u8]>, &'a [u8]), TraceRefused>
    ensures given { Gives
        (λ x. (map (λ word. word.now) x.0.items, slice_split is_newline x.1.now)) result
        (next_words line (slice_split is_newline text.now)) }
    ensures shorter { IfOk result (λ x. length x.1.now < length text.now) }
{
    let Some((front, rest)) = first_line(text) else {
        return Err(TraceRefused::Bad {
            line,
            why: Why::Cut,
        });
    };
    Ok((words_of(alloc, front)?, rest))
}

/// The machine of a text of this kind without its blocks, and the text behind the lines that say
/// it.
#[tactic(auto, unfolding(crate::specs::WholeHeader::machine_of))]
fn machine_of(alloc: Global, kind: Kind, text: &[u8]) -> Result<(Plan, &[u8]), TraceRefused>
    ensures given { Gives (λ x. (x.0, slice_split is_newline x.1.now)) result
        (machine_of kind (slice_split is_newline text.now)) }
    ensures good { IfOk result (λ x. IsGood x.0) }
    ensures shorter { IfOk result (λ x. length x.1.now ≤ length text.now) }
{
    let (words, text) = next_words(alloc, 1, text)?;
    at_line(1, title_line(kind, &words))?;
    let (enclaves, text) = enclaves_of(alloc, 2, text)?;
    let line = enclaves.len() as u32;
    let (words, text) = next_words(alloc, line + 2, text)?;
    let spare = at_line(line + 2, spare_line(&enclaves, &words))?;
    let (callers, text) = callers_of(alloc, &enclaves, line + 3, text)?;
    let line = line + callers.len() as u32 + 3;
    let (words, text) = next_words(alloc, line, text)?;
    let wear = at_line(line, wear_line(&words))?;
    let plan = Plan {
        enclaves: List::of(enclaves),
        spare,
        callers: List::of(callers),
        wear,
        blocks: List::of(Vec::new(alloc)),
    };
    Ok((plan, text))
}

/// The lines up to those of enclaves and callers, and up to the wear.
pub(crate) fn machine_lines(plan: &Plan) -> u32
    requires { IsGood plan.now }
    ensures { result ≡ machine_lines plan.now }
{
    plan.enclaves.len() as u32 + plan.callers.len() as u32 + 3
}

/// The header of a text of this kind, and the text behind it.
#[tactic(auto, unfolding(crate::specs::WholeHeader::header_of))]
pub(crate) fn header_of(
    alloc: Global,
    kind: Kind,
    text: &[u8],
) -> Result<(Header, &[u8]), TraceRefused>
    ensures given { Gives (λ x. (x.0, slice_split is_newline x.1.now)) result
        (header_of kind (slice_split is_newline text.now)) }
    ensures kind { IfOk result (λ x. x.0.kind ≡ kind) }
    ensures good { IfOk result (λ x. IsGoodHeader x.0) }
    ensures shorter { IfOk result (λ x. length x.1.now ≤ length text.now) }
{
    let (plan, text) = machine_of(alloc, kind, text)?;
    let line = machine_lines(&plan);
    let (words, text) = next_words(alloc, line + 1, text)?;
    let key = at_line(line + 1, key_line(alloc, &words))?;
    let (blocks, text) = blocks_of(alloc, &plan, line + 2, text)?;
    let line = line + blocks.len() as u32 + 2;
    let (words, text) = next_words(alloc, line, text)?;
    at_line(line, start_line(&words))?;
    let blocks = List::of(blocks);
    Ok((
        Header {
            kind,
            plan,
            key,
            blocks,
        },
        text,
    ))
}

/// The lines of a header.
pub(crate) fn header_lines(header: &Header) -> u32
    requires { IsGoodHeader header.now }
    ensures { result ≡ header_lines header.now }
{
    machine_lines(&header.plan) + header.blocks.len() as u32 + 2
}
