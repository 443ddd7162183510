// A trace from its bytes.
ghost use Rattle.std.specs.Prelude.{◌≡◌, ◌≤◌, ◌+◌, length, map, IfOk};
ghost use Rattle.std.specs.List.{slice_split};
ghost use Rattle.eleos_texts.specs.Fields.{is_newline};
ghost use Rattle.eleos_trace.specs.WholeHeader.{header_lines, plan_of, IsGoodHeader};
ghost use Rattle.eleos_texts.specs.Reasons.{Gives};
ghost use Rattle.eleos_trace.specs.Reading.{trace_of, prefix_of, lines_of, commands_of, line_count};
ghost use Rattle.eleos_texts.specs.Texts.{most_text};
ghost use Rattle.eleos_trace.specs.Reading.{trace_with};
ghost use Rattle.eleos_trace.specs.declared.trace.Kind.{Kind};
ghost use Rattle.eleos_trace.specs.Kinds.{AreGiven, IsTrace};
ghost use Rattle.eleos_trace.specs.Seen.{nothing_seen};

use crate::header::{Header, NamedBlock, header_lines, header_of, machine_lines};
use crate::lines::line_of;
use crate::seen::Seen;
use crate::{Kind, Line, Trace};
use eleos_base::{BlockPlan, Bytes, List};
use eleos_texts::splits::{first_line, words_of};
use eleos_texts::{MOST_TEXT, TraceRefused, Why, at_line, is_end, nothing_after};
use std::alloc::{AllocError, Global};

/// The trace of this kind that a text is, or its first bad line.
#[tactic(auto, unfolding(crate::specs::Reading::trace_of))]
pub fn parse(alloc: Global, kind: Kind, bytes: &[u8]) -> Result<Trace, TraceRefused>
    ensures exact { Gives (λ trace. trace) result (trace_of kind bytes.now) }
    ensures good { IfOk result (λ trace. IsTrace kind trace) }
{
    let (trace, after) = parse_prefix(alloc, kind, bytes)?;
    nothing_after(line_count(&trace) + 1, after)?;
    Ok(trace)
}

/// The trace of this kind that a text begins with, and what stands behind its `end` line; or its
/// first bad line. The text as a whole is no longer than a trace may be.
#[tactic(auto, unfolding(crate::specs::Reading::prefix_of))]
pub fn parse_prefix(alloc: Global, kind: Kind, bytes: &[u8]) -> Result<(Trace, &[u8]), TraceRefused>
    ensures exact { Gives (λ x. (x.0, slice_split is_newline x.1.now)) result
        (prefix_of kind bytes.now) }
    ensures good { IfOk result (λ x. IsTrace kind x.0) }
{
    if bytes.len() > MOST_TEXT as usize {
        return Err(TraceRefused::Bad {
            line: 0,
            why: Why::TooLarge,
        });
    }
    prefix_in(alloc, kind, bytes)
}

#[tactic(auto, unfolding(crate::specs::Reading::lines_of))]
fn prefix_in(alloc: Global, kind: Kind, text: &[u8]) -> Result<(Trace, &[u8]), TraceRefused>
    requires { length text.now ≤ most_text }
    ensures given { Gives (λ x. (x.0, slice_split is_newline x.1.now)) result
        (lines_of kind (slice_split is_newline text.now)) }
    ensures good { IfOk result (λ x. IsTrace kind x.0) }
{
    let (header, text) = header_of(alloc, kind, text)?;
    let (lines, after) = commands_of(alloc, &header, text)?;
    Ok((trace_with(alloc, header, lines)?, after))
}

/// The lines of the text of a trace, up to its `end` line.
pub fn line_count(trace: &Trace) -> u32
    requires { (kind : Kind) × IsTrace kind trace.now }
    ensures { result ≡ line_count trace.now }
{
    machine_lines(&trace.plan) + trace.plan.blocks.len() as u32 + trace.lines.len() as u32 + 3
}

/// The trace with this header and these commands.
fn trace_with(alloc: Global, header: Header, lines: Vec<Line>) -> Result<Trace, AllocError>
    ensures { IfOk result (λ trace. trace ≡ trace_with header lines.items) }
{
    let Header {
        kind,
        plan,
        key,
        blocks,
    } = header;
    let mut plan = plan;
    let (names, blocks) = parted(alloc, blocks.into_vec())?;
    plan.blocks = List::of(blocks);
    Ok(Trace {
        kind,
        plan,
        key,
        names: List::of(names),
        lines: List::of(lines),
    })
}

/// The names of header blocks, and the blocks, both in their order.
fn parted(alloc: Global, all: Vec<NamedBlock>) -> Result<(Vec<Bytes>, Vec<BlockPlan>), AllocError>
    ensures names { IfOk result (λ x. x.0.items ≡ map (λ named. named.name) all.items) }
    ensures blocks { IfOk result (λ x. x.1.items ≡ map (λ named. named.block) all.items) }
{
    let mut names = Vec::new(alloc);
    let mut blocks = Vec::new(alloc);
    for named in all {
        let NamedBlock { name, block } = named;
        names.push(name)?;
        blocks.push(block)?;
    }
    Ok((names, blocks))
}

/// The commands behind a header, up to the `end` line, and the text behind that.
fn commands_of<'a>(
    alloc: Global,
    header: &Header,
    text: &'a [u8],
) -> Result<(Vec<Line>, &'a [u8]), TraceRefused>
    requires good { IsGoodHeader header.now }
    requires few { length text.now ≤ most_text }
    ensures given { Gives (λ x. (x.0.items, slice_split is_newline x.1.now)) result
        (commands_of header.now (header_lines header.now + 1) (nothing_seen header.now)
        (slice_split is_newline text.now)) }
    ensures good { IfOk result
        (λ x. AreGiven header.now.kind (plan_of header.now) x.0.items) }
{
    let mut seen = Seen::nothing(alloc, header)?;
    let mut lines = Vec::new(alloc);
    let mut rest = text;
    let mut line = header_lines(header) + 1;
    while let Some((front, after)) = first_line(rest) {
        if is_end(front) {
            return Ok((lines, after));
        }
        let words = words_of(alloc, front)?;
        let command = at_line(line, line_of(alloc, header, &seen, &words))?;
        seen.add(alloc, &command)?;
        lines.push(command)?;
        rest = after;
        line += 1;
    }
    Err(TraceRefused::Bad {
        line,
        why: Why::Cut,
    })
}
