// The lines of a log from its bytes.
ghost use Rattle.std.specs.Prelude.{◌≡◌, ◌≤◌, ◌+◌, ◌^◌, ℕ, List, [], codes, length, map, IfOk};
ghost use Rattle.std.specs.List.{position, slice_split};
ghost use Rattle.std.specs.Str.{bytes_eq};
ghost use Rattle.eleos_texts.specs.Fields.{is_newline};
ghost use Rattle.eleos_texts.specs.Texts.{most_text};
ghost use Rattle.eleos_texts.specs.Reasons.{Gives, Reads};
ghost use Rattle.eleos_report.specs.Grammar.{IsLog};
ghost use Rattle.eleos_report.specs.Log.{is_last};
ghost use Rattle.eleos_report.specs.Reading.{end_of, is_equals, line_of, lines_of, log_of};
ghost use Rattle.eleos_report.specs.Reading.{parted, said_of};

use crate::LogLine;
use crate::commands::command_in;
use crate::fields::{long_number_of, stamp_of, who_of};
use crate::replies::answer_in;
use eleos_base::List;
use eleos_texts::counts::{one, one_and_more};
use eleos_texts::splits::{first_line, words_of};
use eleos_texts::{LineRefused, MOST_TEXT, TraceRefused, Why, at_line, nothing_after, refused};
use eleos_trace::Kind;
use std::alloc::Global;

/// The lines of the log of a trace of this kind, or its first bad line, where the first line has
/// this number.
#[tactic(auto, unfolding(crate::specs::Reading::log_of))]
pub fn read_log(
    alloc: Global,
    bytes: &[u8],
    first: u32,
    kind: Kind,
) -> Result<List<LogLine>, TraceRefused>
    requires { first ≤ 2 ^ 31 }
    ensures exact { Gives (λ lines. lines) result (log_of kind first bytes.now) }
    ensures good { IfOk result (λ lines. IsLog kind lines) }
{
    if bytes.len() > MOST_TEXT as usize {
        return Err(TraceRefused::Bad {
            line: 0,
            why: Why::TooLarge,
        });
    }
    let lines = lines_of(alloc, kind, first, bytes)?;
    Ok(List::of(lines))
}

/// The lines up to the `end` line, behind which there is nothing.
fn lines_of(
    alloc: Global,
    kind: Kind,
    first: u32,
    text: &[u8],
) -> Result<Vec<LogLine>, TraceRefused>
    requires early { first ≤ 2 ^ 31 }
    requires few { length text.now ≤ most_text }
    ensures { Gives (λ lines. lines.items) result
        (lines_of kind first (slice_split is_newline text.now)) }
{
    let mut lines = Vec::new(alloc);
    let mut rest = text;
    let mut number = first;
    while let Some((front, after)) = first_line(rest) {
        let words = words_of(alloc, front)?;
        let line = at_line(number, line_of(alloc, kind, &words))?;
        let last = is_last(&line);
        lines.push(line)?;
        if last {
            nothing_after(number + 1, after)?;
            return Ok(lines);
        }
        rest = after;
        number += 1;
    }
    Err(TraceRefused::Bad {
        line: number,
        why: Why::Cut,
    })
}

/// A line by its words.
fn line_of(alloc: Global, kind: Kind, words: &[&[u8]]) -> Result<LogLine, LineRefused>
    ensures { Reads (λ line. line) result (line_of kind (map (λ word. word.now) words.now)) }
{
    let (first, more) = one_and_more(words)?;
    if first == b"end".as_slice() {
        end_of(more)
    } else {
        said_of(alloc, kind, first, more)
    }
}

/// `end N`
fn end_of(words: &[&[u8]]) -> Result<LogLine, LineRefused>
    ensures { Reads (λ line. line) result (end_of (map (λ word. word.now) words.now)) }
{
    let count = long_number_of(one(words)?)?;
    Ok(LogLine::End { count })
}

/// `STAMP ACTOR TEXT = REPLY`
fn said_of(alloc: Global, kind: Kind, stamp: &[u8], words: &[&[u8]]) -> Result<LogLine, LineRefused>
    ensures { Reads (λ line. line) result
        (said_of kind stamp.now (map (λ word. word.now) words.now)) }
{
    let stamp = stamp_of(stamp)?;
    let (actor, words) = one_and_more(words)?;
    let actor = who_of(actor)?;
    let (command, reply) = parted(words)?;
    let command = command_in(alloc, kind, actor, command)?;
    let reply = answer_in(alloc, kind, reply)?;
    Ok(LogLine::Said {
        stamp,
        actor,
        command,
        reply,
    })
}

/// The words before the first `=`, and those behind it.
fn parted<'w, 'a>(words: &'w [&'a [u8]]) -> Result<(&'w [&'a [u8]], &'w [&'a [u8]]), LineRefused>
    ensures { Reads (λ x. (map (λ word. word.now) x.0.now, map (λ word. word.now) x.1.now))
        result (parted (map (λ word. word.now) words.now)) }
{
    let Some(at) = equals_at(words) else {
        return refused(Why::Form);
    };
    Ok((&words[..at], &words[at + 1..]))
}

/// Where the first `=` stands.
fn equals_at(words: &[&[u8]]) -> Option<usize>
    ensures { result ≡ position is_equals (map (λ word. word.now) words.now) }
{
    words.iter().position(|word| *word == b"=".as_slice())
}

/// Whether it is the last line of a log.
fn is_last(line: &LogLine) -> bool
    ensures { result ≡ is_last line.now }
{
    matches!(line, LogLine::End { .. })
}
