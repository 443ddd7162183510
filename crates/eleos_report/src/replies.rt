// Replies by their words.
ghost use Rattle.std.specs.Prelude.{◌≡◌, ℕ, List, map};
ghost use Rattle.eleos_texts.specs.Reasons.{Reads};
ghost use Rattle.eleos_report.specs.Answers.{is_reply, part_of, sweep_of, told_block_of};
ghost use Rattle.eleos_report.specs.Answers.{tampered_of, plain_of, other_answer_of, answer_of};
ghost use Rattle.eleos_report.specs.Answers.{answer_in, call_answer_of, long_alone, replied_of};
ghost use Rattle.eleos_report.specs.Answers.{counted_of, survey_answer_of};

use crate::commands::number_alone;
use crate::fields::{block_of, bytes_of, long_number_of, looked_of, number_of};
use crate::{Answer, Block};
use eleos_base::{List, Looked, Part};
use eleos_texts::counts::{one, one_and_more, two};
use eleos_texts::{LineRefused, Why, refused};
use eleos_trace::Kind;
use std::alloc::Global;

/// A reply of this kind.
pub(crate) fn answer_in(alloc: Global, kind: Kind, words: &[&[u8]]) -> Result<Answer, LineRefused>
    ensures { Reads (λ reply. reply) result (answer_in kind (map (λ word. word.now) words.now)) }
{
    let (word, args) = one_and_more(words)?;
    let reply = answer_of(alloc, word, args)?;
    if !is_reply(kind, &reply) {
        return refused(Why::Form);
    }
    Ok(reply)
}

/// Whether the reply stands in logs of this kind.
fn is_reply(kind: Kind, reply: &Answer) -> bool
    ensures { result ≡ is_reply kind reply.now }
{
    match (kind, reply) {
        (Kind::Run, Answer::Illegal { .. }) => false,
        (Kind::Run, Answer::Tampered { block, .. }) => block.is_some(),
        (Kind::Replay, Answer::Tampered { block, .. }) => block.is_none(),
        (Kind::Replay, Answer::NoFrame { .. }) => false,
        (Kind::Replay, Answer::Enough { .. } | Answer::Swept { .. }) => false,
        (Kind::Replay, Answer::Reached { .. } | Answer::Short { .. }) => false,
        (Kind::Replay, Answer::Pinned { .. }) => false,
        (Kind::Replay, Answer::Replied { .. } | Answer::WrongId { .. }) => false,
        (Kind::Replay, Answer::TooLong { .. } | Answer::BadStatus { .. }) => false,
        _ => true,
    }
}

fn answer_of(alloc: Global, word: &[u8], args: &[&[u8]]) -> Result<Answer, LineRefused>
    ensures { Reads (λ reply. reply) result
        (answer_of word.now (map (λ arg. arg.now) args.now)) }
{
    if word == b"at".as_slice() {
        let at = number_alone(args)?;
        Ok(Answer::At { at })
    } else if word == b"put".as_slice() {
        let count = number_alone(args)?;
        Ok(Answer::Put { count })
    } else if word == b"notyours".as_slice() {
        let owner = number_alone(args)?;
        Ok(Answer::NotYours { owner })
    } else if word == b"worn".as_slice() {
        let sub = number_alone(args)?;
        Ok(Answer::Worn { sub })
    } else {
        other_answer_of(alloc, word, args)
    }
}

/// A word that has more than a number behind it, or a plain one.
fn other_answer_of(alloc: Global, word: &[u8], args: &[&[u8]]) -> Result<Answer, LineRefused>
    ensures { Reads (λ reply. reply) result
        (other_answer_of word.now (map (λ arg. arg.now) args.now)) }
{
    if word == b"got".as_slice() {
        let bytes = bytes_of(alloc, one(args)?)?;
        Ok(Answer::Got { bytes })
    } else if word == b"tampered".as_slice() {
        tampered_of(alloc, args)
    } else if word == b"noframe".as_slice() {
        let sweep = sweep_of(alloc, args)?;
        Ok(Answer::NoFrame { sweep })
    } else if word == b"illegal".as_slice() {
        let part = part_of(one(args)?)?;
        Ok(Answer::Illegal { part })
    } else {
        survey_answer_of(alloc, word, args)
    }
}

/// How a round of the swapper or a change of a share ended, or a plain word.
fn survey_answer_of(alloc: Global, word: &[u8], args: &[&[u8]]) -> Result<Answer, LineRefused>
    ensures { Reads (λ reply. reply) result
        (survey_answer_of word.now (map (λ arg. arg.now) args.now)) }
{
    if word == b"enough".as_slice() {
        let (free, sweep) = counted_of(alloc, args)?;
        Ok(Answer::Enough { free, sweep })
    } else if word == b"swept".as_slice() {
        let (free, sweep) = counted_of(alloc, args)?;
        Ok(Answer::Swept { free, sweep })
    } else if word == b"done".as_slice() {
        let share = number_alone(args)?;
        Ok(Answer::Reached { share })
    } else if word == b"short".as_slice() {
        let (share, sweep) = counted_of(alloc, args)?;
        Ok(Answer::Short { share, sweep })
    } else if word == b"pinned".as_slice() {
        let (share, sweep) = counted_of(alloc, args)?;
        Ok(Answer::Pinned { share, sweep })
    } else if args.is_empty() {
        plain_of(word)
    } else {
        call_answer_of(alloc, word, args)
    }
}

/// A number, and the frames of a sweep with their words.
fn counted_of(alloc: Global, args: &[&[u8]]) -> Result<(u32, List<Looked>), LineRefused>
    ensures { Reads (λ both. both) result (counted_of (map (λ arg. arg.now) args.now)) }
{
    let (count, more) = one_and_more(args)?;
    let count = number_of(count)?;
    let sweep = sweep_of(alloc, more)?;
    Ok((count, sweep))
}

/// What a call of the host came to.
fn call_answer_of(alloc: Global, word: &[u8], args: &[&[u8]]) -> Result<Answer, LineRefused>
    ensures { Reads (λ reply. reply) result
        (call_answer_of word.now (map (λ arg. arg.now) args.now)) }
{
    if word == b"reply".as_slice() {
        replied_of(alloc, args)
    } else if word == b"wrongid".as_slice() {
        let seen = long_alone(args)?;
        Ok(Answer::WrongId { seen })
    } else if word == b"toolong".as_slice() {
        let seen = long_alone(args)?;
        Ok(Answer::TooLong { seen })
    } else if word == b"badstatus".as_slice() {
        let seen = long_alone(args)?;
        Ok(Answer::BadStatus { seen })
    } else {
        refused(Why::Form)
    }
}

/// A number of 64 bits alone.
fn long_alone(args: &[&[u8]]) -> Result<u64, LineRefused>
    ensures { Reads (λ n. n) result (long_alone (map (λ arg. arg.now) args.now)) }
{
    long_number_of(one(args)?)
}

/// The status and the bytes of a reply.
fn replied_of(alloc: Global, args: &[&[u8]]) -> Result<Answer, LineRefused>
    ensures { Reads (λ reply. reply) result (replied_of (map (λ arg. arg.now) args.now)) }
{
    let (status, hex) = two(args)?;
    let status = long_number_of(status)?;
    let bytes = bytes_of(alloc, hex)?;
    Ok(Answer::Replied { status, bytes })
}

/// A reply of one word.
fn plain_of(word: &[u8]) -> Result<Answer, LineRefused>
    ensures { Reads (λ reply. reply) result (plain_of word.now) }
{
    if word == b"ok".as_slice() {
        Ok(Answer::Okay)
    } else if word == b"badsize".as_slice() {
        Ok(Answer::BadSize)
    } else if word == b"nospace".as_slice() {
        Ok(Answer::NoSpace)
    } else if word == b"notablock".as_slice() {
        Ok(Answer::NotABlock)
    } else if word == b"badrange".as_slice() {
        Ok(Answer::BadRange)
    } else if word == b"unallocated".as_slice() {
        Ok(Answer::Unallocated)
    } else if word == b"none".as_slice() {
        Ok(Answer::Nothing)
    } else if word == b"skipped".as_slice() {
        Ok(Answer::Skipped)
    } else {
        refused(Why::Form)
    }
}

/// The sub-page, and the block where one is told.
fn tampered_of(alloc: Global, args: &[&[u8]]) -> Result<Answer, LineRefused>
    ensures { Reads (λ reply. reply) result (tampered_of (map (λ arg. arg.now) args.now)) }
{
    let (sub, more) = one_and_more(args)?;
    let sub = number_of(sub)?;
    let block = told_block_of(alloc, more)?;
    Ok(Answer::Tampered { sub, block })
}

fn told_block_of(alloc: Global, words: &[&[u8]]) -> Result<Option<Block>, LineRefused>
    ensures { Reads (λ block. block) result (told_block_of (map (λ word. word.now) words.now)) }
{
    if words.is_empty() {
        return Ok(None);
    }
    Ok(Some(block_of(alloc, one(words)?)?))
}

/// The frames of a sweep with their words.
fn sweep_of(alloc: Global, texts: &[&[u8]]) -> Result<List<Looked>, LineRefused>
    ensures { Reads (λ sweep. sweep) result (sweep_of (map (λ text. text.now) texts.now)) }
{
    let mut sweep = Vec::new(alloc);
    for text in texts {
        let looked = looked_of(alloc, text)?;
        let Ok(()) = sweep.push(looked) else {
            return Err(LineRefused::NoMemory);
        };
    }
    Ok(List::of(sweep))
}

/// What is offended against.
fn part_of(word: &[u8]) -> Result<Part, LineRefused>
    ensures { Reads (λ part. part) result (part_of word.now) }
{
    if word == b"present".as_slice() {
        Ok(Part::Present)
    } else if word == b"frame".as_slice() {
        Ok(Part::Frame)
    } else if word == b"absent".as_slice() {
        Ok(Part::Absent)
    } else if word == b"linked".as_slice() {
        Ok(Part::Linked)
    } else if word == b"owner".as_slice() {
        Ok(Part::Owner)
    } else if word == b"untied".as_slice() {
        Ok(Part::Untied)
    } else {
        refused(Why::Form)
    }
}
