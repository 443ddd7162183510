// A line by its actor and its verb.
ghost use Rattle.std.specs.Prelude.{◌≡◌, List, ℕ, map};
ghost use Rattle.eleos_base.specs.Plans.{IsGood};
ghost use Rattle.eleos_trace.specs.Lines.{line_of, command_of, word_of};
ghost use Rattle.eleos_texts.specs.Reasons.{Reads};

use crate::actors::actor_of;
use crate::calls::call_of;
use crate::commands::{alloc_of, name_of, offset_of, read_of, write_of};
use crate::frames::{move_of, page_and_frame_of};
use crate::givers::{Asked, givers_of, is_built};
use crate::header::Header;
use crate::host::{flip_of, place_of, swap_of};
use crate::pointers::{copy_of, point_of, pointer_of, read_at_of, step_of, write_at_of};
use crate::rounds::{balloon_of, swap_round_of};
use crate::seen::Seen;
use crate::verbs::{Verb, verb_of};
use crate::{Actor, Line, Word};
use eleos_texts::counts::two_and_more;
use eleos_texts::{LineRefused, Why, refused};
use std::alloc::Global;

/// A line by its words.
pub(crate) fn line_of(
    alloc: Global,
    header: &Header,
    seen: &Seen,
    words: &[&[u8]],
) -> Result<Line, LineRefused>
    requires { IsGood header.now.plan }
    ensures { Reads (λ line. line) result
        (line_of header.now seen.now (map (λ word. word.now) words.now)) }
{
    let (actor, verb, args) = two_and_more(words)?;
    let Some(actor) = actor_of(actor) else {
        return refused(Why::Form);
    };
    let Some(verb) = verb_of(actor, verb) else {
        return refused(Why::Form);
    };
    let command = command_of(alloc, header, seen, actor, verb, args)?;
    Ok(Line { actor, command })
}

/// The command of a verb, where it is built for the kind.
fn command_of(
    alloc: Global,
    header: &Header,
    seen: &Seen,
    actor: Actor,
    verb: Verb,
    args: &[&[u8]],
) -> Result<Word, LineRefused>
    requires { IsGood header.now.plan }
    ensures { Reads (λ word. word) result
        (command_of header.now seen.now actor verb (map (λ arg. arg.now) args.now)) }
{
    let givers = givers_of(header.kind, verb);
    let asked = Asked {
        header,
        seen,
        actor,
        givers,
    };
    let word = word_of(alloc, &asked, verb, args)?;
    if !is_built(header.kind, verb) {
        return refused(Why::Later);
    }
    Ok(word)
}

/// The command of a verb, as the words behind it say it.
fn word_of(alloc: Global, asked: &Asked, verb: Verb, args: &[&[u8]]) -> Result<Word, LineRefused>
    requires { IsGood asked.now.header.now.plan }
    ensures { Reads (λ word. word) result (word_of asked.now.header.now asked.now.seen.now
        asked.now.actor asked.now.givers (map (λ arg. arg.now) args.now) verb) }
{
    match verb {
        Verb::Alloc => return alloc_of(alloc, asked, args),
        Verb::Free => {
            let name = name_of(alloc, asked, args)?;
            return Ok(Word::Free { name });
        }
        Verb::Share => {
            let name = name_of(alloc, asked, args)?;
            return Ok(Word::Share { name });
        }
        Verb::Read => return read_of(alloc, asked, args),
        Verb::Write => return write_of(alloc, asked, args),
        Verb::Tie => {
            let (name, offset) = offset_of(alloc, asked, args)?;
            return Ok(Word::Tie { name, offset });
        }
        Verb::Untie => {
            let (name, offset) = offset_of(alloc, asked, args)?;
            return Ok(Word::Untie { name, offset });
        }
        Verb::Fill => {
            let (page, frame) = page_and_frame_of(asked, args)?;
            return Ok(Word::Fill { page, frame });
        }
        Verb::Evict => {
            let (page, frame) = page_and_frame_of(asked, args)?;
            return Ok(Word::Evict { page, frame });
        }
        Verb::Move => return move_of(asked, args),
        Verb::Flip => return flip_of(asked, args),
        Verb::SwapPlaces => return swap_of(asked, args),
        Verb::Keep => {
            let place = place_of(asked, args)?;
            return Ok(Word::Keep { place });
        }
        Verb::Restore => {
            let place = place_of(asked, args)?;
            return Ok(Word::Restore { place });
        }
        Verb::Call => return call_of(alloc, asked, args),
        Verb::SwapRound => return swap_round_of(asked, args),
        Verb::Balloon => return balloon_of(asked, args),
        Verb::Point => point_of(asked, args)?,
        Verb::Copy => copy_of(asked, args)?,
        Verb::Drop | Verb::Link | Verb::Unlink => pointer_of(asked, args)?,
        Verb::Step => step_of(asked, args)?,
        Verb::ReadAt => read_at_of(asked, args)?,
        Verb::WriteAt => write_at_of(alloc, asked, args)?,
    }
    refused(Why::Later)
}
