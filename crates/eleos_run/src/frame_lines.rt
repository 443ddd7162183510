// The lines that stand before those of rounds and of changes of shares.
ghost use Rattle.std.specs.Prelude.{ℕ, ◌≡◌, ◌+◌, ◌∷◌, ◌<◌, ◌≤◌, [], length, vec_capacity};
ghost use Rattle.eleos_balloon.specs.Steps.{target};
ghost use Rattle.eleos_run.specs.Surveys.{Writes, evict_told, move_told, page_told, went_told};

use eleos_balloon::Went;
use eleos_base::{List, Looked, MOST_FRAMES};
use eleos_report::{Answer, LogLine};
use eleos_swap::Evicted;
use eleos_trace::{Actor, Word};

/// Writes the line of a page that left its frame.
pub(crate) fn push_evict(lines: &mut Vec<LogLine>, actor: Actor, one: Evicted)
    requires room { length lines.old.items < vec_capacity lines.old }
    ensures { (number : ℕ) → Writes actor (evict_told number one ∷ []) lines.old lines.new }
{
    let line = LogLine::Said {
        stamp: Some(one.stamp),
        actor,
        command: Word::Evict {
            page: one.page,
            frame: one.frame,
        },
        reply: Answer::Put { count: one.puts },
    };
    let Ok(()) = lines.push(line) else {
        unreachable!()
    };
}

/// Writes the line of a frame that went from one owner to the other, and before it that of the page
/// that left it, if there was one.
pub(crate) fn push_went(
    lines: &mut Vec<LogLine>,
    actor: Actor,
    gets: bool,
    enclave: u16,
    went: Went,
)
    requires room { length lines.old.items + 2 ≤ vec_capacity lines.old }
    ensures { (number : ℕ) → Writes actor (went_told number gets enclave went)
        lines.old lines.new }
{
    push_page(lines, actor, went.evicted);
    push_move(lines, actor, gets, enclave, went);
}

/// Writes the line of the page that left its frame, if there was one.
fn push_page(lines: &mut Vec<LogLine>, actor: Actor, page: Option<Evicted>)
    requires room { length lines.old.items < vec_capacity lines.old }
    ensures { (number : ℕ) → Writes actor (page_told number page) lines.old lines.new }
{
    let Some(one) = page else {
        return;
    };
    push_evict(lines, actor, one);
}

/// Writes the line of the move of a frame.
fn push_move(lines: &mut Vec<LogLine>, actor: Actor, gets: bool, enclave: u16, went: Went)
    requires room { length lines.old.items < vec_capacity lines.old }
    ensures { (number : ℕ) → Writes actor (move_told number gets enclave went ∷ [])
        lines.old lines.new }
{
    let line = LogLine::Said {
        stamp: Some(went.stamp),
        actor,
        command: Word::Move {
            frame: went.frame,
            from: owner_where(!gets, enclave),
            to: owner_where(gets, enclave),
        },
        reply: Answer::Okay,
    };
    let Ok(()) = lines.push(line) else {
        unreachable!()
    };
}

/// The enclave as an owner where this holds, and the pool where it does not.
fn owner_where(is_enclave: bool, enclave: u16) -> Option<u32>
    ensures { result ≡ target is_enclave enclave }
{
    if is_enclave {
        Some(u32::from(enclave))
    } else {
        None
    }
}

/// The words that were noted, in this room.
pub(crate) fn words_in(room: Vec<Looked>, noted: &[Looked]) -> List<Looked>
    requires empty { room.items ≡ [] }
    requires few { length noted.now ≤ MOST_FRAMES }
    requires room { MOST_FRAMES ≤ vec_capacity room }
    ensures { result ≡ noted.now }
{
    let mut words = room;
    let Ok(()) = words.extend_from_slice(noted) else {
        unreachable!()
    };
    List::of(words)
}
