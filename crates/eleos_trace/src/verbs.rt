// What commands are called.
ghost use Rattle.std.specs.Prelude.{◌≡◌, List, ℕ};
ghost use Rattle.eleos_trace.specs.Verbs.{verb_text, is_called, verb_called, given_by, verb_of};

use crate::Actor;

/// What a command is called. `swap` is two commands: one of the host, and one of all others.
#[derive(Clone, Copy, Debug, PartialEq, Eq)]
pub(crate) enum Verb {
    Alloc,
    Free,
    Share,
    Read,
    Write,
    Tie,
    Untie,
    Fill,
    Evict,
    Move,
    Flip,
    SwapPlaces,
    Keep,
    Restore,
    Point,
    Copy,
    Drop,
    Link,
    Unlink,
    Step,
    ReadAt,
    WriteAt,
    SwapRound,
    Balloon,
    Call,
}

/// All verbs; of the two that are called `swap` the one that is not the host's.
const VERBS: [Verb; 24] = [
    Verb::Alloc,
    Verb::Free,
    Verb::Share,
    Verb::Read,
    Verb::Write,
    Verb::Tie,
    Verb::Untie,
    Verb::Fill,
    Verb::Evict,
    Verb::Move,
    Verb::Flip,
    Verb::Keep,
    Verb::Restore,
    Verb::Point,
    Verb::Copy,
    Verb::Drop,
    Verb::Link,
    Verb::Unlink,
    Verb::Step,
    Verb::ReadAt,
    Verb::WriteAt,
    Verb::SwapRound,
    Verb::Balloon,
    Verb::Call,
];

/// The verb that a word of the actor says.
pub(crate) fn verb_of(actor: Actor, word: &[u8]) -> Option<Verb>
    ensures { result ≡ verb_of actor word.now }
{
    match verb_called(word) {
        Some(verb) => Some(given_by(actor, verb)),
        None => None,
    }
}

/// The verb that has this word.
#[tactic(auto, unfolding(crate::specs::Verbs::verb_called))]
fn verb_called(word: &[u8]) -> Option<Verb>
    ensures { result ≡ verb_called word.now }
{
    VERBS.iter().copied().find(|verb| is_called(*verb, word))
}

fn is_called(verb: Verb, word: &[u8]) -> bool
    ensures { result ≡ is_called word.now verb }
{
    word == text_of(verb)
}

/// The verb as an actor gives it.
fn given_by(actor: Actor, verb: Verb) -> Verb
    ensures { result ≡ given_by actor verb }
{
    match (actor, verb) {
        (Actor::Host, Verb::SwapRound) => Verb::SwapPlaces,
        _ => verb,
    }
}

/// The word of a verb.
fn text_of(verb: Verb) -> &'static [u8]
    ensures { result.now ≡ verb_text verb }
{
    match verb {
        Verb::Alloc => b"alloc",
        Verb::Free => b"free",
        Verb::Share => b"share",
        Verb::Read => b"read",
        Verb::Write => b"write",
        Verb::Tie => b"tie",
        Verb::Untie => b"untie",
        Verb::Fill => b"fill",
        Verb::Evict => b"evict",
        Verb::Move => b"move",
        Verb::Flip => b"flip",
        Verb::Keep => b"keep",
        Verb::Restore => b"restore",
        Verb::Point => b"point",
        Verb::Copy => b"copy",
        Verb::Drop => b"drop",
        Verb::Link => b"link",
        Verb::Unlink => b"unlink",
        Verb::Step => b"step",
        Verb::ReadAt => b"sread",
        Verb::WriteAt => b"swrite",
        Verb::SwapPlaces | Verb::SwapRound => b"swap",
        Verb::Balloon => b"balloon",
        Verb::Call => b"call",
    }
}
