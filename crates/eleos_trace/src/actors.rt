// Actors by their words.
ghost use Rattle.std.specs.Prelude.{◌≡◌};
ghost use Rattle.eleos_trace.specs.Actors.{is_caller_word, actor_of};
ghost use Rattle.eleos_trace.specs.Actors.{is_swapper, is_balloon, is_host};

use crate::Actor;

/// A caller, the swapper, the balloon or the host, by the word that a line begins with. None comes
/// for any other word.
pub fn actor_of(word: &[u8]) -> Option<Actor>
    ensures { result ≡ actor_of word.now }
{
    if is_caller_word(word) {
        return Some(Actor::Caller(u32::from(word[1] - b'0')));
    }
    if word == b"s".as_slice() {
        Some(Actor::Swapper)
    } else if word == b"b".as_slice() {
        Some(Actor::Balloon)
    } else if word == b"h".as_slice() {
        Some(Actor::Host)
    } else {
        None
    }
}

/// Whether it is `c1` to `c8`.
fn is_caller_word(word: &[u8]) -> bool
    ensures { result ≡ is_caller_word word.now }
{
    word.len() == 2 && word[0] == b'c' && b'1' <= word[1] && word[1] <= b'8'
}

pub(crate) fn is_swapper(actor: Actor) -> bool
    ensures { result ≡ is_swapper actor }
{
    matches!(actor, Actor::Swapper)
}

pub(crate) fn is_balloon(actor: Actor) -> bool
    ensures { result ≡ is_balloon actor }
{
    matches!(actor, Actor::Balloon)
}

/// Whether it is the host.
pub fn is_host(actor: Actor) -> bool
    ensures { result ≡ is_host actor }
{
    matches!(actor, Actor::Host)
}
