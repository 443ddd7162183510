// What was seen of a trace so far.
ghost use Rattle.std.specs.Prelude.{◌≡◌, ◌<◌, ◌^◌, IfOk, OnOk};
ghost use Rattle.eleos_trace.specs.Seen.{nothing_seen, seen_after, is_bound, has_room};
ghost use Rattle.eleos_trace.specs.Seen.{has_round_room, is_round};

use crate::header::{Header, has_name};
use crate::machines::enclave_of;
use crate::names::ByCaller;
use crate::{Actor, Line, Word};
use std::alloc::{AllocError, Global};

/// Commands of a trace.
const MOST_COMMANDS: u32 = 100_000;

/// Rounds of the swapper and changes of shares among them.
const MOST_ROUNDS: u32 = 1_000;

/// The names that each caller has bound, how many commands there were, and how many of them were
/// rounds of the swapper or changes of shares.
#[derive(Drop)]
pub struct Seen {
    pub names: ByCaller,
    pub commands: u32,
    pub rounds: u32,
}

impl Seen {
    pub(crate) fn nothing(alloc: Global, header: &Header) -> Result<Self, AllocError>
        ensures { IfOk result (λ seen. seen ≡ nothing_seen header.now) }
    {
        Ok(Seen {
            names: ByCaller::of(alloc, header.plan.callers.len())?,
            commands: 0,
            rounds: 0,
        })
    }

    /// Whether the actor may use the name: a caller's own, or one of the header for its enclave.
    pub(crate) fn is_bound(&self, header: &Header, actor: Actor, name: &[u8]) -> bool
        ensures { result ≡ is_bound header.now self.now actor name.now }
    {
        match actor {
            Actor::Caller(number) => {
                self.names.has(number, name)
                    || has_name(
                        header.blocks.as_slice(),
                        enclave_of(&header.plan, number),
                        name,
                    )
            }
            Actor::Swapper | Actor::Balloon | Actor::Host => false,
        }
    }

    pub(crate) fn has_room(&self) -> bool
        ensures { result ≡ has_room self.now }
    {
        self.commands < MOST_COMMANDS
    }

    /// Whether there is room for one more round of the swapper or change of a share.
    pub(crate) fn has_round_room(&self) -> bool
        ensures { result ≡ has_round_room self.now }
    {
        self.rounds < MOST_ROUNDS
    }

    /// Takes in a command.
    pub(crate) fn add(&mut self, alloc: Global, line: &Line) -> Result<(), AllocError>
        requires commands { self.old.commands < 2 ^ 31 }
        requires rounds { self.old.rounds < 2 ^ 31 }
        ensures { OnOk result (self.new ≡ seen_after self.old line.now) }
    {
        if let (Actor::Caller(number), Word::Alloc { name, .. }) = (line.actor, &line.command) {
            self.names.add(alloc, number, name.as_slice())?;
        }
        self.commands += 1;
        if is_round(&line.command) {
            self.rounds += 1;
        }
        Ok(())
    }
}

/// Whether it is a round of the swapper or a change of a share.
fn is_round(command: &Word) -> bool
    ensures { result ≡ is_round command.now }
{
    matches!(command, Word::SwapRound { .. } | Word::SetShare { .. })
}
