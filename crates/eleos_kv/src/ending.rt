// The shards are ended, and their machine is closed with the passes that lay in the cells.
ghost use Rattle.std.specs.Prelude.{vec_capacity, ◌≡◌, ◌+◌, ◌<◌, ◌≤◌, [], ◌∷◌, ◌++◌, length, None};
ghost use Rattle.eleos_machine.specs.Closing.{AllOfMachine, HasClosed, close_fault};
ghost use Rattle.eleos_machine.specs.Passes.{IsLawful};
ghost use Rattle.eleos_turn.specs.Closings.{AllOf, IsWhole};
ghost use Rattle.eleos_turn.specs.Hands.{fresh};
ghost use Rattle.eleos_kv.specs.Cells.{IsCell};
ghost use Rattle.eleos_kv.specs.Ends.{AreCells, HasEnded, IsOneMapOf, passes_in};
ghost use Rattle.eleos_kv.specs.Terms.{kv_terms};

use crate::{KvHand, KvShards, ShardCell};
use eleos_base::Sealer;
use eleos_core::laws::reads_are_private;
use eleos_host::HostPort;
use eleos_machine::{CloseRefused, Machine, Pass};
use eleos_turn::Closed;

/// A pass and a hand that have seen the whole histories of the machine and of the shards.
#[derive(Drop)]
pub struct Ended<P: HostPort> {
    pub pass: Pass,
    pub hand: KvHand<P>,
}

/// The pass of a cell.
fn pass_of<P: HostPort>(cell: ShardCell<P>) -> Pass
    ensures pass { result ≡ cell.pass }
    ensures cell { IsCell P.gave P.took cell }
    ensures lawful { IsLawful cell.pass }
{
    let ShardCell {
        rest,
        shard: _shard,
        port: _port,
    } = cell;
    rest.wake()
}

/// The passes that lay in the cells, in the room for them.
fn passes_back<P: HostPort>(cells: Vec<Option<ShardCell<P>>>, room: Vec<Pass>) -> Vec<Pass>
    requires empty { room.items ≡ [] }
    requires room { length cells.items ≤ vec_capacity room }
    ensures passes { result.items ≡ passes_in cells.items }
    ensures cells { AreCells P.gave P.took cells.items }
    ensures room { vec_capacity room ≤ vec_capacity result }
{
    let mut passes = room;
    for cell in cells {
        if let Some(found) = cell {
            let Ok(()) = passes.push(pass_of(found)) else {
                unreachable!()
            };
        }
    }
    passes
}

/// One pass more, for which there is room.
fn with_pass(passes: Vec<Pass>, pass: Pass) -> Vec<Pass>
    requires room { length passes.items < vec_capacity passes }
    ensures passes { result.items ≡ passes.items ++ pass ∷ [] }
    ensures room { vec_capacity passes ≤ vec_capacity result }
{
    let mut passes = passes;
    let Ok(()) = passes.push(pass) else {
        unreachable!()
    };
    passes
}

/// Closes the machine with all its passes.
fn closed<S: Sealer + Drop>(machine: Machine<S>, passes: Vec<Pass>) -> Pass
    requires own { AllOfMachine machine passes.items }
    requires no_fault { close_fault machine.base.hands passes.items ≡ None }
    ensures { HasClosed machine passes.items result }
{
    match machine.close(passes) {
        Ok(pass) => pass,
        Err(CloseRefused { .. }) => unreachable!(),
    }
}

impl<S: Sealer + Drop, P: HostPort> KvShards<S, P> {
    /// Ends the shards with the hands of all clients, and closes their machine, whose swapper and
    /// balloon did nothing. The room is for all passes.
    pub fn close(
        self,
        hands: Vec<KvHand<P>>,
        swapper: Pass,
        balloon: Pass,
        room: Vec<Pass>,
    ) -> Ended<P>
        requires own { AllOf self.all hands.items }
        requires whole { IsWhole kv_terms self.all.base.hands hands.items }
        requires passes { self.machine.base.hands ≡ length self.all.base.opening + 2 }
        requires swapper { swapper.hand
            ≡ fresh self.machine (length self.all.base.opening + 1) }
        requires balloon { balloon.hand
            ≡ fresh self.machine (length self.all.base.opening + 2) }
        requires empty { room.items ≡ [] }
        requires room { length self.all.base.opening + 2 ≤ vec_capacity room }
        ensures ended { HasEnded P.gave P.took self hands.items result.pass result.hand }

        // Where no altered or replaced block passed, all commands are one run of one map.
        ensures one_map { IsOneMapOf self result.pass result.hand }
    {
        let KvShards {
            machine,
            all,
            shards: _shards,
        } = self;
        let Ok(Closed { hand, cells }) = all.close(hands) else {
            unreachable!()
        };
        let own_passes = passes_back(cells, room);
        let some_passes = with_pass(own_passes, swapper);
        let all_passes = with_pass(some_passes, balloon);
        let pass = closed(machine, all_passes);
        reads_are_private();
        Ended { pass, hand }
    }
}
