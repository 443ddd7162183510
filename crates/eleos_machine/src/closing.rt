// A machine is closed, with all its passes.
ghost use Rattle.std.specs.Prelude.{vec_capacity, ◌≡◌, ◌+◌, ◌<◌, ◌≤◌, [], ◌∷◌, ◌++◌, length, IsOk};
ghost use Rattle.std.specs.Prelude.{IfOk, IfErr, None, Some, IsTrue};
ghost use Rattle.eleos_turn.specs.Closings.{AllOf, IsWhole};
ghost use Rattle.eleos_plot.specs.Terms.{core_terms};
ghost use Rattle.eleos_turn.specs.Hands.{entries};
ghost use Rattle.eleos_machine.specs.Closing.{AllOfMachine, HasClosed, close_fault, first_with};
ghost use Rattle.eleos_machine.specs.Closing.{hands_of, has_all};
ghost use Rattle.eleos_machine.specs.Closing.{has_foreign, has_link, has_number, has_turn};
ghost use Rattle.eleos_machine.specs.Machines.{IsMachine, all_passes, plan_at};
ghost use Rattle.eleos_machine.specs.Passes.{last_stamp};

use crate::machine::Machine;
use crate::pass::{Local, Pass};
use eleos_base::Sealer;
use eleos_plot::CorePlot;
use eleos_turn::{Closed, Hand, Turnstile};

/// Why a machine is not closed.
#[derive(Clone, Copy, Debug, PartialEq, Eq)]
pub enum CloseWhy {
    /// A pass that was made is not there.
    Missing,
    /// A pass that was not made is there.
    Foreign,
    /// This pass has a link.
    Linked { who: u32 },
    /// This pass has a turn.
    Held { who: u32 },
}

/// The machine and the passes, handed back.
#[derive(Drop)]
pub struct CloseRefused<S: Sealer> {
    pub machine: Machine<S>,
    pub passes: Vec<Pass>,
    pub why: CloseWhy,
}

impl<S: Sealer + Drop> Machine<S> {
    /// Ends the machine, and gives a pass that has seen the whole history. It is refused exactly
    /// where there is a fault; then all is handed back. Takes no memory.
    pub fn close(self, passes: Vec<Pass>) -> Result<Pass, CloseRefused<S>>
        requires own { AllOfMachine self passes.items }
        ensures done { IsOk result → close_fault self.base.hands passes.items ≡ None }
        ensures why { IfErr result (λ r. close_fault self.base.hands passes.items ≡ Some r.why) }
        ensures machine { IfErr result (λ r. r.machine ≡ self) }
        ensures passes { IfErr result (λ r. r.passes.items ≡ passes.items) }
        ensures closed { IfOk result (λ pass. HasClosed self passes.items pass) }
    {
        let count = self.plan.callers.len() as u32 + 2;
        if let Some(why) = fault_among(passes.as_slice(), count) {
            return Err(CloseRefused {
                machine: self,
                passes,
                why,
            });
        }
        let Machine {
            turnstile,
            plan: _plan,
            sealer: _sealer,
            first_frame: _first_frame,
        } = self;
        let PartedPasses { hands, local } = parted(&turnstile, passes);
        let Ok(
            Closed {
                hand,
                cells: _cells,
            },
        ) = turnstile.close(hands)
        else {
            unreachable!()
        };
        Ok(Pass {
            hand,
            local: Local { last: 0, ..local },
        })
    }
}

/// Why a machine of so many passes is not closed with these.
fn fault_among(passes: &[Pass], count: u32) -> Option<CloseWhy>
    requires { count < 4294967295 }
    ensures { result ≡ close_fault count passes.now }
{
    if !has_all(passes, count) {
        return Some(CloseWhy::Missing);
    }
    if passes.len() != count as usize || has_number(passes, 0) {
        return Some(CloseWhy::Foreign);
    }
    if let Some(who) = first_linked(passes) {
        return Some(CloseWhy::Linked { who });
    }
    let who = first_held(passes)?;
    Some(CloseWhy::Held { who })
}

/// Whether each of so many numbers is that of a pass.
fn has_all(passes: &[Pass], count: u32) -> bool
    requires { count < 4294967295 }
    ensures { result ≡ has_all count passes.now }
{
    (0..count).all(|i| has_number(passes, i + 1))
}

/// Whether one of the passes has the number.
fn has_number(passes: &[Pass], number: u32) -> bool
    ensures { result ≡ has_number number passes.now }
{
    passes.iter().any(|pass| pass.who() == number)
}

/// The first pass that has a link.
fn first_linked(passes: &[Pass]) -> Option<u32>
    ensures { result ≡ first_with has_link passes.now }
{
    let pass = passes.iter().find(|pass| has_link(pass))?;
    Some(pass.who())
}

fn has_link(pass: &Pass) -> bool
    ensures { result ≡ has_link pass.now }
{
    pass.hand.number() != 0 && pass.hand.links() != 0
}

/// The first pass that has a turn.
fn first_held(passes: &[Pass]) -> Option<u32>
    ensures { result ≡ first_with has_turn passes.now }
{
    let pass = passes.iter().find(|pass| has_turn(pass))?;
    Some(pass.who())
}

fn has_turn(pass: &Pass) -> bool
    ensures { result ≡ has_turn pass.now }
{
    pass.hand.turns() != 0
}

/// The hands of passes, and what one of them had beside its hand.
struct PartedPasses {
    hands: Vec<Hand<CorePlot>>,
    local: Local,
}

/// The hands of the passes, in the room of the last, and what another has beside its hand.
fn parted(_turnstile: &Turnstile<CorePlot>, passes: Vec<Pass>) -> PartedPasses
    requires own { AllOfMachine _turnstile.now passes.items }
    requires some { 1 < length passes.items }
    requires all { length passes.items ≤ all_passes (plan_at _turnstile.now) }
    ensures hands { result.hands.items ≡ hands_of passes.items }
    ensures empty { result.local.room.items ≡ [] }
    ensures room { all_passes (plan_at _turnstile.now) ≤ vec_capacity result.local.room }
{
    let mut passes = passes;
    let (Some(last), Some(other)) = (passes.pop(), passes.pop()) else {
        unreachable!()
    };
    let Pass {
        hand: last,
        local: Local { room: hands, .. },
    } = last;
    let Pass { hand: other, local } = other;
    let hands = with_hands(hands, passes);
    let hands = with_hand(hands, other);
    let hands = with_hand(hands, last);
    PartedPasses { hands, local }
}

/// The hands of the passes, in the room for them.
fn with_hands(room: Vec<Hand<CorePlot>>, passes: Vec<Pass>) -> Vec<Hand<CorePlot>>
    requires empty { room.items ≡ [] }
    requires room { length passes.items ≤ vec_capacity room }
    ensures hands { result.items ≡ hands_of passes.items }
    ensures room { vec_capacity room ≤ vec_capacity result }
{
    let mut hands = room;
    for pass in passes {
        hands = with_hand(hands, pass.hand);
    }
    hands
}

/// One hand more, for which there is room.
fn with_hand(hands: Vec<Hand<CorePlot>>, hand: Hand<CorePlot>) -> Vec<Hand<CorePlot>>
    requires room { length hands.items < vec_capacity hands }
    ensures hands { result.items ≡ hands.items ++ hand ∷ [] }
    ensures room { vec_capacity hands ≤ vec_capacity result }
{
    let mut hands = hands;
    let Ok(()) = hands.push(hand) else {
        unreachable!()
    };
    hands
}
