//! A turnstile is closed, with all its hands.
ghost use Rattle.std.specs.Prelude.{IsTrue, ◌↔◌, ◌≡◌, ◌⊎◌, ◌+◌, ◌*◌, ◌<◌, ◌≤◌, ℕ, List, [], ◌++◌};
ghost use Rattle.std.specs.Prelude.{length, IfOk, IfErr, IsOk, IsErr, Some};
ghost use Rattle.eleos_base.specs.declared.plot.Event.{Event};
ghost use Rattle.eleos_base.specs.Histories.{made, Legal, Signed};
ghost use Rattle.eleos_base.specs.Ties.{Has};
ghost use Rattle.eleos_turn.specs.Rule.{base_of};
ghost use Rattle.eleos_turn.specs.Hands.{IsSound, home_of};
ghost use Rattle.eleos_turn.specs.Closings.{AreMade, AllOf, AllDone, AllOwn, AllSound, IsDone};
ghost use Rattle.eleos_turn.specs.Closings.{IsWhole, HasNumber, AllBegin, left_of};

use crate::answers::Refused;
use crate::hand::Hand;
use crate::table::{CellTable, emptied};
use crate::turnstile::Turnstile;
use crate::view::Place;
use eleos_base::Plot;

/// A turnstile that was closed: a hand that has seen the whole history, and what was in each cell.
#[derive(Drop)]
pub struct Closed<P: Plot> {
    pub hand: Hand<P>,
    pub cells: Vec<Option<P::Cell>>,
}

/// A hand was missing or not of `make`, or had a turn or a link.
#[derive(Drop)]
pub struct HandsRefused<P: Plot> {
    pub turnstile: Turnstile<P>,
    pub hands: Vec<Hand<P>>,
}

fn is_done<P: Plot>(hand: &Hand<P>) -> bool
    ensures { IsTrue result ↔ IsDone P.terms hand.now }
{
    hand.number > 0 && hand.turns == 0 && hand.links == 0
}

fn all_done<P: Plot>(hands: &[Hand<P>]) -> bool
    ensures { IsTrue result ↔ AllDone P.terms hands.now }
{
    for hand in hands {
        if !is_done(hand) {
            return false;
        }
    }
    true
}

fn has_number<P: Plot>(hands: &[Hand<P>], number: u32) -> bool
    ensures { IsTrue result ↔ HasNumber number hands.now }
{
    for hand in hands {
        if hand.number == number {
            return true;
        }
    }
    false
}

// All numbers are there.
fn has_each<P: Plot>(hands: &[Hand<P>], count: u32) -> bool
    requires count { length hands.now ≡ count }
    requires done { AllDone P.terms hands.now }
    ensures { IsTrue result ↔ IsWhole P.terms count hands.now }
{
    for i in 0..count {
        if !has_number(hands, i + 1) {
            return false;
        }
    }
    true
}

// These are the hands that `make` gave, and none has a turn or a link.
fn is_whole<P: Plot>(hands: &[Hand<P>], count: u32) -> bool
    ensures { IsTrue result ↔ IsWhole P.terms count hands.now }
{
    if hands.len() != count as usize {
        return false;
    }
    if !all_done(hands) {
        return false;
    }
    has_each(hands, count)
}

// The seat takes in all hands.
fn gather<P: Plot>(cells: &CellTable<P>, seat: &mut Place<P>, hands: Vec<Hand<P>>)
    requires own { seat.old.table_id ≡ cells.now.table.shared.table_id }
    requires idle { (seat.old.me.1 ≡ []) × (seat.old.me.0.held ≡ [])
        × (0 < seat.old.me.0.base.hands) }
    requires hands { AllOf
        (home_of P.terms cells.now.table.shared.table_id cells.now.table.shared.key) hands.items }
    requires done { AllDone P.terms hands.items }
    ensures same { (seat.new.table_id ≡ seat.old.table_id) × (seat.new.me.1 ≡ [])
        × (seat.new.me.0.held ≡ []) × (seat.new.me.0.base ≡ seat.old.me.0.base) }
    ensures numbers { (n : ℕ) → Has n seat.old.me.0.numbers ⊎ HasNumber n hands.items
        → Has n seat.new.me.0.numbers }
    ensures left { seat.new.me.0.left ≡ seat.old.me.0.left + left_of hands.items }
    ensures begins { ((more : List (Event P.Draft P.Part)) × (seat.new.me.0.seen
        ≡ seat.old.me.0.seen ++ more)) × AllBegin seat.new.me.0.seen hands.items }
    ensures sound { AllSound P.terms hands.items }
{
    let mut hands = hands;
    while let Some(hand) = hands.pop() {
        cells.absorb(seat, hand.into_seat());
    }
    hands.destroy_empty();
}

// One seat that has the numbers of all hands and has seen the whole history.
fn settle<P: Plot>(cells: &CellTable<P>, hands: Vec<Hand<P>>) -> Place<P>
    requires some { 0 < length hands.items }
    requires hands { AllOf
        (home_of P.terms cells.now.table.shared.table_id cells.now.table.shared.key) hands.items }
    requires done { AllDone P.terms hands.items }
    ensures table { result.table_id ≡ cells.now.table.shared.table_id }
    ensures idle { (result.me.1 ≡ []) × (result.me.0.held ≡ []) }
    ensures base { result.me.0.base ≡ base_of P.terms cells.now.table.shared.key }
    ensures numbers { (n : ℕ) → HasNumber n hands.items → Has n result.me.0.numbers }
    ensures begins { AllBegin result.me.0.seen hands.items }
    ensures sound { AllSound P.terms hands.items }
    ensures legal { Legal P.terms result.me.0.base result.me.0.seen }
    ensures signed { Signed P.terms result.me.0.base.hands result.me.0.seen }
    ensures room { length result.me.0.seen + left_of hands.items ≤ result.me.0.base.hands * result.me.0.base.each }
{
    let mut hands = hands;
    let Some(first) = hands.pop() else {
        unreachable!()
    };
    let mut seat = first.into_seat();
    gather(cells, &mut seat, hands);
    cells.catch_up(&mut seat);
    seat
}

impl<P: Plot> Turnstile<P> {
    /// Ends the turnstile, and gives what was in each cell. It is refused exactly where a hand is
    /// missing or not of `make`, or has a turn or a link; then all is handed back.
    pub fn close(self, hands: Vec<Hand<P>>) -> Result<Closed<P>, HandsRefused<P>>
        requires own { AllOf self hands.items }
        ensures whole { IsOk result → IsWhole P.terms self.base.hands hands.items }
        ensures refused { IsErr result → IsWhole P.terms self.base.hands hands.items → ⊥ }
        ensures turnstile { IfErr result (λ r. r.turnstile ≡ self) }
        ensures hands { IfErr result (λ r. r.hands.items ≡ hands.items) }
        ensures home { IfOk result (λ r. r.hand.home ≡ self) }
        ensures number { IfOk result (λ r. r.hand.number ≡ 0) }
        ensures sound { IfOk result (λ r. IsSound P.terms r.hand) }
        ensures begins { IfOk result (λ r. AllBegin r.hand.seen hands.items) }
        ensures own { IfOk result (λ r. AllOwn P.terms r.hand.seen hands.items) }
        ensures room { IfOk result
            (λ r. length r.hand.seen + left_of hands.items ≤ self.base.hands * self.base.each) }
        ensures count { IfOk result (λ r. length r.cells.items ≡ length self.base.opening) }
        ensures cells { IfOk result
            (λ r. AreMade P.terms (length self.base.opening) r.hand r.cells.items) }
    {
        if !is_whole(hands.as_slice(), self.hands) {
            return Err(HandsRefused {
                turnstile: self,
                hands,
            });
        }
        let (cells, room) = self.into_parts();
        let mut seat = settle(&cells, hands);
        let hand = noted_hand(&cells, &mut seat);
        let cells = emptied(cells.into_shared(), seat, room);
        Ok(Closed { hand, cells })
    }
}

// A hand of no number that has seen what the seat has seen.
fn noted_hand<P: Plot>(cells: &CellTable<P>, seat: &mut Place<P>) -> Hand<P>
    requires own { seat.old.table_id ≡ cells.now.table.shared.table_id }
    requires base { seat.old.me.0.base ≡ base_of P.terms cells.now.table.shared.key }
    requires alive { 0 < seat.old.me.0.base.hands }
    requires legal { Legal P.terms seat.old.me.0.base seat.old.me.0.seen }
    requires signed { Signed P.terms seat.old.me.0.base.hands seat.old.me.0.seen }
    requires room { length seat.old.me.0.seen ≤ seat.old.me.0.base.hands * seat.old.me.0.base.each }
    ensures same { (seat.new.table_id ≡ seat.old.table_id) × (seat.new.me ≡ seat.old.me) }
    ensures home { result.home
        ≡ home_of P.terms cells.now.table.shared.table_id cells.now.table.shared.key }
    ensures number { result.number ≡ 0 }
    ensures seen { result.seen ≡ seat.old.me.0.seen }
    ensures sound { IsSound P.terms result }
{
    let observer = cells.observer(seat);
    Hand {
        seat: observer,
        number: 0,
        left: 0,
        turns: 0,
        links: 0,
        refused: Refused::none(),
    }
}
