//! The calls on a turnstile, which any thread may make with a hand of its own.
ghost use Rattle.std.specs.Prelude.{vec_capacity, ◌≡◌, ◌+◌, ◌-◌, ◌<◌, ◌≤◌, ◌^◌, ℕ, List, []};
ghost use Rattle.std.specs.Prelude.{length, min, IfOk, IfErr, MatchResult};
ghost use Rattle.eleos_base.specs.Ties.{Has};
ghost use Rattle.eleos_base.specs.declared.plot.Tied.TheVariants.{Adds, Takes};
ghost use Rattle.eleos_turn.specs.Hands.{IsSound, Took, CanStamp, Stamped, Heard, part_of};
ghost use Rattle.eleos_turn.specs.Hands.{links_on, without_turn, with_pin, without_pin, split_of};
ghost use Rattle.eleos_turn.specs.Hands.{tallied, refused_at, looked_at, home_of};
ghost use Rattle.eleos_turn.specs.Numbers.{times, most_pins};
ghost use Rattle.eleos_base.specs.Words.{IsBusy, IsFree, IsPlain, pins_in};

use crate::answers::{Busy, Refused, Taken};
use crate::hand::Hand;
use crate::table::CellTable;
use crate::view::Tries;
use eleos_base::{Plot, Tied};
use std::marker::{Brand, Model};
use std::sync::Wait;

/// Cells that threads share, with one history of the entries that touch them.
pub struct Turnstile<P: Plot> {
    pub(crate) cells: CellTable<P>,
    pub(crate) room: Vec<Option<P::Cell>>,
    pub(crate) hands: u32,
}

impl<P: Plot> Model for Turnstile<P> {
    ghost use Rattle.std.specs.Prelude.{vec_capacity, ◌≡◌, ◌<◌, ◌≤◌, [], length};
    ghost use Rattle.eleos_turn.specs.Hands.{Home, home_of};

    ghost Value = { Home P.Part P.Ground };

    ghost view = { λ a. home_of P.terms a.cells.table.shared.table_id a.cells.table.shared.key };

    ghost invariant = { λ a. (a.room.items ≡ [])
        × (length a.cells.table.shared.key.cells.value.items ≤ vec_capacity a.room)
        × (a.hands ≡ a.cells.table.shared.key.hands) × (0 < a.hands) };
}

impl<P: Plot> Drop for Turnstile<P> {
    fn drop(self) {
        let Self {
            cells,
            room,
            hands: _,
        } = self;
        drop(cells);
        drop(room);
    }
}

// The links of a hand after an entry with this tie.
fn links_after(links: u64, tied: Tied) -> u64
    requires adds { tied ≡ Adds → links + 1 < 2 ^ 64 }
    requires takes { tied ≡ Takes → 0 < links }
    ensures { result ≡ tallied tied links }
{
    match tied {
        Tied::No => links,
        Tied::Adds => links + 1,
        Tied::Takes => links - 1,
    }
}

impl<P: Plot> Turnstile<P> {
    /// Takes the turn of a cell, and waits where somebody has it. `touch` marks the cell.
    pub fn take<R: Wait>(
        &self,
        rt: &R,
        hand: &mut Hand<P>,
        cell: u32,
        touch: bool,
    ) -> Taken<P::Cell>
        requires own { hand.old.home ≡ self.now }
        requires cell { cell < length self.now.base.opening }
        requires free { Has cell hand.old.turns → ⊥ }
        requires made { 0 < hand.old.number }
        ensures word { IsFree result.word }
        ensures plain { IsPlain result.word }
        ensures pins { times cell hand.old.pins ≤ pins_in result.word }
        ensures took { Took P.terms cell result.word hand.old result.value hand.new }
        ensures sound { IsSound P.terms hand.new }
    {
        let taken = self.cells.take(rt, &mut hand.seat, cell, touch);
        hand.turns += 1;
        taken
    }

    /// Takes the turn of a cell unless somebody has it.
    pub fn try_take(
        &self,
        hand: &mut Hand<P>,
        cell: u32,
        touch: bool,
    ) -> Result<Taken<P::Cell>, Busy>
        requires own { hand.old.home ≡ self.now }
        requires cell { cell < length self.now.base.opening }
        requires free { Has cell hand.old.turns → ⊥ }
        requires made { 0 < hand.old.number }
        ensures word { IfOk result (λ t. IsFree t.word) }
        ensures took { IfOk result (λ t. Took P.terms cell t.word hand.old t.value hand.new) }
        ensures busy { IfErr result (λ b. IsBusy b.word) }
        ensures plain { MatchResult result (λ t. IsPlain t.word) (λ b. IsPlain b.word) }
        ensures pins { MatchResult result
            (λ t. times cell hand.old.pins ≤ pins_in t.word)
            (λ b. times cell hand.old.pins ≤ pins_in b.word) }
        ensures refused { IfErr result (λ b. hand.new ≡ refused_at hand.old cell b.word) }
        ensures sound { IsSound P.terms hand.new }
    {
        match self.cells.attempt::<Tries>(&mut hand.seat, cell, touch) {
            Ok(taken) => {
                hand.turns += 1;
                Ok(taken)
            }
            Err(word) => {
                hand.refused = Refused {
                    count: hand.refused.count.saturating_add(1),
                    cell,
                    word,
                };
                Err(Busy { word })
            }
        }
    }

    /// Gives a turn back, with the value of the cell.
    pub fn give(&self, hand: &mut Hand<P>, cell: u32, value: P::Cell)
        requires own { hand.old.home ≡ self.now }
        requires held { Has cell hand.old.turns }
        requires right { P.terms.part value ≡ part_of P.terms hand.old cell }
        ensures given { hand.new ≡ without_turn hand.old cell }
        ensures sound { IsSound P.terms hand.new }
    {
        self.cells.hand_back(&mut hand.seat, cell, value);
        hand.turns -= 1;
    }

    /// Puts a pin on a cell whose turn the hand has.
    pub fn pin(&self, hand: &mut Hand<P>, cell: u32)
        requires own { hand.old.home ≡ self.now }
        requires held { Has cell hand.old.turns }
        requires few { length hand.old.pins < most_pins }
        ensures pinned { hand.new ≡ with_pin hand.old cell }
        ensures sound { IsSound P.terms hand.new }
    {
        self.cells.pin(&mut hand.seat, cell);
    }

    /// Takes off a pin that covers no link.
    pub fn unpin(&self, hand: &mut Hand<P>, cell: u32)
        requires own { hand.old.home ≡ self.now }
        requires cell { cell < length self.now.base.opening }
        requires free { Has cell hand.old.turns → ⊥ }
        requires pin { links_on P.terms hand.old cell < times cell hand.old.pins }
        ensures unpinned { hand.new ≡ without_pin hand.old cell }
        ensures sound { IsSound P.terms hand.new }
    {
        self.cells.unpin(&mut hand.seat, cell);
    }

    /// Clears the mark that the cell was touched. No clause speaks of the mark.
    pub fn unref(&self, hand: &mut Hand<P>, cell: u32)
        requires own { hand.old.home ≡ self.now }
        requires cell { cell < length self.now.base.opening }
        ensures { hand.new ≡ hand.old }
    {
        self.cells.unref(&mut hand.seat, cell);
    }

    /// The word of a cell, whoever has the turn.
    pub fn look(&self, hand: &mut Hand<P>, cell: u32) -> u64
        requires own { hand.old.home ≡ self.now }
        requires cell { cell < length self.now.base.opening }
        ensures noted { hand.new ≡ looked_at hand.old cell result }
        ensures busy { Has cell hand.old.turns → IsBusy result }
        ensures pins { times cell hand.old.pins ≤ pins_in result }
        ensures clean { Has cell hand.old.clean → pins_in result ≡ times cell hand.old.pins }
        ensures plain { IsPlain result }
        ensures sound { IsSound P.terms hand.new }
    {
        self.cells.look(&mut hand.seat, cell)
    }

    /// Puts an entry at the end of the history, and answers its place there.
    pub fn stamp(&self, hand: &mut Hand<P>, entry: &P::Draft) -> u64
        ghost kept: { List (ℕ × P.Part) }
        requires own { hand.old.home ≡ self.now }
        requires can { CanStamp P.terms hand.old entry.now kept }
        ensures stamped { Stamped P.terms entry.now kept hand.old result hand.new }
        ensures sound { IsSound P.terms hand.new }
    {
        let tied = P::tied(entry);
        let number = self.cells.stamp_as::<Brand>(&mut hand.seat, entry);
        hand.left -= 1;
        hand.links = links_after(hand.links, tied);
        number
    }

    /// A hand that has seen what this one has. It may take no turn and stamp nothing.
    pub fn split(&self, hand: &mut Hand<P>) -> Hand<P>
        requires own { hand.old.home ≡ self.now }
        ensures same { hand.new ≡ hand.old }
        ensures given { result ≡ split_of hand.old }
        ensures sound { IsSound P.terms result }
    {
        let seat = self.cells.observer(&mut hand.seat);
        Hand {
            seat,
            number: 0,
            left: 0,
            turns: 0,
            links: 0,
            refused: Refused::none(),
        }
    }

    /// From now on the hand has seen what the other has seen.
    pub fn join(&self, into: &mut Hand<P>, other: Hand<P>)
        requires own { into.old.home ≡ self.now }
        requires other { other.home ≡ self.now }
        requires split { other.number ≡ 0 }
        ensures heard { Heard P.terms into.old other into.new }
        ensures sound { IsSound P.terms into.new }
    {
        self.cells.observe(&mut into.seat, other.into_seat());
    }

    // The table, and the room that `make` took for the values.
    pub(crate) fn into_parts(self) -> (CellTable<P>, Vec<Option<P::Cell>>)
        ensures home { home_of P.terms result.0.table.shared.table_id result.0.table.shared.key
            ≡ self }
        ensures room { (result.1.items ≡ [])
            × (length result.0.table.shared.key.cells.value.items ≤ vec_capacity result.1) }
    {
        let Turnstile {
            cells,
            room,
            hands: _,
        } = self;
        (cells, room)
    }
}
