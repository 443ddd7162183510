//! The steps of one seat at the table. Hands are seats with a count of what they hold.
ghost use Rattle.std.specs.Prelude.{vec_capacity, ◌≡◌, ◌+◌, ◌*◌, ◌%◌, ◌<◌, ◌≤◌, ℕ, List, [], ◌∷◌};
ghost use Rattle.std.specs.Prelude.{◌++◌, length, MatchResult};
ghost use mathlib.Core.Option.{some};
ghost use lib.ListN.{get_elem?};
ghost use Rattle.eleos_base.specs.Ties.{Has};
ghost use Rattle.eleos_base.specs.Histories.{made};
ghost use Rattle.eleos_turn.specs.Rule.{IsSized, IsAtRest};
ghost use Rattle.eleos_base.specs.Words.{IsPlain, pins_in};

use crate::answers::Taken;
use crate::plays::{
    Absorb, BeginGive, CatchUp, EndTake, Give, Look, Observe, Pin, SplitObserver, Stamp, Take,
    Unpin, Unref,
};
use crate::slot::Slot;
use crate::view::{Asked, Key, Missed, Place, Turns, View, Waits};
use atomic_table::Table;
use crossbeam_utils::Backoff;
use eleos_base::{BUSY, Event, PIN, Plot, REF};
use std::alloc::Global;
use std::sync::Wait;

/// The words of two cells lie so many words apart: 64 bytes, a line of the processor's cache.
pub(crate) const APART: usize = 8;

pub(crate) type Shared<P> = Table<
    Slot<<P as Plot>::Cell>,
    View<<P as Plot>::Draft, <P as Plot>::Part, <P as Plot>::Ground>,
    Key<<P as Plot>::Cell, <P as Plot>::Ground>,
    Turns<P>,
    Global,
>;

/// The words and the slots of all cells.
pub(crate) struct CellTable<P: Plot> {
    pub(crate) table: Shared<P>,
    ghost sized: { IsSized table.shared.table_id table.shared.key },
}

impl<P: Plot> Drop for CellTable<P> {
    fn drop(self) {
        let Self { table } = self;
        drop(table);
    }
}

impl<P: Plot> CellTable<P> {
    ghost use Rattle.eleos_base.specs.declared.plot.Event.{Event};
    ghost use Rattle.eleos_base.specs.Histories.{linked};
    ghost use Rattle.eleos_turn.specs.Numbers.{times, longer};
    ghost use Rattle.eleos_turn.specs.Views.{freed, pinned, unpinned, observer_of, observed, joined};
    ghost use Rattle.eleos_turn.specs.Plays.{SeatTook, SeatStamped, SeatCanStamp, SeesMore, Shows};
    ghost use Rattle.eleos_turn.specs.Plays.{has_caught_up};

    pub(crate) fn into_shared(self) -> Shared<P>
        ensures table { result ≡ self.table }
        ensures sized { IsSized result.shared.table_id result.shared.key }
    {
        let CellTable { table } = self;
        table
    }

    // One try: the turn, or the word that showed it taken.
    pub(crate) fn attempt<N: Missed>(
        &self,
        seat: &mut Place<P>,
        cell: u32,
        touch: bool,
    ) -> Result<Taken<P::Cell>, u64>
        requires own { seat.old.table_id ≡ self.now.table.shared.table_id }
        requires cell { cell < length self.now.table.shared.key.cells.value.items }
        requires rests { IsAtRest seat.old.me }
        requires made { ((n : ℕ) × Has n seat.old.me.0.numbers) × (0 < seat.old.me.0.base.hands) }
        ensures same { (seat.new.table_id ≡ seat.old.table_id) × (seat.new.id ≡ seat.old.id)
            × IsAtRest seat.new.me }
        ensures took { MatchResult result
            (λ t. (t.word % 2 ≡ 0)
            × SeatTook P.terms cell t.word seat.old.me.0 t.value seat.new.me.0)
            (λ n. (n % 2 ≡ 1) × (seat.new.me ≡ (
              record seat.old.me.0 {
                tried =
                    (cell, n);
                misses = N.missed seat.old.me.0.misses;
              },
              seat.old.me.1,
            ))) }
        ensures plain { MatchResult result (λ t. IsPlain t.word) (λ n. IsPlain n) }
        ensures pins { MatchResult result (λ t. times cell seat.old.me.0.pins ≤ pins_in t.word)
            (λ n. times cell seat.old.me.0.pins ≤ pins_in n) }
    {
        let bits = if touch { BUSY + REF } else { BUSY };
        let word = self
            .table
            .shared
            .fetch_or::<Take<P, N>>(seat, (cell as usize + 1) * APART, bits);
        if word % 2 == 1 {
            return Err(word);
        }
        let slot = self
            .table
            .shared
            .exchange(seat, cell as usize, Slot::of(None));
        self.table
            .shared
            .load::<EndTake<P>>(seat, (cell as usize + 1) * APART);
        Ok(Taken {
            word,
            value: slot.into_value().unwrap(),
        })
    }

    // Tries again until the turn is free.
    pub(crate) fn take<R: Wait>(
        &self,
        rt: &R,
        seat: &mut Place<P>,
        cell: u32,
        touch: bool,
    ) -> Taken<P::Cell>
        requires own { seat.old.table_id ≡ self.now.table.shared.table_id }
        requires cell { cell < length self.now.table.shared.key.cells.value.items }
        requires rests { IsAtRest seat.old.me }
        requires made { ((n : ℕ) × Has n seat.old.me.0.numbers) × (0 < seat.old.me.0.base.hands) }
        ensures same { (seat.new.table_id ≡ seat.old.table_id) × (seat.new.id ≡ seat.old.id)
            × IsAtRest seat.new.me }
        ensures took { (result.word % 2 ≡ 0)
            × SeatTook P.terms cell result.word seat.old.me.0 result.value seat.new.me.0 }
        ensures plain { IsPlain result.word }
        ensures pins { times cell seat.old.me.0.pins ≤ pins_in result.word }
    {
        let backoff = Backoff::new();
        for _ in rt.forever() {
            if let Ok(taken) = self.attempt::<Waits>(seat, cell, touch) {
                return taken;
            }
            backoff.snooze();
        }
        unreachable!()
    }

    pub(crate) fn hand_back(&self, seat: &mut Place<P>, cell: u32, value: P::Cell)
        requires own { seat.old.table_id ≡ self.now.table.shared.table_id }
        requires cell { cell < length self.now.table.shared.key.cells.value.items }
        requires rests { IsAtRest seat.old.me }
        requires held { Has cell seat.old.me.0.held }
        requires right { (P.terms.part value
            ≡ made P.terms seat.old.me.0.base seat.old.me.0.seen cell)
            × (0 < seat.old.me.0.base.hands) }
        ensures same { (seat.new.table_id ≡ seat.old.table_id) × (seat.new.id ≡ seat.old.id) }
        ensures given { seat.new.me ≡ (freed seat.old.me.0 cell, []) }
    {
        self.table
            .shared
            .load::<BeginGive<P>>(seat, (cell as usize + 1) * APART);
        let empty = self
            .table
            .shared
            .exchange(seat, cell as usize, Slot::of(Some(value)));
        let None = empty.into_value() else {
            unreachable!()
        };
        self.table
            .shared
            .fetch_and::<Give<P>>(seat, (cell as usize + 1) * APART, u64::MAX - BUSY);
    }

    pub(crate) fn look(&self, seat: &mut Place<P>, cell: u32) -> u64
        requires own { seat.old.table_id ≡ self.now.table.shared.table_id }
        requires cell { cell < length self.now.table.shared.key.cells.value.items }
        ensures same { seat.new.table_id ≡ seat.old.table_id }
        ensures noted { seat.new.me ≡ (
          record seat.old.me.0 {
            looked =
                (cell, result);
            looks = seat.old.me.0.looks + 1;
          },
          seat.old.me.1,
        ) }
        ensures shows { Shows seat.old.me.0 cell result }
    {
        self.table
            .shared
            .load::<Look<P>>(seat, (cell as usize + 1) * APART)
    }

    pub(crate) fn stamp_as<N: Asked<P::Draft, P::Part>>(
        &self,
        seat: &mut Place<P>,
        entry: &P::Draft,
    ) -> u64
        requires own { seat.old.table_id ≡ self.now.table.shared.table_id }
        requires can { (e : Event P.Draft P.Part) × (N.asked ≡ e ∷ [])
            × SeatCanStamp P.terms seat.old.me.0 e × (0 < seat.old.me.0.base.hands) }
        ensures same { (seat.new.table_id ≡ seat.old.table_id) × (seat.new.id ≡ seat.old.id)
            × (seat.new.me.1 ≡ seat.old.me.1) }
        ensures stamped { (e : Event P.Draft P.Part) → N.asked ≡ e ∷ []
            → SeatStamped P.terms e seat.old.me.0 result seat.new.me.0 }
    {
        let _ = entry;
        self.table.shared.fetch_add::<Stamp<P, N>>(seat, 0, 1)
    }

    pub(crate) fn pin(&self, seat: &mut Place<P>, cell: u32)
        requires own { seat.old.table_id ≡ self.now.table.shared.table_id }
        requires cell { cell < length self.now.table.shared.key.cells.value.items }
        requires held { Has cell seat.old.me.0.held }
        requires few { length seat.old.me.0.pins < seat.old.me.0.most }
        ensures same { seat.new.table_id ≡ seat.old.table_id }
        ensures pinned { seat.new.me ≡ (pinned seat.old.me.0 cell, seat.old.me.1) }
    {
        self.table
            .shared
            .fetch_add::<Pin<P>>(seat, (cell as usize + 1) * APART, PIN);
    }

    pub(crate) fn unpin(&self, seat: &mut Place<P>, cell: u32)
        requires own { seat.old.table_id ≡ self.now.table.shared.table_id }
        requires cell { cell < length self.now.table.shared.key.cells.value.items }
        requires pin { (0 < times cell seat.old.me.0.pins)
            × ((k : ℕ) → Has k seat.old.me.0.numbers
            → linked P.terms seat.old.me.0.base.grounds seat.old.me.0.seen k cell < times cell seat.old.me.0.pins) }
        requires alive { 0 < seat.old.me.0.base.hands }
        ensures same { seat.new.table_id ≡ seat.old.table_id }
        ensures unpinned { seat.new.me ≡ (unpinned seat.old.me.0 cell, seat.old.me.1) }
    {
        self.table
            .shared
            .fetch_sub::<Unpin<P>>(seat, (cell as usize + 1) * APART, PIN);
    }

    pub(crate) fn unref(&self, seat: &mut Place<P>, cell: u32)
        requires own { seat.old.table_id ≡ self.now.table.shared.table_id }
        requires cell { cell < length self.now.table.shared.key.cells.value.items }
        ensures same { seat.new.table_id ≡ seat.old.table_id }
        ensures view { seat.new.me ≡ seat.old.me }
    {
        self.table
            .shared
            .fetch_and::<Unref<P>>(seat, (cell as usize + 1) * APART, u64::MAX - REF);
    }

    // A second seat that has seen as much.
    pub(crate) fn observer(&self, seat: &mut Place<P>) -> Place<P>
        requires own { seat.old.table_id ≡ self.now.table.shared.table_id }
        ensures same { (seat.new.table_id ≡ seat.old.table_id) × (seat.new.me ≡ seat.old.me) }
        ensures given { (result.table_id ≡ seat.old.table_id)
            × (result.me ≡ (observer_of seat.old.me.0, [])) }
    {
        self.table.shared.split_seat::<SplitObserver>(seat)
    }

    // From now on the seat has the numbers of the other, and has seen what it has seen.
    pub(crate) fn absorb(&self, seat: &mut Place<P>, other: Place<P>)
        requires own { (seat.old.table_id ≡ self.now.table.shared.table_id)
            × (other.table_id ≡ self.now.table.shared.table_id) }
        requires idle { (other.me.1 ≡ []) × (other.me.0.held ≡ [])
            × (0 < seat.old.me.0.base.hands) }
        ensures same { (seat.new.table_id ≡ seat.old.table_id) × (seat.new.id ≡ seat.old.id)
            × (seat.new.me.1 ≡ seat.old.me.1) }
        ensures heard { (more : List (Event P.Draft P.Part))
            × (seat.new.me.0 ≡ record
            (joined seat.old.me.0 other.me.0) { seen = longer seat.old.me.0.seen other.me.0.seen ++ more; told = [] }) }
        ensures begins { ((more : List (Event P.Draft P.Part))
            × (seat.new.me.0.seen ≡ seat.old.me.0.seen ++ more)) × ((more : List
            (Event P.Draft P.Part)) × (seat.new.me.0.seen ≡ other.me.0.seen ++ more)) }
    {
        self.table.shared.join_seat::<Absorb<P>>(seat, other);
        self.table.shared.load::<CatchUp<P>>(seat, 0);
    }

    // From now on the seat has seen the whole history, and what the other has seen begins it.
    pub(crate) fn observe(&self, seat: &mut Place<P>, other: Place<P>)
        requires own { (seat.old.table_id ≡ self.now.table.shared.table_id)
            × (other.table_id ≡ self.now.table.shared.table_id) }
        requires idle { (other.me.1 ≡ []) × (other.me.0.held ≡ []) × (other.me.0.numbers ≡ [])
            × (0 < seat.old.me.0.base.hands) }
        ensures same { (seat.new.table_id ≡ seat.old.table_id) × (seat.new.id ≡ seat.old.id)
            × (seat.new.me.1 ≡ seat.old.me.1) }
        ensures heard { (more : List (Event P.Draft P.Part))
            × (seat.new.me.0 ≡ record
            (observed seat.old.me.0 other.me.0) { seen = seat.old.me.0.seen ++ more; told = [] })
            × SeesMore P.terms (observed seat.old.me.0 other.me.0) more × (length (seat.old.me.0.seen
            ++ more) + seat.new.me.0.left ≤ seat.new.me.0.base.hands * seat.new.me.0.base.each) }
        ensures begins { (rest : List (Event P.Draft P.Part))
            × (seat.new.me.0.seen ≡ other.me.0.seen ++ rest) }
    {
        self.table.shared.join_seat::<Observe<P>>(seat, other);
        self.table.shared.load::<CatchUp<P>>(seat, 0);
    }

    // From now on the seat has seen the whole history.
    pub(crate) fn catch_up(&self, seat: &mut Place<P>)
        requires own { seat.old.table_id ≡ self.now.table.shared.table_id }
        requires alive { 0 < seat.old.me.0.base.hands }
        ensures same { seat.new.table_id ≡ seat.old.table_id }
        ensures heard { has_caught_up P.terms seat.old.me seat.new.me }
    {
        self.table.shared.load::<CatchUp<P>>(seat, 0);
    }
}

// The values of all cells, once one seat has every number and no turn.
pub(crate) fn emptied<P: Plot>(
    table: Shared<P>,
    seat: Place<P>,
    room: Vec<Option<P::Cell>>,
) -> Vec<Option<P::Cell>>
    requires own { seat.table_id ≡ table.shared.table_id }
    requires sized { IsSized table.shared.table_id table.shared.key }
    requires idle { (seat.me.0.held ≡ []) × (0 < seat.me.0.base.hands) }
    requires all { (n : ℕ) → 0 < n → n ≤ table.shared.key.hands → Has n seat.me.0.numbers }
    requires room { (room.items ≡ [])
        × (length table.shared.key.cells.value.items ≤ vec_capacity room) }
    ensures count { length result.items ≡ length table.shared.key.cells.value.items }
    ensures cells { (c : ℕ) → c < length table.shared.key.cells.value.items
        → (x : P.Cell) × (get_elem? result.items c ≡ some (Some x))
        × (P.terms.part x ≡ made P.terms seat.me.0.base seat.me.0.seen c) }
{
    let mut room = room;
    let mut closed = table.close_with(seat);
    let count = closed.slot_count();
    for i in 0..count {
        let slot = closed.take(i);
        let Ok(()) = room.push(slot.into_value()) else {
            unreachable!()
        };
    }
    closed.free();
    room
}
