//! What a seat knows, and the rule of the table.
//! Word 0 is the length of the history. The word of a cell is odd while somebody has its turn; it
//! lies
//! in a line of the processor's cache of its own, as word 0 does.
//! The slot c has the cell's value, and is empty while somebody has its turn.
ghost use Rattle.std.specs.Prelude.{ℕ, ◌+◌, List, []};
ghost use Rattle.eleos_base.specs.declared.plot.Event.{Event};

use crate::slot::Slot;
use crate::told::Told;
use atomic_table::{Seat, TableRule};
use eleos_base::{Base, Event, Plot};
use std::collections::LinkedList;
use std::marker::{Brand, PhantomData};
use std::snapshot::Snapshot;

/// What a seat knows. No value of it is made.
pub struct View<D, Q, G> {
    pub base: Base<Q, G>,
    /// The numbers under which it may stamp.
    pub numbers: LinkedList<u32>,
    /// A beginning of the history.
    pub seen: LinkedList<Event<D, Q>>,
    /// The cells whose turns it has.
    pub held: LinkedList<u32>,
    /// Those among them that were taken with a word without pins.
    pub clean: LinkedList<u32>,
    /// 0, or 1 more than the cell whose slot it carries.
    pub moving: u64,
    /// The cell of each pin that it has.
    pub pins: LinkedList<u32>,
    /// Another beginning of the history, of which it was told.
    pub told: LinkedList<Event<D, Q>>,
    /// The cell that it looked at last, and the word that it found.
    pub looked: (u32, u64),
    /// How often it looked.
    pub looks: u64,
    /// The cell whose turn it tried to take last, and the word that it found.
    pub tried: (u32, u64),
    /// How many tries found a cell busy, those of a take that waits left out.
    pub misses: u64,
    /// The stamps that it may still make.
    pub left: u64,
    /// How many pins it may have.
    pub most: u64,
}

/// What is fixed when the table is made.
pub struct Key<C, G> {
    pub cells: Snapshot<Vec<C>>,
    /// The ground, as a list of one.
    pub grounds: Snapshot<Told<G>>,
    pub hands: u64,
    pub each: u64,
}

impl<C, G> Drop for Key<C, G> {
    fn drop(self) {
        let Self {
            cells,
            grounds,
            hands: _,
            each: _,
        } = self;
        drop(cells);
        drop(grounds);
    }
}

pub struct Turns<P> {
    plot: PhantomData<P>,
}

impl<P: Plot> TableRule<Slot<P::Cell>, View<P::Draft, P::Part, P::Ground>, Key<P::Cell, P::Ground>>
    for Turns<P> {
    ghost use Rattle.eleos_turn.specs.Rule.{Kept, base_of};
    ghost use Rattle.eleos_turn.specs.Views.{dealing};

    ghost holds = { λ k. Kept P.terms (base_of P.terms k) };

    ghost first = { λ k. dealing (base_of P.terms k) 0 k.hands };
}

/// A seat at the table of a plot.
pub type Place<P> = Seat<
    Slot<<P as Plot>::Cell>,
    View<<P as Plot>::Draft, <P as Plot>::Part, <P as Plot>::Ground>,
>;

/// How many tries have found a cell busy, after one more did.
pub trait Missed {
    ghost missed: { ℕ → ℕ };
}

/// A try of a take that waits is not counted: it will be made again.
pub(crate) struct Waits;

impl Missed for Waits {
    ghost missed = { λ n. n };
}

/// A try that is answered is counted.
pub(crate) struct Tries;

impl Missed for Tries {
    ghost missed = { λ n. n + 1 };
}

/// The event that a stamp adds, or none.
pub trait Asked<D, Q> {
    ghost asked: { List (Event D Q) };
}

impl<D, Q> Asked<D, Q> for Brand {
    ghost asked = { [] };
}
