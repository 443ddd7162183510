//! A row of counters, a small client of the turnstile: an entry adds 1 to one or two of them.
//! The tests run it, and edits of it show what the calls refuse.
ghost use Rattle.std.specs.Prelude.{◌≡◌, ◌+◌, ◌<◌, [], length, IfErr};
ghost use Rattle.eleos_turn.specs.Hands.{looked_at};
ghost use Rattle.eleos_base.specs.Words.{IsBusy};
ghost use Rattle.turn_tests.specs.Row.{IsReady};

use eleos_base::{Plot, Tied};
use eleos_turn::{Busy, Hand, Taken, Turnstile};
use std::sync::Wait;

#[derive(Drop)]
pub struct Counter {
    pub count: u64,
}

/// The hand that makes the entry, and the counters that it raises.
#[derive(Drop)]
pub struct Raise {
    pub by: u32,
    pub first: u32,
    pub second: Option<u32>,
}

pub struct Counters;

/// A row of counters that threads share.
pub type Row = Turnstile<Counters>;

/// A hand of such a row.
pub type RowHand = Hand<Counters>;

impl Plot for Counters {
    ghost use Rattle.std.specs.Prelude.{◌+◌};
    ghost use Rattle.std.proofs.Common.{sym, ap, ◌∙◌};
    ghost use Rattle.turn_tests.specs.Row.{row};

    type Cell = Counter;

    type Draft = Raise;

    type Part = u64;

    type Ground = ();

    ghost terms = { row };

    fn tied(_draft: &Raise) -> Tied {
        Tied::No
    }

    ghost local = { λ g e b a b' a' same h c in_foot. let s = same c in_foot in s.1 ∙
        (h c in_foot ∙ ap (λ n. n + 1) (sym s.0)) };
}

/// Looks at a cell twice, and answers what it found.
pub fn look_twice(all: &Row, hand: &mut RowHand, cell: u32) -> (u64, u64)
    requires own { hand.old.home ≡ all.now }
    requires cell { cell < length all.now.base.opening }
    ensures { hand.new ≡ looked_at (looked_at hand.old cell result.0) cell result.1 }
{
    let first = all.look(hand, cell);
    let second = all.look(hand, cell);
    (first, second)
}

/// Tries the turn of a cell, and again where somebody has it.
pub fn try_twice(all: &Row, hand: &mut RowHand, cell: u32) -> Result<Taken<Counter>, Busy>
    requires own { hand.old.home ≡ all.now }
    requires cell { cell < length all.now.base.opening }
    requires idle { hand.old.turns ≡ [] }
    requires made { 0 < hand.old.number }
    ensures busy { IfErr result (λ b. IsBusy b.word) }
    ensures steps { IfErr result (λ _. hand.new.misses ≡ hand.old.misses + 2) }
{
    match all.try_take(hand, cell, false) {
        Ok(taken) => Ok(taken),
        Err(_) => all.try_take(hand, cell, false),
    }
}

/// Adds 1 to the first counter, and answers the stamp. None where no stamp is left or it is full.
pub fn raise_one<R: Wait>(rt: &R, all: &Row, hand: &mut RowHand) -> Option<u64>
    requires ready { IsReady hand.old all.now }
    ensures ready { IsReady hand.new all.now }
    ensures number { hand.new.number ≡ hand.old.number }
{
    if hand.left() == 0 {
        return None;
    }
    let Taken { word: _, mut value } = all.take(rt, hand, 0, true);
    if value.count == u64::MAX {
        all.give(hand, 0, value);
        return None;
    }
    let entry = Raise {
        by: hand.number(),
        first: 0,
        second: None,
    };
    let place = all.stamp(hand, &entry);
    value.count += 1;
    all.give(hand, 0, value);
    Some(place)
}

/// Adds 1 to both counters, and answers the stamp. None where no stamp is left or one is full.
pub fn raise_two<R: Wait>(rt: &R, all: &Row, hand: &mut RowHand) -> Option<u64>
    requires ready { IsReady hand.old all.now }
    ensures ready { IsReady hand.new all.now }
    ensures number { hand.new.number ≡ hand.old.number }
{
    if hand.left() == 0 {
        return None;
    }
    let Taken {
        word: _,
        value: mut one,
    } = all.take(rt, hand, 0, true);
    let Taken {
        word: _,
        value: mut two,
    } = all.take(rt, hand, 1, true);
    if one.count == u64::MAX || two.count == u64::MAX {
        all.give(hand, 1, two);
        all.give(hand, 0, one);
        return None;
    }
    let entry = Raise {
        by: hand.number(),
        first: 0,
        second: Some(1),
    };
    let stamp = all.stamp(hand, &entry);
    one.count += 1;
    two.count += 1;
    all.give(hand, 1, two);
    all.give(hand, 0, one);
    Some(stamp)
}

/// Makes 1,000 entries, every second one on both counters, and keeps their stamps.
pub fn raise_many<R: Wait>(
    rt: &R,
    all: &Row,
    hand: RowHand,
    stamps: Vec<u64>,
) -> (RowHand, Vec<u64>)
    requires ready { IsReady hand all.now }
    ensures { result.0.home ≡ hand.home }
{
    let mut hand = hand;
    let mut stamps = stamps;
    for i in 0..1000u32 {
        let made = if i % 2 == 0 {
            raise_one(rt, all, &mut hand)
        } else {
            raise_two(rt, all, &mut hand)
        };
        if let Some(stamp) = made {
            let _ = stamps.push(stamp);
        }
    }
    (hand, stamps)
}
