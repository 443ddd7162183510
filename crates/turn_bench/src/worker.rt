//! Workers: each makes its rounds at a cell of its own.
ghost use Rattle.std.specs.Prelude.{◌≡◌, ◌<◌, ◌≤◌, [], length, IfSome};
ghost use Rattle.eleos_turn.specs.Hands.{dealt};
ghost use Rattle.turn_bench.specs.Workers.{IsReady, AreReady};

use crate::tally::{Raise, Tallies};
use eleos_turn::{Hand, Taken, Turnstile};
use std::sync::Wait;

/// What one thread works with: its hand, the hand's number, and its cell.
#[derive(Drop)]
pub struct Worker {
    pub hand: Hand<Tallies>,
    pub by: u32,
    pub cell: u32,
}

#[derive(Drop)]
pub struct Workers {
    pub first: Worker,
    pub second: Worker,
    pub third: Worker,
    pub fourth: Worker,
}

/// A worker for each of four hands, if there are four. Each has a cell of its own, and their cells
/// are this many numbers from one another.
pub fn deal_out(
    all: &Turnstile<Tallies>,
    hands: Vec<Hand<Tallies>>,
    distance: u32,
) -> Option<Workers>
    requires hands { hands.items ≡ dealt all.now 0 4 }
    requires cells { length all.now.base.opening ≡ 64 }
    requires some { 1 ≤ distance }
    requires most { distance ≤ 16 }
    ensures ready { IfSome result (λ w. AreReady all.now w) }
{
    let _ = all;
    let mut hands = hands;
    let fourth = make_worker(hands.pop()?, 4, distance);
    let third = make_worker(hands.pop()?, 3, distance);
    let second = make_worker(hands.pop()?, 2, distance);
    let first = make_worker(hands.pop()?, 1, distance);
    Some(Workers {
        first,
        second,
        third,
        fourth,
    })
}

fn make_worker(hand: Hand<Tallies>, by: u32, distance: u32) -> Worker
    requires by { (0 < by) × (by ≤ 4) }
    requires distance { (1 ≤ distance) × (distance ≤ 16) }
    ensures hand { result.hand ≡ hand }
    ensures by { result.by ≡ by }
    ensures cell { result.cell < 64 }
{
    Worker {
        hand,
        by,
        cell: by * distance - 1,
    }
}

// One round: takes the cell's turn, stamps an entry and gives the turn back. Answers the count
// then.
// None where no stamp is left or the count is at its greatest.
fn round<R: Wait>(
    rt: &R,
    all: &Turnstile<Tallies>,
    hand: &mut Hand<Tallies>,
    by: u32,
    cell: u32,
) -> Option<u64>
    requires own { hand.old.home ≡ all.now }
    requires cell { cell < length all.now.base.opening }
    requires idle { hand.old.turns ≡ [] }
    requires named { hand.old.number ≡ by }
    requires made { 0 < by }
    ensures own { hand.new.home ≡ hand.old.home }
    ensures idle { hand.new.turns ≡ [] }
    ensures named { hand.new.number ≡ hand.old.number }
{
    if hand.left() == 0 {
        return None;
    }
    let Taken { word: _, mut value } = all.take(rt, hand, cell, false);
    if value.count == u64::MAX {
        all.give(hand, cell, value);
        return None;
    }
    let _ = all.stamp(hand, &Raise { by, cell });
    value.count += 1;
    let count = value.count;
    all.give(hand, cell, value);
    Some(count)
}

/// Makes the rounds, and answers the count of the cell after the last.
pub fn run<R: Wait>(rt: &R, all: &Turnstile<Tallies>, worker: Worker, rounds: u64) -> u64
    requires ready { IsReady all.now worker }
{
    let Worker { mut hand, by, cell } = worker;
    let mut count = 0;
    for _ in 0..rounds {
        let Some(raised) = round(rt, all, &mut hand, by, cell) else {
            return count;
        };
        count = raised;
    }
    count
}
