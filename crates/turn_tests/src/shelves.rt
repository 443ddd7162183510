//! Cells that hold a hand of another turnstile at rest: a small client, which the tests run.
ghost use Rattle.std.specs.Prelude.{◌≡◌, ◌<◌, [], length, IfSome};

use crate::counters::{Counters, Raise};
use eleos_base::{Plot, Tied};
use eleos_turn::{Hand, RestHand, Taken, Turnstile};
use std::sync::Wait;

#[derive(Drop)]
pub struct Shelf {
    pub count: u64,
    pub rest: Option<RestHand<Counters>>,
}

pub struct Shelves;

impl Plot for Shelves {
    ghost use Rattle.std.specs.Prelude.{[]};
    ghost use Rattle.eleos_base.specs.Ties.{neither};

    type Cell = Shelf;

    type Draft = Raise;

    type Part = u64;

    type Ground = ();

    ghost terms = { record { part = λ c. c.count; blank = 0; nowhere = tt; who = λ e. e.by; foot = λ _ e. []; step = λ _ e b a. Unit {0}; bare = λ _ _. []; tie = λ _ _. neither } };

    fn tied(_draft: &Raise) -> Tied {
        Tied::No
    }

    ghost local = { λ g e b a b' a' same h. h };
}

/// Lays a hand into the cell, and wakes the one that lay there.
pub fn lay<R: Wait>(
    rt: &R,
    shelves: &Turnstile<Shelves>,
    porter: &mut Hand<Shelves>,
    cell: u32,
    hand: Hand<Counters>,
) -> Option<Hand<Counters>>
    requires own { porter.old.home ≡ shelves.now }
    requires cell { cell < length shelves.now.base.opening }
    requires idle { porter.old.turns ≡ [] }
    requires made { 0 < porter.old.number }
    requires rests { hand.turns ≡ [] }
    ensures own { porter.new.home ≡ porter.old.home }
    ensures idle { porter.new.turns ≡ [] }
    ensures made { porter.new.number ≡ porter.old.number }
    ensures woken { IfSome result (λ old. old.turns ≡ []) }
{
    let Taken { word: _, value } = shelves.take(rt, porter, cell, true);
    let Shelf { count, rest } = value;
    let shelf = Shelf {
        count,
        rest: Some(hand.rest()),
    };
    shelves.give(porter, cell, shelf);
    match rest {
        Some(old) => Some(old.wake()),
        None => None,
    }
}
