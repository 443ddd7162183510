// The blocks that crossed a port one way since `begin`, told while they are few.
ghost use Rattle.std.specs.Prelude.{◌≡◌};
ghost use Rattle.eleos_host.specs.Blocks.{IsBlock};
ghost use Rattle.eleos_host.specs.Crossings.{none_yet, with_crossing};

use crate::block::{Block, ZEROS};
use std::array;
use std::marker::Model;
use std::snapshot::Snapshot;

/// The most blocks of either way that a port tells.
pub const MOST_TOLD: usize = 4;

// One of them. Its bytes are for contracts alone and take no room.
#[derive(Drop)]
struct Crossing {
    place: u32,
    block: Snapshot<Block>,
}

/// The blocks that a port gave, or took, since `begin`, in order.
/// They are told while there are at most `MOST_TOLD`.
/// A port keeps one for each way. It takes no memory and copies no block.
#[derive(Drop)]
pub struct Crossings {
    told: [Crossing; MOST_TOLD],
    count: usize,
}

// Clauses see the list, where it is told.
impl Model for Crossings {
    ghost use Rattle.std.specs.Prelude.{List, Option, ◌+◌, ◌≤◌};
    ghost use Rattle.eleos_host.specs.Crossings.{Placed};

    ghost Value = { Option (List Placed) };

    ghost use Rattle.eleos_host.specs.declared.crossings.TheConstants.{MOST_TOLD};
    ghost use Rattle.eleos_host.specs.Tallies.{told_of};

    ghost view = { told_of };

    ghost invariant = { λ c. c.count ≤ MOST_TOLD + 1 };
}

impl Crossings {
    /// None so far.
    pub fn new() -> Self
        ensures { result ≡ none_yet }
    {
        Crossings {
            told: array::from_fn(|_| Crossing {
                place: 0,
                block: Snapshot::of(&ZEROS),
            }),
            count: 0,
        }
    }

    /// One more at the end.
    pub fn add(&mut self, place: u32, block: &[u8])
        requires { IsBlock block.now }
        ensures { self.new ≡ with_crossing self.old place block.now }
    {
        if self.count < MOST_TOLD {
            self.told[self.count] = Crossing {
                place,
                block: remembered(block),
            };
            self.count += 1;
        } else {
            self.count = MOST_TOLD + 1;
        }
    }
}

// The block, for contracts alone.
fn remembered(block: &[u8]) -> Snapshot<Block>
    requires { IsBlock block.now }
    ensures { result.value ≡ block.now }
{
    Snapshot::of(block.as_array().unwrap())
}
