// The words that crossed a port one way since `glance`, told while they are few.
ghost use Rattle.std.specs.Prelude.{◌≡◌};
ghost use Rattle.eleos_words.specs.Told.{none_yet, with_word};

use std::array;
use std::marker::Model;
use std::snapshot::Snapshot;

/// The most words of either way that a port tells.
pub const MOST_TOLD: usize = 136;

// One of them. The word is for contracts alone and takes no room.
#[derive(Drop)]
struct Crossing {
    at: u32,
    word: Snapshot<u64>,
}

/// The words that a port loaded, or stored, since `glance`, in order.
/// They are told while there are at most `MOST_TOLD`.
#[derive(Drop)]
pub struct ToldWords {
    told: [Crossing; MOST_TOLD],
    count: usize,
}

// Clauses see the list, where it is told.
impl Model for ToldWords {
    ghost use Rattle.std.specs.Prelude.{List, Option, ◌+◌, ◌≤◌};
    ghost use Rattle.eleos_words.specs.Told.{Placed};

    ghost Value = { Option (List Placed) };

    ghost use Rattle.eleos_words.specs.declared.told.TheConstants.{MOST_TOLD};
    ghost use Rattle.eleos_words.specs.ToldParts.{told_of};

    ghost view = { told_of };

    ghost invariant = { λ c. c.count ≤ MOST_TOLD + 1 };
}

impl ToldWords {
    /// None so far.
    pub fn new() -> Self
        ensures { result ≡ none_yet }
    {
        ToldWords {
            told: array::from_fn(|_| Crossing {
                at: 0,
                word: Snapshot::of(&0),
            }),
            count: 0,
        }
    }

    /// None any more.
    pub fn clear(&mut self)
        ensures { self.new ≡ none_yet }
    {
        self.count = 0;
    }

    /// One more at the end.
    pub fn add(&mut self, at: u32, word: u64)
        ensures { self.new ≡ with_word self.old at word }
    {
        if self.count < MOST_TOLD {
            self.told[self.count] = Crossing {
                at,
                word: Snapshot::of(&word),
            };
            self.count += 1;
        } else {
            self.count = MOST_TOLD + 1;
        }
    }
}
