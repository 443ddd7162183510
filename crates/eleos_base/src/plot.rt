//! What a turnstile is told of its cells and entries.

ghost use Rattle.std.specs.Prelude.{◌≡◌};
ghost use Rattle.eleos_base.specs.Ties.{Tie, tied_is};
ghost use Rattle.eleos_base.specs.Terms.{Terms, IsLocal};

use std::collections::LinkedList;

/// How an entry changes the links of its hand.
#[derive(Clone, Copy, PartialEq, Eq)]
pub enum Tied {
    No,
    Adds,
    Takes,
}

/// An entry of the history, and the parts that it leaves in the cells of its foot. No value of it
/// is made.
pub struct Event<D, Q> {
    pub entry: D,
    pub kept: LinkedList<(u32, Q)>,
}

/// What is fixed when a turnstile is made. No value of it is made.
pub struct Base<Q, G> {
    pub grounds: G,
    pub opening: LinkedList<Q>,
    pub hands: u64,
    pub each: u64,
}

pub trait Plot {
    /// What a cell holds.
    type Cell: Drop;
    /// The room of one entry, which contracts see as that entry.
    type Draft;
    /// What the history fixes of a cell. No value of it is made.
    type Part;
    /// What never changes.
    type Ground;

    // What cells and entries mean.
    ghost terms: { Terms Self.Cell Self.Draft Self.Part Self.Ground };

    fn tied(draft: &Self::Draft) -> Tied
        ensures { (g : Self.Ground) → result ≡ tied_is (terms.tie g draft.now) };

    // A step reads and changes the parts of its foot alone.
    ghost local: { IsLocal terms };
}
