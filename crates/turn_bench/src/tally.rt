//! Cells that hold a count, each raised by one at each entry on it.
use eleos_base::{Plot, Tied};

#[derive(Drop)]
pub struct Tally {
    pub count: u64,
}

/// The hand that makes the entry, and the cell that it raises.
#[derive(Drop)]
pub struct Raise {
    pub by: u32,
    pub cell: u32,
}

pub struct Tallies;

impl Plot for Tallies {
    ghost use Rattle.std.specs.Prelude.{◌≡◌, ℕ, ◌+◌, [], ◌∷◌};
    ghost use Rattle.std.proofs.Common.{sym, refl, ap, ◌∙◌, inl};
    ghost use Rattle.eleos_base.specs.Ties.{neither};

    type Cell = Tally;

    type Draft = Raise;

    type Part = u64;

    type Ground = ();

    ghost terms = { record { part = λ c. c.count; blank = 0; nowhere = tt; who = λ e. e.by; foot = λ _ e. e.cell ∷ []; step = λ _ e b a. a e.cell ≡ b e.cell + 1; bare = λ _ _. []; tie = λ _ _. neither } };

    fn tied(_draft: &Raise) -> Tied {
        Tied::No
    }

    ghost local = { λ g e b a b' a' same h. let s = same e.cell (inl refl) in s.1 ∙
        (h ∙ ap (λ n. n + 1) (sym s.0)) };
}
