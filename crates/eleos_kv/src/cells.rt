// The cells of the shards' turnstile, and what it is told of them.

use crate::KvEntry;
use eleos_base::{Plot, Tied};
use eleos_host::HostPort;
use eleos_machine::RestPass;
use eleos_shard::Shard;
use std::marker::{Model, PhantomData};

/// A shard, with the pass of its caller of the machine, at rest. Taps of ports of this type are
/// what its commands reach the host by.
#[derive(Drop)]
pub struct ShardCell<P: HostPort> {
    pub(crate) rest: RestPass,
    pub(crate) shard: Shard,
    pub(crate) port: PhantomData<P>,
}

impl<P: HostPort> Model for ShardCell<P> {
    ghost use Rattle.eleos_kv.specs.Cells.{CellState, IsCell};

    ghost Value = { CellState };

    ghost view = { λ c. record { pass = c.rest; shard = c.shard } };

    ghost invariant = { λ c. IsCell P.gave P.took (record { pass = c.rest; shard = c.shard }) };
}

/// What the history of commands fixes of a cell. No value of it is made.
pub struct CellFacts {}

impl Model for CellFacts {
    ghost use Rattle.eleos_kv.specs.Cells.{ShardPart, no_shard};

    ghost Value = { ShardPart };

    ghost view = { λ _. no_shard };
}

/// The shards, as a turnstile is told of them.
pub struct KvPlot<P> {
    port: PhantomData<P>,
}

impl<P: HostPort> Plot for KvPlot<P> {
    ghost use Rattle.std.specs.Prelude.{[], ◌∷◌};
    ghost use Rattle.std.proofs.Common.{inl, refl};
    ghost use Rattle.eleos_kv.specs.Terms.{cell_of, kv_terms, step_by};

    type Cell = ShardCell<P>;

    type Draft = KvEntry;

    type Part = CellFacts;

    type Ground = u64;

    ghost terms = { kv_terms };

    fn tied(_draft: &KvEntry) -> Tied {
        Tied::No
    }

    ghost local = { λ g e b a b' a' same h. let s = same (cell_of g e) (inl refl) in
        step_by e.command.act e.reply _ _ _ _ s.0 s.1 h };
}
