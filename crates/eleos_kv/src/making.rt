// The shards are made of the passes of a machine's callers.
ghost use Rattle.std.specs.Prelude.{◌≡◌, ◌+◌, ◌<◌, ◌≤◌, ◌^◌, ℕ, map, length, IfOk};
ghost use Rattle.eleos_base.specs.Plans.{IsCaller};
ghost use Rattle.eleos_machine.specs.Closing.{hands_of};
ghost use Rattle.eleos_machine.specs.Machines.{IsMachine, plan_at};
ghost use Rattle.eleos_turn.specs.Hands.{dealt, fresh};
ghost use Rattle.eleos_kv.specs.Cells.{shard_part};
ghost use Rattle.eleos_kv.specs.Making.{AreNewCells, client_stamps};
ghost use Rattle.eleos_kv.specs.Serving.{IsNewPart};

use crate::{KvHand, KvPlot, KvShards, ShardCell};
use eleos_base::{NoMemory, Plot, Sealer};
use eleos_host::HostPort;
use eleos_machine::{Machine, Pass};
use eleos_shard::Shard;
use eleos_turn::{Hand, Turnstile};
use std::alloc::Global;
use std::marker::PhantomData;

/// Stamps of each client's hand.
const STAMPS: u64 = 1 << 35;

/// The cell of a shard without a key.
fn cell_of<S: Sealer, P: HostPort>(
    alloc: Global,
    _machine: &Machine<S>,
    pass: Pass,
) -> Result<ShardCell<P>, NoMemory>
    requires caller { IsCaller (plan_at _machine.now) pass.hand.number }
    requires unused { pass.hand ≡ fresh _machine.now pass.hand.number }
    ensures { IfOk result (λ cell. (i : ℕ) → pass.hand.number ≡ i + 1
        → IsNewPart _machine.now i (shard_part cell)) }
{
    let shard = Shard::make(alloc)?;
    Ok(ShardCell {
        rest: pass.rest(),
        shard,
        port: PhantomData,
    })
}

/// The cells of the shards, one for each caller's pass.
fn cells_of<S: Sealer, P: HostPort>(
    alloc: Global,
    machine: &Machine<S>,
    callers: Vec<Pass>,
) -> Result<Vec<ShardCell<P>>, NoMemory>
    requires { hands_of callers.items ≡ dealt machine.now 0 (length (plan_at machine.now).callers) }
    ensures new { IfOk result (λ cells. AreNewCells machine.now 0 cells.items) }
    ensures count { IfOk result (λ cells. length cells.items
        ≡ length (plan_at machine.now).callers) }
{
    let mut cells = Vec::with_capacity(alloc, callers.len())?;
    for pass in callers {
        cells.push(cell_of(alloc, machine, pass)?)?;
    }
    Ok(cells)
}

/// What never changes for so many shards.
trait Counted: Plot {
    ghost grounds: { ℕ → Self.Ground };
}

impl<P: HostPort> Counted for KvPlot<P> {
    ghost grounds = { λ shards. shards };
}

/// Opens a turnstile on this ground, which is picked by the number of shards.
fn open_on<P: Plot>(
    alloc: Global,
    cells: Vec<P::Cell>,
    _shards: u32,
    clients: u32,
) -> Result<(Turnstile<P>, Vec<Hand<P>>), NoMemory>
    ghost grounds: { P.Ground }
    requires clients { (0 < clients) × (clients ≤ 8) }
    requires few { length cells.items ≤ 8 }
    ensures base { IfOk result (λ r. r.0.base ≡ record {
      grounds = grounds;
      opening = map P.terms.part cells.items;
      hands = clients;
      each = client_stamps;
    }) }
    ensures hands { IfOk result (λ r. r.1.items ≡ dealt r.0 0 clients) }
{
    Turnstile::<P>::make(alloc, cells, clients, STAMPS)
}

/// Opens the turnstile over the cells of so many shards.
fn open<P: Counted>(
    alloc: Global,
    cells: Vec<P::Cell>,
    shards: u32,
    clients: u32,
) -> Result<(Turnstile<P>, Vec<Hand<P>>), NoMemory>
    requires clients { (0 < clients) × (clients ≤ 8) }
    requires few { length cells.items ≤ 8 }
    ensures base { IfOk result (λ r. r.0.base ≡ record {
      grounds = P.grounds shards;
      opening = map P.terms.part cells.items;
      hands = clients;
      each = client_stamps;
    }) }
    ensures hands { IfOk result (λ r. r.1.items ≡ dealt r.0 0 clients) }
{
    open_on::<P>(alloc, cells, shards, clients)
}

impl<S: Sealer + Drop, P: HostPort> KvShards<S, P> {
    /// A shard for each caller of a machine that was just made, and a hand for each client.
    ///
    /// # Errors
    /// Want of memory.
    pub fn over(
        alloc: Global,
        machine: Machine<S>,
        callers: Vec<Pass>,
        clients: u32,
    ) -> Result<(KvShards<S, P>, Vec<KvHand<P>>), NoMemory>
        requires machine { IsMachine machine }
        requires callers { hands_of callers.items
            ≡ dealt machine 0 (length (plan_at machine).callers) }
        requires clients { (0 < clients) × (clients ≤ 8) }
        ensures machine { IfOk result (λ r. r.0.machine ≡ machine) }
        ensures shards { IfOk result (λ r. length r.0.all.base.opening
            ≡ length (plan_at machine).callers) }
        ensures clients { IfOk result (λ r. r.0.all.base.hands ≡ clients) }
        ensures stamps { IfOk result (λ r. r.0.all.base.each ≡ client_stamps) }
        ensures hands { IfOk result (λ r. r.1.items ≡ dealt r.0.all 0 clients) }
    {
        let cells = cells_of(alloc, &machine, callers)?;
        let shards = cells.len() as u32;
        let opened = open::<KvPlot<P>>(alloc, cells, shards, clients)?;
        let (all, hands) = opened;
        let shards = KvShards {
            machine,
            all,
            shards,
        };
        Ok((shards, hands))
    }
}
