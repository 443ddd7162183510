// A command on the cell of its shard.
ghost use Rattle.std.specs.Prelude.{◌≡◌, ◌≤◌, ◌<◌, IfOk, OnErr};
ghost use Rattle.eleos_base.specs.Own.{own};
ghost use Rattle.eleos_direct.specs.Desks.{IsAtDesk, IsExchanged, calls_of};
ghost use Rattle.eleos_kvwire.specs.Sessions.{IsSized};
ghost use Rattle.eleos_machine.specs.Passes.{IsLawful};
ghost use Rattle.eleos_shard.specs.Shards.{IsShard};
ghost use Rattle.eleos_shard.specs.Steps.{Serves};
ghost use Rattle.eleos_kv.specs.Cells.{facts_with, shard_part};
ghost use Rattle.eleos_kv.specs.Terms.{Takes};

use crate::ShardCell;
use eleos_base::{NoMemory, Sealer};
use eleos_direct::Desk;
use eleos_host::{HostPort, Tap};
use eleos_kvwire::KvAct;
use eleos_machine::{Machine, Pass};
use eleos_shard::{KvReply, Shard};
use std::alloc::Global;
use std::sync::Wait;

/// A cell after a command, and the command's reply.
#[derive(Drop)]
pub(crate) struct Answered<P: HostPort> {
    pub cell: ShardCell<P>,
    pub reply: Result<KvReply, NoMemory>,
}

/// Serves a command on a shard in the memory of this pass.
fn answer_at<R: Wait, S: Sealer, P: HostPort>(
    rt: &R,
    alloc: Global,
    machine: &Machine<S>,
    pass: &mut Pass,
    tap: &mut Tap<P>,
    shard: &mut Shard,
    act: &KvAct,
) -> Result<KvReply, NoMemory>
    requires at { IsAtDesk machine.now pass.old }
    requires exchanged { IsExchanged P.gave P.took machine.now pass.old }
    requires shard { IsShard (own 1024 (calls_of pass.old)) shard.old }
    requires left { 3 ≤ pass.old.hand.left }
    requires sized { IsSized act.now }
    ensures serves { IfOk result (λ reply. Serves act.now reply
        (facts_with pass.old shard.old) (facts_with pass.new shard.new)) }
    ensures number { pass.new.hand.number ≡ pass.old.hand.number }
    ensures at { IsAtDesk machine.now pass.new }
    ensures exchanged { IsExchanged P.gave P.took machine.now pass.new }
    ensures shard { IsShard (own 1024 (calls_of pass.new)) shard.new }
    ensures err { OnErr result (facts_with pass.new shard.new ≡ facts_with pass.old shard.old) }
{
    let mut desk = Desk::of(rt, machine, pass, tap);
    shard.serve(alloc, &mut desk, act)
}

/// What the pass has seen is a legal history of its machine.
fn lawful(pass: &Pass)
    ensures { IsLawful pass.now }
{
    let _left = pass.left();
}

/// Serves a command on its cell. Where there is no memory nothing has happened.
pub(crate) fn answer<R: Wait, S: Sealer, P: HostPort>(
    rt: &R,
    alloc: Global,
    machine: &Machine<S>,
    cell: ShardCell<P>,
    tap: &mut Tap<P>,
    act: &KvAct,
) -> Answered<P>
    requires home { cell.pass.hand.home ≡ machine.now }
    requires left { 3 ≤ cell.pass.hand.left }
    requires sized { IsSized act.now }
    ensures takes { IfOk result.reply (λ reply. Takes act.now reply
        (shard_part cell) (shard_part result.cell)) }
    ensures kept { OnErr result.reply (shard_part result.cell ≡ shard_part cell) }
{
    let ShardCell { rest, shard, port } = cell;
    let mut pass = rest.wake();
    let mut shard = shard;
    let reply = answer_at(rt, alloc, machine, &mut pass, tap, &mut shard, act);
    let cell = ShardCell {
        rest: pass.rest(),
        shard,
        port,
    };
    Answered { cell, reply }
}
