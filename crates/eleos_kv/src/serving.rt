// Commands are served, each on its shard.
ghost use Rattle.std.specs.Prelude.{◌≡◌, ◌<◌, ◌≤◌, ℕ, List, [], IfOk, OnErr};
ghost use Rattle.eleos_turn.specs.Hands.{CanStamp, IsSound, Stamped};
ghost use Rattle.eleos_kvwire.specs.Sessions.{key_of as key_in};
ghost use Rattle.eleos_shard.specs.Maps.{shard_of as shard_in};
ghost use Rattle.eleos_kv.specs.Serving.{CanServe, HasServed, HasWaited, kept_of};

use crate::answers::{Answered, answer};
use crate::commands::copied;
use crate::{KvEntry, KvLine, KvPlot};
use eleos_base::{NoMemory, Plot, Sealer};
use eleos_host::{HostPort, Tap};
use eleos_kvwire::{KvAct, KvCommand};
use eleos_machine::Machine;
use eleos_turn::{Hand, Taken, Turnstile};
use std::alloc::Global;
use std::marker::Model;
use std::sync::Wait;

/// A client's hand at the shards: each command costs one of its stamps.
pub type KvHand<P> = Hand<KvPlot<P>>;

/// The shards of a machine, and the turnstile over them.
#[derive(Drop)]
pub struct KvShards<S: Sealer, P: HostPort> {
    pub(crate) machine: Machine<S>,
    pub(crate) all: Turnstile<KvPlot<P>>,
    pub(crate) shards: u32,
}

impl<S: Sealer, P: HostPort> Model for KvShards<S, P> {
    ghost use Rattle.std.specs.Prelude.{◌≡◌};
    ghost use Rattle.eleos_kv.specs.Serving.{IsKv, KvState};

    ghost Value = { KvState };

    ghost view = { λ s. record { machine = s.machine; all = s.all } };

    ghost invariant = { λ s. IsKv (record { machine = s.machine; all = s.all })
        × (s.shards ≡ s.all.base.grounds) };
}

/// The key of an act.
fn key_of(act: &KvAct) -> &[u8]
    ensures { result.now ≡ key_in act.now }
{
    match act {
        KvAct::Set { key, .. } => key.as_slice(),
        KvAct::Get { key } => key.as_slice(),
        KvAct::Delete { key } => key.as_slice(),
        KvAct::Stat { key } => key.as_slice(),
    }
}

/// The shard of a key, of so many.
fn shard_of(shards: u32, key: &[u8]) -> u32
    requires some { 0 < shards }
    requires few { shards ≤ 8 }
    ensures { result ≡ shard_in shards key.now }
{
    let mut shard = 0;
    for byte in key {
        shard = (shard + u32::from(*byte)) % shards;
    }
    shard
}

/// Stamps an entry with these parts. The value is there for the caller's pick of them.
fn enter_with<P: Plot>(
    all: &Turnstile<P>,
    hand: &mut Hand<P>,
    entry: &P::Draft,
    _value: &P::Cell,
) -> u64
    ghost kept: { List (ℕ × P.Part) }
    requires own { hand.old.home ≡ all.now }
    requires can { CanStamp P.terms hand.old entry.now kept }
    ensures stamped { Stamped P.terms entry.now kept hand.old result hand.new }
    ensures sound { IsSound P.terms hand.new }
{
    all.stamp(hand, entry)
}

/// What the history keeps of the cells that an entry touches, where this value goes back to one.
trait Keeps: Plot {
    ghost keeps: { Self.Ground → Self.Draft → Self.Cell → List (ℕ × Self.Part) };
}

impl<P: HostPort> Keeps for KvPlot<P> {
    ghost keeps = { kept_of };
}

/// Stamps an entry, and keeps the part of the value that goes back.
fn enter<P: Plot + Keeps>(
    all: &Turnstile<P>,
    hand: &mut Hand<P>,
    entry: &P::Draft,
    value: &P::Cell,
) -> u64
    requires own { hand.old.home ≡ all.now }
    requires can { CanStamp P.terms hand.old entry.now
        (P.keeps hand.old.home.base.grounds entry.now value.now) }
    ensures stamped { Stamped P.terms entry.now
        (P.keeps hand.old.home.base.grounds entry.now value.now) hand.old result hand.new }
    ensures sound { IsSound P.terms hand.new }
{
    enter_with::<P>(all, hand, entry, value)
}

impl<S: Sealer, P: HostPort> KvShards<S, P> {
    /// Serves a command of the hand's client: one entry of the shards' history.
    ///
    /// # Errors
    /// Want of memory; then nothing has happened.
    pub fn serve_one<R: Wait>(
        &self,
        rt: &R,
        alloc: Global,
        hand: &mut KvHand<P>,
        command: &KvCommand,
        tap: &mut Tap<P>,
    ) -> Result<KvLine, NoMemory>
        requires { CanServe self.now hand.old command.now }
        ensures served { IfOk result (λ line. HasServed hand.old command.now line.reply
            line.stamp hand.new) }
        ensures said { IfOk result (λ line. line.command ≡ command.now) }
        ensures waited { OnErr result (HasWaited hand.old hand.new) }
    {
        let command = copied(alloc, command)?;
        let cell = shard_of(self.shards, key_of(&command.act));
        let Taken { word: _, value } = self.all.take(rt, hand, cell, false);
        let Answered { cell: value, reply } = answer(
            rt,
            alloc,
            &self.machine,
            value,
            tap,
            &command.act,
        );
        match reply {
            Ok(reply) => {
                let entry = KvEntry { command, reply };
                let stamp = enter::<KvPlot<P>>(&self.all, hand, &entry, &value);
                self.all.give(hand, cell, value);
                let KvEntry { command, reply } = entry;
                Ok(KvLine {
                    stamp,
                    command,
                    reply,
                })
            }
            Err(NoMemory) => {
                self.all.give(hand, cell, value);
                Err(NoMemory)
            }
        }
    }
}
