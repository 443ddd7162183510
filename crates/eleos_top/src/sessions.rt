// A replay between two commands: the machine, the addresses of names, and the stamps given.
ghost use Rattle.std.specs.Prelude.{◌≡◌, ◌≤◌, ◌<◌, ◌+◌, ◌^◌, [], length, map, All, IfOk};
ghost use Rattle.std.specs.Prelude.{option_map};
ghost use Rattle.eleos_base.specs.Plans.{IsGood};
ghost use Rattle.eleos_core.specs.Applying.{put_of};
ghost use Rattle.eleos_core.specs.Legal.{IsWithin};
ghost use Rattle.eleos_core.specs.Seals.{seals_by};
ghost use Rattle.eleos_host.specs.Blocks.{IsBlock};
ghost use Rattle.eleos_trace.specs.Kinds.{IsReplay};
ghost use Rattle.eleos_trace.specs.Replays.{MayGive};
ghost use Rattle.eleos_top.specs.Replays.{store_with};
ghost use Rattle.eleos_top.specs.Scenes.{all_after, all_names, opening_of, who_of};
ghost use Rattle.eleos_top.specs.Sessions.{AlwaysGoesOn, Answered, Happened, Stands, StandsAfter};

use crate::callers::{bind_answered, meaning_for, opening_tables};
use crate::response::Response;
use crate::scenes::{act, blocks_at, put_blocks};
use eleos_base::{NoMemory, Plan};
use eleos_core::{ApplyRefused, Core, Effect, Event};
use eleos_gcm::Gcm;
use eleos_host::{HostHand, HostPort};
use eleos_meaning::{Meaning, NameTable};
use eleos_trace::{Actor, Line, Trace};
use std::alloc::Global;

/// A replay between two commands.
#[derive(Drop)]
pub struct Session {
    sealer: Gcm,
    machine: Core,
    /// The names of each caller.
    names: Vec<NameTable>,
    /// How many entries there are.
    stamps: u64,
}

impl Session {
    /// The replay of a trace before its first command.
    pub fn open(alloc: Global, trace: &Trace) -> Result<Session, NoMemory>
        requires { IsReplay trace.now }
        ensures sealer { IfOk result (λ session. session.sealer ≡ trace.now.key) }
        ensures stands { IfOk result (λ session.
            StandsAfter trace.now.plan (seals_by trace.now.key) [] session) }
        ensures names { IfOk result
            (λ session. all_names session.names.items ≡ opening_of trace.now) }
    {
        let Ok(sealer) = Gcm::new(trace.key.as_slice()) else {
            unreachable!()
        };
        Ok(Session {
            sealer,
            machine: Core::make(alloc, &trace.plan)?,
            names: opening_tables(alloc, trace)?,
            stamps: 0,
        })
    }

    /// How many entries there are.
    pub fn stamps(&self) -> u64
        ensures { result ≡ self.now.stamps }
    {
        self.stamps
    }

    /// Answers a command.
    pub fn answer<P: HostPort + HostHand>(
        &mut self,
        alloc: Global,
        host: &mut P,
        plan: &Plan,
        line: &Line,
    ) -> Result<Response, NoMemory>
        requires good { IsGood plan.now }
        requires given { MayGive plan.now line.now.actor line.now.command }
        requires stands { Stands plan.now (seals_by self.old.sealer) self.old }
        requires room { self.old.stamps < 2 ^ 63 }
        ensures answered { IfOk result (λ answer.
            AlwaysGoesOn plan.now (seals_by self.old.sealer)
            (Answered plan.now (seals_by self.old.sealer) line.now) answer
            (P.store host.old) (P.store host.new) self.old self.new) }
        ensures sealer { self.new.sealer ≡ self.old.sealer }
        ensures stamps { self.new.stamps ≤ self.old.stamps + 1 }
    {
        let who = who_of(plan, line.actor);
        match meaning_for(alloc, plan, &self.names, who, line)? {
            Meaning::Nameless => Ok(Response::Skipped),
            Meaning::Happens(event) => self.happen(alloc, host, who, &event, line),
            Meaning::Offends(part) => Ok(Response::Refused(part)),
            Meaning::Acts(meant) => Ok(Response::Acted(act(host, meant))),
        }
    }

    /// Lets an event happen, if an entry of it is legal.
    fn happen<P: HostPort>(
        &mut self,
        alloc: Global,
        host: &mut P,
        who: u32,
        event: &Event,
        line: &Line,
    ) -> Result<Response, NoMemory>
        requires within { IsWithin self.old.machine.plan who event.now }
        requires room { self.old.stamps < 2 ^ 63 }
        ensures happened { IfOk result (λ answer.
            IsGood self.old.machine.plan →
            AlwaysGoesOn self.old.machine.plan (seals_by self.old.sealer)
            (Happened self.old.machine.plan (seals_by self.old.sealer) line.now who event.now) answer
            (P.store host.old) (P.store host.new) self.old self.new) }
        ensures sealer { self.new.sealer ≡ self.old.sealer }
        ensures stamps { self.new.stamps ≤ self.old.stamps + 1 }
    {
        let needed = self.machine.need(who, event);
        let blocks = blocks_at(alloc, host, needed.as_slice())?;
        match self.machine.apply(alloc, &self.sealer, who, event, &blocks) {
            Ok(effect) => self.enter(alloc, host, who, line, effect),
            Err(ApplyRefused::Illegal { part }) => Ok(Response::Refused(part)),
            Err(ApplyRefused::NoMemory) => Err(NoMemory),
        }
    }

    /// Enters what an event brought about: its blocks go to the host, and a name gets its address.
    fn enter<P: HostPort>(
        &mut self,
        alloc: Global,
        host: &mut P,
        who: u32,
        line: &Line,
        effect: Effect,
    ) -> Result<Response, NoMemory>
        requires blocks { All (λ put. IsBlock put.block) effect.puts }
        requires room { self.old.stamps < 2 ^ 63 }
        ensures answer { IfOk result (λ answer. answer
            ≡ Response.Entered self.old.stamps effect.reply (length effect.puts)) }
        ensures names { IfOk result (λ _. all_names self.new.names.items
            ≡ all_after who line.now.command effect.reply (all_names self.old.names.items)) }
        ensures stamps { IfOk result (λ _. self.new.stamps ≡ self.old.stamps + 1) }
        ensures store { IfOk result (λ _. P.store host.new
            ≡ option_map (λ store. store_with store (map put_of effect.puts)) (P.store host.old)) }
        ensures machine { self.new.machine ≡ self.old.machine }
        ensures sealer { self.new.sealer ≡ self.old.sealer }
        ensures few { self.new.stamps ≤ self.old.stamps + 1 }
    {
        put_blocks(host, effect.puts.as_slice());
        let Effect { reply, puts } = effect;
        bind_answered(alloc, &mut self.names, who, &line.command, &reply)?;
        let stamp = self.stamps;
        self.stamps += 1;
        Ok(Response::Entered {
            stamp,
            reply,
            puts: puts.len() as u64,
        })
    }
}

/// The number that an entry of the actor has: the swapper and the balloon come after the callers.
fn who_of(plan: &Plan, actor: Actor) -> u32
    requires { length plan.now.callers ≤ 8 }
    ensures { result ≡ who_of plan.now actor }
{
    match actor {
        Actor::Caller(number) => number,
        Actor::Swapper => plan.callers.len() as u32 + 1,
        Actor::Balloon => plan.callers.len() as u32 + 2,
        Actor::Host => 0,
    }
}
