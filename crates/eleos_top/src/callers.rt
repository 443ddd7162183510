// The names of all callers of a replay.
ghost use Rattle.std.specs.Prelude.{◌≡◌, ◌-◌, Ok, IfOk, OnOk};
ghost use Rattle.eleos_base.specs.Plans.{IsGood};
ghost use Rattle.eleos_host.specs.declared.hand.Act.{Act};
ghost use Rattle.eleos_meaning.specs.Meanings.{IsAct, meaning_of};
ghost use Rattle.eleos_trace.specs.Kinds.{IsReplay};
ghost use Rattle.eleos_trace.specs.Replays.{MayGive};
ghost use Rattle.eleos_top.specs.Scenes.{all_after, all_names, names_of, opening_of};

use eleos_base::{NoMemory, Plan, Reply};
use eleos_meaning::{Meaning, NameTable, header_names, meaning_of};
use eleos_trace::{Line, Trace, Word};
use std::alloc::Global;

/// The names of each caller before the first command.
pub fn opening_tables(alloc: Global, trace: &Trace) -> Result<Vec<NameTable>, NoMemory>
    requires { IsReplay trace.now }
    ensures { IfOk result (λ callers. all_names callers.items ≡ opening_of trace.now) }
{
    let mut callers = Vec::new(alloc);
    for home in trace.plan.callers.as_slice() {
        callers.push(header_names(alloc, trace, *home)?)?;
    }
    Ok(callers)
}

/// What a line means by the names of the caller with this number. Another actor has no names.
pub fn meaning_for(
    alloc: Global,
    plan: &Plan,
    callers: &[NameTable],
    who: u32,
    line: &Line,
) -> Result<Meaning, NoMemory>
    requires good { IsGood plan.now }
    requires given { MayGive plan.now line.now.actor line.now.command }
    ensures meaning { IfOk result (λ meaning. meaning
        ≡ meaning_of plan.now (names_of (all_names callers.now) who) line.now.command) }
    ensures act { (act : Act) → result ≡ Ok (Meaning.Acts act) → IsAct act }
{
    match callers.get(index_of(who)) {
        Some(names) => meaning_of(alloc, plan, names, line),
        None => meaning_of(alloc, plan, &NameTable::new(alloc), line),
    }
}

/// The caller with this number got the reply to a command.
pub fn bind_answered(
    alloc: Global,
    callers: &mut [NameTable],
    who: u32,
    word: &Word,
    reply: &Reply,
) -> Result<(), NoMemory>
    ensures { OnOk result (all_names callers.new
        ≡ all_after who word.now reply.now (all_names callers.old)) }
{
    let index = index_of(who);
    if index >= callers.len() {
        return Ok(());
    }
    callers[index].bind_answered(alloc, word, reply)
}

/// Callers are numbered from 1.
fn index_of(who: u32) -> usize
    ensures { result ≡ who - 1 }
{
    who.saturating_sub(1) as usize
}
