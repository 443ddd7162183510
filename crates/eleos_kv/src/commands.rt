// Commands with their replies.
ghost use Rattle.std.specs.Prelude.{◌≡◌, IfOk};

use eleos_base::NoMemory;
use eleos_kvwire::{KvAct, KvCommand};
use eleos_shard::KvReply;
use std::alloc::Global;

/// An entry of the shards' history: a command with its reply.
#[derive(Debug, Drop)]
pub struct KvEntry {
    pub command: KvCommand,
    pub reply: KvReply,
}

/// A command that was served, with its reply and the place of its entry in the shards' history.
#[derive(Debug, Drop)]
pub struct KvLine {
    pub stamp: u64,
    pub command: KvCommand,
    pub reply: KvReply,
}

/// The same command again.
pub(crate) fn copied(alloc: Global, command: &KvCommand) -> Result<KvCommand, NoMemory>
    ensures { IfOk result (λ copy. copy ≡ command.now) }
{
    Ok(KvCommand {
        client: command.client,
        act: copied_act(alloc, &command.act)?,
    })
}

fn copied_act(alloc: Global, act: &KvAct) -> Result<KvAct, NoMemory>
    ensures { IfOk result (λ copy. copy ≡ act.now) }
{
    Ok(match act {
        KvAct::Set { key, value } => KvAct::Set {
            key: key.copy(alloc)?,
            value: value.copy(alloc)?,
        },
        KvAct::Get { key } => KvAct::Get {
            key: key.copy(alloc)?,
        },
        KvAct::Delete { key } => KvAct::Delete {
            key: key.copy(alloc)?,
        },
        KvAct::Stat { key } => KvAct::Stat {
            key: key.copy(alloc)?,
        },
    })
}
