// What a session has.

use eleos_base::{Bytes, List, Plan};

/// What a client asks for. A key has 1 to 64 bytes of 33 to 126, a value 1 to 512 bytes.
#[derive(Debug, Drop)]
pub enum KvAct {
    Set { key: Bytes, value: Bytes },
    Get { key: Bytes },
    Delete { key: Bytes },
    Stat { key: Bytes },
}

/// A command and the client that gives it, from 1.
#[derive(Debug, Drop)]
pub struct KvCommand {
    pub client: u32,
    pub act: KvAct,
}

/// A machine with one enclave and a caller for each shard, the key of its seals (16, 24 or 32
/// bytes), the numbers of shards and of clients, and the commands in their order.
#[derive(Debug, Drop)]
pub struct KvTrace {
    pub plan: Plan,
    pub key: Bytes,
    pub shards: u32,
    pub clients: u32,
    pub commands: List<KvCommand>,
}
