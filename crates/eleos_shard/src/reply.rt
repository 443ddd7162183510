// What a command on the map is answered.

use eleos_base::Bytes;

/// The reply to a command. `Stored` to `Tampered` answer a set, `Value` and `Tampered` a get,
/// `Deleted` a delete and `Size` a stat; `Missing` answers the last three where the key has no
/// value.
#[derive(Debug, Drop)]
pub enum KvReply {
    Stored,
    /// The key is new, and its shard has as many keys as it may.
    Full,
    /// The enclave has no room for one more block.
    NoSpace,
    /// The sub-page was sealed as often as it may be.
    Worn { sub: u32 },
    /// The block that came from the host does not pass.
    Tampered { sub: u32 },
    Value { bytes: Bytes },
    Missing,
    Deleted,
    /// Bytes of the value.
    Size { bytes: u32 },
}
