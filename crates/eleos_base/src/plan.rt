// What a machine is made of.
ghost use Rattle.std.specs.Prelude.{◌≡◌, IfOk};

use crate::{List, NoMemory};
use std::alloc::Global;

/// An enclave: its pages of 4,096 bytes, and the frames that it owns at the start.
#[derive(Clone, Copy, Debug, PartialEq, Eq)]
pub struct EnclavePlan {
    pub pages: u32,
    pub frames: u32,
}

/// A block that is live from the start; owner 0 is nobody.
#[derive(Clone, Copy, Debug, PartialEq, Eq)]
pub struct BlockPlan {
    pub enclave: u16,
    pub bytes: u32,
    pub owner: u32,
}

/// A machine before its first event. Caller k, from 1, belongs to the enclave with the number
/// `callers[k - 1]`.
#[derive(Debug, Drop)]
pub struct Plan {
    pub enclaves: List<EnclavePlan>,
    /// Frames of the pool.
    pub spare: u32,
    pub callers: List<u16>,
    /// How often a sub-page may be sealed.
    pub wear: u64,
    pub blocks: List<BlockPlan>,
}

impl Plan {
    pub fn copy(&self, alloc: Global) -> Result<Self, NoMemory>
        ensures { IfOk result (λ plan. plan ≡ self.now) }
    {
        Ok(Plan {
            enclaves: self.enclaves.copy(alloc)?,
            spare: self.spare,
            callers: self.callers.copy(alloc)?,
            wear: self.wear,
            blocks: self.blocks.copy(alloc)?,
        })
    }
}
