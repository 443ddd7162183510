// The blocks that lie at the host.
ghost use Rattle.std.specs.Prelude.{◌≡◌, ◌++◌, IfOk, OnErr, OnOk, replicate};

use eleos_base::NoMemory;
use std::alloc::Global;

/// The length of a block, in bytes.
pub const BLOCK_BYTES: usize = 1024;

/// The bits of a block.
pub const BLOCK_BITS: u32 = 8 * BLOCK_BYTES as u32;

/// The sealed bytes of one sub-page.
pub type Block = [u8; BLOCK_BYTES];

/// What a place that was never written reads as.
pub(crate) const ZEROS: Block = [0; BLOCK_BYTES];

// So many copies of the item.
pub(crate) fn copies<T: Copy>(alloc: Global, count: u32, item: T) -> Result<Vec<T>, NoMemory>
    ensures { IfOk result (λ all. all.items ≡ replicate count item) }
{
    let mut all = Vec::new(alloc);
    add_copies(&mut all, count as usize, item)?;
    Ok(all)
}

// So many copies of the item more.
pub(crate) fn add_copies<T: Copy>(all: &mut Vec<T>, count: usize, item: T) -> Result<(), NoMemory>
    ensures ok { OnOk result (all.new.items ≡ all.old.items ++ replicate count item) }
    ensures err { OnErr result (all.new.items ≡ all.old.items) }
{
    all.reserve(count)?;
    for _done in 0..count {
        let Ok(()) = all.push(item) else {
            unreachable!()
        };
    }
    Ok(())
}
