// An enclave's live blocks in their cell.
ghost use Rattle.std.specs.Prelude.{◌≡◌, ◌≤◌, not, map, filter, OnOk, OnErr, IfOk, Some};
ghost use Rattle.std.specs.List.{find};
ghost use Rattle.std.specs.Result.{result_err};
ghost use Rattle.eleos_core.specs.Words.{AreInOrder, block_refusal, lowest_run, shared_at};
ghost use Rattle.eleos_core.specs.Words.{starts_at, with_block};

use crate::{Alloc, add_block, block_at, lowest_run, remove_at, share_at};
use eleos_base::{Addr, Live, NoMemory, Reply};

/// The start of the lowest free run of so many of the enclave's sub-pages.
pub fn lowest_in(cell: &Alloc, subs: u32, len: u32) -> Option<u32>
    requires in_order { AreInOrder 0 subs cell.now }
    requires some { 1 ≤ len }
    ensures { result ≡ lowest_run cell.now subs len }
{
    lowest_run(&cell.blocks, subs, len)
}

/// Puts the block in at its place in the order. After want of memory nothing has changed.
pub fn put_in(cell: &mut Alloc, block: Live) -> Result<(), NoMemory>
    ensures ok { OnOk result (cell.new ≡ with_block block cell.old) }
    ensures err { OnErr result (cell.new ≡ cell.old) }
{
    add_block(&mut cell.blocks, block)
}

/// The caller's own block that starts at the address, or why the caller may neither free nor
/// share there.
pub fn owned_in(cell: &Alloc, enclave: u16, who: u32, at: Addr) -> Result<Live, Reply>
    ensures found { IfOk result (λ block. find (starts_at 1024 enclave at) cell.now ≡ Some block) }
    ensures refusal { result_err result
        ≡ block_refusal who (find (starts_at 1024 enclave at) cell.now) }
{
    match block_at(&cell.blocks, enclave, at) {
        None => Err(Reply::NotABlock),
        Some(block) if block.owner == who => Ok(block),
        Some(block) => Err(Reply::NotYours { owner: block.owner }),
    }
}

/// Takes away the block that starts at the address.
pub fn take_from(cell: &mut Alloc, enclave: u16, at: Addr)
    ensures { cell.new ≡ filter (λ block. not (starts_at 1024 enclave at block)) cell.old }
{
    remove_at(&mut cell.blocks, enclave, at);
}

/// Shares the block that starts at the address.
pub fn share_in(cell: &mut Alloc, enclave: u16, at: Addr)
    ensures { cell.new ≡ map (shared_at 1024 enclave at) cell.old }
{
    share_at(&mut cell.blocks, enclave, at);
}
