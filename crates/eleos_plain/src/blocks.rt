// Who may do what with the live blocks of an enclave.
ghost use Rattle.std.specs.Prelude.{◌≡◌, IfOk, Some, map};
ghost use Rattle.std.specs.List.{find};
ghost use Rattle.std.specs.Result.{result_err};
ghost use Rattle.eleos_base.specs.Plain.{block_refusal, has_sub, is_good_size, shared_at, starts_at};
ghost use Rattle.eleos_base.specs.Plain.{use_refusal};

use eleos_base::{Addr, Live, MOST_BLOCK_BYTES, Reply};
use eleos_core::{block_at, share_at};

/// A block may have so many bytes.
pub(crate) fn is_good_size(bytes: u32) -> bool
    ensures { result ≡ is_good_size bytes }
{
    1 <= bytes && bytes <= MOST_BLOCK_BYTES
}

/// Shares the block that starts at the address.
pub(crate) fn share_block(blocks: &mut Vec<Live>, enclave: u16, at: Addr)
    ensures { blocks.new.items ≡ map (shared_at 1024 enclave at) blocks.old.items }
{
    share_at(blocks, enclave, at);
}

/// The caller's own block that starts at the address, or why the caller may neither free nor share
/// there.
pub(crate) fn owned_block(blocks: &[Live], enclave: u16, who: u32, at: Addr) -> Result<Live, Reply>
    ensures found { IfOk result (λ block. find (starts_at 1024 enclave at) blocks.now ≡ Some block) }
    ensures refusal { result_err result
        ≡ block_refusal who (find (starts_at 1024 enclave at) blocks.now) }
{
    match block_at(blocks, enclave, at) {
        None => Err(Reply::NotABlock),
        Some(block) if block.owner == who => Ok(block),
        Some(block) => Err(Reply::NotYours { owner: block.owner }),
    }
}

/// The block that has the sub-page.
pub(crate) fn block_with(blocks: &[Live], sub: u32) -> Option<Live>
    ensures { result ≡ find (has_sub sub) blocks.now }
{
    blocks.iter().copied().find(|block| has_sub(block, sub))
}

fn has_sub(block: &Live, sub: u32) -> bool
    ensures { result ≡ has_sub sub block.now }
{
    block.start <= sub && sub - block.start < block.len
}

/// Why the caller may not use a sub-page of this block.
pub(crate) fn use_refusal(who: u32, block: Option<Live>) -> Option<Reply>
    ensures { result ≡ use_refusal who block }
{
    match block {
        None => Some(Reply::Unallocated),
        Some(block) if block.is_shared || block.owner == who => None,
        Some(block) => Some(Reply::NotYours { owner: block.owner }),
    }
}
