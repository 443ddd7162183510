// Live blocks, and the runs that are free between them.
ghost use Rattle.std.specs.Prelude.{◌≡◌, ◌<◌, ◌≤◌, length, nat_lt, vec_capacity};
ghost use Rattle.std.specs.Prelude.{map, filter, not, IsOk, OnOk, OnErr};
ghost use Rattle.std.specs.List.{find, position, position_or_len};
ghost use Rattle.eleos_core.specs.Words.{AreInOrder, lowest_run, shared_at, starts_at, with_block};

use eleos_base::{Addr, Live, NoMemory, SUB_BYTES};

/// The start of the lowest free run of so many of the enclave's sub-pages.
pub fn lowest_run(blocks: &[Live], subs: u32, len: u32) -> Option<u32>
    requires in_order { AreInOrder 0 subs blocks.now }
    requires some { 1 ≤ len }
    ensures { result ≡ lowest_run blocks.now subs len }
{
    let mut end = 0;
    for block in blocks {
        if len <= block.start - end {
            return Some(end);
        }
        end = block.start + block.len;
    }
    if len <= subs - end { Some(end) } else { None }
}

/// Puts the block in at its place in the order.
pub fn add_block(blocks: &mut Vec<Live>, block: Live) -> Result<(), NoMemory>
    ensures ok { OnOk result (blocks.new.items ≡ with_block block blocks.old.items) }
    ensures err { OnErr result (blocks.new.items ≡ blocks.old.items) }
    ensures room { length blocks.old.items < vec_capacity blocks.old → IsOk result }
    ensures capacity { vec_capacity blocks.old ≤ vec_capacity blocks.new }
{
    let place = place_for(blocks, block);
    blocks.insert(place, block)?;
    Ok(())
}

/// How many blocks stand before the first that starts above the block.
fn place_for(blocks: &[Live], block: Live) -> usize
    ensures place { result ≡ position_or_len (λ other. nat_lt block.start other.start) blocks.now }
    ensures within { result ≤ length blocks.now }
{
    first_above(blocks, block).unwrap_or(blocks.len())
}

/// The place of the first that starts above the block.
fn first_above(blocks: &[Live], block: Live) -> Option<usize>
    ensures { result ≡ position (λ other. nat_lt block.start other.start) blocks.now }
{
    blocks.iter().position(|other| block.start < other.start)
}

/// The block that starts at the address.
pub fn block_at(blocks: &[Live], enclave: u16, at: Addr) -> Option<Live>
    ensures { result ≡ find (starts_at 1024 enclave at) blocks.now }
{
    blocks
        .iter()
        .copied()
        .find(|block| starts_at(block, enclave, at))
}

fn starts_at(block: &Live, enclave: u16, at: Addr) -> bool
    ensures { result ≡ starts_at 1024 enclave at block.now }
{
    at.enclave == enclave && at.at % SUB_BYTES == 0 && at.at / SUB_BYTES == block.start
}

/// Takes away the block that starts at the address.
pub fn remove_at(blocks: &mut Vec<Live>, enclave: u16, at: Addr)
    ensures items { blocks.new.items
        ≡ filter (λ block. not (starts_at 1024 enclave at block)) blocks.old.items }
    ensures capacity { vec_capacity blocks.new ≡ vec_capacity blocks.old }
{
    blocks.retain(|block| !starts_at(block, enclave, at));
}

/// Shares the block that starts at the address.
pub fn share_at(blocks: &mut [Live], enclave: u16, at: Addr)
    ensures { blocks.new ≡ map (shared_at 1024 enclave at) blocks.old }
{
    for block in blocks.iter_mut() {
        let shared = shared_at(block, enclave, at);
        *block = shared;
    }
}

/// The block, shared where it starts at the address.
fn shared_at(block: &Live, enclave: u16, at: Addr) -> Live
    ensures { result ≡ shared_at 1024 enclave at block.now }
{
    Live {
        is_shared: block.is_shared || starts_at(block, enclave, at),
        ..*block
    }
}
