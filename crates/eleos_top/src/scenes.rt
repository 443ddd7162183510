// What the host does by itself, what comes from it and what is put there.
ghost use Rattle.std.specs.Prelude.{◌≡◌, All, length, map, option_map, IfOk, IfSome, if◌then◌else◌};
ghost use Rattle.eleos_core.specs.Applying.{put_of};
ghost use Rattle.eleos_host.specs.declared.hand.ActAnswer.{ActAnswer};
ghost use Rattle.eleos_host.specs.Blocks.{IsBlock};
ghost use Rattle.eleos_host.specs.Stores.{get_from};
ghost use Rattle.eleos_meaning.specs.Meanings.{IsAct};
ghost use Rattle.eleos_top.specs.Replays.{store_with};
ghost use Rattle.eleos_top.specs.Scenes.{is_done, store_after};

use eleos_base::{Bytes, List, NoMemory};
use eleos_core::Put;
use eleos_host::{Act, BLOCK_BYTES, HostHand, HostPort};
use std::alloc::Global;

/// Lets the host do this, and answers whether that did anything.
pub fn act<P: HostPort + HostHand>(host: &mut P, act: Act) -> bool
    requires { IsAct act }
    ensures did { P.did act (if result then ActAnswer.Done else ActAnswer.NothingKept) }
    ensures store { P.store host.new
        ≡ option_map (λ store. store_after act store) (P.store host.old) }
    ensures is_done { IfSome (P.store host.old) (λ store. result ≡ is_done act store) }
{
    match act {
        Act::Flip { place, bit } => {
            host.flip(place, bit);
            true
        }
        Act::Swap { a, b } => {
            host.swap(a, b);
            true
        }
        Act::Keep { place } => {
            host.keep(place);
            true
        }
        Act::Restore { place } => host.restore(place),
    }
}

/// The blocks that the host gives for these places.
pub fn blocks_at<P: HostPort>(
    alloc: Global,
    host: &mut P,
    places: &[u32],
) -> Result<Vec<Bytes>, NoMemory>
    ensures store { P.store host.new ≡ P.store host.old }
    ensures told { IfSome (P.store host.old)
        (λ store. IfOk result (λ blocks. blocks.items ≡ map (get_from store) places.now)) }
    ensures lengths { IfOk result (λ blocks. All IsBlock blocks.items) }
    ensures count { IfOk result (λ blocks. length blocks.items ≡ length places.now) }
{
    let mut blocks = Vec::new(alloc);
    for place in places {
        blocks.push(block_at(alloc, host, *place)?)?;
    }
    Ok(blocks)
}

/// The block that the host gives for the place.
fn block_at<P: HostPort>(alloc: Global, host: &mut P, place: u32) -> Result<Bytes, NoMemory>
    ensures store { P.store host.new ≡ P.store host.old }
    ensures told { IfSome (P.store host.old)
        (λ store. IfOk result (λ block. block ≡ get_from store place)) }
    ensures length { IfOk result (λ block. IsBlock block) }
{
    let mut block = [0; BLOCK_BYTES];
    host.get(place, &mut block);
    Ok(List::of(block.to_vec(alloc)?))
}

/// Puts these blocks at the host.
pub fn put_blocks<P: HostPort>(host: &mut P, puts: &[Put])
    requires { All (λ put. IsBlock put.block) puts.now }
    ensures { P.store host.new
        ≡ option_map (λ store. store_with store (map put_of puts.now)) (P.store host.old) }
{
    for put in puts {
        host.put(put.place, put.block.as_slice());
    }
}
