// The frames before the first event, and who owns them.
ghost use Rattle.std.specs.Prelude.{◌≡◌, ◌+◌, ◌≤◌, ◌++◌, ℕ, None, map, replicate, IfOk, OnOk};
ghost use Rattle.std.specs.List.{range_with_len};
ghost use Rattle.eleos_core.specs.Words.{AreFrames, IsGood, IsUse, all_frames, frame_part};
ghost use Rattle.eleos_core.specs.Words.{opening_clocks, opening_frame, part_of_frame, zeros};

use crate::cells::{Clock, Frame, Use};
use eleos_base::{NoMemory, PAGE_BYTES, Plan};
use std::alloc::Global;

/// The frames of each enclave, and those of the pool.
pub fn make_clocks(alloc: Global, plan: &Plan) -> Result<Vec<Clock>, NoMemory>
    requires { IsGood plan.now }
    ensures { IfOk result (λ clocks. clocks.items ≡ opening_clocks plan.now) }
{
    let mut clocks = Vec::new(alloc);
    let mut first = 0;
    for made in plan.enclaves.as_slice() {
        clocks.push(make_clock(alloc, first, made.frames)?)?;
        first += made.frames;
    }
    clocks.push(make_clock(alloc, first, plan.spare)?)?;
    Ok(clocks)
}

/// So many frames from the first on.
fn make_clock(alloc: Global, first: u32, count: u32) -> Result<Clock, NoMemory>
    requires { first + count ≤ 512 }
    ensures { IfOk result (λ clock. clock ≡ range_with_len first count) }
{
    let mut frames = Vec::new(alloc);
    for i in 0..count {
        frames.push(first + i)?;
    }
    Ok(Clock { frames })
}

/// All frames, free.
pub fn make_frames(alloc: Global, plan: &Plan) -> Result<Vec<Frame>, NoMemory>
    requires { IsGood plan.now }
    ensures parts { IfOk result (λ frames. map part_of_frame frames.items
        ≡ map (opening_frame plan.now) (range_with_len 0 (all_frames plan.now))) }
    ensures each { IfOk result (λ frames. AreFrames frames.items) }
{
    let mut frames = Vec::new(alloc);
    for enclave in 0..plan.enclaves.len() as u16 {
        let count = plan.enclaves.as_slice()[enclave as usize].frames;
        add_frames(alloc, &mut frames, Some(enclave), count)?;
    }
    add_frames(alloc, &mut frames, None, plan.spare)?;
    Ok(frames)
}

/// Adds so many free frames of the owner.
fn add_frames(
    alloc: Global,
    frames: &mut Vec<Frame>,
    owner: Option<u16>,
    count: u32,
) -> Result<(), NoMemory>
    ensures parts { OnOk result (map part_of_frame frames.new.items
        ≡ map part_of_frame frames.old.items ++ replicate count (frame_part owner None)) }
    ensures each { OnOk result (AreFrames frames.old.items → AreFrames frames.new.items) }
{
    for _done in 0..count {
        frames.push(free_frame(alloc, owner)?)?;
    }
    Ok(())
}

/// A free frame of the owner.
fn free_frame(alloc: Global, owner: Option<u16>) -> Result<Frame, NoMemory>
    ensures part { IfOk result (λ frame. part_of_frame frame ≡ frame_part owner None) }
    ensures used { IfOk result (λ frame. (pages : ℕ) → IsUse pages frame.used) }
{
    Ok(Frame {
        owner,
        used: Use::Free {
            bytes: zero_bytes(alloc, PAGE_BYTES as usize)?,
        },
    })
}

/// So many zero bytes.
#[tactic(auto, unfolding(eleos_base::specs::Plain::zeros))]
fn zero_bytes(alloc: Global, count: usize) -> Result<Vec<u8>, NoMemory>
    ensures { IfOk result (λ bytes. bytes.items ≡ zeros count) }
{
    let mut bytes = Vec::new(alloc);
    bytes.resize(count, 0)?;
    Ok(bytes)
}
