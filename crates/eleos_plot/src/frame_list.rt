// The frames of an enclave or of the pool, with room for all that there can be.
ghost use Rattle.std.specs.Prelude.{◌≡◌, ◌<◌, ◌==◌, ◌++◌, ◌∷◌, [], filter, length, not};
ghost use Rattle.std.specs.Prelude.{slice_index, IfOk};

use eleos_base::{MOST_FRAMES, NoMemory};
use eleos_core::Clock;
use std::marker::Model;

/// The frames of an owner, in the order in which they came. The memory of all that there can be is
/// taken by `make`.
#[derive(Debug, Drop)]
pub struct FrameList {
    frames: Vec<u32>,
}

impl Model for FrameList {
    ghost use Rattle.std.specs.Prelude.{List, ℕ, ◌≤◌, vec_capacity};
    ghost use Rattle.eleos_base.specs.declared.sizes.TheConstants.{MOST_FRAMES};

    ghost Value = { List ℕ };

    ghost view = { λ list. list.frames.items };

    ghost invariant = { λ list. MOST_FRAMES ≤ vec_capacity list.frames };
}

impl FrameList {
    /// Takes the memory for what an owner's frames may become.
    pub fn make(clock: Clock) -> Result<FrameList, NoMemory>
        ensures { IfOk result (λ list. list ≡ clock) }
    {
        let Clock { mut frames } = clock;
        frames.reserve(MOST_FRAMES as usize)?;
        Ok(FrameList { frames })
    }

    /// How many frames there are.
    pub fn len(&self) -> usize
        ensures { result ≡ length self.now }
    {
        self.frames.len()
    }

    /// The frame at a place.
    pub fn at(&self, place: usize) -> u32
        requires { place < length self.now }
        ensures { result ≡ slice_index self.now place }
    {
        self.frames[place]
    }

    /// Puts the frame last.
    pub fn join(&mut self, frame: u32)
        requires room { length self.old < MOST_FRAMES }
        ensures { self.new ≡ self.old ++ frame ∷ [] }
    {
        let Ok(()) = self.frames.push(frame) else {
            unreachable!()
        };
    }

    /// Takes the frame away, and closes the gap.
    pub fn leave(&mut self, frame: u32)
        ensures { self.new ≡ filter (λ other. not (other == frame)) self.old }
    {
        self.frames.retain(|other| *other != frame);
    }
}
