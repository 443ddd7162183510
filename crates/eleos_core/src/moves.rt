// A free frame goes from an enclave to the pool or back.
ghost use Rattle.std.specs.Prelude.{◌≡◌, ◌<◌, ◌+◌, ◌++◌, ◌∷◌, ◌==◌, [], ℕ, filter, length};
ghost use Rattle.std.specs.Prelude.{MatchOption, not, OnErr, OnOk};
ghost use Rattle.eleos_core.specs.Words.{CanMoveIn, IsActor, IsOwner, OffendsMove, OneIsPool};
ghost use Rattle.eleos_core.specs.Words.{Outcome, Seals, all_frames, clock_cell};

use crate::accesses::only_reply;
use crate::frames::is_free;
use crate::{ApplyRefused, Clock, Core, Effect, Event};
use eleos_base::{NoMemory, Part, Plan, Reply};
use std::alloc::Global;

impl Core {
    /// The free frame leaves its owner's list, where that is legal. The gap closes, and the frame
    /// goes last in the other's.
    pub(crate) fn apply_move(
        &mut self,
        alloc: Global,
        frame: u32,
        from: Option<u16>,
        to: Option<u16>,
    ) -> Result<Effect, ApplyRefused>
        requires frame { frame < all_frames self.old.plan }
        requires from { IsOwner self.old.plan from }
        requires to { IsOwner self.old.plan to }
        requires one_is_pool { OneIsPool from to }
        ensures { (x : Seals) (who : ℕ) → IsActor self.old.plan who
            → Outcome x self.old who (Event.Move frame from to) [] result self.new }
    {
        if let Some(part) = self.move_offence(frame, from) {
            return Err(ApplyRefused::Illegal { part });
        }
        let joined = clock_place(&self.plan, to);
        let left = clock_place(&self.plan, from);
        add_last(&mut self.clocks[joined], frame)?;
        remove(&mut self.clocks[left], frame);
        self.frames[frame as usize].owner = to;
        Ok(only_reply(alloc, Reply::Done))
    }

    /// What a move of the frame from this owner would offend against.
    pub(crate) fn move_offence(&self, frame: u32, from: Option<u16>) -> Option<Part>
        requires { frame < all_frames self.now.plan }
        ensures { MatchOption result (CanMoveIn self.now frame from)
            (OffendsMove self.now frame from) }
    {
        let cell = &self.frames[frame as usize];
        if cell.owner != from {
            Some(Part::Owner)
        } else if is_free(cell) {
            None
        } else {
            Some(Part::Frame)
        }
    }
}

/// The place of the owner's clock among all clocks.
fn clock_place(plan: &Plan, owner: Option<u16>) -> usize
    ensures { length plan.now.enclaves + result ≡ clock_cell plan.now owner }
{
    match owner {
        Some(enclave) => enclave as usize,
        None => plan.enclaves.len(),
    }
}

/// Puts the frame last.
fn add_last(clock: &mut Clock, frame: u32) -> Result<(), NoMemory>
    ensures ok { OnOk result (clock.new ≡ clock.old ++ frame ∷ []) }
    ensures err { OnErr result (clock.new ≡ clock.old) }
{
    clock.frames.push(frame)?;
    Ok(())
}

/// Takes the frame away, and closes the gap.
fn remove(clock: &mut Clock, frame: u32)
    ensures { clock.new ≡ filter (λ other. not (other == frame)) clock.old }
{
    clock.frames.retain(|other| *other != frame);
}
