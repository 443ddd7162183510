// Notes of free frames.
ghost use Rattle.std.specs.Prelude.{◌≡◌, ◌<◌, [], length};
ghost use Rattle.eleos_base.specs.Places.{all_frames};
ghost use Rattle.eleos_core.specs.Sweeps.{frames_in};
ghost use Rattle.eleos_turn.specs.Numbers.{times};
ghost use Rattle.eleos_machine.specs.Holding.{HasFree};
ghost use Rattle.eleos_machine.specs.Machines.{plan_at};
ghost use Rattle.eleos_clock.specs.Searches.{MaySearch};
ghost use Rattle.eleos_clock.specs.Frees.{NotedFree, NotesFree, TriedToNote};

use crate::rounds::{count_of, frame_in};
use crate::victims::try_free;
use eleos_base::Sealer;
use eleos_machine::{ClockTurn, FreeFrame, Machine, Pass};

/// Notes a free frame with 0, and gives its turn back.
pub fn note<S: Sealer>(m: &Machine<S>, pass: &mut Pass, found: FreeFrame)
    requires own { pass.old.hand.home ≡ m.now }
    requires has { HasFree pass.old found }
    requires room { length pass.old.sweep.words < all_frames (plan_at m.now) }
    requires unnoted { times found.frame (frames_in pass.old.sweep.words) ≡ 0 }
    ensures { NotedFree pass.old found.frame pass.new }
{
    let _ = pass.left();
    m.sweep_free(pass, &found);
    let FreeFrame { frame, cell } = found;
    m.give(pass, m.frame_cell(frame), cell);
}

/// Notes with 0, in the order of the list, the frames whose cells it can take and finds free.
pub fn note_free<S: Sealer>(m: &Machine<S>, pass: &mut Pass, clock: &ClockTurn)
    requires may { MaySearch m.now pass.old clock.now }
    requires empty { pass.old.sweep.words ≡ [] }
    ensures { NotesFree pass.old clock.now pass.new }
{
    let _ = pass.left();
    for place in 0..count_of(clock) {
        note_one(m, pass, clock, frame_in(clock, place));
    }
}

/// Notes the frame, where its cell can be taken and is free.
fn note_one<S: Sealer>(m: &Machine<S>, pass: &mut Pass, clock: &ClockTurn, frame: u32)
    requires may { MaySearch m.now pass.old clock.now }
    requires frame { frame < all_frames (plan_at m.now) }
    requires room { length pass.old.sweep.words < all_frames (plan_at m.now) }
    requires unnoted { times frame (frames_in pass.old.sweep.words) ≡ 0 }
    ensures { TriedToNote pass.old frame pass.new }
{
    let _ = pass.left();
    if let Some(found) = try_free(m, pass, clock, frame) {
        note(m, pass, found);
    }
}
