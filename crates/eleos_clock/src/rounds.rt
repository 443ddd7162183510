// A round through the frames of an enclave.
ghost use Rattle.std.specs.Prelude.{◌≡◌, ◌<◌, ◌≤◌, length, slice_index};
ghost use Rattle.eleos_clock.specs.Lists.{AreNotes, first_place, place_at};
ghost use Rattle.eleos_clock.specs.Searches.{MaySearch};
ghost use Rattle.eleos_clock.specs.Answered.{Rounds};
ghost use Rattle.eleos_machine.specs.Notes.{free_notes};

use crate::found::Found;
use crate::visits::visit;
use eleos_base::Sealer;
use eleos_machine::{ClockTurn, Machine, Pass};

/// What a round found, and where.
pub(crate) struct FoundAt {
    pub(crate) found: Found,
    pub(crate) place: usize,
}

/// Goes once round the frames, from the hand on.
pub(crate) fn round<S: Sealer>(
    m: &Machine<S>,
    pass: &mut Pass,
    clock: &ClockTurn,
    free: bool,
    all: bool,
) -> Option<FoundAt>
    requires may { MaySearch m.now pass.old clock.now }
    requires notes { AreNotes clock.now.clock free (free_notes pass.old.sweep.words) }
    ensures { Rounds pass.old clock.now free all result pass.new }
{
    let _ = pass.left();
    m.sweep_clear(pass, false);
    let count = count_of(clock);
    let start = first_place(clock.hand as usize, count);
    for i in 0..count {
        let place = place_at(start, i, count);
        let frame = frame_in(clock, place);
        if let Some(found) = visit(m, pass, clock, frame, free, all) {
            return Some(FoundAt { found, place });
        }
    }
    None
}

/// How many frames there are.
pub(crate) fn count_of(clock: &ClockTurn) -> usize
    ensures { result ≡ length clock.now.clock }
{
    clock.clock.len()
}

/// The frame at a place of the list.
pub(crate) fn frame_in(clock: &ClockTurn, place: usize) -> u32
    requires { place < length clock.now.clock }
    ensures { result ≡ slice_index clock.now.clock place }
{
    clock.clock.at(place)
}

/// Where a round begins.
fn first_place(hand: usize, count: usize) -> usize
    ensures { result ≡ first_place hand count }
{
    if hand < count { hand } else { 0 }
}

/// Where it comes with its step `i`.
fn place_at(start: usize, i: usize, count: usize) -> usize
    requires start { start < count }
    requires step { i < count }
    requires few { count ≤ 512 }
    ensures { result ≡ place_at start i count }
{
    if start + i < count {
        start + i
    } else {
        start + i - count
    }
}
