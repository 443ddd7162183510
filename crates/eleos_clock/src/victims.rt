// The search for a frame.
ghost use Rattle.std.specs.Prelude.{◌≡◌, ◌↔◌, ◌<◌, ◌≤◌, ℕ, length, IfOk, IsTrue, None, Some};
ghost use Rattle.std.specs.Prelude.{true};
ghost use Rattle.eleos_core.specs.Cells.{holder_of_use};
ghost use Rattle.eleos_base.specs.Places.{all_frames};
ghost use Rattle.eleos_clock.specs.Lists.{AreNotes, next_place};
ghost use Rattle.eleos_clock.specs.Searches.{MaySearch};
ghost use Rattle.eleos_clock.specs.Answered.{Answers, FirstFree, IsFreeCell, Rounds, TriedFree};
ghost use Rattle.eleos_clock.specs.Answered.{IsOwned, hand_after};
ghost use Rattle.eleos_machine.specs.Holding.{HasClock};
ghost use Rattle.eleos_machine.specs.Machines.{plan_at};
ghost use Rattle.eleos_machine.specs.Notes.{free_notes};
ghost use Rattle.eleos_machine.specs.Passes.{IsLawful};

use crate::found::{Found, NoVictim};
use crate::rounds::{FoundAt, count_of, frame_in, round};
use eleos_base::Sealer;
use eleos_core::{Frame, Use};
use eleos_machine::{ClockTurn, FreeFrame, Machine, Pass};
use eleos_plot::Cell;

/// Finds a frame among those of the clock's enclave: a free one, where `free`, or one with a page
/// that nobody links. Never waits. Where it finds none, the pass's notes have each frame once.
pub fn victim<S: Sealer>(
    m: &Machine<S>,
    pass: &mut Pass,
    clock: &mut ClockTurn,
    free: bool,
) -> Result<Found, NoVictim>
    requires may { MaySearch m.now pass.old clock.old }
    requires notes { AreNotes clock.old.clock free (free_notes pass.old.sweep.words) }
    ensures answers { Answers pass.old clock.old.clock clock.old.hand free result
        pass.new clock.new.hand }
    ensures clock { clock.new ≡ record clock.old { hand = clock.new.hand } }

    // What was found is the enclave's, and the turn of its clock cell is still in hand.
    ensures owned { (e : ℕ) → HasClock pass.old (Some e) clock.old
        → IfOk result (λ found. IsOwned e found pass.new) }
    ensures held { (e : ℕ) → HasClock pass.old (Some e) clock.old
        → HasClock pass.new (Some e) clock.new }
    ensures lawful { IsLawful pass.new }
{
    let found = search(m, pass, clock, free);
    // What it has seen is a legal history.
    let _ = pass.left();
    match found {
        Some(at) => Ok(moved(clock, at)),
        None => Err(NoVictim),
    }
}

/// The search, and where it found a frame. Of its two rounds the first passes pages that were
/// touched.
fn search<S: Sealer>(
    m: &Machine<S>,
    pass: &mut Pass,
    clock: &ClockTurn,
    free: bool,
) -> Option<FoundAt>
    requires may { MaySearch m.now pass.old clock.now }
    requires notes { AreNotes clock.now.clock free (free_notes pass.old.sweep.words) }
    ensures { Rounds pass.old clock.now free true result pass.new }
{
    let _ = pass.left();
    if let Some(at) = first_free(m, pass, clock, free) {
        return Some(at);
    }
    if let Some(at) = round(m, pass, clock, free, false) {
        return Some(at);
    }
    round(m, pass, clock, free, true)
}

/// The hand goes behind a page that was found.
fn moved(clock: &mut ClockTurn, at: FoundAt) -> Found
    requires inside { at.place < length clock.old.clock }
    requires few { length clock.old.clock ≤ 512 }
    ensures found { result ≡ at.found }
    ensures clock { clock.new ≡ record clock.old {
      hand = hand_after clock.old.hand (length clock.old.clock) at.place at.found;
    } }
{
    let FoundAt { found, place } = at;
    if let Found::Sole(_) = &found {
        clock.hand = next_place(place, count_of(clock));
    }
    found
}

/// The place behind this one, the first behind the last.
fn next_place(place: usize, count: usize) -> u32
    requires { place < 512 }
    ensures { result ≡ next_place place count }
{
    if place + 1 < count {
        place as u32 + 1
    } else {
        0
    }
}

/// The first frame of the list whose cell can be taken and is free, where one is wanted.
fn first_free<S: Sealer>(
    m: &Machine<S>,
    pass: &mut Pass,
    clock: &ClockTurn,
    free: bool,
) -> Option<FoundAt>
    requires may { MaySearch m.now pass.old clock.now }
    requires notes { AreNotes clock.now.clock free (free_notes pass.old.sweep.words) }
    ensures { FirstFree pass.old clock.now free result pass.new }
{
    let _ = pass.left();
    if !free {
        return None;
    }
    for place in 0..count_of(clock) {
        if let Some(found) = try_free(m, pass, clock, frame_in(clock, place)) {
            return Some(FoundAt {
                found: Found::Free(found),
                place,
            });
        }
    }
    None
}

/// The frame, where its cell can be taken and is free.
pub(crate) fn try_free<S: Sealer>(
    m: &Machine<S>,
    pass: &mut Pass,
    clock: &ClockTurn,
    frame: u32,
) -> Option<FreeFrame>
    requires may { MaySearch m.now pass.old clock.now }
    requires frame { frame < all_frames (plan_at m.now) }
    ensures { TriedFree pass.old frame result pass.new }
{
    let _ = pass.left();
    let cell = m.frame_cell(frame);
    let Ok(taken) = m.try_take(pass, cell, false) else {
        return None;
    };
    if is_free(&taken.value) {
        return Some(FreeFrame {
            frame,
            cell: taken.value,
        });
    }
    m.give(pass, cell, taken.value);
    None
}

/// Whether the cell is that of a frame without a page.
fn is_free(cell: &Cell) -> bool
    ensures { IsTrue result ↔ IsFreeCell cell.now }
{
    match cell {
        Cell::Frame(frame) => holds_none(frame),
        _ => false,
    }
}

/// Whether the frame holds no page.
fn holds_none(frame: &Frame) -> bool
    ensures { IsTrue result ↔ (holder_of_use frame.now.used ≡ None) }
{
    matches!(frame.used, Use::Free { .. })
}
