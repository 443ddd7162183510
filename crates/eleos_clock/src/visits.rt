// A visit of one frame.
ghost use Rattle.std.specs.Prelude.{◌≡◌, ◌<◌, length, Some, false};
ghost use Rattle.eleos_core.specs.Parts.{frame_cell};
ghost use Rattle.eleos_base.specs.Places.{all_frames, all_pages};
ghost use Rattle.eleos_core.specs.Sweeps.{frames_in};
ghost use Rattle.eleos_turn.specs.Numbers.{times};
ghost use Rattle.eleos_machine.specs.Holding.{HasFrame, HasFree, holder_seen};
ghost use Rattle.eleos_machine.specs.Machines.{plan_at};
ghost use Rattle.eleos_machine.specs.Notes.{is_noted_free};
ghost use Rattle.eleos_clock.specs.Searches.{MayLook, MaySearch};
ghost use Rattle.eleos_clock.specs.Answered.{SeenFree, SeenPage, Visited};

use crate::found::Found;
use eleos_base::{CellWord, Looked, Sealer};
use eleos_core::{Frame, Use};
use eleos_machine::{ClockTurn, FreeFrame, Machine, Pass, SolePage, page_cell};
use eleos_plot::Cell;

/// Visits a frame whose turn the pass does not have, and passes it or answers what it has. Where
/// not
/// `all` are to be seen it passes a page that was touched, and clears its mark.
pub(crate) fn visit<S: Sealer>(
    m: &Machine<S>,
    pass: &mut Pass,
    clock: &ClockTurn,
    frame: u32,
    free: bool,
    all: bool,
) -> Option<Found>
    requires may { MaySearch m.now pass.old clock.now }
    requires frame { frame < all_frames (plan_at m.now) }
    requires room { is_noted_free frame pass.old.sweep.words ≡ false
        → length pass.old.sweep.words < all_frames (plan_at m.now) }
    requires once { is_noted_free frame pass.old.sweep.words ≡ false
        → times frame (frames_in pass.old.sweep.words) ≡ 0 }
    ensures { Visited pass.old frame free all result pass.new }
{
    let _ = pass.left();
    if is_noted_free(pass.sweep(), frame) {
        return None;
    }
    let cell = m.frame_cell(frame);
    let Ok(taken) = m.sweep_try(pass, frame, cell) else {
        return None;
    };
    let Cell::Frame(held) = taken.value else {
        unreachable!()
    };
    match held.used {
        Use::Lent { page } => visit_page(m, pass, frame, Cell::Frame(held), page, all),
        Use::Free { .. } => visit_free(
            m,
            pass,
            FreeFrame {
                frame,
                cell: Cell::Frame(held),
            },
            free,
        ),
    }
}

/// Whether the frame is noted as free.
fn is_noted_free(words: &[Looked], frame: u32) -> bool
    ensures { result ≡ is_noted_free frame words.now }
{
    words
        .iter()
        .any(|seen| seen.frame == frame && seen.word == 0)
}

/// Passes a free frame, which is noted, or answers it where one is wanted.
fn visit_free<S: Sealer>(
    m: &Machine<S>,
    pass: &mut Pass,
    found: FreeFrame,
    free: bool,
) -> Option<Found>
    requires look { MayLook m.now pass.old }
    requires has { HasFree pass.old found }
    requires room { length pass.old.sweep.words < all_frames (plan_at m.now) }
    requires unnoted { times found.frame (frames_in pass.old.sweep.words) ≡ 0 }
    ensures { SeenFree pass.old found free result pass.new }
{
    let _ = pass.left();
    if free {
        return Some(Found::Free(found));
    }
    m.sweep_free(pass, &found);
    let FreeFrame { frame, cell } = found;
    m.give(pass, m.frame_cell(frame), cell);
    None
}

/// Passes a frame that has a page, or answers it where nobody links the page.
fn visit_page<S: Sealer>(
    m: &Machine<S>,
    pass: &mut Pass,
    frame: u32,
    held: Cell,
    page: u32,
    all: bool,
) -> Option<Found>
    requires look { MayLook m.now pass.old }
    requires has { HasFrame pass.old frame held }
    requires holds { holder_seen pass.old frame ≡ Some page }
    requires page { page < all_pages (plan_at m.now) }
    requires room { length pass.old.sweep.words < all_frames (plan_at m.now) }
    requires unnoted { is_noted_free frame pass.old.sweep.words ≡ false }
    ensures { SeenPage pass.old frame all result pass.new }
{
    // What it has seen is a legal history.
    let _ = pass.left();
    let frame_cell = m.frame_cell(frame);
    let cell = page_cell(m.plan(), page);
    let word = CellWord::new(m.sweep_look(pass, frame, cell));
    if word.is_taken() {
        m.give(pass, frame_cell, held);
        return None;
    }
    if !all && word.is_referenced() {
        m.unref(pass, cell);
        m.give(pass, frame_cell, held);
        return None;
    }
    let Ok(taken) = m.sweep_try(pass, frame, cell) else {
        m.give(pass, frame_cell, held);
        return None;
    };
    if CellWord::new(taken.word).pins() != 0 {
        m.give(pass, cell, taken.value);
        m.give(pass, frame_cell, held);
        return None;
    }
    Some(Found::Sole(SolePage {
        page,
        frame,
        page_cell: taken.value,
        frame_cell: held,
    }))
}
