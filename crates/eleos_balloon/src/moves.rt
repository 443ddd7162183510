// A free frame that goes to another owner.
ghost use Rattle.std.specs.Prelude.{◌≡◌};
ghost use Rattle.eleos_base.specs.declared.plan.Plan.{Plan};
ghost use Rattle.eleos_core.specs.Parts.{frame_part, holder_in};
ghost use Rattle.eleos_plot.specs.Cells.{part_of_cell};
ghost use Rattle.eleos_plot.specs.Fits.{IsFrameCell};
ghost use Rattle.eleos_balloon.specs.Moves.{HasMoved, MayMove};

use crate::lists::{join, leave};
use eleos_base::Sealer;
use eleos_machine::{ClockTurn, FreeFrame, Machine, Pass};
use eleos_plot::{Cell, EventRef, ReplyRef};

/// Moves a free frame from one owner to another, one of which is the pool, with the turns of both
/// clock cells in hand. The frame goes last in its new owner's list, and its turn goes back. Never
/// waits, and takes no memory.
pub fn move_frame<S: Sealer>(
    m: &Machine<S>,
    pass: &mut Pass,
    free: FreeFrame,
    from: Option<u16>,
    from_clock: &mut ClockTurn,
    to: Option<u16>,
    to_clock: &mut ClockTurn,
)
    requires own { pass.old.hand.home ≡ m.now }
    requires may { MayMove pass.old free from from_clock.old to to_clock.old }
    ensures { HasMoved pass.old free.frame from from_clock.old to to_clock.old
        pass.new from_clock.new to_clock.new }
{
    let _ = pass.left();
    let FreeFrame { frame, cell } = free;
    pass.set(EventRef::Move { frame, from, to }, ReplyRef::Done);
    m.stamp(pass);
    leave(from_clock, frame);
    join(to_clock, frame);
    m.give(pass, m.frame_cell(frame), owned_by(cell, to));
}

/// The cell of a frame, with another owner.
fn owned_by(cell: Cell, owner: Option<u16>) -> Cell
    requires { (k : Plan) × IsFrameCell k cell }
    ensures { part_of_cell result ≡ frame_part owner (holder_in (part_of_cell cell)) }
{
    match cell {
        Cell::Frame(mut frame) => {
            frame.owner = owner;
            Cell::Frame(frame)
        }
        _ => unreachable!(),
    }
}
