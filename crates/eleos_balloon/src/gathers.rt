// Frames that an enclave gets from the pool.
ghost use Rattle.std.specs.Prelude.{◌≡◌, ◌<◌, ◌≤◌, [], length};
ghost use Rattle.eleos_balloon.specs.Gathers.{Gathering, GathersOne, GathersTo};

use crate::moves::move_frame;
use crate::went::Went;
use eleos_base::Sealer;
use eleos_machine::{ClockTurn, FreeFrame, Machine, Pass};

/// Tries the first frame of the pool that is not noted: it goes to the enclave, or it is found busy
/// and is noted so. Never waits.
pub fn gather_one<S: Sealer>(
    m: &Machine<S>,
    pass: &mut Pass,
    enclave: u16,
    clock: &mut ClockTurn,
    pool: &mut ClockTurn,
) -> Option<Went>
    requires own { pass.old.hand.home ≡ m.now }
    requires holds { Gathering enclave clock.old pool.old pass.old }
    requires more { length pass.old.sweep.words < length pool.old.clock }
    requires left { 0 < pass.old.hand.left }
    ensures { GathersOne pass.old enclave clock.old pool.old result pass.new clock.new pool.new }
{
    let _ = pass.left();
    let frame = pool.clock.at(pass.sweep().len());
    let cell = m.frame_cell(frame);
    let Ok(taken) = m.sweep_try(pass, frame, cell) else {
        return None;
    };
    let free = FreeFrame {
        frame,
        cell: taken.value,
    };
    move_frame(m, pass, free, None, pool, Some(enclave), clock);
    Some(Went {
        evicted: None,
        frame,
        stamp: pass.last_stamp(),
    })
}

/// Brings frames of the pool to the enclave, in the pool's order, until it has `to`, as long as
/// there is one to try.
pub(crate) fn gather_to<S: Sealer>(
    m: &Machine<S>,
    pass: &mut Pass,
    enclave: u16,
    clock: &mut ClockTurn,
    pool: &mut ClockTurn,
    to: u32,
)
    requires own { pass.old.hand.home ≡ m.now }
    requires holds { Gathering enclave clock.old pool.old pass.old }
    requires empty { pass.old.sweep.words ≡ [] }
    requires fewer { length clock.old.clock ≤ to }
    requires left { length pool.old.clock ≤ pass.old.hand.left }
    ensures { GathersTo pass.old enclave clock.old pool.old to pass.new clock.new pool.new }
{
    let _ = pass.left();
    let most = pool.clock.len();
    for _done in 0..most {
        if clock.clock.len() >= to as usize {
            return;
        }
        let _ = gather_one(m, pass, enclave, clock, pool);
    }
}
