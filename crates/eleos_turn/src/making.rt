//! A turnstile is made, with its hands.
ghost use Rattle.std.specs.Prelude.{◌≡◌, ◌<◌, ◌≤◌, ◌^◌, [], map, length, replicate, IfOk};
ghost use Rattle.eleos_turn.specs.Rule.{base_of};
ghost use Rattle.eleos_turn.specs.Views.{dealing};
ghost use Rattle.eleos_turn.specs.Hands.{dealt, home_of};

use crate::answers::Refused;
use crate::hand::Hand;
use crate::plays::Deal;
use crate::slot::Slot;
use crate::table::{APART, CellTable};
use crate::told::tell;
use crate::turnstile::Turnstile;
use crate::view::{Key, Place};
use atomic_table::Table;
use eleos_base::{NoMemory, Plot};
use std::alloc::Global;
use std::marker::Brand;
use std::snapshot::Snapshot;

impl<P: Plot> Turnstile<P> {
    /// Puts the cells into a turnstile, and gives hands with the numbers 1, 2 and so on.
    /// The ground is picked by the caller, for clauses alone.
    pub fn make(
        alloc: Global,
        cells: Vec<P::Cell>,
        hands: u32,
        stamps: u64,
    ) -> Result<(Turnstile<P>, Vec<Hand<P>>), NoMemory>
        ghost grounds: { P.Ground }
        requires hands { (0 < hands) × (hands ≤ 16) }
        requires stamps { (0 < stamps) × (stamps ≤ 2 ^ 40) }
        requires cells { length cells.items < 2 ^ 31 }
        ensures base { IfOk result
            (λ r. r.0.base ≡ record { grounds = grounds; opening = map P.terms.part cells.items; hands = hands; each = stamps }) }
        ensures hands { IfOk result (λ r. r.1.items ≡ dealt r.0 0 hands) }
    {
        let told = tell::<P::Ground, Brand>(alloc)?;
        let key = Key {
            cells: Snapshot::of(&cells),
            grounds: Snapshot::of(&told),
            hands: u64::from(hands),
            each: stamps,
        };
        let count = cells.len();
        let Ok(slots) = in_slots(alloc, cells) else {
            return Err(NoMemory);
        };
        let Ok(words) = zeros(alloc, (count + 1) * APART) else {
            return Err(NoMemory);
        };
        let Ok((table, mut seat)) = Table::new(alloc, words.as_slice(), slots, &key) else {
            return Err(NoMemory);
        };
        let Ok(room) = Vec::with_capacity(alloc, count) else {
            return Err(NoMemory);
        };
        let cells = CellTable { table };
        let Ok(dealt) = deal(alloc, &cells, &mut seat, hands, stamps) else {
            return Err(NoMemory);
        };
        Ok((Turnstile { cells, room, hands }, dealt))
    }
}

// Cuts one seat after another off the first, each for a hand.
fn deal<P: Plot>(
    alloc: Global,
    cells: &CellTable<P>,
    seat: &mut Place<P>,
    hands: u32,
    stamps: u64,
) -> Result<Vec<Hand<P>>, NoMemory>
    requires own { seat.old.table_id ≡ cells.now.table.shared.table_id }
    requires fresh { let b = base_of P.terms cells.now.table.shared.key in
        (seat.old.me ≡ (dealing b 0 hands, [])) × (b.hands ≡ hands) × (b.each ≡ stamps) }
    ensures { IfOk result (λ r. r.items ≡ dealt
        (home_of P.terms cells.now.table.shared.table_id cells.now.table.shared.key) 0 hands) }
{
    let Ok(mut dealt) = Vec::with_capacity(alloc, hands as usize) else {
        return Err(NoMemory);
    };
    for i in 0..hands {
        let one = cells.table.shared.split_seat::<Deal>(seat);
        let hand = Hand {
            seat: one,
            number: i + 1,
            left: stamps,
            turns: 0,
            links: 0,
            refused: Refused::none(),
        };
        let Ok(()) = dealt.push(hand) else {
            return Err(NoMemory);
        };
    }
    Ok(dealt)
}

fn in_slots<C: Drop>(alloc: Global, cells: Vec<C>) -> Result<Vec<Slot<C>>, NoMemory>
    ensures { IfOk result (λ r. r.items ≡ map Some cells.items) }
{
    let Ok(mut slots) = Vec::with_capacity(alloc, cells.len()) else {
        return Err(NoMemory);
    };
    for cell in cells {
        let Ok(()) = slots.push(Slot::of(Some(cell))) else {
            return Err(NoMemory);
        };
    }
    Ok(slots)
}

fn zeros(alloc: Global, count: usize) -> Result<Vec<u64>, NoMemory>
    ensures { IfOk result (λ r. r.items ≡ replicate count 0) }
{
    match vec![in alloc; 0u64; count] {
        Ok(words) => Ok(words),
        Err(_) => Err(NoMemory),
    }
}
