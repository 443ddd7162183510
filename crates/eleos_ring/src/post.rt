// The words of a job.
ghost use Rattle.std.specs.Prelude.{◌≤◌, ◌<◌, length};
ghost use Rattle.eleos_words.specs.declared.layout.TheConstants.{CELLS, MOST_BYTES};
ghost use Rattle.eleos_ring.specs.Jobs.{job_words, StoresJob};

use eleos_words::{CALL, CELL_WORDS, ID, LENGTH, POSTED, RingPort, STATE, store_bytes};

/// Stores the words of a job and nothing else, the state last: a cell that is posted is whole.
pub(crate) fn store_job<P: RingPort>(port: &mut P, cell: u32, id: u64, call: u64, text: &[u8])
    requires cell { cell < CELLS }
    requires few { length text.now ≤ MOST_BYTES }
    ensures { StoresJob P.RingPort.own port.old port.new (job_words cell id call text.now) }
{
    let from = cell * CELL_WORDS;
    port.glance();
    port.store(from + ID, id);
    port.store(from + CALL, call);
    port.store(from + LENGTH, text.len() as u64);
    store_bytes(port, cell, text);
    port.store(from + STATE, POSTED);
}
