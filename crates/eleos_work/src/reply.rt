// The words of a reply.
ghost use Rattle.std.specs.Prelude.{◌≡◌, ◌≤◌, ◌<◌, length};
ghost use Rattle.eleos_words.specs.declared.layout.TheConstants.{CELLS, MOST_BYTES};
ghost use Rattle.eleos_words.specs.Told.{none_yet};
ghost use Rattle.eleos_work.specs.Jobs.{reply_words, StoresReply};

use eleos_words::{CELL_WORDS, DONE, ID, LENGTH, RingPort, STATE, STATUS, store_bytes};

/// Stores the words of a reply, the state last: a cell that is done has the whole reply.
pub(crate) fn store_reply<P: RingPort>(port: &mut P, cell: u32, id: u64, status: u64, bytes: &[u8])
    requires cell { cell < CELLS }
    requires few { length bytes.now ≤ MOST_BYTES }
    requires none { P.stored port.old ≡ none_yet }
    ensures { StoresReply P.RingPort.own port.old port.new (reply_words cell id status bytes.now) }
{
    let from = cell * CELL_WORDS;
    port.store(from + ID, id);
    port.store(from + LENGTH, bytes.len() as u64);
    port.store(from + STATUS, status);
    store_bytes(port, cell, bytes);
    port.store(from + STATE, DONE);
}
