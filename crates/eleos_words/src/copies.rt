// The bytes of a cell, word by word.
ghost use Rattle.std.specs.Prelude.{◌≡◌, ◌≤◌, ◌<◌, length};
ghost use Rattle.eleos_words.specs.Bytes.{words_of};
ghost use Rattle.eleos_words.specs.Glances.{NoneFrom, CopiesBytes};
ghost use Rattle.eleos_words.specs.Layout.{place};
ghost use Rattle.eleos_words.specs.Stores.{StoresAll};
ghost use Rattle.eleos_words.specs.Told.{placed_from};

use crate::layout::{BYTES, CELL_WORDS, CELLS, MOST_BYTES};
use crate::{Glance, RingPort, put_word, word_in, words_for};

/// Stores the bytes as those of the cell.
pub fn store_bytes<P: RingPort>(port: &mut P, cell: u32, bytes: &[u8])
    requires cell { cell < CELLS }
    requires few { length bytes.now ≤ MOST_BYTES }
    ensures { StoresAll P.RingPort.own port.old port.new
        (placed_from (place cell BYTES) (words_of bytes.now)) }
{
    let from = cell * CELL_WORDS + BYTES;
    for j in 0..words_for(bytes.len()) {
        port.store(from + j, word_in(bytes, j));
    }
}

impl<'a, P: RingPort> Glance<'a, P> {
    /// Fills the buffer with the first bytes of the cell. Each of their words is copied once.
    pub fn copy_bytes(&mut self, buf: &mut [u8])
        requires few { length buf.old ≤ MOST_BYTES }
        requires uncopied { NoneFrom self.old.copies 0 }
        ensures port { self.new.port.ghost_name ≡ self.old.port.ghost_name }
        ensures copies { CopiesBytes P.RingPort.own self.old self.new buf.new }
    {
        for j in 0..words_for(buf.len()) {
            put_word(buf, j, self.word(j));
        }
    }
}
