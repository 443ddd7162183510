// A value that the host keeps under a key.
ghost use Rattle.std.specs.Prelude.{◌≡◌, ◌≤◌, length};
ghost use Rattle.eleos_words.specs.declared.layout.TheConstants.{MOST_BYTES};
ghost use Rattle.eleos_work.specs.declared.calls.TheConstants.{KEY_BYTES, OKAY};
ghost use Rattle.eleos_work.specs.Calls.{entry_of, replied};
ghost use Rattle.eleos_work.specs.Table.{IsReply};

use crate::calls::{KEY_BYTES, VALUE_BYTES};
use crate::table::{Answered, copied};
use eleos_words::word_in;
use std::marker::Model;

/// A value under its key. The key is the number that its eight bytes spell.
#[derive(Drop)]
pub(crate) struct Entry {
    key: u64,
    length: usize,
    value: [u8; VALUE_BYTES],
}

impl Model for Entry {
    ghost use Rattle.std.specs.Prelude.{◌≤◌, take};
    ghost use Rattle.eleos_work.specs.declared.calls.TheConstants.{VALUE_BYTES};
    ghost use Rattle.eleos_work.specs.States.{KeptValue};

    ghost Value = { KeptValue };

    ghost view = { λ e. record { key = e.key; value = take e.length e.value } };

    ghost invariant = { λ e. e.length ≤ VALUE_BYTES };
}

impl Entry {
    /// The value behind the key that the text begins with.
    pub(crate) fn of(text: &[u8]) -> Entry
        requires long { KEY_BYTES ≤ length text.now }
        requires few { length text.now ≤ MOST_BYTES }
        ensures { result ≡ entry_of text.now }
    {
        let bytes = &text[KEY_BYTES..];
        let mut value = [0; VALUE_BYTES];
        value[..bytes.len()].copy_from_slice(bytes);
        Entry {
            key: word_in(text, 0),
            length: bytes.len(),
            value,
        }
    }

    pub(crate) fn key(&self) -> u64
        ensures { result ≡ self.now.key }
    {
        self.key
    }

    /// Copies the value to the front of the reply.
    pub(crate) fn tell(&self, reply: &mut [u8]) -> Answered
        requires { length reply.old ≡ MOST_BYTES }
        ensures { IsReply (replied OKAY self.now.value) result reply.new }
    {
        copied(&self.value[..self.length], reply)
    }
}
