// What the host does for a job.
ghost use Rattle.std.specs.Prelude.{◌≡◌, ◌≤◌, ◌<◌, ◌==◌, IfOk, IfSome, length, position};
ghost use Rattle.eleos_words.specs.declared.layout.TheConstants.{MOST_BYTES};
ghost use Rattle.eleos_work.specs.declared.calls.TheConstants.{OKAY};
ghost use Rattle.eleos_work.specs.Calls.{text_in, replied};
ghost use Rattle.eleos_work.specs.Table.{bare, IsReply};

use crate::calls::{BAD_JOB, FULL, HostCall, KEY_BYTES, MISSING, MOST_KEYS, OKAY};
use crate::entry::Entry;
use eleos_base::NoMemory;
use eleos_words::{MOST_BYTES, word_in};
use std::alloc::Global;
use std::marker::Model;

/// The table of calls, and what it keeps. Its room was taken by `make`.
#[derive(Drop)]
pub(crate) struct CallTable {
    entries: Vec<Entry>,
    done: u64,
}

impl Model for CallTable {
    ghost use Rattle.std.specs.Prelude.{◌≤◌, length, vec_capacity};
    ghost use Rattle.eleos_work.specs.declared.calls.TheConstants.{MOST_KEYS};
    ghost use Rattle.eleos_work.specs.States.{TableState};

    ghost Value = { TableState };

    ghost view = { λ t. record { kept = t.entries.items; done = t.done } };

    ghost invariant = { λ t.
        (length t.entries.items ≤ MOST_KEYS) × (MOST_KEYS ≤ vec_capacity t.entries) };
}

/// The status of a reply, and the length of its bytes.
#[derive(Clone, Copy, Debug, PartialEq, Eq)]
pub(crate) struct Answered {
    pub(crate) status: u64,
    pub(crate) length: usize,
}

impl CallTable {
    ghost use Rattle.eleos_work.specs.declared.calls.HostCall.TheVariants.{Echo, Put, Get, Cut};
    ghost use Rattle.eleos_work.specs.declared.calls.HostCall.TheVariants.{Clock};
    ghost use Rattle.eleos_work.specs.Calls.{place_of, put_status, cut_status, get_reply};
    ghost use Rattle.eleos_work.specs.Calls.{clock_reply, after_put, after_cut, kept_after_call};
    ghost use Rattle.eleos_work.specs.Calls.{reply_to_call};
    ghost use Rattle.eleos_work.specs.Table.{no_entries, AnswersBy};

    /// A table that keeps nothing.
    pub(crate) fn make(alloc: Global) -> Result<CallTable, NoMemory>
        ensures { IfOk result (λ t. t ≡ no_entries) }
    {
        Ok(CallTable {
            entries: Vec::with_capacity(alloc, MOST_KEYS)?,
            done: 0,
        })
    }

    /// Does the job of this call's number. Its bytes are the first `count` of `text`.
    /// A count above `MOST_BYTES` is no job.
    pub(crate) fn act(
        &mut self,
        number: u64,
        text: &[u8; MOST_BYTES],
        count: u64,
        reply: &mut [u8],
    ) -> Answered
        requires { length reply.old ≡ MOST_BYTES }
        ensures { AnswersBy self.old self.new number (text_in text.now count) result reply.new }
    {
        let answered = match HostCall::of(number) {
            Some(call) if count <= MOST_BYTES as u64 => {
                self.answer(call, &text[..count as usize], reply)
            }
            _ => empty(BAD_JOB),
        };
        self.done = self.done.saturating_add(1);
        answered
    }

    // Does a job with these bytes.
    fn answer(&mut self, call: HostCall, text: &[u8], reply: &mut [u8]) -> Answered
        requires few { length text.now ≤ MOST_BYTES }
        requires room { length reply.old ≡ MOST_BYTES }
        ensures replies { IsReply (reply_to_call self.old call text.now) result reply.new }
        ensures kept { self.new.kept ≡ kept_after_call self.old call text.now }
        ensures done { self.new.done ≡ self.old.done }
    {
        match call {
            HostCall::Echo => copied(text, reply),
            HostCall::Put => self.put(text),
            HostCall::Get => self.get(text, reply),
            HostCall::Cut => self.cut(text),
            HostCall::Clock => self.clock(text, reply),
        }
    }

    // Where the value of the key stands.
    fn find(&self, key: u64) -> Option<usize>
        ensures place { result ≡ place_of self.now key }
        ensures within { IfSome result (λ i. i < length self.now.kept) }
    {
        position_of(&self.entries, key)
    }

    fn put(&mut self, text: &[u8]) -> Answered
        requires { length text.now ≤ MOST_BYTES }
        ensures answered { result ≡ bare (put_status self.old text.now) }
        ensures kept { self.new.kept ≡ after_put self.old text.now }
        ensures done { self.new.done ≡ self.old.done }
    {
        if text.len() < KEY_BYTES {
            return empty(BAD_JOB);
        }
        let entry = Entry::of(text);
        if let Some(i) = self.find(entry.key()) {
            self.entries[i] = entry;
            return empty(OKAY);
        }
        if self.entries.len() >= MOST_KEYS {
            return empty(FULL);
        }
        let Ok(()) = self.entries.push(entry) else {
            unreachable!()
        };
        empty(OKAY)
    }

    fn get(&self, text: &[u8], reply: &mut [u8]) -> Answered
        requires { length reply.old ≡ MOST_BYTES }
        ensures { IsReply (get_reply self.now text.now) result reply.new }
    {
        if text.len() != KEY_BYTES {
            return empty(BAD_JOB);
        }
        match self.find(word_in(text, 0)) {
            Some(i) => self.entries[i].tell(reply),
            None => empty(MISSING),
        }
    }

    fn cut(&mut self, text: &[u8]) -> Answered
        ensures answered { result ≡ bare (cut_status self.old text.now) }
        ensures kept { self.new.kept ≡ after_cut self.old text.now }
        ensures done { self.new.done ≡ self.old.done }
    {
        if text.len() != KEY_BYTES {
            return empty(BAD_JOB);
        }
        match self.find(word_in(text, 0)) {
            Some(i) => {
                let _ = self.entries.remove(i);
                empty(OKAY)
            }
            None => empty(MISSING),
        }
    }

    #[tactic(auto, unfolding(eleos_words::specs::Bytes::bytes_of_word))]
    fn clock(&self, text: &[u8], reply: &mut [u8]) -> Answered
        requires { length reply.old ≡ MOST_BYTES }
        ensures { IsReply (clock_reply self.now text.now) result reply.new }
    {
        if !text.is_empty() {
            return empty(BAD_JOB);
        }
        copied(&self.done.to_be_bytes(), reply)
    }
}

// Where the value of the key stands.
fn position_of(entries: &[Entry], key: u64) -> Option<usize>
    ensures place { result ≡ position (λ e. e.key == key) entries.now }
    ensures within { IfSome result (λ i. i < length entries.now) }
{
    entries.iter().position(|entry| entry.key() == key)
}

/// A reply of these bytes.
pub(crate) fn copied(bytes: &[u8], reply: &mut [u8]) -> Answered
    requires few { length bytes.now ≤ MOST_BYTES }
    requires room { length reply.old ≡ MOST_BYTES }
    ensures { IsReply (replied OKAY bytes.now) result reply.new }
{
    reply[..bytes.len()].copy_from_slice(bytes);
    Answered {
        status: OKAY,
        length: bytes.len(),
    }
}

// A reply without bytes.
fn empty(status: u64) -> Answered
    ensures { result ≡ bare status }
{
    Answered { status, length: 0 }
}
