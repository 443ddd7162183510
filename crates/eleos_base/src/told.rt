// A source and a sink in memory, which tell their bytes.
ghost use Rattle.std.specs.Prelude.{◌≡◌, ◌+◌, ◌-◌, ◌≤◌, ℕ, List, [], Some, None, drop, take, min};
ghost use Rattle.std.specs.Prelude.{length};
ghost use Rattle.std.specs.Bool.{OnTrue, OnFalse};
ghost use Rattle.eleos_base.specs.Outside.{HasRisen};

use crate::{Failed, Sink, Source};
use std::alloc::Global;

/// The calls of an object in memory that fail, by their numbers from 0, and how many have failed.
#[derive(Drop)]
struct Faults {
    calls: u64,
    count: u64,
    at: Vec<u64>,
}

impl Faults {
    fn new(at: Vec<u64>) -> Self {
        Faults {
            calls: 0,
            count: 0,
            at,
        }
    }

    /// Counts a call, and says whether it fails.
    fn strikes(&mut self) -> bool
        ensures later { self.old.count ≤ self.new.count }
        ensures yes { OnTrue result (HasRisen self.old.count self.new.count) }
        ensures no { OnFalse result (self.new.count ≡ self.old.count) }
    {
        let call = self.calls;
        self.calls = self.calls.saturating_add(1);
        let fails = self.at.contains(&call);
        if fails {
            self.count();
        }
        fails
    }

    /// Counts a fault.
    fn count(&mut self)
        ensures later { self.old.count ≤ self.new.count }
        ensures risen { HasRisen self.old.count self.new.count }
    {
        self.count = self.count.saturating_add(1);
    }
}

/// Bytes in memory to be taken, which never fails.
#[derive(Drop)]
pub struct FreeSource {
    bytes: Vec<u8>,
    taken: usize,
    ghost within: { taken ≤ length bytes.items },
}

impl FreeSource {
    ghost use Rattle.eleos_base.specs.Told.{free_left};

    pub fn new(bytes: Vec<u8>) -> Self
        ensures { free_left result ≡ bytes.items }
    {
        FreeSource { bytes, taken: 0 }
    }
}

impl Source for FreeSource {
    ghost left = { λ s. Some (drop s.taken s.bytes.items) };

    ghost faults = { λ s. 0 };

    fn take(&mut self, buf: &mut [u8]) -> Result<usize, Failed> {
        let count = copy_front(&self.bytes[self.taken..], buf);
        self.taken += count;
        Ok(count)
    }
}

/// Bytes in memory to be taken, where the calls with these numbers fail.
#[derive(Drop)]
pub struct ListSource {
    source: FreeSource,
    faults: Faults,
}

impl ListSource {
    ghost use Rattle.eleos_base.specs.Told.{source_left};

    pub fn new(bytes: Vec<u8>, fail_at: Vec<u64>) -> Self
        ensures { source_left result ≡ bytes.items }
    {
        ListSource {
            source: FreeSource::new(bytes),
            faults: Faults::new(fail_at),
        }
    }
}

impl Source for ListSource {
    ghost left = { λ s. Some (drop s.source.taken s.source.bytes.items) };

    ghost faults = { λ s. s.faults.count };

    fn take(&mut self, buf: &mut [u8]) -> Result<usize, Failed> {
        if self.faults.strikes() {
            return Err(Failed);
        }
        self.source.take(buf)
    }
}

/// Copies as many bytes as there are and as there is room for.
fn copy_front(from: &[u8], into: &mut [u8]) -> usize
    ensures count { result ≡ min (length from.now) (length into.old) }
    ensures bytes { take result into.new ≡ take result from.now }
{
    let count = from.len().min(into.len());
    into[..count].copy_from_slice(&from[..count]);
    count
}

/// Bytes in memory that were put.
#[derive(Drop)]
pub struct ListSink {
    bytes: Vec<u8>,
    faults: Faults,
}

impl ListSink {
    ghost use Rattle.eleos_base.specs.Told.{sink_got};

    pub fn new(alloc: Global, fail_at: Vec<u64>) -> Self
        ensures { sink_got result ≡ [] }
    {
        ListSink {
            bytes: Vec::new(alloc),
            faults: Faults::new(fail_at),
        }
    }

    pub fn bytes(&self) -> &[u8]
        ensures { result.now ≡ sink_got self.now }
    {
        &self.bytes
    }
}

impl Sink for ListSink {
    ghost got = { λ s. Some s.bytes.items };

    ghost faults = { λ s. s.faults.count };

    fn put(&mut self, piece: &[u8]) -> Result<usize, Failed> {
        if self.faults.strikes() {
            return Err(Failed);
        }
        if self.bytes.extend_from_slice(piece).is_err() {
            self.faults.count();
            return Err(Failed);
        }
        Ok(piece.len())
    }
}

/// Takes all bytes and keeps none; it never fails.
#[derive(Clone, Copy, Debug)]
pub struct FreeSink;

impl Sink for FreeSink {
    ghost got = { λ s. None };

    ghost faults = { λ s. 0 };

    fn put(&mut self, piece: &[u8]) -> Result<usize, Failed> {
        Ok(piece.len())
    }
}
