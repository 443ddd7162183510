// A host in memory for many threads, which tells nothing of what it has.
ghost use Rattle.std.specs.Prelude.{◌≡◌, ◌≤◌, max, nat_lt, is_some, IfOk, OnErr, OnOk, None};
ghost use Rattle.eleos_host.specs.Blocks.{IsBlock, zero_block};
ghost use Rattle.eleos_host.specs.Crossings.{none_yet};

use crate::block::ZEROS;
use crate::words::Words;
use crate::{Crossings, HostHand, HostOpener, HostPort, HostSpace, HostStore};
use eleos_base::NoMemory;
use std::alloc::Global;
use std::marker::Model;
use std::sync::atomic::{AtomicBool, Ordering};

// The block of a place, and room for one kept block of it.
#[derive(Drop)]
struct Place {
    block: Words,
    kept: Words,
    is_kept: AtomicBool,
}

impl Place {
    fn new() -> Self {
        Place {
            block: Words::new(),
            kept: Words::new(),
            is_kept: AtomicBool::new(false),
        }
    }

    fn keep(&self) {
        self.kept.copy_from(&self.block);
        self.is_kept.store(true, Ordering::SeqCst);
    }

    fn restore(&self) -> bool {
        let is_kept = self.is_kept.load(Ordering::SeqCst);
        if is_kept {
            self.block.copy_from(&self.kept);
        }
        is_kept
    }
}

/// A host that threads share, in plain atomic words and without a lock.
/// It has one block for each place, and room for one kept block of each.
/// Each word is read and written in one step, but a block is not: while two threads are at one
/// place, a block may have words of both.
/// A place that it doesn't have reads as zeros, and no call changes anything there.
#[derive(Drop)]
pub struct SharedHost {
    places: Vec<Place>,
}

impl Model for SharedHost {
    ghost use Rattle.std.specs.Prelude.{length};
    ghost use Rattle.eleos_host.specs.Hosts.{Shared};

    ghost Value = { Shared };

    ghost view = { λ host. record { places = length host.places.items } };
}

impl SharedHost {
    /// A host without a place.
    pub fn new(alloc: Global) -> SharedHost
        ensures { result.places ≡ 0 }
    {
        SharedHost {
            places: Vec::new(alloc),
        }
    }

    /// A host of so many places with zeros, of which nothing is kept.
    pub fn make(alloc: Global, places: u32) -> Result<SharedHost, NoMemory>
        ensures { IfOk result (λ host. host.places ≡ places) }
    {
        let mut host = SharedHost::new(alloc);
        host.make_room(places)?;
        Ok(host)
    }

    /// Sees to it that it has at least so many places, with zeros where it had none.
    pub fn make_room(&mut self, places: u32) -> Result<(), NoMemory>
        ensures ok { OnOk result (self.new.places ≡ max self.old.places places) }
        ensures err { OnErr result (self.new.places ≡ self.old.places) }
    {
        let places = self.places.len().max(places as usize);
        self.places.resize_with(places, || Place::new())?;
        Ok(())
    }

    fn at(&self, place: u32) -> Option<&Place>
        ensures { is_some result ≡ nat_lt place self.now.places }
    {
        self.places.get(place as usize)
    }

    #[tactic(auto, unfolding(crate::specs::Blocks::zero_block))]
    fn read(&self, place: u32, buf: &mut [u8])
        requires { IsBlock buf.old }
        ensures whole { IsBlock buf.new }
        ensures outside { self.now.places ≤ place → buf.new ≡ zero_block }
    {
        match self.at(place) {
            Some(found) => found.block.load(buf),
            None => buf.copy_from_slice(&ZEROS),
        }
    }

    fn write(&self, place: u32, bytes: &[u8])
        requires { IsBlock bytes.now }
    {
        if let Some(found) = self.at(place) {
            found.block.store(bytes);
        }
    }
}

/// A thread's way to the blocks of a shared host.
#[derive(Drop)]
pub struct SharedPort<'a> {
    host: &'a SharedHost,
    given: Crossings,
    taken: Crossings,
}

/// A hand of a shared host.
#[derive(Drop)]
pub struct SharedHand<'a> {
    host: &'a SharedHost,
}

// Its ports and hands borrow the host, and take no memory.
impl<'a> HostSpace for &'a SharedHost {
    ghost places = { λ host. host.now.places };

    type Port = SharedPort<'a>;

    type Hand = SharedHand<'a>;

    fn port(&self, _who: u32) -> SharedPort<'a> {
        SharedPort {
            host: *self,
            given: Crossings::new(),
            taken: Crossings::new(),
        }
    }

    fn hand(&self) -> SharedHand<'a> {
        SharedHand { host: *self }
    }
}

// It is lent for good, so that threads can share it from then on.
impl<'a> HostOpener for &'a mut SharedHost {
    type Space = &'a SharedHost;

    fn open(self, places: u32) -> Result<&'a SharedHost, NoMemory> {
        self.make_room(places)?;
        Ok(self)
    }
}

impl<'a> HostStore for SharedPort<'a> {
    ghost places = { λ port. port.host.now.places };

    ghost store = { λ port. None };

    ghost given = { λ port. port.given };

    ghost taken = { λ port. port.taken };
}

impl<'a> HostPort for SharedPort<'a> {
    ghost gave = { λ place block. IsBlock block };

    ghost took = { λ place block. IsBlock block };

    fn begin(&mut self) {
        self.given = Crossings::new();
        self.taken = Crossings::new();
    }

    fn get(&mut self, place: u32, buf: &mut [u8]) {
        self.host.read(place, buf);
        self.given.add(place, buf);
    }

    fn put(&mut self, place: u32, bytes: &[u8]) {
        self.host.write(place, bytes);
        self.taken.add(place, bytes);
    }
}

impl<'a> HostStore for SharedHand<'a> {
    ghost places = { λ hand. hand.host.now.places };

    ghost store = { λ hand. None };

    // Nothing crosses a hand.
    ghost given = { λ hand. none_yet };

    ghost taken = { λ hand. none_yet };
}

impl<'a> HostHand for SharedHand<'a> {
    ghost did = { λ act answer. Unit {0} };

    fn flip(&mut self, place: u32, bit: u32) {
        if let Some(found) = self.host.at(place) {
            found.block.flip(bit);
        }
    }

    fn swap(&mut self, a: u32, b: u32) {
        let mut at_a = ZEROS;
        let mut at_b = ZEROS;
        self.host.read(a, &mut at_a);
        self.host.read(b, &mut at_b);
        self.host.write(a, &at_b);
        self.host.write(b, &at_a);
    }

    fn keep(&mut self, place: u32) {
        if let Some(found) = self.host.at(place) {
            found.keep();
        }
    }

    fn restore(&mut self, place: u32) -> bool {
        self.host.at(place).is_some_and(|found| found.restore())
    }
}
