// A host in memory for one thread, which tells all that it has.
ghost use Rattle.std.specs.Prelude.{◌≡◌, List, Option, Some, IfOk, length};
ghost use Rattle.eleos_host.specs.Blocks.{IsBlock};
ghost use Rattle.eleos_host.specs.Crossings.{none_yet};
ghost use Rattle.eleos_host.specs.Stores.{blank_store};

use crate::store::Shelves;
use crate::{Crossings, HostHand, HostPort, HostRoom, HostStore};
use eleos_base::NoMemory;
use std::alloc::Global;
use std::marker::Model;

/// A host of one thread, as a port and as a hand.
/// It gives what was put, and changes by its hand alone.
/// A place that it doesn't have reads as zeros, and no call changes anything there.
#[derive(Drop)]
pub struct ToldHost {
    shelves: Shelves,
    given: Crossings,
    taken: Crossings,
}

impl Model for ToldHost {
    ghost use Rattle.eleos_host.specs.Hosts.{Told};

    ghost Value = { Told };

    ghost view = { λ h. record { store = h.shelves; given = h.given; taken = h.taken } };
}

impl ToldHost {
    /// A host without a place.
    pub fn new(alloc: Global) -> ToldHost
        ensures store { result.store ≡ blank_store 0 }
        ensures given { result.given ≡ none_yet }
        ensures taken { result.taken ≡ none_yet }
    {
        ToldHost {
            shelves: Shelves::new(alloc),
            given: Crossings::new(),
            taken: Crossings::new(),
        }
    }

    /// A host of so many places with zeros, of which nothing is kept.
    pub fn make(alloc: Global, places: u32) -> Result<ToldHost, NoMemory>
        ensures store { IfOk result (λ host. host.store ≡ blank_store places) }
        ensures given { IfOk result (λ host. host.given ≡ none_yet) }
        ensures taken { IfOk result (λ host. host.taken ≡ none_yet) }
    {
        let mut host = ToldHost::new(alloc);
        host.shelves.make_room(places)?;
        Ok(host)
    }
}

impl HostStore for ToldHost {
    ghost places = { λ host. length host.store.contents };

    ghost store = { λ host. Some host.store };

    ghost given = { λ host. host.given };

    ghost taken = { λ host. host.taken };
}

impl HostRoom for ToldHost {
    fn make_room(&mut self, places: u32) -> Result<(), NoMemory> {
        self.shelves.make_room(places)
    }
}

impl HostPort for ToldHost {
    ghost gave = { λ place block. IsBlock block };

    ghost took = { λ place block. IsBlock block };

    fn begin(&mut self) {
        self.given = Crossings::new();
        self.taken = Crossings::new();
    }

    fn get(&mut self, place: u32, buf: &mut [u8]) {
        buf.copy_from_slice(self.shelves.block_at(place));
        self.given.add(place, buf);
    }

    fn put(&mut self, place: u32, bytes: &[u8]) {
        self.shelves.put(place, bytes);
        self.taken.add(place, bytes);
    }
}

impl HostHand for ToldHost {
    ghost did = { λ act answer. Unit {0} };

    fn flip(&mut self, place: u32, bit: u32) {
        self.shelves.flip(place, bit);
    }

    fn swap(&mut self, a: u32, b: u32) {
        self.shelves.swap(a, b);
    }

    fn keep(&mut self, place: u32) {
        self.shelves.keep(place);
    }

    fn restore(&mut self, place: u32) -> bool {
        self.shelves.restore(place)
    }
}
