// How many places a host has.
ghost use Rattle.std.specs.Prelude.{◌≡◌, ◌≤◌, IfOk, OnErr, OnOk, is_ok, max, option_map};
ghost use Rattle.std.specs.Prelude.{if◌then◌else◌};
ghost use Rattle.eleos_host.specs.Stores.{with_room};

use crate::{HostSpace, HostStore};
use eleos_base::NoMemory;

/// A host of one thread that can have more places than it has.
pub trait HostRoom: HostStore {
    /// Sees to it that it has at least so many places, with zeros where it had none.
    /// From then on no call of a port or a hand needs memory for one of them.
    fn make_room(&mut self, places: u32) -> Result<(), NoMemory>
        ensures ok { OnOk result
            (Self.store self.new ≡ option_map (with_room places) (Self.store self.old)) }
        ensures err { OnErr result (Self.store self.new ≡ Self.store self.old) }
        ensures places { Self.places self.new
            ≡ (if is_ok result then max (Self.places self.old) places else Self.places self.old) }
        ensures given { Self.given self.new ≡ Self.given self.old }
        ensures taken { Self.taken self.new ≡ Self.taken self.old };
}

/// A host for threads, before it is known how many places they need.
pub trait HostOpener: Drop {
    /// The host as threads reach it.
    type Space: HostSpace + Sync + Drop;

    /// Opens it with at least so many places. From then on no call of a port or a hand needs memory
    /// for one of them. Nothing is promised of the blocks.
    fn open(self, places: u32) -> Result<Self::Space, NoMemory>
        ensures { IfOk result (λ space. places ≤ Self.Space.places space) };
}
