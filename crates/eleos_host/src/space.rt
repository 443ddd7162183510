// A host that many threads reach.
ghost use Rattle.std.specs.Prelude.{◌≡◌, ℕ};

use crate::{HostHand, HostPort};

/// The blocks of a host that is not trusted, as threads reach them.
pub trait HostSpace {
    /// How many places the host has.
    ghost places: { Self → ℕ };

    /// One thread's way to the blocks.
    type Port: HostPort + Send;

    /// The way by which the host changes them by itself.
    type Hand: HostHand + Send;

    /// A port for the thread of this number.
    fn port(&self, who: u32) -> Self::Port
        ensures { Self.Port.places result ≡ places self.now };

    /// A hand of the host.
    fn hand(&self) -> Self::Hand
        ensures { Self.Hand.places result ≡ places self.now };
}
