// What else than a port's calls happens to the blocks at the host.
ghost use Rattle.std.specs.Prelude.{◌≡◌, ◌<◌, Option, option_map, IfSome, if◌then◌else◌};
ghost use Rattle.eleos_host.specs.declared.hand.Act.{Act};
ghost use Rattle.eleos_host.specs.declared.hand.ActAnswer.{ActAnswer};
ghost use Rattle.eleos_host.specs.Stores.{flipped, swapped, kept_at, is_kept, restored};

use crate::{BLOCK_BITS, HostStore};

/// What the host does to its blocks by itself.
#[derive(Clone, Copy, Debug, PartialEq, Eq)]
pub enum Act {
    Flip { place: u32, bit: u32 },
    Swap { a: u32, b: u32 },
    Keep { place: u32 },
    Restore { place: u32 },
}

/// What an act came to.
#[derive(Clone, Copy, Debug, PartialEq, Eq)]
pub enum ActAnswer {
    Done,
    /// Of a `Restore`: nothing of that place was kept.
    NothingKept,
}

/// The hand of a host that is not trusted, by which its blocks change without a put.
/// It never refuses an act, and nothing crosses a port by one.
pub trait HostHand: HostStore {
    /// The hand did this, with this answer.
    ghost did: { Act → ActAnswer → Type 0 };

    /// Turns one bit of the place's block: bit k is the bit of value 2^(k mod 8) in byte k / 8.
    fn flip(&mut self, place: u32, bit: u32)
        requires { bit < BLOCK_BITS }
        ensures did { did (Act.Flip place bit) ActAnswer.Done }
        ensures store { Self.store self.new
            ≡ option_map (λ s. flipped s place bit) (Self.store self.old) }
        ensures given { Self.given self.new ≡ Self.given self.old }
        ensures taken { Self.taken self.new ≡ Self.taken self.old }
        ensures places { Self.places self.new ≡ Self.places self.old };

    /// Exchanges the blocks of two places. One that the host doesn't have takes part as zeros.
    fn swap(&mut self, a: u32, b: u32)
        ensures did { did (Act.Swap a b) ActAnswer.Done }
        ensures store { Self.store self.new
            ≡ option_map (λ s. swapped s a b) (Self.store self.old) }
        ensures given { Self.given self.new ≡ Self.given self.old }
        ensures taken { Self.taken self.new ≡ Self.taken self.old }
        ensures places { Self.places self.new ≡ Self.places self.old };

    /// Keeps the place's block as it is, in place of what was kept of it before.
    fn keep(&mut self, place: u32)
        ensures did { did (Act.Keep place) ActAnswer.Done }
        ensures store { Self.store self.new
            ≡ option_map (λ s. kept_at s place) (Self.store self.old) }
        ensures given { Self.given self.new ≡ Self.given self.old }
        ensures taken { Self.taken self.new ≡ Self.taken self.old }
        ensures places { Self.places self.new ≡ Self.places self.old };

    /// Puts back what was kept of the place, which stays kept; false where nothing was.
    fn restore(&mut self, place: u32) -> bool
        ensures did { did (Act.Restore place)
            (if result then ActAnswer.Done else ActAnswer.NothingKept) }
        ensures store { Self.store self.new
            ≡ option_map (λ s. restored s place) (Self.store self.old) }
        ensures given { Self.given self.new ≡ Self.given self.old }
        ensures taken { Self.taken self.new ≡ Self.taken self.old }
        ensures places { Self.places self.new ≡ Self.places self.old }
        ensures answer { IfSome (Self.store self.old) (λ s. result ≡ is_kept s place) };
}
