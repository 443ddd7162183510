// A thread's way to the blocks of the host.
ghost use Rattle.std.specs.Prelude.{◌≡◌, ◌≤◌, ℕ, List, Option, option_map, IfSome};
ghost use Rattle.eleos_host.specs.Blocks.{IsBlock, zero_block};
ghost use Rattle.eleos_host.specs.Crossings.{Placed, none_yet, with_crossing};
ghost use Rattle.eleos_host.specs.Stores.{Store, get_from, put_to};

/// What a host has and what crossed, as far as that is told.
pub trait HostStore: Drop {
    /// How many places it has.
    ghost places: { Self → ℕ };

    /// The blocks that it has and those that were kept, or None where it tells nothing.
    ghost store: { Self → Option Store };

    /// The blocks that a port gave since `begin`, in order, told while there are at most
    /// `MOST_TOLD`.
    ghost given: { Self → Option (List Placed) };

    /// The blocks that it took since `begin`, in the same way.
    ghost taken: { Self → Option (List Placed) };
}

/// One thread's way to the blocks of a host that is not trusted.
/// It never refuses.
/// Of the bytes that it gives nothing is known, unless the host tells what it has.
pub trait HostPort: HostStore {
    /// The host gave this block for this place. It is the same for all ports of a host.
    ghost gave: { ℕ → List ℕ → Type 0 };

    /// The host took this block for this place. It is the same for all ports of a host.
    ghost took: { ℕ → List ℕ → Type 0 };

    /// Begins both lists anew.
    fn begin(&mut self)
        ensures given { Self.given self.new ≡ none_yet }
        ensures taken { Self.taken self.new ≡ none_yet }
        ensures store { Self.store self.new ≡ Self.store self.old }
        ensures places { Self.places self.new ≡ Self.places self.old };

    /// Fills the buffer with a block for the place: zeros where the host doesn't have it.
    fn get(&mut self, place: u32, buf: &mut [u8])
        requires { IsBlock buf.old }
        ensures gave { gave place buf.new }
        ensures given { Self.given self.new ≡ with_crossing (Self.given self.old) place buf.new }
        ensures taken { Self.taken self.new ≡ Self.taken self.old }
        ensures store { Self.store self.new ≡ Self.store self.old }
        ensures places { Self.places self.new ≡ Self.places self.old }

        ensures told { IfSome (Self.store self.old) (λ s. buf.new ≡ get_from s place) }
        ensures outside { Self.places self.old ≤ place → buf.new ≡ zero_block };

    /// Hands a block over for the place.
    fn put(&mut self, place: u32, bytes: &[u8])
        requires { IsBlock bytes.now }
        ensures took { took place bytes.now }
        ensures taken { Self.taken self.new
            ≡ with_crossing (Self.taken self.old) place bytes.now }
        ensures given { Self.given self.new ≡ Self.given self.old }
        ensures store { Self.store self.new
            ≡ option_map (λ s. put_to s place bytes.now) (Self.store self.old) }
        ensures places { Self.places self.new ≡ Self.places self.old };
}
