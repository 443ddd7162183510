// A thread's way to the words of a ring.
ghost use Rattle.std.specs.Prelude.{◌≡◌, ℕ, List, Option};
ghost use Rattle.eleos_words.specs.Told.{Placed, none_yet, with_word, more_calls};

/// One thread's way to words that another side, which nobody need trust, reads and writes too.
/// Nothing is known of a word that is loaded: a second load of it may give another word.
pub trait RingPort: Drop {
    /// The ring showed this word at this place. It is the same for all ports of a ring.
    ghost showed: { ℕ → ℕ → Type 0 };

    /// This word was written to this place. It is the same for all ports of a ring.
    ghost wrote: { ℕ → ℕ → Type 0 };

    /// The words loaded since `glance`, in order, told while there are at most `MOST_TOLD`.
    ghost loaded: { Self → Option (List Placed) };

    /// The words stored since `glance`, in the same way.
    ghost stored: { Self → Option (List Placed) };

    /// How many calls of this port were made, short of the largest `u64`.
    ghost calls: { Self → ℕ };

    /// Begins both lists anew.
    fn glance(&mut self)
        ensures loaded { loaded self.new ≡ none_yet }
        ensures stored { stored self.new ≡ none_yet }
        ensures calls { calls self.new ≡ more_calls (calls self.old) 1 };

    /// The word that the ring shows at this place now. A place that it doesn't have reads as 0.
    fn load(&mut self, i: u32) -> u64
        ensures showed { showed i result }
        ensures loaded { loaded self.new ≡ with_word (loaded self.old) i result }
        ensures stored { stored self.new ≡ stored self.old }
        ensures calls { calls self.new ≡ more_calls (calls self.old) 1 };

    /// Writes a word to this place. A place that the ring doesn't have stays as it is.
    fn store(&mut self, i: u32, word: u64)
        ensures wrote { wrote i word }
        ensures stored { stored self.new ≡ with_word (stored self.old) i word }
        ensures loaded { loaded self.new ≡ loaded self.old }
        ensures calls { calls self.new ≡ more_calls (calls self.old) 1 };
}

/// The words of a ring, as threads reach them.
pub trait RingSpace {
    /// One thread's way to the words.
    type Port: RingPort + Send;

    /// A port for the thread of this number.
    fn port(&self, who: u32) -> Self::Port;
}
