// What a port notes of its calls, for contracts alone.
ghost use Rattle.std.specs.Prelude.{◌≡◌};
ghost use Rattle.eleos_words.specs.Notes.{no_notes, glanced, with_loaded, with_stored};

use crate::ToldWords;
use std::marker::Model;

/// What a port notes of its calls: the words that it loaded and those that it stored since
/// `glance`, and how many calls were made. It takes no memory.
#[derive(Drop)]
pub struct PortNotes {
    loaded: ToldWords,
    stored: ToldWords,
    calls: u64,
}

impl Model for PortNotes {
    ghost use Rattle.eleos_words.specs.NotedStates.{Noted};

    ghost Value = { Noted };

    ghost view = { λ n. record { loaded = n.loaded; stored = n.stored; calls = n.calls } };
}

impl PortNotes {
    /// Those of a port of which no call was made.
    pub fn new() -> Self
        ensures { result ≡ no_notes }
    {
        PortNotes {
            loaded: ToldWords::new(),
            stored: ToldWords::new(),
            calls: 0,
        }
    }

    /// Notes a `glance`, which begins both lists anew.
    pub fn glance(&mut self)
        ensures { self.new ≡ glanced self.old }
    {
        self.loaded.clear();
        self.stored.clear();
        self.calls = self.calls.saturating_add(1);
    }

    /// Notes a word that was loaded.
    pub fn load(&mut self, at: u32, word: u64)
        ensures { self.new ≡ with_loaded self.old at word }
    {
        self.loaded.add(at, word);
        self.calls = self.calls.saturating_add(1);
    }

    /// Notes a word that was stored.
    pub fn store(&mut self, at: u32, word: u64)
        ensures { self.new ≡ with_stored self.old at word }
    {
        self.stored.add(at, word);
        self.calls = self.calls.saturating_add(1);
    }
}
