// What a pass noted in its search among frames.
ghost use Rattle.std.specs.Prelude.{vec_capacity, ◌≡◌, ◌<◌, ◌≤◌, ◌∷◌, ◌++◌, ◌⊎◌, [], length, map};
ghost use Rattle.std.specs.Prelude.{IsTrue, IfOk, false, if◌then◌else◌};
ghost use Rattle.eleos_machine.specs.Notes.{cleared, free_notes, freed_note, is_noted_free};
ghost use Rattle.eleos_machine.specs.Notes.{is_to_note, names};
ghost use Rattle.eleos_machine.specs.Notes.{no_sweep, with_free, with_word};

use eleos_base::{CellWord, Looked, NoMemory};
use eleos_plot::MOST_LOOKED;
use std::alloc::Global;
use std::marker::Model;

/// The words that a pass noted, and since when. The room for all that there can be is taken by
/// `make`.
#[derive(Drop)]
pub(crate) struct Notes {
    words: Vec<Looked>,
    since_stamp: bool,
    since_survey: bool,
}

impl Model for Notes {
    ghost use Rattle.std.specs.Prelude.{◌≤◌, length, vec_capacity};
    ghost use Rattle.eleos_machine.specs.Notes.{Sweep};
    ghost use Rattle.eleos_plot.specs.declared.draft.TheConstants.{MOST_LOOKED};

    ghost Value = { Sweep };

    ghost view = { λ n. record { words = n.words.items; since_stamp = n.since_stamp; since_survey = n.since_survey } };

    ghost invariant = { λ n. (MOST_LOOKED ≤ vec_capacity n.words)
        × (length n.words.items ≤ MOST_LOOKED) };
}

impl Notes {
    /// No notes, with the room for those of any machine.
    pub(crate) fn make(alloc: Global) -> Result<Notes, NoMemory>
        ensures { IfOk result (λ notes. notes ≡ no_sweep) }
    {
        Ok(Notes {
            words: Vec::with_capacity(alloc, MOST_LOOKED)?,
            since_stamp: false,
            since_survey: false,
        })
    }

    /// The notes, in the order in which they were made.
    pub(crate) fn words(&self) -> &[Looked]
        ensures words { result.now ≡ self.now.words }
        ensures few { length result.now ≤ MOST_LOOKED }
    {
        &self.words
    }

    /// Forgets all notes, or all but those of free frames.
    pub(crate) fn clear(&mut self, all: bool)
        ensures { self.new ≡ cleared all self.old }
    {
        if all {
            self.words.clear();
            self.since_stamp = true;
            self.since_survey = true;
        } else {
            keep_free(&mut self.words);
        }
    }

    /// Notes a frame that was found free.
    pub(crate) fn add_free(&mut self, frame: u32)
        requires { IsTrue (names frame self.old.words) ⊎ (length self.old.words < MOST_LOOKED) }
        ensures { self.new ≡ record self.old { words = with_free frame self.old.words } }
    {
        if names(&self.words, frame) {
            free_all(&mut self.words, frame);
        } else {
            self.push(Looked { frame, word: 0 });
        }
    }

    /// Notes the word of a frame's cell, or of the cell of the page in it, if it is one to note.
    pub(crate) fn add_word(&mut self, frame: u32, word: u64, on_page: bool)
        requires { length self.old.words < MOST_LOOKED }
        ensures { self.new
            ≡ record self.old { words = with_word on_page frame word self.old.words } }
    {
        if is_to_note(on_page, word) && !self.is_noted_free(frame) {
            self.push(Looked { frame, word });
        }
    }

    /// Whether the frame is noted with 0.
    pub(crate) fn is_noted_free(&self, frame: u32) -> bool
        ensures { result ≡ is_noted_free frame self.now.words }
    {
        self.words
            .iter()
            .any(|seen| seen.frame == frame && seen.word == 0)
    }

    /// An entry was stamped.
    pub(crate) fn age(&mut self, survey: bool)
        ensures { self.new ≡ record self.old {
          since_stamp = false;
          since_survey = if survey then false else self.old.since_survey;
        } }
    {
        self.since_stamp = false;
        if survey {
            self.since_survey = false;
        }
    }

    fn push(&mut self, seen: Looked)
        requires { length self.old.words < MOST_LOOKED }
        ensures { self.new ≡ record self.old { words = self.old.words ++ seen ∷ [] } }
    {
        let Ok(()) = self.words.push(seen) else {
            unreachable!()
        };
    }
}

/// Whether the frame is noted.
fn names(words: &[Looked], frame: u32) -> bool
    ensures { result ≡ names frame words.now }
{
    words.iter().any(|seen| seen.frame == frame)
}

/// Keeps the notes of free frames.
fn keep_free(words: &mut Vec<Looked>)
    ensures items { words.new.items ≡ free_notes words.old.items }
    ensures fewer { length words.new.items ≤ length words.old.items }
    ensures capacity { vec_capacity words.new ≡ vec_capacity words.old }
{
    words.retain(|seen| seen.word == 0);
}

/// Makes each note of the frame one of a free frame.
fn free_all(words: &mut [Looked], frame: u32)
    ensures { words.new ≡ map (freed_note frame) words.old }
{
    for seen in words.iter_mut() {
        let freed = freed_note(*seen, frame);
        *seen = freed;
    }
}

/// The note, if it is of the frame, as one of a free frame.
fn freed_note(seen: Looked, frame: u32) -> Looked
    ensures { result ≡ freed_note frame seen }
{
    if seen.frame == frame {
        Looked { frame, word: 0 }
    } else {
        seen
    }
}

/// The word is one to note.
fn is_to_note(on_page: bool, word: u64) -> bool
    ensures { result ≡ is_to_note on_page word }
{
    let word = CellWord::new(word);
    word.is_busy() || (on_page && word.pins() > 0)
}
