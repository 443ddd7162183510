// The calls on a machine that search among frames, and note what they find. No other call adds a
// word to a pass's notes.
ghost use Rattle.std.specs.Prelude.{◌≡◌, ◌⊎◌, ◌<◌, ◌≤◌, [], length, IsTrue, IfOk, IfErr};
ghost use Rattle.std.specs.Prelude.{MatchResult};
ghost use Rattle.eleos_base.specs.Ties.{Has};
ghost use Rattle.eleos_base.specs.Places.{all_frames};
ghost use Rattle.eleos_plot.specs.Entries.{HasSweep, sweep_of};
ghost use Rattle.eleos_turn.specs.Hands.{looked_at, refused_at};
ghost use Rattle.eleos_turn.specs.Numbers.{times};
ghost use Rattle.eleos_base.specs.Words.{IsBusy, IsFree, IsPlain, pins_in};
ghost use Rattle.eleos_machine.specs.Holding.{HasFree};
ghost use Rattle.eleos_machine.specs.Machines.{plan_at};
ghost use Rattle.eleos_machine.specs.Notes.{cleared, names, with_free};
ghost use Rattle.eleos_machine.specs.Passes.{IsLawful, TookTurn};
ghost use Rattle.eleos_machine.specs.Sweeping.{HasNoWords, MaySweep, noted, swept, with_words};

use crate::holding::FreeFrame;
use crate::machine::Machine;
use crate::pass::Pass;
use eleos_base::{Looked, Sealer};
use eleos_plot::{Cell, Draft, MOST_LOOKED};
use eleos_turn::{Busy, Taken};

impl<S: Sealer> Machine<S> {
    /// Forgets what the pass noted, or all of it but the free frames.
    pub fn sweep_clear(&self, pass: &mut Pass, all: bool)
        requires own { pass.old.hand.home ≡ self.now }
        ensures { pass.new ≡ record pass.old { sweep = cleared all pass.old.sweep } }
    {
        pass.local.notes.clear(all);
    }

    /// Notes with 0 a free frame whose turn the pass has, once, in place of another note of it.
    pub fn sweep_free(&self, pass: &mut Pass, frame: &FreeFrame)
        requires own { pass.old.hand.home ≡ self.now }
        requires free { HasFree pass.old frame.now }
        requires room { IsTrue (names frame.now.frame pass.old.sweep.words)
            ⊎ (length pass.old.sweep.words < all_frames (plan_at self.now)) }
        ensures { pass.new ≡ with_words pass.old (with_free frame.now.frame pass.old.sweep.words) }
    {
        // A machine has few frames.
        let _ = self.plan();
        pass.local.notes.add_free(frame.frame);
    }

    /// The word of a cell, whoever has the turn. It is noted of the frame where it shows BUSY or,
    /// on
    /// the page in the frame, pins, and where the frame is not noted with 0.
    pub fn sweep_look(&self, pass: &mut Pass, frame: u32, cell: u32) -> u64
        requires own { pass.old.hand.home ≡ self.now }
        requires may { MaySweep pass.old frame cell }
        ensures noted { pass.new ≡ record (noted pass.old frame cell result) {
          hand = looked_at pass.old.hand cell result;
        } }
        ensures pins { times cell pass.old.hand.pins ≤ pins_in result }
        ensures plain { IsPlain result }
    {
        let word = self.look(pass, cell);
        let on_page = cell != self.frame_cell(frame);
        pass.local.notes.add_word(frame, word, on_page);
        word
    }

    /// Takes the turn of a cell unless somebody has it. The old word is noted as that of a look is.
    pub fn sweep_try(&self, pass: &mut Pass, frame: u32, cell: u32) -> Result<Taken<Cell>, Busy>
        requires own { pass.old.hand.home ≡ self.now }
        requires made { 0 < pass.old.hand.number }
        requires may { MaySweep pass.old frame cell }
        ensures word { MatchResult result (λ t. IsFree t.word) (λ b. IsBusy b.word) }
        ensures plain { MatchResult result (λ t. IsPlain t.word) (λ b. IsPlain b.word) }
        ensures pins { MatchResult result
            (λ t. times cell pass.old.hand.pins ≤ pins_in t.word)
            (λ b. times cell pass.old.hand.pins ≤ pins_in b.word) }
        ensures took { IfOk result
            (λ t. TookTurn cell t.word (noted pass.old frame cell t.word) t.value pass.new) }
        ensures refused { IfErr result (λ b. pass.new
            ≡ record (noted pass.old frame cell b.word) {
              hand = refused_at pass.old.hand cell b.word;
            }) }
        ensures lawful { IsLawful pass.new }
    {
        let tried = self.try_take(pass, cell, false);
        let word = match &tried {
            Ok(taken) => taken.word,
            Err(busy) => busy.word,
        };
        let on_page = cell != self.frame_cell(frame);
        pass.local.notes.add_word(frame, word, on_page);
        tried
    }
}

impl Pass {
    /// Appends what the pass noted to its draft, and to the draft's reply if that has a sweep.
    pub fn draft_sweep(&mut self)
        requires sweeps { HasSweep self.old.draft.entry.event }
        requires none { sweep_of self.old.draft.entry.event ≡ [] }
        requires no_words { HasNoWords self.old.draft.entry.reply }
        ensures { self.new
            ≡ record self.old { draft = swept self.old.sweep.words self.old.draft } }
    {
        add_all(&mut self.local.draft, self.local.notes.words());
    }
}

/// Appends the words to the draft.
fn add_all(draft: &mut Draft, words: &[Looked])
    requires sweeps { HasSweep draft.old.entry.event }
    requires none { sweep_of draft.old.entry.event ≡ [] }
    requires no_words { HasNoWords draft.old.entry.reply }
    requires few { length words.now ≤ MOST_LOOKED }
    ensures { draft.new ≡ swept words.now draft.old }
{
    for word in words {
        draft.add_looked(*word);
    }
}
