// The calls on a machine with a pass.
ghost use Rattle.std.specs.Prelude.{◌≡◌, ◌<◌, ◌≤◌, length, IfOk, IfErr, MatchResult};
ghost use Rattle.eleos_base.specs.Ties.{Has};
ghost use Rattle.eleos_plot.specs.Cells.{part_of_cell};
ghost use Rattle.eleos_plot.specs.Terms.{core_terms};
ghost use Rattle.eleos_turn.specs.Hands.{links_on, looked_at, refused_at, with_pin, without_pin};
ghost use Rattle.eleos_turn.specs.Numbers.{most_pins, times};
ghost use Rattle.eleos_base.specs.Words.{IsBusy, IsFree, IsPlain, pins_in};
ghost use Rattle.eleos_machine.specs.Machines.{all_cells, plan_at};
ghost use Rattle.eleos_machine.specs.Passes.{IsLawful, TookTurn, gave, part_seen};
ghost use Rattle.eleos_machine.specs.Stamping.{HasStamped, MayStamp};

use crate::entering::enter;
use crate::machine::Machine;
use crate::pass::Pass;
use eleos_base::Sealer;
use eleos_plot::{Cell, CorePlot};
use eleos_turn::{Busy, Taken};
use std::sync::Wait;

impl<S: Sealer> Machine<S> {
    /// Takes the turn of a cell, and waits where somebody has it. `touch` marks the cell.
    pub fn take<R: Wait>(&self, rt: &R, pass: &mut Pass, cell: u32, touch: bool) -> Taken<Cell>
        requires own { pass.old.hand.home ≡ self.now }
        requires cell { cell < all_cells (plan_at self.now) }
        requires free { Has cell pass.old.hand.turns → ⊥ }
        requires made { 0 < pass.old.hand.number }
        ensures word { IsFree result.word }
        ensures plain { IsPlain result.word }
        ensures pins { times cell pass.old.hand.pins ≤ pins_in result.word }
        ensures took { TookTurn cell result.word pass.old result.value pass.new }
        ensures lawful { IsLawful pass.new }
    {
        // What it has seen so far is a legal history.
        let _ = pass.left();
        self.turnstile.take(rt, &mut pass.hand, cell, touch)
    }

    /// Takes the turn of a cell unless somebody has it.
    pub fn try_take(&self, pass: &mut Pass, cell: u32, touch: bool) -> Result<Taken<Cell>, Busy>
        requires own { pass.old.hand.home ≡ self.now }
        requires cell { cell < all_cells (plan_at self.now) }
        requires free { Has cell pass.old.hand.turns → ⊥ }
        requires made { 0 < pass.old.hand.number }
        ensures word { MatchResult result (λ t. IsFree t.word) (λ b. IsBusy b.word) }
        ensures plain { MatchResult result (λ t. IsPlain t.word) (λ b. IsPlain b.word) }
        ensures pins { MatchResult result
            (λ t. times cell pass.old.hand.pins ≤ pins_in t.word)
            (λ b. times cell pass.old.hand.pins ≤ pins_in b.word) }
        ensures took { IfOk result (λ t. TookTurn cell t.word pass.old t.value pass.new) }
        ensures refused { IfErr result (λ b. pass.new
            ≡ record pass.old { hand = refused_at pass.old.hand cell b.word }) }
        ensures lawful { IsLawful pass.new }
    {
        let _ = pass.left();
        self.turnstile.try_take(&mut pass.hand, cell, touch)
    }

    /// Gives a turn back, with the value of the cell.
    pub fn give(&self, pass: &mut Pass, cell: u32, value: Cell)
        requires own { pass.old.hand.home ≡ self.now }
        requires held { Has cell pass.old.hand.turns }
        requires right { part_of_cell value ≡ part_seen pass.old cell }
        ensures { pass.new ≡ gave pass.old cell }
    {
        let _ = pass.left();
        self.turnstile.give(&mut pass.hand, cell, value);
    }

    /// Puts a pin on a cell whose turn the pass has.
    pub fn pin(&self, pass: &mut Pass, cell: u32)
        requires own { pass.old.hand.home ≡ self.now }
        requires held { Has cell pass.old.hand.turns }
        requires few { length pass.old.hand.pins < most_pins }
        ensures { pass.new ≡ record pass.old { hand = with_pin pass.old.hand cell } }
    {
        self.turnstile.pin(&mut pass.hand, cell);
    }

    /// Takes off a pin that covers no link.
    pub fn unpin(&self, pass: &mut Pass, cell: u32)
        requires own { pass.old.hand.home ≡ self.now }
        requires cell { cell < all_cells (plan_at self.now) }
        requires free { Has cell pass.old.hand.turns → ⊥ }
        requires pin { links_on core_terms pass.old.hand cell < times cell pass.old.hand.pins }
        ensures { pass.new ≡ record pass.old { hand = without_pin pass.old.hand cell } }
    {
        self.turnstile.unpin(&mut pass.hand, cell);
    }

    /// Clears the mark that the cell was touched. No clause speaks of the mark.
    pub fn unref(&self, pass: &mut Pass, cell: u32)
        requires own { pass.old.hand.home ≡ self.now }
        requires cell { cell < all_cells (plan_at self.now) }
        ensures { pass.new ≡ pass.old }
    {
        self.turnstile.unref(&mut pass.hand, cell);
    }

    /// The word of a cell, whoever has the turn.
    pub fn look(&self, pass: &mut Pass, cell: u32) -> u64
        requires own { pass.old.hand.home ≡ self.now }
        requires cell { cell < all_cells (plan_at self.now) }
        ensures noted { pass.new ≡ record pass.old { hand = looked_at pass.old.hand cell result } }
        ensures busy { Has cell pass.old.hand.turns → IsBusy result }
        ensures pins { times cell pass.old.hand.pins ≤ pins_in result }
        ensures clean { Has cell pass.old.hand.clean
            → pins_in result ≡ times cell pass.old.hand.pins }
        ensures plain { IsPlain result }
    {
        self.turnstile.look(&mut pass.hand, cell)
    }

    /// Puts the pass's draft at the end of the history, and answers its place there.
    pub fn stamp(&self, pass: &mut Pass) -> u64
        requires own { pass.old.hand.home ≡ self.now }
        requires may { MayStamp pass.old }
        ensures stamped { HasStamped pass.old result pass.new }
        ensures lawful { IsLawful pass.new }
    {
        let _ = pass.left();
        let place = enter::<CorePlot>(&self.turnstile, &mut pass.hand, &pass.local.draft);
        pass.local.last = place;
        pass.local.notes.age(pass.local.draft.is_survey());
        place
    }
}
