// The end of an access: its entry is stamped, and the turn of its page goes back.
ghost use Rattle.std.specs.Prelude.{◌≡◌};
ghost use Rattle.eleos_core.specs.Cells.{IsPresent, part_of_page};
ghost use Rattle.eleos_core.specs.Parts.{after_at};
ghost use Rattle.eleos_base.specs.Places.{all_frames};
ghost use Rattle.eleos_pages.specs.Held.{EntersHeld, MayEnter};
ghost use Rattle.eleos_machine.specs.Passes.{part_seen, plan_of, seals_of};

use eleos_base::Sealer;
use eleos_core::Page;
use eleos_machine::{Machine, Pass};
use eleos_plot::Cell;

/// Stamps the draft, and gives the page back with the part that the entry makes of it.
pub fn end<S: Sealer>(m: &Machine<S>, pass: &mut Pass, cell: u32, page: Page)
    requires own { pass.old.hand.home ≡ m.now }
    requires may { MayEnter pass.old cell }
    requires part { part_of_page page
        ≡ after_at (plan_of pass.old) (seals_of pass.old) pass.old.draft (part_seen pass.old) cell }
    requires present { IsPresent (all_frames (plan_of pass.old)) page.present }
    ensures { EntersHeld pass.old cell pass.old.draft pass.new }
{
    m.stamp(pass);
    m.give(pass, cell, Cell::Page(page));
}
