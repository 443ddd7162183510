// Where pages lie among those of the machine.
ghost use Rattle.std.specs.Prelude.{◌≡◌, ◌<◌, ◌≤◌, length};
ghost use Rattle.eleos_base.specs.Places.{page_counts};
ghost use Rattle.eleos_base.specs.Plans.{IsGood};
ghost use Rattle.eleos_base.specs.Runs.{first_of_run};

use crate::Plan;

/// The number of the enclave's first page.
pub fn first_page(plan: &Plan, enclave: u16) -> u32
    requires good { IsGood plan.now }
    requires enclave { enclave < length plan.now.enclaves }
    ensures first { result ≡ first_of_run (page_counts plan.now) enclave }
    ensures within { result ≤ 4096 }
{
    let mut first = 0;
    let before = &plan.enclaves.as_slice()[..enclave as usize];
    for made in before {
        first += made.pages;
    }
    first
}
