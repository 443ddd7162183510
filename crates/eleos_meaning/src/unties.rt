// What an untie means: the page of its address.
ghost use Rattle.std.specs.Prelude.{◌≡◌, slice_index_or};
ghost use Rattle.eleos_base.specs.Plans.{IsGood};
ghost use Rattle.eleos_base.specs.Places.{page_counts};
ghost use Rattle.eleos_meaning.specs.Meanings.{untie_of};

use crate::meanings::Meaning;
use eleos_base::{Addr, PAGE_BYTES, Part, Plan, first_page};
use eleos_core::Event;

/// An untie: the address has to lie in its enclave.
pub(crate) fn untie_of(plan: &Plan, at: Addr) -> Meaning
    requires { IsGood plan.now }
    ensures { result ≡ untie_of plan.now at }
{
    let page = at.at / PAGE_BYTES;
    if page >= pages_of(plan, at.enclave) {
        return Meaning::Offends(Part::Untied);
    }
    Meaning::Happens(Event::Unlink {
        page: first_page(plan, at.enclave) + page,
    })
}

/// How many pages the enclave has, if there is one.
fn pages_of(plan: &Plan, enclave: u16) -> u32
    ensures { result ≡ slice_index_or (page_counts plan.now) enclave 0 }
{
    match plan.enclaves.as_slice().get(enclave as usize) {
        Some(made) => made.pages,
        None => 0,
    }
}
