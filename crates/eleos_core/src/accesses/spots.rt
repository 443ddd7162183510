// Where an address and an enclave lie among pages and sub-pages.
ghost use Rattle.std.specs.Prelude.{◌≡◌, ◌<◌, ◌≤◌, length};
ghost use Rattle.eleos_core.specs.Words.{IsCaller, IsGood, IsSpot, enclave_of, first_sub};
ghost use Rattle.eleos_core.specs.Words.{is_in_range, sub_bytes, subs};

use eleos_base::{Addr, Plan, SUB_BYTES, SUBS_PER_PAGE, first_page};

/// Where an address lies.
#[derive(Clone, Copy, Debug, PartialEq, Eq)]
pub struct Spot {
    pub page: u32,
    /// The place of its sub-page with the host.
    pub place: u32,
    /// Which of its page's sub-pages it is.
    pub index: usize,
    /// The byte in the sub-page.
    pub from: usize,
}

/// Where the address lies.
pub fn spot_of(plan: &Plan, at: Addr) -> Spot
    requires good { IsGood plan.now }
    requires enclave { at.enclave < length plan.now.enclaves }
    ensures { IsSpot plan.now at result }
{
    let place = first_page(plan, at.enclave) * SUBS_PER_PAGE + at.at / SUB_BYTES;
    Spot {
        page: place / SUBS_PER_PAGE,
        place,
        index: (place % SUBS_PER_PAGE) as usize,
        from: (at.at % SUB_BYTES) as usize,
    }
}

/// So many bytes from the address on lie in one sub-page of the enclave.
pub fn is_in_range(plan: &Plan, enclave: u16, at: Addr, len: usize) -> bool
    requires good { IsGood plan.now }
    requires enclave { enclave < length plan.now.enclaves }
    ensures { result
        ≡ is_in_range (sub_bytes plan.now enclave) enclave (subs plan.now enclave) at len }
{
    let subs = plan.enclaves.as_slice()[enclave as usize].pages * SUBS_PER_PAGE;
    at.enclave == enclave
        && len > 0
        && len <= SUB_BYTES as usize
        && (at.at % SUB_BYTES) as usize + len <= SUB_BYTES as usize
        && at.at as usize + len <= subs as usize * SUB_BYTES as usize
}

/// The caller's enclave.
pub fn enclave_of(plan: &Plan, who: u32) -> u16
    requires { IsCaller plan.now who }
    ensures { result ≡ enclave_of plan.now who }
{
    plan.callers.as_slice()[who as usize - 1]
}

/// The number of the enclave's first sub-page.
pub fn first_sub(plan: &Plan, enclave: u16) -> u32
    requires good { IsGood plan.now }
    requires enclave { enclave < length plan.now.enclaves }
    ensures { result ≡ first_sub plan.now enclave }
{
    first_page(plan, enclave) * SUBS_PER_PAGE
}

/// How many sub-pages the enclave has.
pub fn subs_of(plan: &Plan, enclave: u16) -> u32
    requires good { IsGood plan.now }
    requires enclave { enclave < length plan.now.enclaves }
    ensures { result ≡ subs plan.now enclave }
{
    plan.enclaves.as_slice()[enclave as usize].pages * SUBS_PER_PAGE
}
