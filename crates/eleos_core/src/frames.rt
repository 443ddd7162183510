// Pages and frames: what fills, evicts and moves share.
ghost use Rattle.std.specs.Prelude.{◌≡◌, ◌↔◌, ◌≤◌, ℕ, length, IsTrue, Some, None};
ghost use Rattle.eleos_core.specs.Words.{IsFree, frame_of_page, holder_of_use, home_of, page_bytes};
ghost use Rattle.eleos_core.specs.Words.{zeros};

use crate::cells::{Frame, Page, Use};
use eleos_base::Plan;
use std::mem;

/// The enclave of a page.
pub fn home_of(plan: &Plan, page: u32) -> Option<u16>
    requires { length plan.now.enclaves ≤ 8 }
    ensures { result ≡ home_of plan.now page }
{
    let mut left = page;
    for (enclave, made) in plan.enclaves.as_slice().iter().enumerate() {
        if left < made.pages {
            return Some(enclave as u16);
        }
        left -= made.pages;
    }
    None
}

/// Whether the page is in the frame.
pub fn is_in(page: &Page, frame: u32) -> bool
    ensures { IsTrue result ↔ (frame_of_page page.now.present ≡ Some frame) }
{
    match &page.present {
        Some(present) => present.frame == frame,
        None => false,
    }
}

/// Whether the frame holds no page.
pub fn is_free(frame: &Frame) -> bool
    ensures { IsTrue result ↔ (holder_of_use frame.now.used ≡ None) }
{
    matches!(frame.used, Use::Free { .. })
}

/// Takes the zero bytes of a free frame for the page.
pub fn lend(frame: &mut Frame, page: u32) -> Vec<u8>
    requires { IsFree frame.old.used }
    ensures bytes { result.items ≡ zeros page_bytes }
    ensures owner { frame.new.owner ≡ frame.old.owner }
    ensures used { frame.new.used ≡ Use.Lent page }
{
    match mem::replace(&mut frame.used, Use::Lent { page }) {
        Use::Free { bytes } => bytes,
        Use::Lent { .. } => unreachable!(),
    }
}

/// Zeroes the bytes.
#[tactic(auto, unfolding(eleos_base::specs::Plain::zeros))]
pub fn clear(bytes: &mut [u8])
    ensures { bytes.new ≡ zeros (length bytes.old) }
{
    bytes.fill(0);
}
