// What waits for a frame.
ghost use Rattle.std.specs.Prelude.{◌≡◌, ◌↔◌, None, IfSome, IsTrue, is_some};
ghost use Rattle.eleos_core.specs.Words.{IsCaller, IsStarving, IsWaiting, MayWait, address_of};
ghost use Rattle.eleos_core.specs.Words.{call_address, frame_in, page_for, waiting_fault};

use crate::sweeps::is_all_taken;
use crate::{Core, Wanted, spot_of};
use eleos_base::{Addr, Looked, Op, Part};

impl Core {
    /// What an event of something that waits offends against, where it does not wait: its page is
    /// in a frame, or it needs no frame or is refused at once.
    pub(crate) fn waiting_offence(&self, who: u32, wanted: &Wanted) -> Option<Part>
        requires { IsCaller self.now.plan who }
        ensures legal { (result ≡ None) ↔ IsWaiting self.now who wanted.now }
        ensures fault { IfSome result (λ part. part ≡ waiting_fault self.now wanted.now) }
    {
        if self.is_present_at(address_of(wanted)) {
            return Some(Part::Present);
        }
        (!self.may_wait(who, wanted)).then_some(Part::Frame)
    }

    /// What the refusal for want of a frame offends against, where it is not legal.
    pub(crate) fn starved_offence(
        &self,
        who: u32,
        wanted: &Wanted,
        sweep: &[Looked],
    ) -> Option<Part>
        requires { IsCaller self.now.plan who }
        ensures legal { (result ≡ None) ↔ IsStarving self.now who wanted.now sweep.now }
        ensures fault { IfSome result (λ part. part ≡ waiting_fault self.now wanted.now) }
    {
        if let Some(part) = self.waiting_offence(who, wanted) {
            return Some(part);
        }
        let home = self.plan.callers.as_slice()[who as usize - 1];
        let own = &self.clocks[home as usize].frames;
        if is_all_taken(sweep, own) {
            None
        } else {
            Some(Part::Frame)
        }
    }

    /// It needs a frame, and is not refused at once.
    fn may_wait(&self, who: u32, wanted: &Wanted) -> bool
        requires { IsCaller self.now.plan who }
        ensures { IsTrue result ↔ MayWait self.now who wanted.now }
    {
        match wanted {
            Wanted::Link { at } => self.access_refusal(who, *at, 1).is_none(),
            Wanted::Op(Op::Read { at, len }) => {
                self.access_refusal(who, *at, *len as usize).is_none()
            }
            Wanted::Op(Op::Write { at, bytes }) => {
                self.access_refusal(who, *at, bytes.len()).is_none()
            }
            Wanted::Op(_) => false,
        }
    }

    /// The page of the address, whether or not it is one of the machine's, is in a frame.
    fn is_present_at(&self, at: Addr) -> bool
        ensures { result ≡ is_some (frame_in (page_for self.now at)) }
    {
        if at.enclave as usize >= self.plan.enclaves.len() {
            return false;
        }
        let page = spot_of(&self.plan, at).page as usize;
        page < self.pages.len() && self.pages[page].present.is_some()
    }
}

/// The address of what is wanted.
pub fn address_of(wanted: &Wanted) -> Addr
    ensures { result ≡ address_of wanted.now }
{
    match wanted {
        Wanted::Link { at } => *at,
        Wanted::Op(op) => call_address(op),
    }
}

/// The address of a call, the machine's first for an alloc.
fn call_address(op: &Op) -> Addr
    ensures { result ≡ call_address op.now }
{
    match op {
        Op::Alloc { .. } => Addr { enclave: 0, at: 0 },
        Op::Free { at } | Op::Share { at } => *at,
        Op::Read { at, .. } | Op::Write { at, .. } => *at,
    }
}
