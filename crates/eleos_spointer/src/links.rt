// Pointers are linked.
ghost use Rattle.std.specs.Prelude.{◌≡◌, ◌↔◌, ◌≤◌, IfErr, IfOk, IsSome, Ok, Some, length, true};
ghost use Rattle.eleos_base.specs.Words.{IsBusy};
ghost use Rattle.eleos_turn.specs.Hands.{refused_at};
ghost use Rattle.eleos_plot.specs.Refs.{wanted_bytes, wanted_of};
ghost use Rattle.eleos_machine.specs.declared.pointers.Pointer.{Pointer as Placed};
ghost use Rattle.eleos_machine.specs.Passes.{IsLawful, plan_of, pointer_of};
ghost use Rattle.eleos_machine.specs.Pointers.{cell_under};
ghost use Rattle.eleos_pages.specs.Entered.{CanCall};
ghost use Rattle.eleos_spointer.specs.Brought.{Fetches, MayFetch, TriesFetch};
ghost use Rattle.eleos_spointer.specs.Judged.{Judges, MayJudge};
ghost use Rattle.eleos_spointer.specs.Linked.{Links, TookPage, TriesLink};
ghost use Rattle.eleos_spointer.specs.Ranges.{ArePointers, IsPointer, home_of, is_linked};
ghost use Rattle.eleos_spointer.specs.declared.links.Linked.TheVariants as linked;

use crate::bringing::{bring_in, give_page, is_present};
use crate::letting::page_under;
use crate::points::place_of;
use crate::refusing::{LinkRefused, TryLinkRefused, refusal_of, refusal_reply};
use crate::ties::tie;
use eleos_base::{Addr, MOST_WRITTEN, Sealer};
use eleos_clock::{clock, try_clock};
use eleos_host::{HostPort, Tap};
use eleos_machine::{HeldPage, Machine, Pass, Pointer, SpId, page_cell};
use eleos_plot::{Cell, EventRef, WantedRef};
use eleos_turn::Busy;
use std::sync::Wait;

/// A pointer that is linked.
#[derive(Clone, Copy, Debug, PartialEq, Eq)]
pub enum Linked {
    /// Since this call.
    Now,
    /// Since before: this call did nothing.
    Already,
}

/// Links a pointer: the page on which it stands stays in its frame until it is unlinked. An absent
/// page is brought into a frame of the enclave, a free one or one that a page leaves which nobody
/// links. Waits for the turns of the page and, where the page is absent, of the enclave's clock
/// cell.
pub fn link<R: Wait, S: Sealer, P: HostPort>(
    rt: &R,
    m: &Machine<S>,
    pass: &mut Pass,
    id: SpId,
    tap: &mut Tap<P>,
) -> Result<Linked, LinkRefused>
    requires can { CanCall m.now pass.old }
    requires left { 3 ≤ pass.old.hand.left }
    requires held { IsSome (pointer_of pass.old id) }
    requires pointers { ArePointers pass.old }
    ensures already { (result ≡ Ok linked.Already) ↔ (is_linked (pointer_of pass.old id) ≡ true) }
    ensures links { (pointer : Placed) → pointer_of pass.old id ≡ Some pointer
        → Links P.HostPort.own P.HostStore.own pass.old tap.old id pointer result
        pass.new tap.new }
    ensures pointers { ArePointers pass.new }
{
    let Some(pointer) = pass.pointer(id) else {
        unreachable!()
    };
    if pointer.is_linked {
        return Ok(Linked::Already);
    }
    // It has few pointers.
    let _ = pass.pointer_count();
    let at = place_of(pointer);
    let page = take_page(rt, m, pass, pointer);
    let page = judge(m, pass, at, page)?;
    let enclave = pointer.block.enclave;
    let page = fetch(rt, m, pass, page, enclave, WantedRef::Link { at }, tap)?;
    tie(m, pass, id, pointer, page);
    Ok(Linked::Now)
}

/// The same, but it never waits.
pub fn try_link<S: Sealer, P: HostPort>(
    m: &Machine<S>,
    pass: &mut Pass,
    id: SpId,
    tap: &mut Tap<P>,
) -> Result<Linked, TryLinkRefused>
    requires can { CanCall m.now pass.old }
    requires left { 3 ≤ pass.old.hand.left }
    requires held { IsSome (pointer_of pass.old id) }
    requires pointers { ArePointers pass.old }
    ensures already { (result ≡ Ok linked.Already) ↔ (is_linked (pointer_of pass.old id) ≡ true) }
    ensures links { (pointer : Placed) → pointer_of pass.old id ≡ Some pointer
        → TriesLink P.HostPort.own P.HostStore.own pass.old tap.old id pointer result
        pass.new tap.new }
    ensures pointers { ArePointers pass.new }
{
    let Some(pointer) = pass.pointer(id) else {
        unreachable!()
    };
    if pointer.is_linked {
        return Ok(Linked::Already);
    }
    // It has few pointers.
    let _ = pass.pointer_count();
    let at = place_of(pointer);
    let page = match try_take_page(m, pass, pointer) {
        Ok(page) => page,
        Err(busy) => return Err(TryLinkRefused::Busy { word: busy.word }),
    };
    let page = match judge(m, pass, at, page) {
        Ok(page) => page,
        Err(refused) => return Err(TryLinkRefused::Link(refused)),
    };
    let enclave = pointer.block.enclave;
    let page = try_fetch(m, pass, page, enclave, WantedRef::Link { at }, tap)?;
    tie(m, pass, id, pointer, page);
    Ok(Linked::Now)
}

/// Takes the turn of the page on which a pointer stands. Waits where somebody has it.
fn take_page<R: Wait, S: Sealer>(
    rt: &R,
    m: &Machine<S>,
    pass: &mut Pass,
    pointer: Pointer,
) -> HeldPage
    requires can { CanCall m.now pass.old }
    requires placed { IsPointer (plan_of pass.old) (home_of pass.old) pointer }
    ensures { TookPage pass.old pointer result pass.new }
{
    let number = page_under(m.plan(), pointer);
    let taken = m.take(rt, pass, page_cell(m.plan(), number), true);
    HeldPage {
        page: number,
        cell: taken.value,
    }
}

/// Takes the turn of the page on which a pointer stands unless somebody has it.
fn try_take_page<S: Sealer>(
    m: &Machine<S>,
    pass: &mut Pass,
    pointer: Pointer,
) -> Result<HeldPage, Busy>
    requires can { CanCall m.now pass.old }
    requires placed { IsPointer (plan_of pass.old) (home_of pass.old) pointer }
    ensures took { IfOk result (λ page. TookPage pass.old pointer page pass.new) }
    ensures busy { IfErr result (λ b. IsBusy b.word) }
    ensures refused { IfErr result (λ b. pass.new ≡ record pass.old {
      hand = refused_at pass.old.hand (cell_under (plan_of pass.old) pointer) b.word;
    }) }
    ensures lawful { IsLawful pass.new }
{
    let number = page_under(m.plan(), pointer);
    let taken = m.try_take(pass, page_cell(m.plan(), number), true)?;
    Ok(HeldPage {
        page: number,
        cell: taken.value,
    })
}

/// Judges a link at the address, whose page is in hand. Where plain memory refuses it, it stamps
/// that, and the turn goes back.
fn judge<S: Sealer>(
    m: &Machine<S>,
    pass: &mut Pass,
    at: Addr,
    page: HeldPage,
) -> Result<HeldPage, LinkRefused>
    requires may { MayJudge m.now pass.old at page }
    ensures { Judges pass.old at page result pass.new }
{
    // What it has seen is a legal history.
    let _ = pass.left();
    let Cell::Page(held) = &page.cell else {
        unreachable!()
    };
    let Some(refused) = refusal_of(m.plan(), held, pass.who(), at) else {
        return Ok(page);
    };
    pass.set(EventRef::Link { at }, refusal_reply(refused));
    m.stamp(pass);
    give_page(m, pass, page);
    Err(refused)
}

/// Brings the page in hand into a frame of its enclave, where it is absent. Waits for the turn of
/// the enclave's clock cell.
fn fetch<R: Wait, S: Sealer, P: HostPort>(
    rt: &R,
    m: &Machine<S>,
    pass: &mut Pass,
    page: HeldPage,
    enclave: u16,
    wanted: WantedRef<'_>,
    tap: &mut Tap<P>,
) -> Result<HeldPage, LinkRefused>
    requires may { MayFetch m.now pass.old page enclave (wanted_of wanted) }
    requires written { length (wanted_bytes wanted) ≤ MOST_WRITTEN }
    ensures { Fetches P.HostPort.own P.HostStore.own pass.old tap.old page (wanted_of wanted.entry)
        result pass.new tap.new }
{
    if is_present(pass, &page) {
        return Ok(page);
    }
    m.sweep_clear(pass, true);
    let clock = clock(rt, m, pass, enclave);
    bring_in(m, pass, page, clock, wanted, tap)
}

/// The same, but it never waits: where somebody has the turn of the clock cell, that of the page
/// goes back.
fn try_fetch<S: Sealer, P: HostPort>(
    m: &Machine<S>,
    pass: &mut Pass,
    page: HeldPage,
    enclave: u16,
    wanted: WantedRef<'_>,
    tap: &mut Tap<P>,
) -> Result<HeldPage, TryLinkRefused>
    requires may { MayFetch m.now pass.old page enclave (wanted_of wanted) }
    requires written { length (wanted_bytes wanted) ≤ MOST_WRITTEN }
    ensures { TriesFetch P.HostPort.own P.HostStore.own pass.old tap.old page enclave
        (wanted_of wanted.entry) result pass.new tap.new }
{
    if is_present(pass, &page) {
        return Ok(page);
    }
    m.sweep_clear(pass, true);
    let clock = match try_clock(m, pass, enclave) {
        Ok(clock) => clock,
        Err(busy) => {
            give_page(m, pass, page);
            // What it has seen is a legal history.
            let _ = pass.left();
            return Err(TryLinkRefused::Busy { word: busy.word });
        }
    };
    match bring_in(m, pass, page, clock, wanted, tap) {
        Ok(page) => Ok(page),
        Err(refused) => Err(TryLinkRefused::Link(refused)),
    }
}
