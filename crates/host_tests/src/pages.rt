// A page that leaves its frame and comes back, and accesses of a page in a frame. What else the
// calls on
// a page do shows in the calls of callers.
ghost use Rattle.std.specs.Prelude.{◌≡◌, ◌≤◌, IfOk, IsFalse, IsSome, IsTrue};
ghost use Rattle.eleos_base.specs.Plans.{IsCaller, IsGood};
ghost use Rattle.eleos_core.specs.Cells.{IsPage};
ghost use Rattle.eleos_base.specs.Places.{all_frames};
ghost use Rattle.eleos_core.specs.Accesses.{IsAccess};

use eleos_base::{AccessRefused, Addr, EnclavePlan, List, Live, Plan};
use eleos_core::{Frame, Page, Present, SubPage, Use, is_in_range, read_present, write_present};
use eleos_gcm::Gcm;
use eleos_host::{HostHand, HostSpace, SharedHost, Tap};
use eleos_pages::{Came, evict_page, fill_page};
use std::alloc::{AllocError, Global};
use std::test::*;

#[test]
fn a_page_leaves_and_comes_back(rt: HostRuntime) -> Result<(), Fail> {
    let alloc = rt.alloc();
    let Ok(sealer) = Gcm::new(&[7; 16]) else {
        return Err("key".into());
    };
    let Ok(host) = SharedHost::make(alloc, 8) else {
        return Err("host".into());
    };
    let space = &host;
    let Ok(mut tap) = Tap::make(alloc, space.port(1)) else {
        return Err("tap".into());
    };
    let clean = SubPage::BLANK;
    let dirty = SubPage {
        is_dirty: true,
        ..clean
    };
    let mut page = Page {
        subs: Vec::from_slice(alloc, &[clean, dirty, clean, dirty])?,
        present: Some(Present {
            frame: 0,
            bytes: Vec::from_slice(alloc, &[5; 4096])?,
        }),
    };
    let mut frame = Frame {
        owner: Some(0),
        used: Use::Lent { page: 1 },
    };
    tap.begin();
    assert_eq!(rt; evict_page(&sealer, &mut tap, &mut page, &mut frame, 4), 2);
    space.hand().flip(7, 8191);
    tap.begin();
    let came = fill_page(&sealer, &mut tap, &mut page, 1, &mut frame, 0);
    let spoiled = Came {
        blocks: 2,
        spoiled: Some(7),
    };
    assert_eq!(rt; came, spoiled);
    space.hand().flip(7, 8191);
    tap.begin();
    let came = fill_page(&sealer, &mut tap, &mut page, 1, &mut frame, 0);
    let whole = Came {
        blocks: 2,
        spoiled: None,
    };
    assert_eq!(rt; came, whole);
    let Some(present) = &page.present else {
        return Err("absent".into());
    };
    assert!(rt; present.bytes[0..1024] == [0; 1024]);
    assert!(rt; present.bytes[1024..2048] == [5; 1024]);
    assert!(rt; present.bytes[3072..4096] == [5; 1024]);
    Ok(())
}

// Who the owner of the sub-pages is, whether they are worn, and what a read and a write of four
// bytes by
// caller 1 answer on a page in a frame, which has bytes of 5.
const CASES: [Case; 3] = [
    (2, false, Err(OF_TWO), Err(OF_TWO)),
    (1, true, Ok([5; 4]), Err(WORN)),
    (1, false, Ok([5; 4]), Ok(())),
];

type Case = (
    u32,
    bool,
    Result<[u8; 4], AccessRefused>,
    Result<(), AccessRefused>,
);

const OF_TWO: AccessRefused = AccessRefused::NotYours { owner: 2 };

const WORN: AccessRefused = AccessRefused::Worn { sub: 1 };

// The address of the accesses, in the second sub-page.
const AT: Addr = Addr {
    enclave: 0,
    at: 1030,
};

#[test]
fn accesses_of_a_page_in_a_frame(rt: HostRuntime) -> Result<(), Fail> {
    let alloc = rt.alloc();
    let plan = plan_of_one(alloc)?;
    if !is_access(&plan, AT, 4) {
        return Err("range".into());
    }
    for (owner, is_worn, read, written) in CASES {
        let mut page = page_of(alloc, &plan, owner, is_worn)?;
        assert_eq!(rt; read_four(&plan, &page), read);
        assert_eq!(rt; write_four(&plan, &mut page), written);
        assert_eq!(rt; has_news(&page), written.is_ok());
    }
    Ok(())
}

fn read_four(plan: &Plan, page: &Page) -> Result<[u8; 4], AccessRefused>
    requires good { IsGood plan.now }
    requires caller { IsCaller plan.now 1 }
    requires page { IsPage plan.now.wear (all_frames plan.now) page.now }
    requires present { IsSome page.now.present }
    requires range { IsAccess plan.now 1 AT 4 }
{
    let mut bytes = [9; 4];
    read_present(plan, page, 1, AT, &mut bytes)?;
    Ok(bytes)
}

fn write_four(plan: &Plan, page: &mut Page) -> Result<(), AccessRefused>
    requires good { IsGood plan.now }
    requires caller { IsCaller plan.now 1 }
    requires page { IsPage plan.now.wear (all_frames plan.now) page.old }
    requires present { IsSome page.old.present }
    requires range { IsAccess plan.now 1 AT 4 }
{
    write_present(plan, page, 1, AT, b"news")
}

// The second sub-page is dirty, and has the bytes that were written, between those that were there.
fn has_news(page: &Page) -> bool {
    let Some(present) = &page.present else {
        return false;
    };
    let (Some(bytes), Some(sub)) = (present.bytes.get(1029..1035), page.subs.get(1)) else {
        return false;
    };
    sub.is_dirty && bytes == b"\x05news\x05".as_slice()
}

// So many bytes from the address on lie in one sub-page of caller 1's enclave.
fn is_access(plan: &Plan, at: Addr, len: usize) -> bool
    requires good { IsGood plan.now }
    requires caller { IsCaller plan.now 1 }
    ensures { IsTrue result → IsAccess plan.now 1 at len }
{
    let enclave = plan.callers.as_slice()[0];
    is_in_range(plan, enclave, at, len)
}

// One enclave of one page and one frame, and one caller. A sub-page is sealed once.
fn plan_of_one(alloc: Global) -> Result<Plan, AllocError>
    ensures good { IfOk result (λ plan. IsGood plan) }
    ensures caller { IfOk result (λ plan. IsCaller plan 1) }
    ensures frames { IfOk result (λ plan. all_frames plan ≡ 1) }
{
    let enclave = EnclavePlan {
        pages: 1,
        frames: 1,
    };
    Ok(Plan {
        enclaves: List::of(Vec::from_slice(alloc, &[enclave])?),
        spare: 0,
        callers: List::of(Vec::from_slice(alloc, &[0])?),
        wear: 1,
        blocks: List::of(Vec::new(alloc)),
    })
}

// A clean sub-page of this owner, which is worn or was never sealed.
fn sub_page(owner: u32, is_worn: bool) -> SubPage
    ensures version { result.version ≤ 1 }
    ensures clean { IsFalse result.is_dirty }
{
    SubPage {
        block: Some(Live {
            start: 0,
            len: 4,
            owner,
            is_shared: false,
        }),
        version: if is_worn { 1 } else { 0 },
        tag: None,
        is_dirty: false,
    }
}

// A page in a frame, of four such sub-pages.
fn page_of(alloc: Global, plan: &Plan, owner: u32, is_worn: bool) -> Result<Page, AllocError>
    requires good { IsGood plan.now }
    requires frames { all_frames plan.now ≡ 1 }
    ensures page { IfOk result (λ page. IsPage plan.now.wear (all_frames plan.now) page) }
    ensures present { IfOk result (λ page. IsSome page.present) }
{
    let present = Present {
        frame: 0,
        bytes: Vec::from_slice(alloc, &[5; 4096])?,
    };
    Ok(Page {
        subs: Vec::from_slice(alloc, &[sub_page(owner, is_worn); 4])?,
        present: Some(present),
    })
}
