// The pages before the first event.
ghost use Rattle.std.specs.Prelude.{◌≡◌, ◌≤◌, ◌++◌, ℕ, map, IfOk, OnOk};
ghost use Rattle.std.specs.List.{AllByRecursion, find, range_with_len};
ghost use Rattle.eleos_base.specs.Plain.{has_sub};
ghost use Rattle.eleos_base.specs.Plans.{IsGood};
ghost use Rattle.eleos_core.specs.Cells.{IsPage, part_of_page, subs_per_page};
ghost use Rattle.eleos_core.specs.Opening.{ArePages, absent_page, opening_lives, opening_page};
ghost use Rattle.eleos_core.specs.Opening.{pages_among, sub_among};
ghost use Rattle.eleos_base.specs.Places.{all_pages};

use crate::cells::{Alloc, Page, SubPage};
use eleos_base::{Live, NoMemory, Plan, SUBS_PER_PAGE};
use std::alloc::Global;

/// All pages, absent and blank, where these are the enclaves' live blocks.
pub fn make_pages(alloc: Global, plan: &Plan, cells: &[Alloc]) -> Result<Vec<Page>, NoMemory>
    requires good { IsGood plan.now }
    requires live { cells.now ≡ opening_lives plan.now }
    ensures parts { IfOk result (λ pages. map part_of_page pages.items
        ≡ map (opening_page plan.now) (range_with_len 0 (all_pages plan.now))) }
    ensures each { IfOk result (λ pages. ArePages pages.items) }
{
    let mut pages = Vec::new(alloc);
    for enclave in 0..cells.len() {
        let count = plan.enclaves.as_slice()[enclave].pages;
        add_pages(alloc, &mut pages, &cells[enclave], count)?;
    }
    Ok(pages)
}

/// Adds so many pages of an enclave that has these live blocks.
fn add_pages(alloc: Global, pages: &mut Vec<Page>, cell: &Alloc, count: u32) -> Result<(), NoMemory>
    requires count { count ≤ 1024 }
    ensures parts { OnOk result (map part_of_page pages.new.items
        ≡ map part_of_page pages.old.items ++ pages_among cell.now count) }
    ensures each { OnOk result (ArePages pages.old.items → ArePages pages.new.items) }
{
    for page in 0..count {
        pages.push(make_page(alloc, cell, page * SUBS_PER_PAGE)?)?;
    }
    Ok(())
}

/// The absent page whose first sub-page has this number among those of its enclave.
fn make_page(alloc: Global, cell: &Alloc, first: u32) -> Result<Page, NoMemory>
    requires first { first ≤ 4096 }
    ensures part { IfOk result (λ page. part_of_page page
        ≡ absent_page (map (sub_among cell.now) (range_with_len first subs_per_page))) }
    ensures page { IfOk result (λ page. (wear frames : ℕ) → IsPage wear frames page) }
{
    let mut subs = Vec::new(alloc);
    for i in 0..SUBS_PER_PAGE {
        subs.push(make_sub(&cell.blocks, first + i))?;
    }
    Ok(Page {
        subs,
        present: None,
    })
}

/// The blank sub-page with this number among those of its enclave.
fn make_sub(blocks: &[Live], sub: u32) -> SubPage
    ensures { result ≡ sub_among blocks.now sub }
{
    SubPage {
        block: block_with_sub(blocks, sub),
        ..SubPage::BLANK
    }
}

/// The block that has the sub-page.
fn block_with_sub(blocks: &[Live], sub: u32) -> Option<Live>
    ensures { result ≡ find (has_sub sub) blocks.now }
{
    blocks.iter().copied().find(|block| has_sub(block, sub))
}

fn has_sub(block: &Live, sub: u32) -> bool
    ensures { result ≡ has_sub sub block.now }
{
    block.start <= sub && sub - block.start < block.len
}
