// What becomes of the sub-pages of a block.
ghost use Rattle.std.specs.Prelude.{◌≡◌, ◌+◌, ◌*◌, ◌<◌, ◌≤◌, ℕ, List, Bool, Option, length, map};
ghost use Rattle.std.specs.List.{splice};
ghost use Rattle.eleos_core.specs.declared.cells.page.Present.{Present as AFrame};
ghost use Rattle.eleos_core.specs.Words.{ArePages, IsCleared, IsPresent, IsSubPage, IsWholePage};
ghost use Rattle.eleos_core.specs.Words.{KeepsPage, KeepsPages, marked, marked_block, marked_bytes};
ghost use Rattle.eleos_core.specs.Words.{part_of_page, part_with, run_marked, with_marked, zeros};

use crate::cells::{Page, Present, SubPage};
use eleos_base::{Live, SUB_BYTES, SUBS_PER_PAGE};

/// A change of the sub-pages of a block.
#[derive(Clone, Copy, Debug, PartialEq, Eq)]
pub enum Mark {
    /// They are blank, in this block or in none.
    Blank(Option<Live>),
    /// Their block is shared.
    Shared,
}

/// Marks so many of the machine's sub-pages, from the first on.
pub fn mark_run(pages: &mut [Page], first: u32, len: u32, mark: Mark)
    requires pages { ArePages pages.old }
    requires within { first + len ≤ 4 * length pages.old }
    requires few { length pages.old ≤ 4096 }
    ensures parts { map part_of_page pages.new
        ≡ run_marked mark first len (map part_of_page pages.old) }
    ensures keeps { KeepsPages pages.old pages.new }
{
    for i in 0..len {
        let place = first + i;
        let page = &mut pages[(place / SUBS_PER_PAGE) as usize];
        mark_sub(page, (place % SUBS_PER_PAGE) as usize, mark);
    }
}

/// Marks one of the page's sub-pages.
pub fn mark_sub(page: &mut Page, index: usize, mark: Mark)
    requires index { index < 4 }
    requires page { IsWholePage page.old }
    ensures part { part_of_page page.new ≡ with_marked mark index (part_of_page page.old) }
    ensures keeps { KeepsPage page.old page.new }
    ensures whole { IsWholePage page.new }
{
    page.subs[index] = marked(mark, page.subs[index]);
    match mark {
        Mark::Blank(_) => clear_in(&mut page.present, index),
        Mark::Shared => {}
    }
}

/// The sub-page after its mark.
fn marked(mark: Mark, sub: SubPage) -> SubPage
    ensures part { (present : Bool) (bytes : List ℕ)
        → part_with result (marked_bytes mark present bytes)
        ≡ marked mark present (part_with sub bytes) }
    ensures keeps { (wear : ℕ) (present : Option AFrame)
        → IsSubPage wear present sub → IsSubPage wear present result }
{
    match mark {
        Mark::Blank(block) => SubPage {
            block,
            version: sub.version,
            tag: None,
            is_dirty: false,
        },
        Mark::Shared => SubPage {
            block: shared(sub.block),
            ..sub
        },
    }
}

/// The block, shared.
fn shared(block: Option<Live>) -> Option<Live>
    ensures { result ≡ marked_block Mark.Shared block }
{
    block.map(|block| Live {
        is_shared: true,
        ..block
    })
}

/// Zeroes the bytes of one of a page's sub-pages, where the page is in a frame.
fn clear_in(present: &mut Option<Present>, index: usize)
    requires index { index < 4 }
    requires bytes { (frames : ℕ) × IsPresent frames present.old }
    ensures cleared { IsCleared index present.old present.new }
{
    if let Some(present) = present {
        clear_piece(&mut present.bytes, index);
    }
}

/// Zeroes the bytes of one of the sub-pages in a frame.
fn clear_piece(bytes: &mut [u8], index: usize)
    requires { 1024 * index + 1024 ≤ length bytes.old }
    ensures { bytes.new
        ≡ splice bytes.old (1024 * index) (1024 * index + 1024) (zeros 1024) }
{
    let start = SUB_BYTES as usize * index;
    bytes[start..start + SUB_BYTES as usize].fill(0);
}
