// Turns in hand: cells that a pass has taken, which exclude all others from them.
ghost use Rattle.std.specs.Prelude.{◌≡◌};
ghost use Rattle.eleos_plot.specs.declared.cell.Cell.TheVariants as cells;
ghost use Rattle.eleos_machine.specs.Holding.{HasFree, HasPage, HasSole, HoldsClock};

use crate::pass::Pass;
use eleos_plot::{Cell, FrameList};

/// A page that nobody links, with its frame.
#[derive(Debug, Drop)]
pub struct SolePage {
    pub page: u32,
    pub frame: u32,
    pub page_cell: Cell,
    pub frame_cell: Cell,
}

impl SolePage {
    /// The page and its frame, whose turns the pass has, with their values.
    pub fn of(_pass: &Pass, page: u32, frame: u32, page_cell: Cell, frame_cell: Cell) -> SolePage
        requires { HasSole _pass.now (record {
          page = page;
          frame = frame;
          page_cell = page_cell;
          frame_cell = frame_cell;
        }) }
        ensures { result ≡ record {
          page = page;
          frame = frame;
          page_cell = page_cell;
          frame_cell = frame_cell;
        } }
    {
        SolePage {
            page,
            frame,
            page_cell,
            frame_cell,
        }
    }

    /// What it was made of.
    pub fn parts(self) -> (u32, u32, Cell, Cell)
        ensures { result ≡ (self.page, self.frame, self.page_cell, self.frame_cell) }
    {
        (self.page, self.frame, self.page_cell, self.frame_cell)
    }
}

/// A free frame.
#[derive(Debug, Drop)]
pub struct FreeFrame {
    pub frame: u32,
    pub cell: Cell,
}

impl FreeFrame {
    /// The frame, whose turn the pass has, with its value.
    pub fn of(_pass: &Pass, frame: u32, cell: Cell) -> FreeFrame
        requires { HasFree _pass.now (record { frame = frame; cell = cell }) }
        ensures { result ≡ record { frame = frame; cell = cell } }
    {
        FreeFrame { frame, cell }
    }

    /// What it was made of.
    pub fn parts(self) -> (u32, Cell)
        ensures { result ≡ (self.frame, self.cell) }
    {
        (self.frame, self.cell)
    }
}

/// A page.
#[derive(Debug, Drop)]
pub struct HeldPage {
    pub page: u32,
    pub cell: Cell,
}

impl HeldPage {
    /// The page, whose turn the pass has, with its value.
    pub fn of(_pass: &Pass, page: u32, cell: Cell) -> HeldPage
        requires { HasPage _pass.now page cell }
        ensures { result ≡ record { page = page; cell = cell } }
    {
        HeldPage { page, cell }
    }

    /// What it was made of.
    pub fn parts(self) -> (u32, Cell)
        ensures { result ≡ (self.page, self.cell) }
    {
        (self.page, self.cell)
    }
}

/// The clock cell of an enclave or of the pool.
#[derive(Debug, Drop)]
pub struct ClockTurn {
    /// The number of the cell.
    pub number: u32,
    pub clock: FrameList,
    /// Where among the frames the next search begins.
    pub hand: u32,
}

impl ClockTurn {
    /// The clock cell of this number, whose turn the pass has, with its value.
    pub fn of(_pass: &Pass, number: u32, cell: Cell) -> ClockTurn
        requires { HoldsClock _pass.now number cell }
        ensures number { result.number ≡ number }
        ensures cell { cells.Clock result.clock result.hand ≡ cell }
    {
        let Cell::Clock { clock, hand } = cell else {
            unreachable!()
        };
        ClockTurn {
            number,
            clock,
            hand,
        }
    }

    /// What it was made of.
    pub fn parts(self) -> (u32, Cell)
        ensures { result ≡ (self.number, cells.Clock self.clock self.hand) }
    {
        let ClockTurn {
            number,
            clock,
            hand,
        } = self;
        (number, Cell::Clock { clock, hand })
    }
}
