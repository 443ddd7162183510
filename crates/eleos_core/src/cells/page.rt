// The cell of a page.

use crate::cells::SubPage;

/// A page's place in a frame: the frame's number, and its bytes.
#[derive(Debug, Drop)]
pub struct Present {
    pub frame: u32,
    pub bytes: Vec<u8>,
}

/// A page: its sub-pages in order, and the frame that it is in, if it is in one.
#[derive(Debug, Drop)]
pub struct Page {
    pub subs: Vec<SubPage>,
    pub present: Option<Present>,
}
