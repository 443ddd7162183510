// Runs of the machine's sub-pages, and the pages that they lie in.
ghost use Rattle.std.specs.Prelude.{◌≡◌, ◌+◌, ◌-◌, ◌/◌};
ghost use Rattle.eleos_alloc.specs.Runs.{IsGoodRun};

use eleos_base::SUBS_PER_PAGE;

/// A run of the machine's sub-pages, of which all are counted from the machine's first.
#[derive(Clone, Copy, Debug, PartialEq, Eq)]
pub(crate) struct Run {
    pub start: u32,
    pub len: u32,
}

impl Run {
    /// The page of its first sub-page.
    pub fn first_page(self) -> u32
        ensures { result ≡ self.start / 4 }
    {
        self.start / SUBS_PER_PAGE
    }

    /// The page behind that of its last sub-page.
    pub fn end_page(self) -> u32
        requires run { IsGoodRun self }
        ensures { result ≡ (self.start + self.len - 1) / 4 + 1 }
    {
        (self.start + self.len - 1) / SUBS_PER_PAGE + 1
    }
}
