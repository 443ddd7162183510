// The right to the reply of one job.
ghost use Rattle.std.specs.Prelude.{◌≡◌};

/// The right to poll the reply of a job. Only a post makes one, and it is not copied.
/// It has no `Drop`, so it has to go back to its ring.
#[must_use]
#[derive(Debug)]
pub struct Ticket {
    pub(crate) cell: u32,
    pub(crate) id: u64,
}

impl Ticket {
    /// The cell of the job.
    pub fn cell(&self) -> u32
        ensures { result ≡ self.now.cell }
    {
        self.cell
    }

    /// The number of the job.
    pub fn id(&self) -> u64
        ensures { result ≡ self.now.id }
    {
        self.id
    }
}
