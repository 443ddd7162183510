// One look at a job.
ghost use Rattle.std.specs.Prelude.{◌≡◌, ◌<◌, ◌+◌, length};
ghost use Rattle.eleos_words.specs.declared.layout.TheConstants.{CELLS, MOST_BYTES};
ghost use Rattle.eleos_words.specs.Glances.{IsNewAt};
ghost use Rattle.eleos_words.specs.Told.{more_calls};
ghost use Rattle.eleos_work.specs.Jobs.{Reads, CopiesJob, words_read};

use eleos_words::{Glance, MOST_BYTES, RingPort};

/// One copy of each field of a job.
#[derive(Clone, Copy, Debug, PartialEq, Eq)]
pub(crate) struct Job {
    pub(crate) id: u64,
    pub(crate) call: u64,
    /// In bytes.
    pub(crate) length: u64,
}

/// Copies each field of the job once, and its bytes to the front of `text` where they are not
/// more than `MOST_BYTES`.
#[tactic(auto, using(crate::proofs::JobLooks::read_calls))]
pub(crate) fn read_job<P: RingPort>(port: &mut P, cell: u32, text: &mut [u8]) -> Job
    requires cell { cell < CELLS }
    requires room { length text.old ≡ MOST_BYTES }
    ensures reads { Reads P.RingPort.own cell port.new result text.new }
    ensures calls { P.calls port.new
        ≡ more_calls (P.calls port.old) (4 + words_read result.length) }
{
    let mut glance = Glance::of(port, cell);
    read_at(&mut glance, text)
}

// The same by a look of which nothing is copied yet.
fn read_at<P: RingPort>(glance: &mut Glance<'_, P>, text: &mut [u8]) -> Job
    requires new { IsNewAt P.RingPort.own glance.old glance.old.cell }
    requires room { length text.old ≡ MOST_BYTES }
    ensures port { glance.new.port.ghost_name ≡ glance.old.port.ghost_name }
    ensures reads { Reads P.RingPort.own glance.old.cell glance.new.port.now result text.new }
    ensures calls { P.calls glance.new.port.now
        ≡ more_calls (P.calls glance.old.port.now) (3 + words_read result.length) }
{
    let job = copy_job(glance);
    if job.length <= MOST_BYTES as u64 {
        glance.copy_bytes(&mut text[..job.length as usize]);
    }
    job
}

// One copy of each field, in the order number, call, length.
fn copy_job<P: RingPort>(glance: &mut Glance<'_, P>) -> Job
    requires { IsNewAt P.RingPort.own glance.old glance.old.cell }
    ensures port { glance.new.port.ghost_name ≡ glance.old.port.ghost_name }
    ensures copies { CopiesJob P.RingPort.own glance.old glance.new result }
{
    let id = glance.id();
    let call = glance.call();
    let length = glance.len();
    Job { id, call, length }
}
