// How a change of an enclave's share ends.
ghost use Rattle.std.specs.Prelude.{◌≡◌, []};
ghost use Rattle.eleos_plot.specs.Refs.{reply_bytes, reply_of};
ghost use Rattle.eleos_balloon.specs.Ends.{EndsBy, MaySurvey, Surveys, end_reply};

use eleos_base::Sealer;
use eleos_core::Goal;
use eleos_machine::{ClockTurn, Machine, Pass};
use eleos_plot::{EventRef, ReplyRef};

/// How it ended, with the share that was reached.
#[derive(Clone, Copy, Debug, PartialEq, Eq)]
pub enum BalloonEnd {
    /// The share is the one that was asked for.
    Done { reached: u32 },
    /// It is smaller: each frame of the pool was found busy.
    Short { reached: u32 },
    /// It is larger: each frame of the enclave was found taken.
    Pinned { reached: u32 },
}

/// The end by the share that was reached. Where it is the one that was asked for, the notes go.
pub(crate) fn end_of<S: Sealer>(
    m: &Machine<S>,
    pass: &mut Pass,
    gets: bool,
    reached: u32,
    to: u32,
) -> BalloonEnd
    requires own { pass.old.hand.home ≡ m.now }
    ensures { EndsBy pass.old gets reached to result pass.new }
{
    if reached == to {
        m.sweep_clear(pass, true);
        return BalloonEnd::Done { reached };
    }
    if gets {
        BalloonEnd::Short { reached }
    } else {
        BalloonEnd::Pinned { reached }
    }
}

/// Stamps the end, with what the pass noted, while it has the turn of the enclave's clock cell.
pub(crate) fn survey<S: Sealer>(
    m: &Machine<S>,
    pass: &mut Pass,
    clock: &ClockTurn,
    enclave: u16,
    to: u32,
    end: BalloonEnd,
)
    requires own { pass.old.hand.home ≡ m.now }
    requires may { MaySurvey pass.old enclave clock.now to end }
    ensures { Surveys pass.old enclave to end pass.new }
{
    let _ = pass.left();
    let event = EventRef::Survey {
        enclave,
        goal: Goal::To(to),
    };
    pass.set(event, reply_to(end));
    pass.draft_sweep();
    m.stamp(pass);
}

/// The end as a reply.
fn reply_to<'a>(end: BalloonEnd) -> ReplyRef<'a>
    ensures reply { reply_of result ≡ end_reply end }
    ensures bytes { reply_bytes result ≡ [] }
{
    match end {
        BalloonEnd::Done { reached } => ReplyRef::Reached { share: reached },
        BalloonEnd::Short { reached } => ReplyRef::Short { share: reached },
        BalloonEnd::Pinned { reached } => ReplyRef::Pinned { share: reached },
    }
}
