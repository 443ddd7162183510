// How a round ends.
ghost use Rattle.std.specs.Prelude.{◌≡◌, ◌≤◌, ◌==◌, [], length, count_by};
ghost use Rattle.eleos_base.specs.declared.memory.Looked.{Looked};
ghost use Rattle.eleos_plot.specs.Refs.{reply_bytes, reply_of};
ghost use Rattle.eleos_swap.specs.Ends.{Ends, end_reply};
ghost use Rattle.eleos_swap.specs.Surveys.{EndsRound, MayEnd, MaySurvey, Surveys};

use eleos_base::{Looked, Sealer};
use eleos_clock::give_clock;
use eleos_core::Goal;
use eleos_machine::{ClockTurn, Machine, Pass};
use eleos_plot::{EventRef, ReplyRef};

/// How a round ended, with the number of frames that it found free or freed.
#[derive(Clone, Copy, Debug, PartialEq, Eq)]
pub enum RoundEnd {
    /// No fewer than were asked for.
    Enough { free: u32 },
    /// Fewer: of each other frame the sweep shows why.
    Swept { free: u32 },
}

/// Ends a round in which enough frames are noted as free or no page was left to evict: stamps its
/// survey with what the pass noted, and gives the turn of the clock cell back. Never waits.
pub fn end_round<S: Sealer>(
    m: &Machine<S>,
    pass: &mut Pass,
    clock: ClockTurn,
    enclave: u16,
    low: u32,
) -> RoundEnd
    requires own { pass.old.hand.home ≡ m.now }
    requires may { MayEnd pass.old enclave clock low }
    ensures { EndsRound pass.old enclave clock low result pass.new }
{
    // What it has seen is a legal history.
    let _ = pass.left();
    let end = end_of(m, pass, low);
    survey(m, pass, &clock, enclave, low, end);
    give_clock(m, pass, clock);
    end
}

/// Counts the frames that are noted as free. Where they are enough, the other notes go.
fn end_of<S: Sealer>(m: &Machine<S>, pass: &mut Pass, low: u32) -> RoundEnd
    requires own { pass.old.hand.home ≡ m.now }
    requires few { length pass.old.sweep.words ≤ 512 }
    ensures { Ends pass.old low result pass.new }
{
    let free = free_count(pass.sweep());
    if free < low {
        return RoundEnd::Swept { free };
    }
    m.sweep_clear(pass, false);
    RoundEnd::Enough { free }
}

/// How many frames are noted as free.
fn free_count(words: &[Looked]) -> u32
    requires { length words.now ≤ 512 }
    ensures { result ≡ count_by (λ (seen : Looked). seen.word == 0) words.now }
{
    words.iter().filter(|seen| seen.word == 0).count() as u32
}

/// Stamps the end of the round, while the pass has the turn of the enclave's clock cell.
fn survey<S: Sealer>(
    m: &Machine<S>,
    pass: &mut Pass,
    clock: &ClockTurn,
    enclave: u16,
    low: u32,
    end: RoundEnd,
)
    requires own { pass.old.hand.home ≡ m.now }
    requires may { MaySurvey pass.old enclave clock.now low end }
    ensures { Surveys pass.old enclave clock.now low end pass.new }
{
    let _ = pass.left();
    let event = EventRef::Survey {
        enclave,
        goal: Goal::Low(low),
    };
    pass.set(event, reply_to(end));
    pass.draft_sweep();
    m.stamp(pass);
}

/// The end as a reply.
fn reply_to<'a>(end: RoundEnd) -> ReplyRef<'a>
    ensures reply { reply_of result ≡ end_reply end }
    ensures bytes { reply_bytes result ≡ [] }
{
    match end {
        RoundEnd::Enough { free } => ReplyRef::Enough { free },
        RoundEnd::Swept { free } => ReplyRef::Swept { free },
    }
}
