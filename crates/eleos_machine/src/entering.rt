// A draft is stamped at the machine's turnstile.
ghost use Rattle.std.specs.Prelude.{◌≡◌, ℕ, List};
ghost use Rattle.eleos_turn.specs.Hands.{CanStamp, HandState, IsSound, Stamped};

use eleos_base::Plot;
use eleos_plot::CorePlot;
use eleos_turn::{Hand, Turnstile};

/// What the history keeps of the cells that a hand's entry touches.
pub(crate) trait Keeps: Plot {
    ghost kept: { HandState Self.Draft Self.Part Self.Ground → Self.Draft → List (ℕ × Self.Part) };
}

impl Keeps for CorePlot {
    ghost use Rattle.eleos_machine.specs.Stamping.{kept_of};

    ghost kept = { kept_of };
}

/// Stamps the draft.
pub(crate) fn enter<P: Plot + Keeps>(
    turnstile: &Turnstile<P>,
    hand: &mut Hand<P>,
    draft: &P::Draft,
) -> u64
    requires own { hand.old.home ≡ turnstile.now }
    requires can { CanStamp P.terms hand.old draft.now (P.kept hand.old draft.now) }
    ensures stamped { Stamped P.terms draft.now
        (P.kept hand.old draft.now) hand.old result hand.new }
    ensures sound { IsSound P.terms hand.new }
{
    turnstile.stamp(hand, draft)
}
