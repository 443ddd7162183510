//! Hands: what one thread has of a turnstile, and what it has seen.
ghost use Rattle.std.specs.Prelude.{◌≡◌, ◌<◌, [], ◌∷◌, length};
ghost use Rattle.eleos_turn.specs.Hands.{IsSound, links, view_of};

use crate::answers::Refused;
use crate::view::{Place, View};
use atomic_table::Badge;
use eleos_base::Plot;
use std::marker::Model;

/// A hand takes turns and stamps entries under its number, and has seen a beginning of the history.
/// A hand of `split` has the number 0 and has only seen.
pub struct Hand<P: Plot> {
    pub(crate) seat: Place<P>,
    pub(crate) number: u32,
    pub(crate) left: u64,
    pub(crate) turns: u64,
    pub(crate) links: u64,
    pub(crate) refused: Refused,
}

impl<P: Plot> Model for Hand<P> {
    ghost use Rattle.std.specs.Prelude.{◌≡◌};
    ghost use Rattle.eleos_turn.specs.Hands.{HandState, state_of, IsHand};

    ghost Value = { HandState P.Draft P.Part P.Ground };

    ghost view = { λ h. state_of h.seat.table_id h.number h.refused h.seat.me.0 };

    ghost invariant = { λ h. IsHand P.terms
        (state_of h.seat.table_id h.number h.refused h.seat.me.0) h.seat.me h.left h.turns h.links };
}

impl<P: Plot> Drop for Hand<P> {
    fn drop(self) {
        let Self {
            seat,
            number: _,
            left: _,
            turns: _,
            links: _,
            refused: _,
        } = self;
        drop(seat);
    }
}

/// A hand that holds no turn, in a form that can lie in a cell of another turnstile.
pub struct RestHand<P: Plot> {
    badge: Badge<View<P::Draft, P::Part, P::Ground>>,
    number: u32,
    left: u64,
    links: u64,
    refused: Refused,
}

impl<P: Plot> Model for RestHand<P> {
    ghost use Rattle.std.specs.Prelude.{◌≡◌, [], ◌∷◌};
    ghost use Rattle.eleos_turn.specs.Rule.{only_view};
    ghost use Rattle.eleos_turn.specs.Hands.{HandState, state_of, IsHand};

    ghost Value = { HandState P.Draft P.Part P.Ground };

    ghost view = { λ h. state_of h.badge.table_id h.number h.refused
        (only_view P.terms h.badge.views) };

    ghost invariant = { λ h. (h.badge.views ≡ only_view P.terms h.badge.views ∷ [])
        × IsHand P.terms (state_of h.badge.table_id h.number h.refused
        (only_view P.terms h.badge.views)) (only_view P.terms h.badge.views, []) h.left 0 h.links };
}

impl<P: Plot> Drop for RestHand<P> {
    fn drop(self) {
        let Self {
            badge,
            number: _,
            left: _,
            links: _,
            refused: _,
        } = self;
        drop(badge);
    }
}

impl<P: Plot> Hand<P> {
    /// How many stamps are left.
    pub fn left(&self) -> u64
        ensures left { result ≡ self.now.left }
        ensures sound { IsSound P.terms self.now }
    {
        self.left
    }

    /// Its number: 1 and so on for the hands of `make`, 0 for a hand of `split`.
    pub fn number(&self) -> u32
        ensures { result ≡ self.now.number }
    {
        self.number
    }

    /// How many turns it has.
    pub fn turns(&self) -> u64
        ensures { result ≡ length self.now.turns }
    {
        self.turns
    }

    /// How many links a hand of `make` has.
    pub fn links(&self) -> u64
        ensures { 0 < self.now.number → result ≡ length (links P.terms self.now) }
    {
        self.links
    }

    /// The last try that found a cell busy.
    pub fn refused(&self) -> Refused
        ensures { result ≡ self.now.refused }
    {
        self.refused
    }

    /// Puts the hand to rest.
    pub fn rest(self) -> RestHand<P>
        requires { self.turns ≡ [] }
        ensures same { result ≡ self }
        ensures idle { result.turns ≡ [] }
        ensures sound { IsSound P.terms result }
    {
        let Hand {
            seat,
            number,
            left,
            turns: _,
            links,
            refused,
        } = self;
        RestHand {
            badge: seat.into_badge(),
            number,
            left,
            links,
            refused,
        }
    }

    pub(crate) fn into_seat(self) -> Place<P>
        ensures table { result.table_id ≡ self.home.table }
        ensures view { result.me ≡ (view_of self, []) }
        ensures sound { IsSound P.terms self }
    {
        let Hand {
            seat,
            number: _,
            left: _,
            turns: _,
            links: _,
            refused: _,
        } = self;
        seat
    }
}

impl<P: Plot> RestHand<P> {
    /// The hand again, which has no turn.
    pub fn wake(self) -> Hand<P>
        ensures same { result ≡ self }
        ensures idle { result.turns ≡ [] }
        ensures sound { IsSound P.terms result }
    {
        let RestHand {
            badge,
            number,
            left,
            links,
            refused,
        } = self;
        Hand {
            seat: badge.into_seat(),
            number,
            left,
            turns: 0,
            links,
            refused,
        }
    }
}
