//! What each step on the table tells.
ghost use Rattle.eleos_turn.specs.Plays.{takes_turn, ends_take, begins_give, gives_turn, stays, looks};
ghost use Rattle.eleos_turn.specs.Plays.{catches_up, pins_one, unpins_one, stamps_one};
ghost use Rattle.eleos_turn.specs.Views.{dealt_from, dealt_to, observer_of, joined, observed};
ghost use Rattle.eleos_turn.specs.Rule.{gone};

use crate::slot::Slot;
use crate::view::{Asked, Missed, View};
use atomic_table::{Join, Play, Split};
use eleos_base::Plot;
use std::marker::PhantomData;

pub(crate) struct Take<P, N> {
    plot: PhantomData<(P, N)>,
}

impl<P: Plot, N: Missed> Play<Slot<P::Cell>, View<P::Draft, P::Part, P::Ground>> for Take<P, N> {
    ghost then = { takes_turn P.terms N.missed };
}

pub(crate) struct EndTake<P> {
    plot: PhantomData<P>,
}

impl<P: Plot> Play<Slot<P::Cell>, View<P::Draft, P::Part, P::Ground>> for EndTake<P> {
    ghost then = { ends_take P.terms };
}

pub(crate) struct BeginGive<P> {
    plot: PhantomData<P>,
}

impl<P: Plot> Play<Slot<P::Cell>, View<P::Draft, P::Part, P::Ground>> for BeginGive<P> {
    ghost then = { begins_give P.terms };
}

pub(crate) struct Give<P> {
    plot: PhantomData<P>,
}

impl<P: Plot> Play<Slot<P::Cell>, View<P::Draft, P::Part, P::Ground>> for Give<P> {
    ghost then = { gives_turn P.terms };
}

pub(crate) struct Look<P> {
    plot: PhantomData<P>,
}

impl<P: Plot> Play<Slot<P::Cell>, View<P::Draft, P::Part, P::Ground>> for Look<P> {
    ghost then = { looks P.terms };
}

pub(crate) struct Unref<P> {
    plot: PhantomData<P>,
}

impl<P: Plot> Play<Slot<P::Cell>, View<P::Draft, P::Part, P::Ground>> for Unref<P> {
    ghost then = { stays P.terms };
}

pub(crate) struct CatchUp<P> {
    plot: PhantomData<P>,
}

impl<P: Plot> Play<Slot<P::Cell>, View<P::Draft, P::Part, P::Ground>> for CatchUp<P> {
    ghost then = { catches_up P.terms };
}

pub(crate) struct Pin<P> {
    plot: PhantomData<P>,
}

impl<P: Plot> Play<Slot<P::Cell>, View<P::Draft, P::Part, P::Ground>> for Pin<P> {
    ghost then = { pins_one P.terms };
}

pub(crate) struct Unpin<P> {
    plot: PhantomData<P>,
}

impl<P: Plot> Play<Slot<P::Cell>, View<P::Draft, P::Part, P::Ground>> for Unpin<P> {
    ghost then = { unpins_one P.terms };
}

pub(crate) struct Stamp<P, N> {
    plot: PhantomData<(P, N)>,
}

impl<P: Plot, N: Asked<P::Draft, P::Part>> Play<Slot<P::Cell>, View<P::Draft, P::Part, P::Ground>>
    for Stamp<P, N> {
    ghost then = { stamps_one P.terms N.asked };
}

pub(crate) struct Deal;

impl<D, Q, G> Split<View<D, Q, G>> for Deal {
    ghost left = { dealt_from };

    ghost right = { dealt_to };
}

pub(crate) struct SplitObserver;

impl<D, Q, G> Split<View<D, Q, G>> for SplitObserver {
    ghost left = { λ v. v };

    ghost right = { observer_of };
}

pub(crate) struct Absorb<P> {
    plot: PhantomData<P>,
}

impl<P: Plot> Join<View<P::Draft, P::Part, P::Ground>> for Absorb<P> {
    ghost both = { joined };

    ghost spent = { gone P.terms };
}

pub(crate) struct Observe<P> {
    plot: PhantomData<P>,
}

impl<P: Plot> Join<View<P::Draft, P::Part, P::Ground>> for Observe<P> {
    ghost both = { observed };

    ghost spent = { gone P.terms };
}
