// Who may give a command, and for which kind of trace it is built.
ghost use Rattle.std.specs.Prelude.{◌≡◌, List, ℕ};
ghost use Rattle.eleos_trace.specs.Givers.{is_giver, in_run, in_replay, givers_of, is_built};
ghost use Rattle.eleos_trace.specs.Givers.{admit, admit_round, admitted};
ghost use Rattle.eleos_trace.specs.Seen.{is_bound};
ghost use Rattle.eleos_texts.specs.Reasons.{Reads};

use crate::actors::{is_balloon, is_host, is_swapper};
use crate::header::Header;
use crate::machines::is_caller;
use crate::seen::Seen;
use crate::verbs::Verb;
use crate::{Actor, Kind};
use eleos_base::Plan;
use eleos_texts::{LineRefused, Why, refused};

/// Who may give a command.
#[derive(Clone, Copy, Debug, PartialEq, Eq)]
pub(crate) enum Givers {
    Callers,
    Swapper,
    Balloon,
    Host,
    CallersOrSwapper,
    CallersOrBalloon,
    Nobody,
}

/// Whether the actor is one of them. A caller has to be declared.
fn is_giver(plan: &Plan, givers: Givers, actor: Actor) -> bool
    ensures { result ≡ is_giver plan.now givers actor }
{
    match givers {
        Givers::Callers => is_caller(plan, actor),
        Givers::Swapper => is_swapper(actor),
        Givers::Balloon => is_balloon(actor),
        Givers::Host => is_host(actor),
        Givers::CallersOrSwapper => is_caller(plan, actor) || is_swapper(actor),
        Givers::CallersOrBalloon => is_caller(plan, actor) || is_balloon(actor),
        Givers::Nobody => false,
    }
}

/// These in a run, and nobody in a replay.
fn in_run(kind: Kind, givers: Givers) -> Givers
    ensures { result ≡ in_run kind givers }
{
    match kind {
        Kind::Run => givers,
        Kind::Replay => Givers::Nobody,
    }
}

/// These in a replay, and nobody in a run.
fn in_replay(kind: Kind, givers: Givers) -> Givers
    ensures { result ≡ in_replay kind givers }
{
    match kind {
        Kind::Run => Givers::Nobody,
        Kind::Replay => givers,
    }
}

/// Who may give a command of a trace of this kind.
pub(crate) fn givers_of(kind: Kind, verb: Verb) -> Givers
    ensures { result ≡ givers_of kind verb }
{
    match verb {
        Verb::Alloc | Verb::Free | Verb::Share | Verb::Read | Verb::Write => Givers::Callers,
        Verb::Tie | Verb::Untie => in_replay(kind, Givers::Callers),
        Verb::Fill | Verb::Evict => in_replay(kind, Givers::Swapper),
        Verb::Move => in_replay(kind, Givers::Balloon),
        Verb::Flip | Verb::SwapPlaces | Verb::Keep | Verb::Restore => Givers::Host,
        Verb::Point | Verb::Copy | Verb::Drop | Verb::Link | Verb::Unlink | Verb::Step => {
            in_run(kind, Givers::Callers)
        }
        Verb::ReadAt | Verb::WriteAt | Verb::Call => in_run(kind, Givers::Callers),
        Verb::SwapRound => in_run(kind, Givers::CallersOrSwapper),
        Verb::Balloon => in_run(kind, Givers::CallersOrBalloon),
    }
}

/// Whether a command is built for traces of this kind.
pub(crate) fn is_built(kind: Kind, verb: Verb) -> bool
    ensures { result ≡ is_built kind verb }
{
    match kind {
        Kind::Run => matches!(
            verb,
            Verb::Alloc
                | Verb::Free
                | Verb::Share
                | Verb::Read
                | Verb::Write
                | Verb::SwapRound
                | Verb::Balloon
                | Verb::Call
        ),
        Kind::Replay => true,
    }
}

/// What the words behind a verb are read beside: the header, what was seen before, who gives the
/// command, and who may.
#[derive(Clone, Copy)]
pub(crate) struct Asked<'a> {
    pub header: &'a Header,
    pub seen: &'a Seen,
    pub actor: Actor,
    pub givers: Givers,
}

impl<'a> Asked<'a> {
    /// Whether a command of this form, or of none, may be given, whatever it says: the first three
    /// tests of each reader.
    pub(crate) fn admit(&self, form: bool) -> Result<(), LineRefused>
        ensures { Reads (λ x. x) result
            (admit self.now.header.now self.now.seen.now self.now.actor self.now.givers form) }
    {
        self.admitted(form, self.seen.has_room())
    }

    /// The same of a round of the swapper or of a change of a share, of which there may be fewer.
    pub(crate) fn admit_round(&self, form: bool) -> Result<(), LineRefused>
        ensures { Reads (λ x. x) result (admit_round self.now.header.now self.now.seen.now
            self.now.actor self.now.givers form) }
    {
        self.admitted(form, self.seen.has_room() && self.seen.has_round_room())
    }

    /// These tests, where there is room for one more command or not.
    fn admitted(&self, form: bool, room: bool) -> Result<(), LineRefused>
        ensures { Reads (λ x. x) result
            (admitted self.now.header.now self.now.actor self.now.givers form room) }
    {
        if !form {
            return refused(Why::Form);
        }
        if !room {
            return refused(Why::Many);
        }
        if !is_giver(&self.header.plan, self.givers, self.actor) {
            return refused(Why::Actor);
        }
        Ok(())
    }

    /// Whether the actor may use the name.
    pub(crate) fn is_bound(&self, name: &[u8]) -> bool
        ensures { result
            ≡ is_bound self.now.header.now self.now.seen.now self.now.actor name.now }
    {
        self.seen.is_bound(self.header, self.actor, name)
    }
}
