//! The laws over every list of events.

ghost use Rattle.eleos_core.specs.Laws.{FramesHold, FreshNonces, HoldersAtHome, LinkedStay};
ghost use Rattle.eleos_core.specs.Laws.{ListsAreOwned, OfEveryRun, PagesAtHome};
ghost use Rattle.eleos_core.specs.Laws.{PassedBlocksFit, RunsPlain, SharesAreAll};
ghost use Rattle.eleos_core.specs.OwnLaws.{AllocsNew, OwnBlocksLive, ReadsPrivate};
ghost use Rattle.eleos_core.specs.PartLaws.{PartsAllow, PartsJudge, PartsKeepUp};

/// The calls of a sound legal history are one run of plain memory from the opening of the plan.
pub fn calls_run_plain()
    ensures one_run { OfEveryRun RunsPlain }
{}

/// A page that somebody links is in a frame.
pub fn linked_pages_stay()
    ensures linked { OfEveryRun (λ k key h. LinkedStay k h) }
{}

/// A page lies in a frame that its enclave owns.
pub fn pages_lie_at_home()
    ensures at_home { OfEveryRun (λ k key h. PagesAtHome k h) }
{}

/// A page is in a frame just where that frame holds the page.
pub fn frames_hold_pages()
    ensures hold { OfEveryRun (λ k key h. FramesHold h) }
{}

/// A frame that holds a page is of the page's enclave, and a frame of the pool holds none.
pub fn holders_are_at_home()
    ensures at_home { OfEveryRun (λ k key h. HoldersAtHome k h) }
{}

/// Each frame of the machine stands in the list of its owner, there once, and in no other list.
pub fn lists_are_owned()
    ensures owned { OfEveryRun (λ k key h. ListsAreOwned k h) }
{}

/// The shares of all enclaves and the pool are the machine's frames, and no enclave has more pages
/// in frames than it has frames.
pub fn shares_are_all()
    ensures shares { OfEveryRun (λ k key h. SharesAreAll k h) }
{}

/// Each block that a sound legal history took and that passed is as long as a sub-page.
pub fn passed_blocks_fit()
    ensures fit { OfEveryRun PassedBlocksFit }
{}

/// Each private block that a caller's own calls left it is live, and its alone.
pub fn own_blocks_are_live()
    ensures live { OfEveryRun (λ k key h. OwnBlocksLive k h) }
{}

/// A block that an alloc gets is of whole sub-pages, and touches none of its caller's private ones.
pub fn allotted_blocks_are_new()
    ensures new { OfEveryRun AllocsNew }
{}

/// Where no altered block passed, each caller reads in its private blocks what its own calls have
/// made there, whatever the other callers did.
pub fn reads_are_private()
    ensures private { OfEveryRun ReadsPrivate }
{}

/// No nonce is used twice in a legal history, and no sub-page is sealed more often than it may be.
pub fn nonces_are_fresh()
    ensures fresh { OfEveryRun (λ k key h. FreshNonces k h) }
{}

/// An entry that may be made on the parts that a legal history left in the cells is legal after
/// that history.
pub fn parts_judge()
    ensures judge { PartsJudge }
{}

/// An entry that is legal after a history may be made on the parts that it left in the cells.
pub fn parts_allow()
    ensures allow { PartsAllow }
{}

/// A legal entry makes of the cells that it touches what their parts say, and changes no other.
pub fn parts_keep_up()
    ensures keep_up { PartsKeepUp }
{}
