// The end of a search: the one answer that it may have.
ghost use Rattle.std.specs.Prelude.{◌≡◌, ◌↔◌, ◌==◌, ◌||◌, ◌<◌, ◌^◌, IsTrue};
ghost use Rattle.std.specs.Prelude.{Some, None, count_by, length};
ghost use Rattle.std.specs.List.{list_all};
ghost use Rattle.eleos_core.specs.Words.{IsEnough, IsShort, IsSwept, IsTheReply, SurveyReply};
ghost use Rattle.eleos_core.specs.Words.{is_busy, is_taken};

use crate::event::Goal;
use crate::sweeps::is_all_taken;
use crate::sweeps::lists::{are_distinct, are_listed, are_same};
use eleos_base::{CellWord, Looked, Reply};

/// The one answer to a search among these frames, if the sweep allows one.
pub fn survey_reply(own: &[u32], pool: &[u32], goal: Goal, sweep: &[Looked]) -> Option<Reply>
    requires { length own.now < 2 ^ 32 }
    ensures { IsTheReply (SurveyReply own.now pool.now goal sweep.now) result }
{
    match goal {
        Goal::Low(low) => low_reply(own, pool, low, sweep),
        Goal::To(share) => share_reply(own, pool, share, sweep),
    }
}

/// The answer to a search for free frames. It says nothing of the pool.
fn low_reply(own: &[u32], pool: &[u32], low: u32, sweep: &[Looked]) -> Option<Reply>
    requires { length own.now < 2 ^ 32 }
    ensures { IsTheReply (SurveyReply own.now pool.now (Goal.Low low) sweep.now) result }
{
    if is_enough(own, low, sweep) {
        let free = sweep.len() as u32;
        return Some(Reply::Enough { free });
    }
    if is_swept(own, low, sweep) {
        let free = count_free(sweep) as u32;
        return Some(Reply::Swept { free });
    }
    None
}

/// The answer to a search for the enclave's share of frames.
fn share_reply(own: &[u32], pool: &[u32], wanted: u32, sweep: &[Looked]) -> Option<Reply>
    requires { length own.now < 2 ^ 32 }
    ensures { IsTheReply (SurveyReply own.now pool.now (Goal.To wanted) sweep.now) result }
{
    let share = own.len() as u32;
    if share == wanted {
        return reached(share, sweep);
    }
    if share > wanted {
        return is_all_taken(sweep, own).then_some(Reply::Pinned { share });
    }
    is_short(pool, sweep).then_some(Reply::Short { share })
}

/// Just the frames of the list that were found free, no fewer than asked for.
fn is_enough(own: &[u32], low: u32, sweep: &[Looked]) -> bool
    ensures { IsTrue result ↔ IsEnough own.now low sweep.now (length sweep.now) }
{
    if sweep.len() < low as usize || !are_free(sweep) {
        return false;
    }
    if !are_listed(sweep, own) {
        return false;
    }
    are_distinct(sweep)
}

/// All frames of the list, of which fewer than asked for were found free, and the others taken.
fn is_swept(own: &[u32], low: u32, sweep: &[Looked]) -> bool
    ensures { IsTrue result
        ↔ IsSwept own.now low sweep.now (count_by (λ seen. seen.word == 0) sweep.now) }
{
    if count_free(sweep) >= low as usize || !are_free_or_taken(sweep) {
        return false;
    }
    are_same(sweep, own)
}

/// All frames of the pool, and BUSY was seen on each.
fn is_short(pool: &[u32], sweep: &[Looked]) -> bool
    ensures { IsTrue result ↔ IsShort pool.now sweep.now }
{
    if !are_busy(sweep) {
        return false;
    }
    are_same(sweep, pool)
}

/// The share is as wanted. Nothing was looked at.
fn reached(share: u32, sweep: &[Looked]) -> Option<Reply>
    ensures some { length sweep.now ≡ 0 → result ≡ Some (Reply.Reached share) }
    ensures none { 0 < length sweep.now → result ≡ None }
{
    sweep.is_empty().then_some(Reply::Reached { share })
}

/// How many were found free.
fn count_free(sweep: &[Looked]) -> usize
    ensures { result ≡ count_by (λ seen. seen.word == 0) sweep.now }
{
    sweep.iter().filter(|seen| seen.word == 0).count()
}

fn are_free(sweep: &[Looked]) -> bool
    ensures { result ≡ list_all (λ seen. seen.word == 0) sweep.now }
{
    sweep.iter().all(|seen| seen.word == 0)
}

fn are_free_or_taken(sweep: &[Looked]) -> bool
    ensures { result ≡ list_all (λ seen. seen.word == 0 || is_taken seen.word) sweep.now }
{
    sweep.iter().all(|seen| seen.word == 0 || CellWord::new(seen.word).is_taken())
}

fn are_busy(sweep: &[Looked]) -> bool
    ensures { result ≡ list_all (λ seen. is_busy seen.word) sweep.now }
{
    sweep.iter().all(|seen| CellWord::new(seen.word).is_busy())
}
