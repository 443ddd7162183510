// Whether a sweep's frames are those of a list, and whether they differ, counted without memory.
ghost use Rattle.std.specs.Prelude.{◌≡◌, ◌↔◌, ◌==◌, IsTrue, IsPermutation, count_by, nat_eq};
ghost use Rattle.std.specs.List.{IsDistinct, list_all, list_any};
ghost use Rattle.eleos_core.specs.Sweeps.{frames_in};

use eleos_base::Looked;

/// The sweep and the list have the same frames, each as often.
pub fn are_same(sweep: &[Looked], list: &[u32]) -> bool
    ensures { IsTrue result ↔ IsPermutation (frames_in sweep.now) list.now }
{
    if !are_seen_alike(sweep, list) {
        return false;
    }
    are_listed_alike(sweep, list)
}

/// Each frame that the sweep names stands in both as often.
fn are_seen_alike(sweep: &[Looked], list: &[u32]) -> bool
    ensures { result ≡ list_all (λ seen.
        count_by (λ other. other.frame == seen.frame) sweep.now
        == count_by (λ frame. frame == seen.frame) list.now) sweep.now }
{
    sweep.iter().all(|seen| times_seen(sweep, seen.frame) == times_in(list, seen.frame))
}

/// Each frame of the list stands in both as often.
fn are_listed_alike(sweep: &[Looked], list: &[u32]) -> bool
    ensures { result ≡ list_all (λ frame.
        count_by (λ seen. seen.frame == frame) sweep.now
        == count_by (λ other. other == frame) list.now) list.now }
{
    list.iter().all(|frame| times_seen(sweep, *frame) == times_in(list, *frame))
}

/// How often the sweep names the frame.
fn times_seen(sweep: &[Looked], frame: u32) -> usize
    ensures { result ≡ count_by (λ seen. seen.frame == frame) sweep.now }
{
    sweep.iter().filter(|seen| seen.frame == frame).count()
}

/// How often the frame stands in the list.
fn times_in(list: &[u32], frame: u32) -> usize
    ensures { result ≡ count_by (λ other. other == frame) list.now }
{
    list.iter().filter(|other| **other == frame).count()
}

/// The sweep names no frame twice.
pub fn are_distinct(sweep: &[Looked]) -> bool
    ensures { IsTrue result ↔ IsDistinct nat_eq (frames_in sweep.now) }
{
    are_seen_once(sweep)
}

/// Each frame that the sweep names stands in it just once.
fn are_seen_once(sweep: &[Looked]) -> bool
    ensures { result ≡ list_all (λ seen.
        count_by (λ other. other.frame == seen.frame) sweep.now == 1) sweep.now }
{
    sweep.iter().all(|seen| times_seen(sweep, seen.frame) == 1)
}

/// Each frame that the sweep names stands in the list.
pub fn are_listed(sweep: &[Looked], list: &[u32]) -> bool
    ensures { result ≡ list_all (λ seen. list_any (nat_eq seen.frame) list.now) sweep.now }
{
    sweep.iter().all(|seen| list.contains(&seen.frame))
}
