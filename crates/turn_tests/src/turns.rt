ghost use Rattle.std.specs.Prelude.{◌≡◌, ◌<◌, ◌≤◌, ◌^◌, [], ◌∷◌, length, IfSome, IfOk};
ghost use Rattle.eleos_turn.specs.Hands.{fresh, dealt};

use crate::counters::{Counter, Row, RowHand, raise_many};
use crate::shelves::{Shelf, Shelves, lay};
use eleos_turn::{CellWord, Closed, Hand, HandsRefused, Taken, Turnstile};
use std::alloc::{AllocError, Global};
use std::process::Abort;
use std::sync::Wait;
use std::test::*;
use std::thread::{Threads, join};

fn counters(alloc: Global, count: usize) -> Result<Vec<Counter>, AllocError> {
    let mut all = Vec::new(alloc);
    for _ in 0..count {
        all.push(Counter { count: 0 })?;
    }
    Ok(all)
}

// The two hands that `make` gave.
fn both_hands(all: &Row, hands: Vec<RowHand>) -> Option<(RowHand, RowHand)>
    requires { hands.items ≡ dealt all.now 0 2 }
    ensures { IfSome result (λ r. (r.0 ≡ fresh all.now 1) × (r.1 ≡ fresh all.now 2)) }
{
    let _ = all;
    let mut hands = hands;
    let Some(two) = hands.pop() else {
        return None;
    };
    let Some(one) = hands.pop() else {
        return None;
    };
    Some((one, two))
}

// A row of so many counters at 0, with its two hands, each of which may stamp so often.
fn row_with_two_hands<R: Abort>(
    rt: &R,
    alloc: Global,
    count: usize,
    stamps: u64,
) -> Result<(Row, RowHand, RowHand), Fail>
    requires count { count < 2 ^ 31 }
    requires stamps { (0 < stamps) × (stamps ≤ 2 ^ 40) }
    ensures count { IfOk result (λ r. length r.0.base.opening ≡ count) }
    ensures one { IfOk result (λ r. r.1 ≡ fresh r.0 1) }
    ensures two { IfOk result (λ r. r.2 ≡ fresh r.0 2) }
{
    let cells = counters(alloc, count)?;
    assert_eq!(rt; cells.len(), count);
    let Ok((all, hands)) = Row::make(alloc, cells, 2, stamps) else {
        return Err("memory".into());
    };
    let Some((one, two)) = both_hands(&all, hands) else {
        return Err("hands".into());
    };
    Ok((all, one, two))
}

#[test]
fn words_of_one_cell_by_hand(rt: HostRuntime) -> Result<(), Fail> {
    let (all, mut one, mut two) = row_with_two_hands(&rt, rt.alloc(), 1, 10)?;
    by_hand(&rt, &all, &mut one, &mut two)
}

fn by_hand<R: Wait + Abort>(
    rt: &R,
    all: &Row,
    one: &mut RowHand,
    two: &mut RowHand,
) -> Result<(), Fail>
    requires cells { 0 < length all.now.base.opening }
    requires hands { (one.old ≡ fresh all.now 1) × (two.old ≡ fresh all.now 2) }
{
    let Taken { word, value } = all.take(rt, one, 0, false);
    assert_eq!(rt; word, 0);
    let Err(busy) = all.try_take(two, 0, false) else {
        return Err("it is busy".into());
    };
    assert_eq!(rt; busy.word, 1);
    assert_eq!(rt; two.refused().count, 1);
    all.give(one, 0, value);
    let Ok(Taken { word, value }) = all.try_take(two, 0, true) else {
        return Err("it is free".into());
    };
    assert_eq!(rt; word, 0);
    all.give(two, 0, value);
    assert_eq!(rt; all.look(one, 0), 2);
    assert!(rt; CellWord::new(2).is_referenced() && !CellWord::new(2).is_busy());
    all.unref(one, 0);
    assert_eq!(rt; all.look(one, 0), 0);
    let note = all.split(one);
    all.join(one, note);
    assert_eq!(rt; one.left(), 10);
    Ok(())
}

#[test]
fn two_threads_stamp_each_number_once(rt: HostRuntime) -> Result<(), Fail> {
    let alloc = rt.alloc();
    let (all, one, two) = row_with_two_hands(&rt, alloc, 2, 1000)?;
    let first = Vec::with_capacity(alloc, 1000)?;
    let second = Vec::with_capacity(alloc, 1000)?;
    let room = Vec::with_capacity(alloc, 2)?;
    raise_and_close(&rt, alloc, all, one, two, first, second, room)
}

fn raise_and_close<R: Threads + Wait + Abort + Sync>(
    rt: &R,
    alloc: Global,
    all: Row,
    one: RowHand,
    two: RowHand,
    first: Vec<u64>,
    second: Vec<u64>,
    room: Vec<RowHand>,
) -> Result<(), Fail>
    requires cells { 1 < length all.base.opening }
    requires hands { (one ≡ fresh all 1) × (two ≡ fresh all 2) }
    requires room { room.items ≡ [] }
{
    let mut hands = room;
    let shared = &all;
    let ((one, first), (two, second)) = join(
        rt,
        || -> (RowHand, Vec<u64>)
            requires { (one ≡ fresh shared.now 1) × (1 < length shared.now.base.opening) }
            ensures { result.0.home ≡ shared.entry.now }
        { raise_many(rt, shared, one, first) },
        || -> (RowHand, Vec<u64>)
            requires { (two ≡ fresh shared.now 2) × (1 < length shared.now.base.opening) }
            ensures { result.0.home ≡ shared.entry.now }
        { raise_many(rt, shared, two, second) },
    );
    let mut seen = vec![in alloc; 0u8; 2000]?;
    for stamp in first.iter().chain(second.iter()) {
        if let Some(place) = seen.get_mut(*stamp as usize) {
            *place = place.saturating_add(1);
        }
    }
    assert!(rt; first.len() == 1000 && second.len() == 1000 && seen.iter().all(|x| *x == 1));
    hands.push(one)?;
    let Err(refused) = all.close(hands) else {
        return Err("a hand is missing".into());
    };
    let HandsRefused { turnstile, hands } = refused;
    let mut hands = hands;
    hands.push(two)?;
    let Ok(closed) = turnstile.close(hands) else {
        return Err("all hands are there".into());
    };
    let Closed { hand, cells } = closed;
    drop(hand);
    assert!(rt; matches!(cells.get(0), Some(Some(Counter { count: 2000 }))));
    assert!(rt; matches!(cells.get(1), Some(Some(Counter { count: 1000 }))));
    Ok(())
}

#[test]
fn a_hand_rests_in_a_cell_of_another_turnstile(rt: HostRuntime) -> Result<(), Fail> {
    let alloc = rt.alloc();
    let (all, one, two) = row_with_two_hands(&rt, alloc, 1, 10)?;
    let mut cells = Vec::with_capacity(alloc, 1)?;
    cells.push(Shelf {
        count: 0,
        rest: None,
    })?;
    assert_eq!(rt; cells.len(), 1);
    let made = Turnstile::<Shelves>::make(alloc, cells, 1, 10);
    let Ok((shelves, hands)) = made else {
        return Err("memory".into());
    };
    let Some(mut porter) = only_hand(&shelves, hands) else {
        return Err("porter".into());
    };
    drop(all);
    swap_hands(&rt, &shelves, &mut porter, one, two)
}

// The hand that `make` gave.
fn only_hand(all: &Turnstile<Shelves>, hands: Vec<Hand<Shelves>>) -> Option<Hand<Shelves>>
    requires { hands.items ≡ dealt all.now 0 1 }
    ensures { IfSome result (λ r. r ≡ fresh all.now 1) }
{
    let _ = all;
    let mut hands = hands;
    hands.pop()
}

fn swap_hands<R: Wait + Abort>(
    rt: &R,
    shelves: &Turnstile<Shelves>,
    porter: &mut Hand<Shelves>,
    one: RowHand,
    two: RowHand,
) -> Result<(), Fail>
    requires cells { 0 < length shelves.now.base.opening }
    requires porter { porter.old ≡ fresh shelves.now 1 }
    requires idle { (one.turns ≡ []) × (two.turns ≡ []) }
{
    assert!(rt; lay(rt, shelves, porter, 0, one).is_none());
    let Some(back) = lay(rt, shelves, porter, 0, two) else {
        return Err("the first hand lay there".into());
    };
    assert_eq!(rt; back.left(), 10);
    Ok(())
}
