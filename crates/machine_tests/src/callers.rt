// Two callers of one machine: the calls on blocks and the accesses, in turn, each with what it
// says.
ghost use Rattle.std.specs.Prelude.{◌≡◌, [], length};
ghost use Rattle.eleos_turn.specs.Hands.{fresh};
ghost use Rattle.eleos_machine.specs.Machines.{all_cells, plan_at};

use crate::setups::{tap_of, two_callers};
use eleos_alloc::{alloc, free, share};
use eleos_base::{AccessRefused, Addr, AllocRefused, BlockRefused};
use eleos_direct::{TryRefused, read, try_read, try_write, write};
use eleos_gcm::Gcm;
use eleos_host::{HostHand, HostSpace, SharedHost, SharedPort, Tap};
use eleos_machine::{Machine, Pass};
use std::alloc::Global;
use std::marker::Model;
use std::process::Abort;
use std::sync::Wait;
use std::test::*;

// The cell of the second page.
const SECOND_PAGE: u32 = 6;

fn address(at: u32) -> Addr {
    Addr { enclave: 1, at }
}

// What a caller does, at an offset in its enclave.
#[derive(Clone, Copy, Debug)]
enum Act {
    // So many bytes.
    Alloc(u32),
    Free(u32),
    Share(u32),
    // So many bytes, at most 4.
    Read(u32, usize),
    Write(u32, [u8; 4]),
    TryRead(u32, usize),
    TryWrite(u32, [u8; 4]),
    // The host turns the first bit of the block at the place.
    Flip(u32),
}

#[derive(Clone, Copy, Debug, PartialEq, Eq)]
enum Said {
    At(u32),
    Got([u8; 4]),
    Done,
    NotAllocated(AllocRefused),
    NotChanged(BlockRefused),
    Refused(AccessRefused),
    Busy,
    // No stamp is left.
    Spent,
}

const BAD_SIZE: Said = Said::NotAllocated(AllocRefused::BadSize);

const NO_SPACE: Said = Said::NotAllocated(AllocRefused::NoSpace);

const NO_BLOCK: Said = Said::NotChanged(BlockRefused::NotABlock);

const BLOCK_OF_TWO: Said = Said::NotChanged(BlockRefused::NotYours { owner: 2 });

const UNALLOCATED: Said = Said::Refused(AccessRefused::Unallocated);

const OF_TWO: Said = Said::Refused(AccessRefused::NotYours { owner: 2 });

const BAD_RANGE: Said = Said::Refused(AccessRefused::BadRange);

const TAMPERED: Said = Said::Refused(AccessRefused::Tampered { sub: 5 });

const WORN: Said = Said::Refused(AccessRefused::Worn { sub: 5 });

// Who does what in turn, and what it says. All but the two flips have a stamp.
const ACTS: [(u32, Act, Said); 35] = [
    (1, Act::Read(0, 4), Said::Got([0; 4])),
    (1, Act::Write(1024, *b"next"), Said::Done),
    (1, Act::TryWrite(1020, *b"last"), Said::Done),
    (2, Act::Read(1024, 4), Said::Got(*b"next")),
    (1, Act::TryRead(1018, 4), Said::Got(*b"\0\0la")),
    (1, Act::Read(0, 0), BAD_RANGE),
    (1, Act::TryRead(1021, 4), BAD_RANGE),
    (1, Act::TryWrite(4093, [1; 4]), BAD_RANGE),
    (1, Act::Write(2048, [1; 4]), OF_TWO),
    (2, Act::Read(3072, 1), UNALLOCATED),
    (1, Act::Flip(5), Said::Done),
    (2, Act::Read(1024, 4), TAMPERED),
    (1, Act::TryWrite(1024, [1; 4]), TAMPERED),
    (1, Act::TryRead(1020, 4), Said::Got(*b"last")),
    (1, Act::Flip(5), Said::Done),
    (2, Act::TryWrite(1026, *b"ws\0!"), Said::Done),
    (1, Act::TryRead(1024, 4), Said::Got(*b"news")),
    (1, Act::TryRead(1027, 4), Said::Got(*b"s\0!\0")),
    (1, Act::Write(1024, [1; 4]), WORN),
    (1, Act::Read(1024, 4), Said::Got(*b"news")),
    (1, Act::Alloc(0), BAD_SIZE),
    (1, Act::Alloc(65_537), BAD_SIZE),
    (1, Act::Alloc(65_536), NO_SPACE),
    (1, Act::Alloc(1025), NO_SPACE),
    (2, Act::Alloc(1024), Said::At(3072)),
    (1, Act::Read(3072, 1), OF_TWO),
    (1, Act::Free(3072), BLOCK_OF_TWO),
    (1, Act::Share(3072), BLOCK_OF_TWO),
    (2, Act::Share(1024), NO_BLOCK),
    (2, Act::Share(3072), Said::Done),
    (1, Act::Free(3072), BLOCK_OF_TWO),
    (1, Act::Read(3072, 1), Said::Got([0; 4])),
    (2, Act::Free(3072), Said::Done),
    (2, Act::Free(3072), NO_BLOCK),
    (1, Act::Read(3072, 1), UNALLOCATED),
];

// The stamp of the last one.
const LAST: u64 = 32;

#[test]
fn two_callers_call_in_turn(rt: HostRuntime) -> Result<(), Fail> {
    let Ok(host) = SharedHost::make(rt.alloc(), 8) else {
        return Err("host".into());
    };
    call_over(&rt, rt.alloc(), &host)
}

fn call_over<R: Wait + Abort>(rt: &R, alloc: Global, host: &SharedHost) -> Result<(), Fail> {
    let mut tap = tap_of(alloc, host)?;
    let (machine, one, two, _) = two_callers(alloc)?;
    call_in_turn(rt, &machine, host, &mut tap, one, two);
    Ok(())
}

fn call_in_turn<R: Wait + Abort>(
    rt: &R,
    machine: &Machine<Gcm>,
    host: &SharedHost,
    tap: &mut Tap<SharedPort<'_>>,
    one: Pass,
    two: Pass,
)
    requires callers { length (plan_at machine.now).callers ≡ 2 }
    requires cells { all_cells (plan_at machine.now) ≡ 9 }
    requires one { one.hand ≡ fresh machine.now 1 }
    requires two { two.hand ≡ fresh machine.now 2 }
{
    let mut one = Caller { machine, pass: one };
    let mut two = Caller { machine, pass: two };
    act_all(rt, host, tap, &mut one, &mut two);
    find_busy(rt, tap, &mut one, &mut two);
}

fn act_all<R: Wait + Abort>(
    rt: &R,
    host: &SharedHost,
    tap: &mut Tap<SharedPort<'_>>,
    one: &mut Caller<'_>,
    two: &mut Caller<'_>,
) {
    for (who, act, said) in ACTS {
        flip_by(host, act);
        let found = act_by(rt, tap, one, two, who, act);
        assert_eq!(rt; found, said, "{act:?}");
    }
    assert_eq!(rt; one.pass.last_stamp(), LAST);
}

fn act_by<R: Wait>(
    rt: &R,
    tap: &mut Tap<SharedPort<'_>>,
    one: &mut Caller<'_>,
    two: &mut Caller<'_>,
    who: u32,
    act: Act,
) -> Said {
    if who == 1 {
        one.acts(rt, tap, act)
    } else {
        two.acts(rt, tap, act)
    }
}

fn flip_by(host: &SharedHost, act: Act) {
    if let Act::Flip(place) = act {
        let space = &host;
        space.hand().flip(place, 0);
    }
}

// A try is Busy just while the other caller has the turn of the page.
fn find_busy<R: Wait + Abort>(
    rt: &R,
    tap: &mut Tap<SharedPort<'_>>,
    one: &mut Caller<'_>,
    two: &mut Caller<'_>,
) {
    let reads = Act::TryRead(1020, 4);
    let writes = Act::TryWrite(2048, *b"mine");
    assert_eq!(rt; two.holds(rt, tap, one, reads), Said::Busy);
    assert_eq!(rt; one.acts(rt, tap, reads), Said::Got(*b"last"));
    assert_eq!(rt; one.holds(rt, tap, two, writes), Said::Busy);
    assert_eq!(rt; two.acts(rt, tap, writes), Said::Done);
}

// A caller's pass that holds no turn, with its machine.
#[derive(Drop)]
struct Caller<'a> {
    machine: &'a Machine<Gcm>,
    pass: Pass,
}

impl<'a> Model for Caller<'a> {
    ghost use Rattle.std.specs.Prelude.{◌≡◌, []};
    ghost use Rattle.eleos_base.specs.Plans.{IsCaller};
    ghost use Rattle.eleos_machine.specs.Machines.{Site, all_cells, plan_at};

    ghost Value = { Site };

    ghost view = { λ c. c.machine.now };

    ghost invariant = { λ c. (c.pass.hand.home ≡ c.machine.now)
        × IsCaller (plan_at c.machine.now) c.pass.hand.number × (c.pass.hand.turns ≡ [])
        × (all_cells (plan_at c.machine.now) ≡ 9) };
}

impl<'a> Caller<'a> {
    // Acts, where a stamp is left for it.
    fn acts<R: Wait>(&mut self, rt: &R, tap: &mut Tap<SharedPort<'_>>, act: Act) -> Said {
        let machine = self.machine;
        let pass = &mut self.pass;
        if pass.left() == 0 {
            return Said::Spent;
        }
        let mut bytes = [0; 4];
        match act {
            Act::Alloc(size) => allotted(alloc(rt, machine, pass, size)),
            Act::Free(at) => changed(free(rt, machine, pass, address(at))),
            Act::Share(at) => changed(share(rt, machine, pass, address(at))),
            Act::Read(at, len) => {
                let buf = &mut bytes[..len.min(4)];
                let answer = read(rt, machine, pass, tap, address(at), buf);
                answered(answer, Said::Got(bytes))
            }
            Act::Write(at, text) => {
                answered(
                    write(rt, machine, pass, tap, address(at), &text),
                    Said::Done,
                )
            }
            Act::TryRead(at, len) => {
                let buf = &mut bytes[..len.min(4)];
                let answer = try_read(machine, pass, tap, address(at), buf);
                tried(answer, Said::Got(bytes))
            }
            Act::TryWrite(at, text) => {
                tried(
                    try_write(machine, pass, tap, address(at), &text),
                    Said::Done,
                )
            }
            Act::Flip(_) => Said::Done,
        }
    }

    // What an act of the other says while this caller has the turn of the second page.
    fn holds<R: Wait>(
        &mut self,
        rt: &R,
        tap: &mut Tap<SharedPort<'_>>,
        other: &mut Caller<'_>,
        act: Act,
    ) -> Said {
        let Caller { machine, pass } = self;
        let taken = machine.take(rt, pass, SECOND_PAGE, false);
        let said = other.acts(rt, tap, act);
        machine.give(pass, SECOND_PAGE, taken.value);
        said
    }
}

fn allotted(answer: Result<Addr, AllocRefused>) -> Said {
    match answer {
        Ok(at) => Said::At(at.at),
        Err(refused) => Said::NotAllocated(refused),
    }
}

fn changed(answer: Result<(), BlockRefused>) -> Said {
    match answer {
        Ok(()) => Said::Done,
        Err(refused) => Said::NotChanged(refused),
    }
}

fn answered(answer: Result<(), AccessRefused>, good: Said) -> Said {
    match answer {
        Ok(()) => good,
        Err(refused) => Said::Refused(refused),
    }
}

fn tried(answer: Result<(), TryRefused>, good: Said) -> Said {
    match answer {
        Ok(()) => good,
        Err(TryRefused::Access(refused)) => Said::Refused(refused),
        Err(TryRefused::Busy { word: _ }) => Said::Busy,
    }
}
