// Hosts that change by their hands, a told one and one that threads share, and taps.
ghost use Rattle.std.specs.Prelude.{◌≡◌, ◌<◌, length, [], ◌∷◌, Some, option_map, IfSome};
ghost use Rattle.eleos_base.specs.Gcm.{ciphertext_of};
ghost use Rattle.eleos_host.specs.Blocks.{IsBlock};
ghost use Rattle.eleos_host.specs.Crossings.{placed};
ghost use Rattle.eleos_host.specs.Stores.{put_to, swapped};
ghost use Rattle.eleos_host.specs.Taps.{block_of};

use eleos_base::Sealer;
use eleos_host::{
    Act, ActAnswer, BLOCK_BITS, BLOCK_BYTES, HostHand, HostPort, HostSpace, SharedHost, Tap,
    ToldHost,
};
use std::process::Abort;
use std::test::Fail;

// All that the port gave since `begin` are the blocks in the two slots, in order.
fn fetch_two<P: HostPort>(tap: &mut Tap<P>, first: u32, second: u32)
    ensures given { P.given tap.new.port
        ≡ Some (placed first (block_of tap.new 0) ∷ placed second (block_of tap.new 1) ∷ []) }
    ensures gave_first { P.gave first (block_of tap.new 0) }
    ensures gave_second { P.gave second (block_of tap.new 1) }
{
    tap.begin();
    tap.fetch(first, 0);
    tap.fetch(second, 1);
}

// What is sealed in a slot is what the host takes.
fn seal_out<S: Sealer, P: HostPort>(
    sealer: &S,
    tap: &mut Tap<P>,
    place: u32,
    nonce: &[u8; 12],
    text: &[u8],
) -> [u8; 16]
    requires { IsBlock text.now }
    ensures took { P.took place (ciphertext_of (S.key sealer.now) nonce.now text.now) }
{
    tap.begin();
    tap.block_mut(0).copy_from_slice(text);
    let tag = sealer.seal(nonce, &[], tap.block_mut(0));
    tap.store(place, 0);
    tag
}

// A port that is a hand too tells one store.
fn put_and_swap<P: HostPort + HostHand>(host: &mut P, a: u32, b: u32, block: &[u8])
    requires { IsBlock block.now }
    ensures store { P.store host.new
        ≡ option_map (λ s. swapped (put_to s a block.now) a b) (P.store host.old) }
{
    host.put(a, block);
    host.swap(a, b);
}

// The first byte that the place reads as.
fn first_at<P: HostPort>(host: &mut P, place: u32) -> u8 {
    let mut block = [0xff; BLOCK_BYTES];
    host.get(place, &mut block);
    block[0]
}

// Those of the places 0 and 1, and of place 2.
fn firsts_of<P: HostPort>(host: &mut P) -> [u8; 3] {
    [first_at(host, 0), first_at(host, 1), first_at(host, 2)]
}

fn perform<H: HostHand>(host: &mut H, act: Act) -> ActAnswer {
    match act {
        Act::Flip { place, bit } if bit < BLOCK_BITS => host.flip(place, bit),
        Act::Flip { .. } => {}
        Act::Swap { a, b } => host.swap(a, b),
        Act::Keep { place } => host.keep(place),
        Act::Restore { place } => {
            if !host.restore(place) {
                return ActAnswer::NothingKept;
            }
        }
    }
    ActAnswer::Done
}

// What a port of its own gives for the place.
fn read_from<H: HostSpace>(space: &H, place: u32) -> [u8; BLOCK_BYTES]
    ensures { H.Port.HostPort.gave place result }
{
    let mut block = [0xff; BLOCK_BYTES];
    space.port(1).get(place, &mut block);
    block
}

// What a port of its own hands over for the place.
fn write_to<H: HostSpace>(space: &H, place: u32, block: &[u8])
    requires { IsBlock block.now }
    ensures { H.Port.HostPort.took place block.now }
{
    space.port(0).put(place, block);
}

// Acts with their answers, and the first bytes of places 0 and 1 after each, and of place 2, which
// isn't there. They begin as 1, 2 and 0.
const ACTS: [(Act, ActAnswer, [u8; 3]); 13] = [
    (Act::Flip { place: 0, bit: 1 }, ActAnswer::Done, [3, 2, 0]),
    (Act::Flip { place: 0, bit: 1 }, ActAnswer::Done, [1, 2, 0]),
    (Act::Restore { place: 0 }, ActAnswer::NothingKept, [1, 2, 0]),
    (Act::Keep { place: 0 }, ActAnswer::Done, [1, 2, 0]),
    (Act::Swap { a: 0, b: 1 }, ActAnswer::Done, [2, 1, 0]),
    (Act::Restore { place: 1 }, ActAnswer::NothingKept, [2, 1, 0]),
    (Act::Restore { place: 0 }, ActAnswer::Done, [1, 1, 0]),
    (Act::Flip { place: 0, bit: 0 }, ActAnswer::Done, [0, 1, 0]),
    (Act::Restore { place: 0 }, ActAnswer::Done, [1, 1, 0]),
    (Act::Flip { place: 2, bit: 0 }, ActAnswer::Done, [1, 1, 0]),
    (Act::Keep { place: 2 }, ActAnswer::Done, [1, 1, 0]),
    (Act::Restore { place: 2 }, ActAnswer::NothingKept, [1, 1, 0]),
    (Act::Swap { a: 1, b: 2 }, ActAnswer::Done, [1, 0, 0]),
];

#[test]
fn a_told_host_changes_by_its_hand(rt: HostRuntime) -> Result<(), Fail> {
    match ToldHost::make(rt.alloc(), 2) {
        Ok(mut host) => change_told(&rt, &mut host),
        Err(_) => return Err("memory".into()),
    }
    Ok(())
}

fn change_told<R: Abort, P: HostPort + HostHand>(rt: &R, host: &mut P) {
    assert_eq!(rt; first_at(host, 1), 0, "before a put");
    put_and_swap(host, 0, 1, &[2; BLOCK_BYTES]);
    host.put(0, &[1; BLOCK_BYTES]);
    host.put(2, &[3; BLOCK_BYTES]);
    for (act, answer, firsts) in ACTS {
        assert_eq!(rt; perform(host, act), answer, "{act:?}");
        assert_eq!(rt; firsts_of(host), firsts, "{act:?}");
    }
}

#[test]
fn a_shared_host_changes_by_its_hands(rt: HostRuntime) -> Result<(), Fail> {
    match SharedHost::make(rt.alloc(), 2) {
        Ok(host) => change_shared(&rt, &&host),
        Err(_) => return Err("memory".into()),
    }
    Ok(())
}

fn change_shared<R: Abort, H: HostSpace>(rt: &R, space: &H) {
    assert_eq!(rt; first_at(&mut space.port(0), 1), 0, "before a put");
    write_to(space, 0, &[1; BLOCK_BYTES]);
    write_to(space, 1, &[2; BLOCK_BYTES]);
    write_to(space, 2, &[3; BLOCK_BYTES]);
    for (act, answer, firsts) in ACTS {
        assert_eq!(rt; perform(&mut space.hand(), act), answer, "{act:?}");
        assert_eq!(rt; firsts_of(&mut space.port(1)), firsts, "{act:?}");
    }
}

#[test]
fn a_shared_host_has_each_byte_in_its_place(rt: HostRuntime) -> Result<(), Fail> {
    match SharedHost::make(rt.alloc(), 2) {
        Ok(host) => flip_shared(&rt, &&host),
        Err(_) => return Err("memory".into()),
    }
    Ok(())
}

fn flip_shared<R: Abort, H: HostSpace>(rt: &R, space: &H) {
    write_to(space, 1, &marked(7));
    assert!(rt; read_from(space, 1) == marked(7), "as it was put");
    space.hand().flip(1, 8 * 7 + 1);
    assert!(rt;
        read_from(space, 1) == marked(5),
        "a bit of the eighth byte"
    );
    space.hand().flip(1, BLOCK_BITS - 1);
    assert_eq!(rt; read_from(space, 1)[BLOCK_BYTES - 1], 0x89, "the last bit");
    assert_eq!(rt; read_from(space, 0)[0], 0, "the place beside");
}

// A block with this byte behind the seven first ones, then 8, and 9 at its end.
fn marked(byte: u8) -> [u8; BLOCK_BYTES] {
    let mut block = [0; BLOCK_BYTES];
    block[7] = byte;
    block[8] = 8;
    block[BLOCK_BYTES - 1] = 9;
    block
}

#[test]
fn a_tap_copies_and_names_what_failed(rt: HostRuntime) -> Result<(), Fail> {
    let Ok(mut host) = ToldHost::make(rt.alloc(), 4) else {
        return Err("memory".into());
    };
    host.put(0, &[5; BLOCK_BYTES]);
    host.put(3, &[6; BLOCK_BYTES]);
    match Tap::make(rt.alloc(), host) {
        Ok(mut tap) => use_tap(&rt, &mut tap),
        Err(_) => return Err("memory".into()),
    }
    Ok(())
}

fn use_tap<R: Abort, P: HostPort>(rt: &R, tap: &mut Tap<P>) {
    fetch_two(tap, 3, 0);
    assert!(rt; is_all(tap.block(0), 6) && is_all(tap.block(1), 5));
    name_the_last(rt, tap);
    store_and_fetch(rt, tap);
}

fn is_all(bytes: &[u8], byte: u8) -> bool {
    bytes.iter().all(|one| *one == byte)
}

fn has_failed<P: HostPort>(tap: &Tap<P>, byte: u8) -> bool {
    tap.failed().is_some_and(|block| is_all(block, byte))
}

// What is named is named last, as it came, until it is lent.
fn name_the_last<R: Abort, P: HostPort>(rt: &R, tap: &mut Tap<P>) {
    tap.begin();
    tap.fetch(0, 2);
    tap.fetch(3, 1);
    assert!(rt; tap.failed().is_none(), "nothing is named");
    tap.fail(2);
    tap.fail(1);
    assert!(rt; has_failed(tap, 6), "named last");
    tap.block_mut(2).fill(9);
    assert!(rt; has_failed(tap, 6), "another was lent");
    tap.block_mut(1).fill(7);
    assert!(rt; tap.failed().is_none(), "it was lent");
}

fn store_and_fetch<R: Abort, P: HostPort>(rt: &R, tap: &mut Tap<P>) {
    tap.begin();
    tap.block_mut(2).fill(9);
    tap.store(1, 2);
    tap.begin();
    tap.fetch(1, 0);
    assert!(rt; is_all(tap.block(0), 9), "stored");
}
