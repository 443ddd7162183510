// The frames of an owner, where one leaves and where one joins.
ghost use Rattle.std.specs.Prelude.{◌≡◌, ◌<◌, length};
ghost use Rattle.eleos_base.specs.declared.sizes.TheConstants.{MOST_FRAMES};
ghost use Rattle.eleos_balloon.specs.Lists.{hand_without, joined, left_by, place_of};

use eleos_machine::ClockTurn;
use eleos_plot::FrameList;

/// Takes the frame out of the list. The hand stays at the frame where it stood.
pub(crate) fn leave(clock: &mut ClockTurn, frame: u32)
    ensures { clock.new ≡ left_by frame clock.old }
{
    let place = place_of(&clock.clock, frame);
    clock.clock.leave(frame);
    clock.hand = hand_without(place, clock.clock.len(), clock.hand);
}

/// Puts the frame at the end of the list.
pub(crate) fn join(clock: &mut ClockTurn, frame: u32)
    requires room { length clock.old.clock < MOST_FRAMES }
    ensures { clock.new ≡ joined frame clock.old }
{
    clock.clock.join(frame);
}

/// The place of the frame in the list, the list's length where the frame is not there.
fn place_of(list: &FrameList, frame: u32) -> usize
    ensures { result ≡ place_of frame list.now }
{
    for place in 0..list.len() {
        if list.at(place) == frame {
            return place;
        }
    }
    list.len()
}

/// The hand after the frame at the place left a list, which then has `count` frames.
fn hand_without(place: usize, count: usize, hand: u32) -> u32
    ensures { result ≡ hand_without place count hand }
{
    let at = if place < hand as usize {
        hand - 1
    } else {
        hand
    };
    if (at as usize) < count { at } else { 0 }
}
