// Which block an access takes from the host.
ghost use Rattle.std.specs.Prelude.{◌≡◌, [], option_to_list, if◌then◌else◌};
ghost use Rattle.eleos_core.specs.Words.{IsCaller, IsWithin, block_places, call_places, part_with};
ghost use Rattle.eleos_core.specs.Words.{taken_places};

use crate::accesses::refusals::is_worn;
use crate::{Core, Event, SubPage, spot_of};
use eleos_base::{Addr, Op};

impl Core {
    /// The place whose block the event takes as an access: that of a sealed sub-page of an absent
    /// page. There is none where the access is refused or worn.
    pub(crate) fn places_of_access(&self, who: u32, event: &Event) -> Option<u32>
        requires { IsWithin self.now.plan who event.now }
        ensures { option_to_list result ≡ taken_places self.now who event.now }
    {
        match event {
            Event::Op(Op::Read { at, len }) => self.place_of_read(who, *at, *len as usize),
            Event::Op(Op::Write { at, bytes }) => self.place_of_write(who, *at, bytes.as_slice()),
            _ => None,
        }
    }

    fn place_of_read(&self, who: u32, at: Addr, len: usize) -> Option<u32>
        requires { IsCaller self.now.plan who }
        ensures { option_to_list result ≡ call_places self.now who (Op.Read at len) }
    {
        let plan = &self.plan;
        if self.access_refusal(who, at, len).is_some() {
            return None;
        }
        let spot = spot_of(plan, at);
        let page = &self.pages[spot.page as usize];
        let sub = &page.subs[spot.index];
        place_to_open(page.present.is_some(), sub, spot.place)
    }

    fn place_of_write(&self, who: u32, at: Addr, bytes: &[u8]) -> Option<u32>
        requires { IsCaller self.now.plan who }
        ensures { option_to_list result ≡ call_places self.now who (Op.Write at bytes.now) }
    {
        let plan = &self.plan;
        if self.access_refusal(who, at, bytes.len()).is_some() {
            return None;
        }
        let spot = spot_of(plan, at);
        let page = &self.pages[spot.page as usize];
        let sub = &page.subs[spot.index];
        if is_worn(sub, plan.wear) {
            return None;
        }
        place_to_open(page.present.is_some(), sub, spot.place)
    }
}

/// The place of a sub-page, where it is sealed and its page is absent.
fn place_to_open(is_present: bool, sub: &SubPage, place: u32) -> Option<u32>
    ensures { option_to_list result
        ≡ (if is_present then [] else block_places place (part_with sub.now [])) }
{
    (!is_present && sub.tag.is_some()).then_some(place)
}
