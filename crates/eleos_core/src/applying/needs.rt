// Which blocks an event takes from the host.
ghost use Rattle.std.specs.Prelude.{◌≡◌, ◌<◌, ◌≤◌, ◌+◌, ◌++◌, ◌∷◌, ◌^◌, [], length, map};
ghost use Rattle.eleos_core.specs.Words.{AlwaysCovers, IsWithin, all_pages, needed, page_in};
ghost use Rattle.eleos_core.specs.Words.{part_with, sealed_from, sealed_places, subs_per_page};
ghost use Rattle.eleos_core.specs.Words.{taken_places, wanted_page, wanted_part};

use crate::sweeps::address_of;
use crate::{Core, Event, SubPage, Wanted, spot_of};
use eleos_base::SUBS_PER_PAGE;
use std::marker::Model;

/// The most places that an event takes blocks of: those of a page.
const MOST_PLACES: usize = 4;

/// At most four places.
#[derive(Debug, Drop)]
pub struct Places {
    count: usize,
    at: [u32; MOST_PLACES],
}

impl Model for Places {
    ghost use Rattle.std.specs.Prelude.{◌≤◌, List, ℕ, take};

    ghost Value = { List ℕ };

    ghost view = { λ p. take p.count p.at };

    ghost invariant = { λ p. p.count ≤ 4 };
}

impl Places {
    /// None.
    pub(crate) fn none() -> Self
        ensures { result ≡ [] }
    {
        Places {
            count: 0,
            at: [0; MOST_PLACES],
        }
    }

    pub fn as_slice(&self) -> &[u32]
        ensures { result.now ≡ self.now }
    {
        &self.at[..self.count]
    }

    /// One more at the end.
    fn push(&mut self, place: u32)
        requires { length self.old < 4 }
        ensures { self.new ≡ self.old ++ place ∷ [] }
    {
        self.at[self.count] = place;
        self.count += 1;
    }
}

/// The places of the sealed ones among a page's sub-pages, the first of which has the number
/// `first`.
fn sealed_among(subs: &[SubPage], first: u32) -> Places
    requires few { length subs.now ≤ subs_per_page }
    requires first { first + subs_per_page < 2 ^ 32 }
    ensures { result ≡ sealed_from first (map (λ u. part_with u []) subs.now) }
{
    let mut places = Places::none();
    for i in 0..subs.len() {
        if subs[i].tag.is_some() {
            places.push(first + i as u32);
        }
    }
    places
}

impl Core {
    /// The places whose blocks the event takes, in rising order.
    pub fn need(&self, who: u32, event: &Event) -> Places
        requires within { IsWithin self.now.plan who event.now }
        ensures places { result ≡ needed self.now who event.now }
        ensures covers { AlwaysCovers self.now who event.now result }
    {
        match event {
            Event::Op(_) => self.need_of_call(who, event),
            Event::Fill { page, .. } => self.need_of_page(*page),
            Event::Spoiled { wanted } => self.need_of_wanted(wanted),
            _ => Places::none(),
        }
    }

    /// That of a call, if it takes one.
    fn need_of_call(&self, who: u32, event: &Event) -> Places
        requires within { IsWithin self.now.plan who event.now }
        ensures { result ≡ taken_places self.now who event.now }
    {
        let mut places = Places::none();
        if let Some(place) = self.places_of_access(who, event) {
            places.push(place);
        }
        places
    }

    /// Those of a page's sealed sub-pages.
    fn need_of_page(&self, page: u32) -> Places
        requires { page < all_pages self.now.plan }
        ensures { result ≡ sealed_places page (page_in self.now page) }
    {
        let subs = &self.pages[page as usize].subs;
        sealed_among(subs, page * SUBS_PER_PAGE)
    }

    /// Those of the page of what is wanted, which may lie outside the machine.
    fn need_of_wanted(&self, wanted: &Wanted) -> Places
        ensures { result ≡ sealed_places (wanted_page self.now wanted.now)
            (wanted_part self.now wanted.now) }
    {
        let at = address_of(wanted);
        if at.enclave as usize >= self.plan.enclaves.len() {
            return Places::none();
        }
        let page = spot_of(&self.plan, at).page;
        if page as usize >= self.pages.len() {
            return Places::none();
        }
        self.need_of_page(page)
    }
}
