// Links on pages, which keep them in their frames.
ghost use Rattle.std.specs.Prelude.{◌≡◌, ◌<◌, ◌≤◌, ◌+◌, ◌-◌, ◌*◌, [], nat_le, None, Some};
ghost use Rattle.std.specs.Prelude.{if◌then◌else◌};
ghost use Rattle.eleos_core.specs.Words.{IsCaller, Outcome, Seals, all_pages, links_in, may_link};

use crate::accesses::only_reply;
use crate::{ApplyRefused, Core, Effect, Event, spot_of};
use eleos_base::{Addr, Part, Reply};
use std::alloc::Global;

impl Core {
    /// What a link at the address offends against, where it is not legal: it is not refused, and
    /// the page is absent.
    pub(crate) fn link_offence(&self, who: u32, at: Addr) -> Option<Part>
        requires { IsCaller self.now.plan who }
        ensures { result ≡ (if may_link self.now who at then None else Some Part.Absent) }
    {
        let plan = &self.plan;
        if self.access_refusal(who, at, 1).is_some() {
            return None;
        }
        let page = &self.pages[spot_of(plan, at).page as usize];
        if page.present.is_some() {
            None
        } else {
            Some(Part::Absent)
        }
    }

    /// Links the page of the address once more for the caller, where that is legal. A caller that
    /// has 2^64 - 1 links of it gets want of memory, after which nothing has changed.
    pub(crate) fn apply_link(
        &mut self,
        alloc: Global,
        who: u32,
        at: Addr,
    ) -> Result<Effect, ApplyRefused>
        requires caller { IsCaller self.old.plan who }
        ensures { (x : Seals) → Outcome x self.old who (Event.Link at) [] result self.new }
    {
        if let Some(part) = self.link_offence(who, at) {
            return Err(ApplyRefused::Illegal { part });
        }
        if let Some(refusal) = self.access_refusal(who, at, 1) {
            return Ok(only_reply(alloc, refusal));
        }
        let page = spot_of(&self.plan, at).page;
        let place = link_place(self.pages.len(), who, page);
        let links = self.links[place];
        let Some(more) = links.checked_add(1) else {
            return Err(ApplyRefused::NoMemory);
        };
        self.links[place] = more;
        Ok(only_reply(alloc, Reply::Done))
    }

    /// What an unlink offends against, where it is not legal: the caller has no link of the page.
    pub(crate) fn unlink_offence(&self, who: u32, page: u32) -> Option<Part>
        requires caller { IsCaller self.now.plan who }
        requires page { page < all_pages self.now.plan }
        ensures { result
            ≡ (if nat_le 1 (links_in self.now who page) then None else Some Part.Untied) }
    {
        let place = link_place(self.pages.len(), who, page);
        if self.links[place] >= 1 {
            None
        } else {
            Some(Part::Untied)
        }
    }

    /// Takes one of the caller's links from the page, where there is one.
    pub(crate) fn apply_unlink(
        &mut self,
        alloc: Global,
        who: u32,
        page: u32,
    ) -> Result<Effect, ApplyRefused>
        requires caller { IsCaller self.old.plan who }
        requires page { page < all_pages self.old.plan }
        ensures { (x : Seals) → Outcome x self.old who (Event.Unlink page) [] result self.new }
    {
        if let Some(part) = self.unlink_offence(who, page) {
            return Err(ApplyRefused::Illegal { part });
        }
        let place = link_place(self.pages.len(), who, page);
        self.links[place] -= 1;
        Ok(only_reply(alloc, Reply::Done))
    }
}

/// Where the caller's links on the page are counted.
fn link_place(pages: usize, who: u32, page: u32) -> usize
    requires caller { 1 ≤ who }
    requires few { who ≤ 8 }
    requires pages { pages ≤ 4096 }
    ensures { result ≡ (who - 1) * pages + page }
{
    (who as usize - 1) * pages + page as usize
}
