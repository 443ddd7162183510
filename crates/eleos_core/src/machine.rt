// The machine's cells, and the links on its pages.
ghost use Rattle.std.specs.Prelude.{◌≡◌};
ghost use Rattle.eleos_core.specs.declared.machine.ApplyRefused.TheVariants as refusals;
ghost use Rattle.eleos_core.specs.Cells.{IsCore, cells_of};

use crate::cells::{Alloc, Clock, Frame, Page};
use eleos_base::{Bytes, List, NoMemory, Part, Plan, Reply};
use std::marker::Model;

/// A block for the host, and its place there.
#[derive(Debug, Drop)]
pub struct Put {
    pub place: u32,
    pub block: Bytes,
}

/// What an event brought about: its answer, and the blocks for the host in rising order of place.
#[derive(Debug, Drop)]
pub struct Effect {
    pub reply: Reply,
    pub puts: List<Put>,
}

/// Why an event was not applied. Nothing has changed.
#[derive(Clone, Copy, Debug, PartialEq, Eq)]
pub enum ApplyRefused {
    /// No entry of the event is legal now.
    Illegal { part: Part },
    NoMemory,
}

impl From<NoMemory> for ApplyRefused {
    ghost from_gives = { λ _ refused. refused ≡ refusals.NoMemory };

    fn from(_: NoMemory) -> Self {
        ApplyRefused::NoMemory
    }
}

/// The state of a machine.
#[derive(Drop)]
pub struct Core {
    pub(crate) plan: Plan,
    /// Enclave by enclave.
    pub(crate) live: Vec<Alloc>,
    /// Enclave by enclave, and the pool's last.
    pub(crate) clocks: Vec<Clock>,
    pub(crate) pages: Vec<Page>,
    pub(crate) frames: Vec<Frame>,
    /// The links of each caller on each page: all pages of caller 1, then those of caller 2, and so
    /// on.
    pub(crate) links: Vec<u64>,
}

impl Model for Core {
    ghost use Rattle.eleos_core.specs.Cells.{Cells, cells_of, IsCore};

    ghost Value = { Cells };

    ghost view = { λ v. cells_of v.plan v.live.items v.clocks.items v.pages.items v.frames.items v.links.items };

    ghost invariant = { λ v. IsCore v.plan v.live.items v.clocks.items v.pages.items v.frames.items v.links.items };
}

/// The cells of a machine, for who keeps them in another way.
#[derive(Drop)]
pub struct CoreCells {
    /// Enclave by enclave.
    pub live: Vec<Alloc>,
    /// Enclave by enclave, and the pool's last.
    pub clocks: Vec<Clock>,
    pub pages: Vec<Page>,
    pub frames: Vec<Frame>,
}

impl Core {
    /// Takes the machine apart. The links are let go.
    pub fn into_cells(self) -> CoreCells
        ensures cells { cells_of self.plan result.live.items result.clocks.items
            result.pages.items result.frames.items self.links ≡ self }
        ensures core { IsCore self.plan result.live.items result.clocks.items
            result.pages.items result.frames.items self.links }
    {
        let Core {
            plan: _,
            live,
            clocks,
            pages,
            frames,
            links: _,
        } = self;
        CoreCells {
            live,
            clocks,
            pages,
            frames,
        }
    }
}
