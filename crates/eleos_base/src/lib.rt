//! What all crates share: calls on memory with their replies, plans, and where bytes come from and
//! go to.
#![tactic(auto)]

mod gate;
mod geometry;
pub mod laws;
mod list;
mod memory;
mod outside;
mod plan;
mod plot;
mod refusals;
mod rooms;
mod sealer;
mod sizes;
mod status;
mod streams;
mod sub_memory;
mod told;
mod word;

pub use gate::Gate;
pub use geometry::first_page;
pub use list::{Bytes, List};
pub use memory::{Addr, Live, Looked, NoMemory, Op, Part, Reply};
pub use outside::{Failed, Sink, Source};
pub use plan::{BlockPlan, EnclavePlan, Plan};
pub use plot::{Base, Event, Plot, Tied};
pub use refusals::{AccessRefused, AllocRefused, BlockRefused};
pub use rooms::{free_behind, less_block, subs_for};
pub use sealer::{LONGEST_SEALED, Sealer};
pub use sizes::{
    MOST_BLOCK_BYTES, MOST_CALLERS, MOST_ENCLAVES, MOST_FRAMES, MOST_HEADER_BLOCKS, MOST_PAGES,
    MOST_PAGES_IN_ALL, MOST_WEAR, MOST_WRITTEN, PAGE_BYTES, SUB_BYTES, SUBS_PER_PAGE,
};
pub use status::Status;
pub use streams::{StdSink, StdSource};
pub use sub_memory::SubMemory;
pub use told::{FreeSink, FreeSource, ListSink, ListSource};
pub use word::{BUSY, CellWord, PIN, REF};
