//! The machine that threads share: its cells in a turnstile, with the plan and the sealer, and the
//! passes by which threads work on it.
#![tactic(auto)]

mod cells;
mod closing;
mod drafts;
mod entering;
mod holding;
mod judging;
mod machine;
mod making;
mod notes;
mod numbers;
mod opening;
mod pass;
mod pointers;
mod sweeping;
mod turns;

pub use closing::{CloseRefused, CloseWhy};
pub use holding::{ClockTurn, FreeFrame, HeldPage, SolePage};
pub use judging::{PlanField, fault_of};
pub use machine::Machine;
pub use making::MakeRefused;
pub use numbers::{clock_cell, page_cell};
pub use pass::{Pass, RestPass};
pub use pointers::{MOST_POINTERS, Pointer, SpId};
