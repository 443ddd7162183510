//! Arrays of numbers in any memory with one owner.
#![tactic(auto)]

mod array;

pub use array::{ITEM_BYTES, MOST_ITEMS, SArray, Stopped};
