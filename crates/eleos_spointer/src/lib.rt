//! Pointers that keep the page on which they stand in its frame while they are linked.
#![tactic(auto)]

mod access;
mod bringing;
mod letting;
mod links;
mod points;
mod reads;
mod refusing;
mod replies;
mod steps;
mod ties;
mod unlinks;
mod writes;

pub use links::{Linked, link, try_link};
pub use points::{TooManyLinks, copy, holds, linked, place, point};
pub use reads::{read, try_read};
pub use refusing::{LinkRefused, TryLinkRefused};
pub use steps::{OutOfBlock, step};
pub use unlinks::{drop_pointer, unlink};
pub use writes::{try_write, write};
