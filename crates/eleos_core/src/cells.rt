// What the machine keeps in trusted memory, cell by cell.

mod alloc;
mod clock;
mod frame;
mod page;
mod sub_page;

pub use alloc::Alloc;
pub use clock::Clock;
pub use frame::{Frame, Use};
pub use page::{Page, Present};
pub use sub_page::{SubPage, nonce};
