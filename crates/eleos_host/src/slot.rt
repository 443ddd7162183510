// The slots of a tap.

/// The slots of a tap, one for each sub-page of a page.
pub const SLOTS: usize = 4;

/// Where the bytes of a slot are from.
#[derive(Clone, Copy, Debug, PartialEq, Eq)]
pub enum SlotState {
    /// Nothing was fetched into the slot since `begin`.
    Idle,
    /// They are the block that was fetched, as it came.
    AsItCame,
    /// A block was fetched, and the bytes were lent for writing since.
    Lent,
}
