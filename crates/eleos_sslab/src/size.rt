// The sizes of slots.
ghost use Rattle.std.specs.Prelude.{◌≡◌};

/// Bytes of the longest object.
pub const MOST_OBJECT_BYTES: usize = 512;

/// The bytes of each slot of a block.
#[derive(Clone, Copy, Debug, PartialEq, Eq)]
pub enum SlotSize {
    Bytes32,
    Bytes64,
    Bytes128,
    Bytes256,
    Bytes512,
}

impl SlotSize {
    ghost use Rattle.eleos_sslab.specs.Sizes.{size_for, slot_bytes, slot_count};

    /// The least that holds an object of so many bytes, 1 to 512.
    pub fn of(len: usize) -> Option<Self>
        ensures { result ≡ size_for len }
    {
        match len {
            0 => None,
            1..=32 => Some(SlotSize::Bytes32),
            33..=64 => Some(SlotSize::Bytes64),
            65..=128 => Some(SlotSize::Bytes128),
            129..=256 => Some(SlotSize::Bytes256),
            257..=MOST_OBJECT_BYTES => Some(SlotSize::Bytes512),
            _ => None,
        }
    }

    /// Bytes of a slot.
    pub fn bytes(self) -> u32
        ensures { result ≡ slot_bytes self }
    {
        match self {
            SlotSize::Bytes32 => 32,
            SlotSize::Bytes64 => 64,
            SlotSize::Bytes128 => 128,
            SlotSize::Bytes256 => 256,
            SlotSize::Bytes512 => 512,
        }
    }

    /// Slots of a block.
    pub fn slots(self) -> usize
        ensures { result ≡ slot_count self }
    {
        match self {
            SlotSize::Bytes32 => 32,
            SlotSize::Bytes64 => 16,
            SlotSize::Bytes128 => 8,
            SlotSize::Bytes256 => 4,
            SlotSize::Bytes512 => 2,
        }
    }
}
