// The word of a cell that threads share.
ghost use Rattle.std.specs.Prelude.{◌≡◌, ◌↔◌, IsTrue};
ghost use Rattle.eleos_base.specs.Words.{IsReferenced, is_busy, is_taken, pins_in};

/// Set while somebody has the turn.
pub const BUSY: u64 = 1;
/// Set since the cell was touched.
pub const REF: u64 = 2;
/// One pin: the pins are counted in bits 8 to 39.
pub const PIN: u64 = 256;

/// The word of a cell, as a take or a look found it.
#[derive(Clone, Copy, Debug, PartialEq, Eq)]
pub struct CellWord {
    pub bits: u64,
}

impl CellWord {
    pub fn new(bits: u64) -> CellWord
        ensures { result.bits ≡ bits }
    {
        CellWord { bits }
    }

    /// Somebody had the turn.
    pub fn is_busy(self) -> bool
        ensures { result ≡ is_busy self.bits }
    {
        self.bits % 2 == BUSY
    }

    /// It was touched since the mark was cleared last.
    pub fn is_referenced(self) -> bool
        ensures { IsTrue result ↔ IsReferenced self.bits }
    {
        self.bits / REF % 2 == 1
    }

    /// The pins of all hands.
    pub fn pins(self) -> u32
        ensures { result ≡ pins_in self.bits }
    {
        (self.bits / PIN % (1 << 32)) as u32
    }

    /// Somebody had the turn, or there were pins.
    pub fn is_taken(self) -> bool
        ensures { result ≡ is_taken self.bits }
    {
        self.is_busy() || self.pins() > 0
    }
}
