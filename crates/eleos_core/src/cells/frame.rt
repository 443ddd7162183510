// The cell of a frame.

/// What a frame is used for.
#[derive(Debug, Drop)]
pub enum Use {
    /// It holds no page, and its bytes are zero.
    Free { bytes: Vec<u8> },
    /// It holds the page, which has its bytes.
    Lent { page: u32 },
}

/// A frame: the enclave that owns it, none where it is in the pool, and its use.
#[derive(Debug, Drop)]
pub struct Frame {
    pub owner: Option<u16>,
    pub used: Use,
}
