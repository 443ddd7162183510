// Blocks as numbers.
ghost use Rattle.std.specs.Prelude.{◌≡◌};
ghost use Rattle.eleos_base.specs.BlockField.{block_of, number_of};

/// A block as a number.
pub(crate) fn number_of(block: &[u8; 16]) -> u128
    ensures { result ≡ number_of block.now }
{
    u128::from_be_bytes(*block)
}

/// The block that is a number.
pub(crate) fn block_of(number: u128) -> [u8; 16]
    ensures { result ≡ block_of number }
{
    number.to_be_bytes()
}
