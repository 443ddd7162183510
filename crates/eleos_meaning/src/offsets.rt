// Addresses with an offset.
ghost use Rattle.std.specs.Prelude.{◌≡◌};
ghost use Rattle.eleos_meaning.specs.Calls.{at_offset};

use eleos_base::Addr;

/// The address so many bytes on. It stops at the last number of 32 bits.
pub fn at_offset(at: Addr, offset: u32) -> Addr
    ensures { result ≡ at_offset at offset }
{
    Addr {
        enclave: at.enclave,
        at: at.at.saturating_add(offset),
    }
}
