// The replies of commands that the memory refused.
ghost use Rattle.std.specs.Prelude.{◌≡◌};
ghost use Rattle.eleos_base.specs.SubMemory.{IsReadFault, IsWriteFault};
ghost use Rattle.eleos_shard.specs.Steps.{IsSetRefusal, get_refusal, set_refusal, write_refusal};

use crate::KvReply;
use eleos_base::AccessRefused;
use eleos_sslab::SlabRefused;

/// The reply of a get whose read was refused.
pub(crate) fn get_refusal(why: AccessRefused) -> KvReply
    requires { IsReadFault why }
    ensures { result ≡ get_refusal why }
{
    match why {
        AccessRefused::Tampered { sub } => KvReply::Tampered { sub },
        _ => unreachable!(),
    }
}

/// The reply of a set whose write was refused.
fn write_refusal(why: AccessRefused) -> KvReply
    requires { IsWriteFault why }
    ensures { result ≡ write_refusal why }
{
    match why {
        AccessRefused::Worn { sub } => KvReply::Worn { sub },
        AccessRefused::Tampered { sub } => KvReply::Tampered { sub },
        _ => unreachable!(),
    }
}

/// The reply of a set that the slab refused.
pub(crate) fn set_refusal(why: SlabRefused) -> KvReply
    requires { IsSetRefusal why }
    ensures { result ≡ set_refusal why }
{
    match why {
        SlabRefused::NoSpace => KvReply::NoSpace,
        SlabRefused::Access(why) => write_refusal(why),
        _ => unreachable!(),
    }
}
