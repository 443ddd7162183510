ghost use Rattle.std.specs.Prelude.{◌≤◌};

use eleos_base::Sealer;
use eleos_gcm::Gcm;

/// Whether a text of `len` bytes, none of which is 0, seals to another and unseals to itself.
fn seals_and_unseals(sealer: &Gcm, len: usize) -> bool
    requires { len ≤ 1024 }
{
    let mut bytes = [0x5a; 1024];
    let text = &mut bytes[..len];
    let tag = sealer.seal(&[7; 12], &[1, 2, 3], text);
    let is_changed = len == 0 || text.iter().any(|byte| *byte != 0x5a);
    let passes = sealer.unseal(&[7; 12], &[1, 2, 3], text, &tag);
    is_changed && passes && text.iter().all(|byte| *byte == 0x5a)
}

#[test]
fn seals_texts_of_many_lengths(rt: HostRuntime) {
    let Ok(sealer) = Gcm::new(&[3; 16]) else {
        return;
    };
    for len in [0, 1, 15, 16, 17, 63, 64, 65, 1024] {
        assert!(rt; seals_and_unseals(&sealer, len));
    }
}
