// What is kept of a sub-page, and how it is sealed and opened.
ghost use Rattle.std.specs.Prelude.{◌≡◌, ◌↔◌, ◌+◌, ◌^◌, ◌<◌, ◌≤◌, [], length, IsTrue, IsFalse};
ghost use Rattle.std.specs.Prelude.{IsSome, Some};
ghost use Rattle.std.specs.Bool.{OnTrue, OnFalse};
ghost use Rattle.eleos_core.specs.Seals.{nonce_of, seals_by};

use eleos_base::{LONGEST_SEALED, Live, Sealer};

/// What is kept of a sub-page beside its bytes.
#[derive(Clone, Copy, Debug, PartialEq, Eq)]
pub struct SubPage {
    /// The live block that it lies in.
    pub block: Option<Live>,
    /// How often it was sealed.
    pub version: u64,
    /// The tag of its last sealing, where it lies sealed with the host.
    pub tag: Option<[u8; 16]>,
    /// A write to it is not sealed yet.
    pub is_dirty: bool,
}

impl SubPage {
    /// In no block, and never sealed.
    pub const BLANK: SubPage = SubPage {
        block: None,
        version: 0,
        tag: None,
        is_dirty: false,
    };

    /// Seals its text at the next version.
    pub fn seal<S: Sealer>(&mut self, sealer: &S, place: u32, text: &mut [u8])
        requires room { self.old.version + 1 < 2 ^ 64 }
        requires fits { length text.old ≤ LONGEST_SEALED }
        ensures text { text.new
            ≡ (seals_by (S.key sealer.now)).seal place (self.old.version + 1) text.old }
        ensures tag { self.new.tag
            ≡ Some ((seals_by (S.key sealer.now)).tag place (self.old.version + 1) text.new) }
        ensures version { self.new.version ≡ self.old.version + 1 }
        ensures clean { IsFalse self.new.is_dirty }
        ensures block { self.new.block ≡ self.old.block }
    {
        self.version += 1;
        self.tag = Some(sealer.seal(&nonce(place, self.version), &[], text));
        self.is_dirty = false;
    }

    /// Opens a block that has the tag of the last sealing, and leaves any other as it is.
    #[tactic(auto, using(crate::proofs::Sealing::opened_is))]
    pub fn open<S: Sealer>(&self, sealer: &S, place: u32, block: &mut [u8]) -> bool
        requires sealed { IsSome self.now.tag }
        requires fits { length block.old ≤ LONGEST_SEALED }
        ensures passes { IsTrue result
            ↔ (Some ((seals_by (S.key sealer.now)).tag place self.now.version block.old)
            ≡ self.now.tag) }
        ensures opened { OnTrue result
            (block.new ≡ (seals_by (S.key sealer.now)).unseal place self.now.version block.old) }
        ensures kept { OnFalse result (block.new ≡ block.old) }
    {
        match &self.tag {
            Some(tag) => sealer.unseal(&nonce(place, self.version), &[], block, tag),
            None => false,
        }
    }
}

/// The nonce of a sealing of the place at the version.
#[tactic(auto, unfolding(crate::specs::Seals::nonce_of))]
pub fn nonce(place: u32, version: u64) -> [u8; 12]
    ensures { result ≡ nonce_of place version }
{
    let mut nonce = [0; 12];
    nonce[..4].copy_from_slice(&place.to_be_bytes());
    nonce[4..].copy_from_slice(&version.to_be_bytes());
    nonce
}
