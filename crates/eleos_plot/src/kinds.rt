// What a draft keeps of an event and of a reply beside their bytes and their sweep.

ghost use Rattle.std.specs.Prelude.{◌≡◌, []};

use crate::refs::{EventOf, EventRef, OpOf, OpRef, ReplyOf, ReplyRef, WantedOf, WantedRef};

pub(crate) type OpKind = OpOf<()>;

pub(crate) type WantedKind = WantedOf<()>;

pub(crate) type EventKind = EventOf<()>;

pub(crate) type ReplyKind = ReplyOf<()>;

impl<'a> OpRef<'a> {
    ghost use Rattle.eleos_plot.specs.Drafts.{op_with};
    ghost use Rattle.eleos_plot.specs.Refs.{op_bytes, op_of};

    pub(crate) fn kind(self) -> OpKind
        ensures { op_with (op_bytes self.entry) result ≡ op_of self.entry }
    {
        match self {
            OpRef::Alloc { bytes } => OpKind::Alloc { bytes },
            OpRef::Free { at } => OpKind::Free { at },
            OpRef::Share { at } => OpKind::Share { at },
            OpRef::Read { at, len } => OpKind::Read { at, len },
            OpRef::Write { at, bytes: _ } => OpKind::Write { at, bytes: () },
        }
    }

    // The bytes that it writes.
    pub(crate) fn bytes(self) -> &'a [u8]
        ensures { result.now ≡ op_bytes self.entry }
    {
        match self {
            OpRef::Write { at: _, bytes } => bytes,
            _ => &[],
        }
    }
}

impl<'a> WantedRef<'a> {
    ghost use Rattle.eleos_plot.specs.Drafts.{wanted_with};
    ghost use Rattle.eleos_plot.specs.Refs.{wanted_bytes, wanted_of};

    pub(crate) fn kind(self) -> WantedKind
        ensures { wanted_with (wanted_bytes self.entry) result ≡ wanted_of self.entry }
    {
        match self {
            WantedRef::Link { at } => WantedKind::Link { at },
            WantedRef::Op(op) => WantedKind::Op(op.kind()),
        }
    }

    pub(crate) fn bytes(self) -> &'a [u8]
        ensures { result.now ≡ wanted_bytes self.entry }
    {
        match self {
            WantedRef::Op(op) => op.bytes(),
            WantedRef::Link { at: _ } => &[],
        }
    }
}

impl<'a> EventRef<'a> {
    ghost use Rattle.eleos_plot.specs.Drafts.{event_with};
    ghost use Rattle.eleos_plot.specs.Refs.{event_bytes, event_of};

    pub(crate) fn kind(self) -> EventKind
        ensures { event_with (event_bytes self.entry) [] result ≡ event_of self.entry }
    {
        match self {
            EventRef::Op(op) => EventKind::Op(op.kind()),
            EventRef::Link { at } => EventKind::Link { at },
            EventRef::Unlink { page } => EventKind::Unlink { page },
            EventRef::Fill { page, frame } => EventKind::Fill { page, frame },
            EventRef::Evict { page, frame } => EventKind::Evict { page, frame },
            EventRef::Move { frame, from, to } => EventKind::Move { frame, from, to },
            EventRef::Starved { wanted } => EventKind::Starved {
                wanted: wanted.kind(),
            },
            EventRef::Spoiled { wanted } => EventKind::Spoiled {
                wanted: wanted.kind(),
            },
            EventRef::Survey { enclave, goal } => EventKind::Survey { enclave, goal },
        }
    }

    // The bytes that it writes or wants to write.
    pub(crate) fn bytes(self) -> &'a [u8]
        ensures { result.now ≡ event_bytes self.entry }
    {
        match self {
            EventRef::Op(op) => op.bytes(),
            EventRef::Starved { wanted } | EventRef::Spoiled { wanted } => wanted.bytes(),
            _ => &[],
        }
    }
}

impl<'a> ReplyRef<'a> {
    ghost use Rattle.eleos_plot.specs.Drafts.{reply_with};
    ghost use Rattle.eleos_plot.specs.Refs.{reply_bytes, reply_of};

    pub(crate) fn kind(self) -> ReplyKind
        ensures { reply_with (reply_bytes self.entry) [] result ≡ reply_of self.entry }
    {
        match self {
            ReplyRef::Got(at) => ReplyKind::Got(at),
            ReplyRef::Done => ReplyKind::Done,
            ReplyRef::Text(_) => ReplyKind::Text(()),
            ReplyRef::BadSize => ReplyKind::BadSize,
            ReplyRef::NoSpace => ReplyKind::NoSpace,
            ReplyRef::NotABlock => ReplyKind::NotABlock,
            ReplyRef::BadRange => ReplyKind::BadRange,
            ReplyRef::Unallocated => ReplyKind::Unallocated,
            ReplyRef::NotYours { owner } => ReplyKind::NotYours { owner },
            ReplyRef::Worn { sub } => ReplyKind::Worn { sub },
            ReplyRef::NoFrame => ReplyKind::NoFrame,
            ReplyRef::Tampered { sub } => ReplyKind::Tampered { sub },
            ReplyRef::Enough { free } => ReplyKind::Enough { free },
            ReplyRef::Swept { free } => ReplyKind::Swept { free },
            ReplyRef::Reached { share } => ReplyKind::Reached { share },
            ReplyRef::Pinned { share } => ReplyKind::Pinned { share },
            ReplyRef::Short { share } => ReplyKind::Short { share },
        }
    }

    pub(crate) fn bytes(self) -> &'a [u8]
        ensures { result.now ≡ reply_bytes self.entry }
    {
        match self {
            ReplyRef::Text(bytes) => bytes,
            _ => &[],
        }
    }
}
