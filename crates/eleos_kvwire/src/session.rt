// A session that is fed in pieces.

use crate::KvTrace;
use crate::reader::Reader;
use eleos_base::NoMemory;
use eleos_texts::TraceRefused;
use std::alloc::Global;

/// A session of which pieces have come. It is judged as its bytes come; its first refusal stands.
#[derive(Debug, Drop)]
pub struct Session {
    alloc: Global,
    reader: Reader,
    refused: Option<TraceRefused>,
}

impl Session {
    ghost use Rattle.std.specs.Prelude.{◌≡◌, ◌++◌, [], ℕ, List, Some, None, Err, IfOk, IfErr};
    ghost use Rattle.eleos_texts.specs.declared.why.TraceRefused.{TraceRefused};
    ghost use Rattle.eleos_texts.specs.Reasons.{Gives, Fails};
    ghost use Rattle.eleos_kvwire.specs.Reading.{first_refusal, session_of};
    ghost use Rattle.eleos_kvwire.specs.Sessions.{IsSession};
    ghost use Rattle.eleos_kvwire.specs.Feeding.{WasFed, Judges, answered, refusal_of};

    /// Before the first byte.
    ///
    /// # Errors
    /// Want of memory.
    pub fn make(alloc: Global) -> Result<Session, NoMemory>
        ensures fed { IfOk result (λ session. WasFed [] session) }
        ensures fresh { IfOk result (λ session. refusal_of session ≡ None) }
    {
        Ok(Session {
            alloc,
            reader: Reader::start(alloc),
            refused: None,
        })
    }

    /// Takes the next bytes.
    ///
    /// # Errors
    /// The first refusal of all bytes so far, or want of memory; each later call answers the same.
    pub fn feed(&mut self, piece: &[u8]) -> Result<(), TraceRefused>
        ensures fed { (bytes : List ℕ) → WasFed bytes self.old
            → WasFed (bytes ++ piece.now) self.new }
        ensures exact { (bytes : List ℕ) → WasFed bytes self.old
            → Judges result (first_refusal (bytes ++ piece.now)) }

        // A refusal stands, whatever comes behind it.
        ensures stands { (bytes rest : List ℕ) → WasFed bytes self.old
            → IfErr result (λ e. Fails e (session_of (bytes ++ piece.now ++ rest))) }
        ensures again { (e : TraceRefused) → refusal_of self.old ≡ Some e → result ≡ Err e }
        ensures kept { refusal_of self.new ≡ answered result }
    {
        if let Some(refused) = self.refused {
            return Err(refused);
        }
        let fed = self.reader.feed(self.alloc, piece);
        self.refused = fed.err();
        fed
    }

    /// The session that all bytes together are.
    ///
    /// # Errors
    /// Their first refusal, or want of memory.
    pub fn finish(self) -> Result<KvTrace, TraceRefused>
        ensures exact { (bytes : List ℕ) → WasFed bytes self
            → Gives (λ trace. trace) result (session_of bytes) }
        ensures good { (bytes : List ℕ) → WasFed bytes self
            → IfOk result (λ trace. IsSession trace) }

        // A refusal stands.
        ensures again { (e : TraceRefused) → refusal_of self ≡ Some e → result ≡ Err e }
    {
        let Session {
            alloc,
            reader,
            refused,
        } = self;
        match refused {
            Some(refused) => Err(refused),
            None => reader.finish(alloc),
        }
    }
}
