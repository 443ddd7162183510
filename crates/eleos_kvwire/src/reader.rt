// A session's text byte by byte.
ghost use Rattle.std.specs.Prelude.{◌+◌, ◌≤◌};

use crate::commands::{Given, command_line};
use crate::header::Header;
use crate::stage::{HeaderLine, Stage};
use crate::{KvCommand, KvTrace};
use eleos_base::List;
use eleos_texts::{MOST_TEXT, TraceRefused, Why, at_line, is_end};
use std::alloc::Global;

/// What was read so far.
#[derive(Debug, Drop)]
pub(crate) struct Reader {
    /// What stands at this place.
    pub stage: Stage,
    /// What stands already in its line or its value.
    pub held: Vec<u8>,
    pub header: Header,
    /// The number of this line, from 1.
    pub line: u32,
    pub commands: Vec<KvCommand>,
    /// Bytes that were read.
    pub bytes: u32,
    pub ghost few: { bytes ≤ 16777216 },
    pub ghost lines: { line ≤ bytes + 1 },
}

impl Reader {
    ghost use Rattle.std.specs.Prelude.{◌≡◌, ◌≤◌, ◌+◌, ◌∷◌, ◌++◌, [], ℕ, List, length, OnOk, None};
    ghost use Rattle.std.specs.List.{slice_split};
    ghost use Rattle.eleos_texts.specs.declared.why.TraceRefused.TheVariants as refused;
    ghost use Rattle.eleos_texts.specs.Fields.{is_newline};
    ghost use Rattle.eleos_texts.specs.Reasons.{Gives};
    ghost use Rattle.eleos_kvwire.specs.declared.stage.Stage.TheVariants as stages;
    ghost use Rattle.eleos_kvwire.specs.Reading.{read_from, trace_in, refusal_in};
    ghost use Rattle.eleos_kvwire.specs.Feeding.{HasRead, text_with};
    ghost use Rattle.eleos_kvwire.specs.Steps.{GoesOn, Reaches, IsAtLine, IsAtValue};

    /// Before the first byte.
    pub(crate) fn start(alloc: Global) -> Self
        ensures { HasRead [] result }
    {
        Reader {
            stage: Stage::Header {
                due: HeaderLine::Title,
            },
            held: Vec::new(alloc),
            header: Header::nothing(alloc),
            line: 1,
            commands: Vec::new(alloc),
            bytes: 0,
        }
    }

    /// Reads the next bytes.
    pub(crate) fn feed(&mut self, alloc: Global, piece: &[u8]) -> Result<(), TraceRefused>
        ensures { (bytes : List ℕ) → HasRead bytes self.old
            → Reaches result (bytes ++ piece.now) self.new }
    {
        for byte in piece {
            self.take(alloc, *byte)?;
        }
        Ok(())
    }

    /// Reads the next byte, where there are not too many.
    fn take(&mut self, alloc: Global, byte: u8) -> Result<(), TraceRefused>
        ensures { (bytes : List ℕ) → HasRead bytes self.old
            → Reaches result (bytes ++ byte ∷ []) self.new }
    {
        if self.bytes == MOST_TEXT {
            return Err(TraceRefused::Bad {
                line: 0,
                why: Why::TooLarge,
            });
        }
        self.bytes += 1;
        self.read(alloc, byte)
    }

    /// Reads a byte, which is counted already.
    fn read(&mut self, alloc: Global, byte: u8) -> Result<(), TraceRefused>
        requires { self.old.line ≤ self.old.bytes }
        ensures goes_on { refusal_in (text_with self.old []) ≡ None → (rest : List ℕ)
            → GoesOn result (text_with self.old (byte ∷ rest)) (text_with self.new rest) }
        ensures not_bad { OnOk result (refusal_in (text_with self.new []) ≡ None) }
        ensures bytes { self.new.bytes ≡ self.old.bytes }
    {
        match &self.stage {
            Stage::End => Err(self.bad(Why::After)),
            Stage::Value { .. } => self.read_value(alloc, byte),
            Stage::Header { .. } | Stage::Command => self.read_line(alloc, byte),
        }
    }

    /// A byte of a line, or its newline.
    fn read_line(&mut self, alloc: Global, byte: u8) -> Result<(), TraceRefused>
        requires lines { self.old.line ≤ self.old.bytes }
        requires stage { IsAtLine self.old.stage }
        ensures goes_on { (rest : List ℕ) → GoesOn result
            (text_with self.old (byte ∷ rest)) (text_with self.new rest) }
        ensures not_bad { OnOk result (refusal_in (text_with self.new []) ≡ None) }
        ensures bytes { self.new.bytes ≡ self.old.bytes }
    {
        if byte != b'\n' {
            return Ok(self.held.push(byte)?);
        }
        match &self.stage {
            Stage::Header { due } => {
                let due = *due;
                self.end_header(alloc, due)
            }
            _ => self.end_command(alloc),
        }
    }

    /// The newline of a line of the header.
    fn end_header(&mut self, alloc: Global, due: HeaderLine) -> Result<(), TraceRefused>
        requires lines { self.old.line ≤ self.old.bytes }
        requires stage { self.old.stage ≡ stages.Header due }
        ensures goes_on { (rest : List ℕ) → GoesOn result
            (text_with self.old (10 ∷ rest)) (text_with self.new rest) }
        ensures not_bad { OnOk result (refusal_in (text_with self.new []) ≡ None) }
        ensures bytes { self.new.bytes ≡ self.old.bytes }
    {
        let read = self.header.read(alloc, due, &self.held);
        at_line(self.line, read)?;
        self.turn(due.next());
        Ok(())
    }

    /// The newline of a command, or of the last line.
    fn end_command(&mut self, alloc: Global) -> Result<(), TraceRefused>
        requires lines { self.old.line ≤ self.old.bytes }
        requires stage { self.old.stage ≡ stages.Command }
        ensures goes_on { (rest : List ℕ) → GoesOn result
            (text_with self.old (10 ∷ rest)) (text_with self.new rest) }
        ensures not_bad { OnOk result (refusal_in (text_with self.new []) ≡ None) }
        ensures bytes { self.new.bytes ≡ self.old.bytes }
    {
        if is_end(&self.held) {
            self.turn(Stage::End);
            return Ok(());
        }
        let before = self.count();
        let given = command_line(alloc, self.header.clients, before, &self.held);
        match at_line(self.line, given)? {
            Given::Whole { command } => {
                self.commands.push(command)?;
                self.turn(Stage::Command);
            }
            Given::Awaits { set } => self.turn(Stage::Value { set }),
        }
        Ok(())
    }

    /// A byte of a value, or the newline behind it.
    fn read_value(&mut self, alloc: Global, byte: u8) -> Result<(), TraceRefused>
        requires lines { self.old.line ≤ self.old.bytes }
        requires stage { IsAtValue self.old.stage }
        ensures goes_on { refusal_in (text_with self.old []) ≡ None → (rest : List ℕ)
            → GoesOn result (text_with self.old (byte ∷ rest)) (text_with self.new rest) }
        ensures not_bad { OnOk result (refusal_in (text_with self.new []) ≡ None) }
        ensures bytes { self.new.bytes ≡ self.old.bytes }
    {
        let filled = self.filled();
        let Stage::Value { set } = &self.stage else {
            unreachable!();
        };
        if filled < set.len as usize {
            return Ok(self.held.push(byte)?);
        }
        if byte != b'\n' {
            return Err(self.bad(Why::Form));
        }
        let command = set.with_value(alloc, &self.held)?;
        self.commands.push(command)?;
        self.turn(Stage::Command);
        Ok(())
    }

    /// To the next line, which has this stage.
    fn turn(&mut self, stage: Stage)
        requires { self.old.line ≤ self.old.bytes }
        ensures text { (rest : List ℕ) → text_with self.new rest
            ≡ read_from stage [] self.old.header (self.old.line + 1) self.old.commands.items
            (slice_split is_newline rest) }
        ensures bytes { self.new.bytes ≡ self.old.bytes }
    {
        self.stage = stage;
        self.held.clear();
        self.line += 1;
    }

    /// The session, where no more bytes come.
    pub(crate) fn finish(self, alloc: Global) -> Result<KvTrace, TraceRefused>
        ensures { refusal_in (text_with self []) ≡ None
            → Gives (λ trace. trace) result (trace_in (text_with self [])) }
    {
        if !self.stage.is_ended() {
            return Err(self.bad(Why::Cut));
        }
        let Reader {
            header,
            commands,
            ..
        } = self;
        let plan = header.plan(alloc)?;
        let Header {
            shards,
            clients,
            key,
            ..
        } = header;
        Ok(KvTrace {
            plan,
            key,
            shards,
            clients,
            commands: List::of(commands),
        })
    }

    /// The commands so far.
    fn count(&self) -> usize
        ensures { result ≡ length self.now.commands.items }
    {
        self.commands.len()
    }

    /// Bytes that stand already in this line or value.
    fn filled(&self) -> usize
        ensures { result ≡ length self.now.held.items }
    {
        self.held.len()
    }

    /// A refusal of this line.
    fn bad(&self, why: Why) -> TraceRefused
        ensures { result ≡ refused.Bad self.now.line why }
    {
        TraceRefused::Bad {
            line: self.line,
            why,
        }
    }
}
