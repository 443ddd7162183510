//! A caller and its rounds.
ghost use Rattle.run_bench.specs.Callers.{IsReady};

use eleos_alloc::{alloc, free};
use eleos_base::{Addr, NoMemory, SUB_BYTES};
use eleos_direct::{read, write};
use eleos_gcm::Gcm;
use eleos_host::{HostSpace, SharedHost, SharedPort, Tap};
use eleos_machine::{Machine, Pass};
use std::alloc::Global;
use std::marker::Model;
use std::sync::Wait;

/// The bytes of one access.
type Text = [u8; 8];

/// What a sub-page has that was never written.
const BLANK: Text = [0; 8];

/// What is written to a sub-page that is read only.
const WRITTEN: Text = [1; 8];

/// What a caller does in each round. No other caller uses its enclave. It reads and writes the
/// first
/// 8 bytes there.
#[derive(Clone, Copy, Debug, PartialEq, Eq)]
pub enum Call {
    /// Reads from a sub-page that was never written, which opens no block.
    ReadBlank,
    /// Reads from a sub-page that is sealed.
    ReadSealed,
    /// Writes to a sub-page that is sealed, and reads that back.
    WriteAndRead,
    /// Allocates a block of one sub-page, and frees it.
    AllocAndFree,
}

/// A caller of a machine, with its pass, which has no turn, and its way to the host.
#[derive(Drop)]
pub struct Caller<'a> {
    machine: &'a Machine<Gcm>,
    pass: Pass,
    tap: Tap<SharedPort<'a>>,
    at: Addr,
}

impl<'a> Model for Caller<'a> {
    ghost use Rattle.eleos_machine.specs.Machines.{Site};
    ghost use Rattle.run_bench.specs.Callers.{IsReady};

    ghost Value = { Site };

    ghost view = { λ c. c.machine.now };

    ghost invariant = { λ c. IsReady c.machine.now c.pass };
}

impl<'a> Caller<'a> {
    /// A caller that has this pass, in the enclave of this number.
    pub fn make(
        alloc: Global,
        machine: &'a Machine<Gcm>,
        host: &'a SharedHost,
        pass: Pass,
        enclave: u16,
    ) -> Result<Caller<'a>, NoMemory>
        requires { IsReady machine.now pass }
    {
        let tap = Tap::make(alloc, host.port(pass.who()))?;
        Ok(Caller {
            machine,
            pass,
            tap,
            at: Addr { enclave, at: 0 },
        })
    }

    /// Makes the rounds, and answers how many there were before the first that was refused or
    /// answered
    /// otherwise than it should.
    pub fn make_rounds<R: Wait>(&mut self, rt: &R, call: Call, rounds: u64) -> u64 {
        match call {
            Call::ReadBlank => self.read_rounds(rt, BLANK, rounds),
            Call::ReadSealed => self.sealed_rounds(rt, rounds),
            Call::WriteAndRead => self.write_rounds(rt, rounds),
            Call::AllocAndFree => self.block_rounds(rt, rounds),
        }
    }

    // Reads the same text in each round.
    fn read_rounds<R: Wait>(&mut self, rt: &R, text: Text, rounds: u64) -> u64 {
        for round in 0..rounds {
            if self.reads(rt) != Some(text) {
                return round;
            }
        }
        rounds
    }

    // Writes a text, and reads it in each round.
    fn sealed_rounds<R: Wait>(&mut self, rt: &R, rounds: u64) -> u64 {
        if !self.writes(rt, WRITTEN) {
            return 0;
        }
        self.read_rounds(rt, WRITTEN, rounds)
    }

    // Writes another text in each round, and reads it back.
    fn write_rounds<R: Wait>(&mut self, rt: &R, rounds: u64) -> u64 {
        for round in 0..rounds {
            let text = round.to_le_bytes();
            if !self.writes(rt, text) || self.reads(rt) != Some(text) {
                return round;
            }
        }
        rounds
    }

    // Allocates a block and frees it, in each round.
    fn block_rounds<R: Wait>(&mut self, rt: &R, rounds: u64) -> u64 {
        for round in 0..rounds {
            let Some(at) = self.allocs(rt) else {
                return round;
            };
            if !self.frees(rt, at) {
                return round;
            }
        }
        rounds
    }

    // What is read, if it is served.
    fn reads<R: Wait>(&mut self, rt: &R) -> Option<Text> {
        if self.pass.left() == 0 {
            return None;
        }
        let mut text = [0; 8];
        read(
            rt,
            self.machine,
            &mut self.pass,
            &mut self.tap,
            self.at,
            &mut text,
        )
        .ok()?;
        Some(text)
    }

    // Whether the write was done.
    fn writes<R: Wait>(&mut self, rt: &R, text: Text) -> bool {
        if self.pass.left() == 0 {
            return false;
        }
        write(
            rt,
            self.machine,
            &mut self.pass,
            &mut self.tap,
            self.at,
            &text,
        )
        .is_ok()
    }

    // Where the block lies, if there is one.
    fn allocs<R: Wait>(&mut self, rt: &R) -> Option<Addr> {
        if self.pass.left() == 0 {
            return None;
        }
        alloc(rt, self.machine, &mut self.pass, SUB_BYTES).ok()
    }

    // Whether the block was freed.
    fn frees<R: Wait>(&mut self, rt: &R, at: Addr) -> bool {
        if self.pass.left() == 0 {
            return false;
        }
        free(rt, self.machine, &mut self.pass, at).is_ok()
    }
}
