// A caller's pass at its machine, as a memory with one owner.
ghost use Rattle.std.specs.Prelude.{◌≡◌};
ghost use Rattle.eleos_machine.specs.Passes.{IsLawful};
ghost use Rattle.eleos_direct.specs.Desks.{IsAtDesk, IsExchanged, desk_state};

use crate::{read, write};
use eleos_alloc::{alloc, free};
use eleos_base::{AccessRefused, Addr, AllocRefused, BlockRefused, Sealer, SubMemory};
use eleos_host::{HostPort, Tap};
use eleos_machine::{Machine, Pass};
use std::marker::Model;
use std::sync::Wait;

/// What a desk was made with: its machine, the number of its pass, and which references to the
/// pass and to the tap it has. No value of it is made.
pub struct Origin {}

impl Model for Origin {
    ghost use Rattle.eleos_direct.specs.Desks.{DeskOrigin, no_desk};

    ghost Value = { DeskOrigin };

    ghost view = { λ _. no_desk };
}

/// A caller's pass at its machine, with the tap by which its calls reach the host: a memory whose
/// owner is the caller. Its calls are all calls of the pass, those before it was made too.
#[derive(Drop)]
pub struct Desk<'a, R: Wait, S: Sealer, P: HostPort> {
    rt: &'a R,
    machine: &'a Machine<S>,
    pass: &'a mut Pass,
    tap: &'a mut Tap<P>,
    ghost fits: { IsAtDesk machine.now pass.now },
    ghost exchanged: { IsExchanged P.gave P.took machine.now pass.now },
}

impl<'a, R: Wait, S: Sealer, P: HostPort> Desk<'a, R, S, P> {
    /// The desk of the pass, until the borrows end.
    pub fn of(
        rt: &'a R,
        machine: &'a Machine<S>,
        pass: &'a mut Pass,
        tap: &'a mut Tap<P>,
    ) -> Desk<'a, R, S, P>
        requires fits { IsAtDesk machine.now pass.old }
        requires exchanged { IsExchanged P.gave P.took machine.now pass.old }
        ensures { desk_state result.machine.now
            result.pass.now result.pass.ghost_name result.tap.ghost_name
            ≡ desk_state machine.now pass.old pass.entry.ghost_name tap.entry.ghost_name }
    {
        Desk {
            rt,
            machine,
            pass,
            tap,
        }
    }
}

impl<'a, R: Wait, S: Sealer, P: HostPort> SubMemory for Desk<'a, R, S, P> {
    type Origin = Origin;

    ghost state = { λ d. desk_state d.machine.now
        d.pass.now d.pass.ghost_name d.tap.ghost_name };

    fn alloc(&mut self, bytes: u32) -> Result<Addr, AllocRefused> {
        let answer = alloc(self.rt, self.machine, self.pass, bytes);
        lawful(self.pass);
        answer
    }

    fn free(&mut self, at: Addr) -> Result<(), BlockRefused> {
        let answer = free(self.rt, self.machine, self.pass, at);
        lawful(self.pass);
        answer
    }

    fn read(&mut self, at: Addr, buf: &mut [u8]) -> Result<(), AccessRefused> {
        let answer = read(self.rt, self.machine, self.pass, self.tap, at, buf);
        lawful(self.pass);
        answer
    }

    fn write(&mut self, at: Addr, bytes: &[u8]) -> Result<(), AccessRefused> {
        let answer = write(self.rt, self.machine, self.pass, self.tap, at, bytes);
        lawful(self.pass);
        answer
    }
}

/// What the pass has seen is a legal history of its machine.
fn lawful(pass: &Pass)
    ensures { IsLawful pass.now }
{
    let _left = pass.left();
}
