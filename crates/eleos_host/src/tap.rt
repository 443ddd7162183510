// The trusted copy buffers of one pass.
ghost use Rattle.std.specs.Prelude.{◌≡◌, ◌<◌, option_copied, IfOk, IfSome};
ghost use Rattle.std.specs.Borrow.{sem};
ghost use Rattle.eleos_host.specs.Blocks.{IsBlock};
ghost use Rattle.eleos_host.specs.Crossings.{none_yet};
ghost use Rattle.eleos_host.specs.Ports.{Gives, Takes};

use crate::block::{Block, ZEROS, copies};
use crate::slot::{SLOTS, SlotState};
use crate::{BLOCK_BYTES, HostPort};
use eleos_base::NoMemory;
use std::alloc::Global;
use std::marker::Model;

/// The trusted copy buffers of one pass.
/// They stand between the host's port and the calls that open and seal blocks.
/// A block is copied once from the host, and only the copy is looked at.
#[derive(Drop)]
pub struct Tap<P> {
    port: P,
    /// For contracts alone: a call that begins once has one more afterwards.
    begins: u64,
    blocks: Vec<Block>,
    states: [SlotState; SLOTS],
    failed: Option<usize>,
}

impl<P> Model for Tap<P> {
    ghost use Rattle.eleos_host.specs.Taps.{TapState};

    ghost Value = { TapState P };

    ghost use Rattle.eleos_host.specs.TapParts.{tap_of, IsTap};

    ghost view = { tap_of };

    ghost invariant = { IsTap };
}

impl<P: HostPort> Tap<P> {
    ghost use Rattle.eleos_host.specs.Taps.{new_tap, block_of, HasSlots, IsIdle, IsAsItCame};
    ghost use Rattle.eleos_host.specs.Taps.{with_port, begun, with_fetched, loosened, with_failed};
    ghost use Rattle.eleos_host.specs.Taps.{failed_block};
    ghost use Rattle.eleos_host.specs.Loans.{LendsSlot};

    /// Takes the memory of all slots. On want of memory the port is dropped.
    #[tactic(auto, unfolding(crate::specs::Blocks::zero_block))]
    pub fn make(alloc: Global, port: P) -> Result<Tap<P>, NoMemory>
        ensures { IfOk result (λ tap. tap ≡ new_tap port) }
    {
        Ok(Tap {
            port,
            begins: 0,
            blocks: copies(alloc, SLOTS as u32, ZEROS)?,
            states: [SlotState::Idle; SLOTS],
            failed: None,
        })
    }

    /// Begins the port's lists anew, and forgets what was fetched and what failed.
    pub fn begin(&mut self)
        ensures given { P.given self.new.port ≡ none_yet }
        ensures taken { P.taken self.new.port ≡ none_yet }
        ensures store { P.store self.new.port ≡ P.store self.old.port }
        ensures places { P.places self.new.port ≡ P.places self.old.port }
        ensures tap { self.new ≡ begun self.old self.new.port }
        ensures slots { HasSlots self.new }
    {
        self.port.begin();
        self.begins = self.begins.wrapping_add(1);
        self.states = [SlotState::Idle; SLOTS];
        self.failed = None;
    }

    /// Copies a block for the place from the host into the slot.
    pub fn fetch(&mut self, place: u32, slot: usize)
        requires slot { slot < SLOTS }
        requires once { IsIdle self.old slot }
        ensures port { Gives P.HostPort.own P.HostStore.own
            self.old.port self.new.port place (block_of self.new slot) }
        ensures whole { IsBlock (block_of self.new slot) }
        ensures tap { self.new ≡ with_fetched self.old slot self.new.port (block_of self.new slot) }
        ensures slots { HasSlots self.new }
    {
        self.port.get(place, &mut self.blocks[slot]);
        self.states[slot] = SlotState::AsItCame;
    }

    /// The bytes of the slot.
    pub fn block(&self, slot: usize) -> &[u8]
        requires { slot < SLOTS }
        ensures bytes { result.now ≡ block_of self.now slot }
        ensures whole { IsBlock result.now }
        ensures slots { HasSlots self.now }
    {
        &self.blocks[slot]
    }

    /// The bytes of the slot, to be written. What came is then no longer there as it came.
    pub fn block_mut(&mut self, slot: usize) -> &mut [u8]
        requires { slot < SLOTS }
        ensures* writes_back { sem 𝓛 (LendsSlot P.row self.entry slot result) }
        ensures bytes { result.now ≡ block_of self.old slot }
        ensures whole { IsBlock result.now }
        ensures slots { HasSlots self.old }
    {
        self.loosen(slot);
        // Where it is read as a slice, its length is known.
        prove!(self.block(slot).len() == BLOCK_BYTES);
        let block = &mut self.blocks[slot];
        block.as_mut_slice()
    }

    // What came is no longer taken to be there as it came.
    fn loosen(&mut self, slot: usize)
        requires { slot < SLOTS }
        ensures { self.new ≡ loosened self.old slot }
    {
        if self.failed == Some(slot) {
            self.failed = None;
        }
        if self.states[slot] == SlotState::AsItCame {
            self.states[slot] = SlotState::Lent;
        }
    }

    /// Puts the bytes of the slot to the place.
    pub fn store(&mut self, place: u32, slot: usize)
        requires { slot < SLOTS }
        ensures port { Takes P.HostPort.own P.HostStore.own
            self.old.port self.new.port place (block_of self.old slot) }
        ensures tap { self.new ≡ with_port self.old self.new.port }
        ensures slots { HasSlots self.new }
    {
        self.port.put(place, &self.blocks[slot]);
    }

    /// Says that the block in the slot did not pass.
    pub fn fail(&mut self, slot: usize)
        requires slot { slot < SLOTS }
        requires came { IsAsItCame self.old slot }
        ensures { self.new ≡ with_failed self.old slot }
    {
        self.failed = Some(slot);
    }

    /// The block, as it came, that `fail` named last since `begin`.
    /// None where it named none, or where the bytes of that slot were lent for writing afterwards.
    pub fn failed(&self) -> Option<&[u8]>
        ensures block { option_copied result ≡ failed_block self.now }
        ensures came { IfSome self.now.failed (IsAsItCame self.now) }
    {
        let slot = self.failed?;
        Some(&self.blocks[slot])
    }
}
