// The plain memory of a machine.
ghost use Rattle.std.specs.Prelude.{◌≡◌, ◌<◌, length, IfOk, OnErr};
ghost use Rattle.eleos_base.specs.Plain.{memory_of, opening, plain_after, plain_reply};
ghost use Rattle.eleos_base.specs.Plans.{IsCaller, IsGood};

use crate::enclave::Enclave;
use eleos_base::{NoMemory, Op, Plan, Reply};
use eleos_core::{enclave_of, subs_of};
use std::alloc::Global;
use std::marker::Model;

/// The memory of a machine without its frames, seals and host: for each enclave its live blocks, and
/// a map from sub-pages to the bytes that were written there.
#[derive(Drop)]
pub struct PlainMemory {
    plan: Plan,
    enclaves: Vec<Enclave>,
}

impl Model for PlainMemory {
    ghost use Rattle.eleos_plain.specs.Memory.{Memory};

    ghost Value = { Memory };

    ghost use Rattle.eleos_plain.specs.Memory.{IsMemory};

    ghost view = { λ m. record { plan = m.plan; plain = m.enclaves.items } };

    ghost invariant = { λ m. IsMemory m.plan m.enclaves.items };
}

impl PlainMemory {
    /// The memory of a plan before the first call, with its header blocks. A header block for which
    /// there is no room is left out.
    ///
    /// # Errors
    /// Want of memory.
    pub fn make(alloc: Global, plan: &Plan) -> Result<Self, NoMemory>
        requires good { IsGood plan.now }
        ensures plan { IfOk result (λ memory. memory.plan ≡ plan.now) }
        ensures opening { IfOk result (λ memory. memory.plain ≡ opening plan.now) }
    {
        let mut enclaves = Vec::new(alloc);
        for enclave in 0..plan.enclaves.len() as u16 {
            enclaves.push(open_enclave(alloc, plan, enclave)?)?;
        }
        Ok(PlainMemory {
            plan: plan.copy(alloc)?,
            enclaves,
        })
    }

    /// Answers a caller's call, and makes the change that goes with the answer.
    ///
    /// # Errors
    /// Want of memory. Nothing has changed then.
    pub fn answer(&mut self, alloc: Global, who: u32, op: &Op) -> Result<Reply, NoMemory>
        requires caller { IsCaller self.old.plan who }
        ensures plan { self.new.plan ≡ self.old.plan }
        ensures reply { IfOk result (λ reply.
            reply ≡ plain_reply self.old.plan self.old.plain who op.now) }
        ensures after { IfOk result (λ reply.
            self.new.plain ≡ plain_after self.old.plan who op.now reply self.old.plain) }
        ensures err { OnErr result (self.new.plain ≡ self.old.plain) }
    {
        let enclave = enclave_of(&self.plan, who);
        self.enclaves[enclave as usize].answer(alloc, enclave, who, op)
    }
}

/// An enclave's memory before the first call.
fn open_enclave(alloc: Global, plan: &Plan, enclave: u16) -> Result<Enclave, NoMemory>
    requires good { IsGood plan.now }
    requires enclave { enclave < length plan.now.enclaves }
    ensures { IfOk result (λ memory. memory ≡ memory_of (opening plan.now) enclave) }
{
    let mut memory = Enclave::blank(alloc, subs_of(plan, enclave))?;
    for block in plan.blocks.as_slice() {
        if block.enclave == enclave {
            memory.open(block)?;
        }
    }
    Ok(memory)
}
