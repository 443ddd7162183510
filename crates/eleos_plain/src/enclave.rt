// The plain memory of one enclave.
ghost use Rattle.std.specs.Prelude.{◌≡◌, ◌≤◌, length, IfOk, OnOk, OnErr};
ghost use Rattle.eleos_base.specs.Plain.{access_refusal, blank, is_in_range, with_header_block};

use crate::blocks::{block_with, is_good_size, owned_block, share_block, use_refusal};
use crate::texts::Texts;
use eleos_base::{Addr, BlockPlan, Bytes, Live, NoMemory, Op, Reply, SUB_BYTES, subs_for};
use eleos_core::{add_block, lowest_run, remove_at};
use std::alloc::Global;
use std::marker::Model;

/// An enclave's live blocks, in rising order of start, and the bytes of each of its sub-pages.
#[derive(Drop)]
pub(crate) struct Enclave {
    blocks: Vec<Live>,
    texts: Texts,
}

impl Model for Enclave {
    ghost use Rattle.eleos_base.specs.Plain.{EnclaveMemory};

    ghost Value = { EnclaveMemory };

    ghost use Rattle.eleos_plain.specs.Enclaves.{IsEnclave};

    ghost view = { λ e. record { blocks = e.blocks.items; texts = e.texts } };

    ghost invariant = { λ e. IsEnclave e.blocks.items e.texts };
}

impl Enclave {
    ghost use Rattle.eleos_plain.specs.Enclaves.{Gives};

    /// So many sub-pages, none of them in a block.
    pub(crate) fn blank(alloc: Global, subs: u32) -> Result<Self, NoMemory>
        requires { subs ≤ 4096 }
        ensures { IfOk result (λ memory. memory ≡ blank 1024 subs) }
    {
        Ok(Enclave {
            blocks: Vec::new(alloc),
            texts: Texts::blank(alloc, subs)?,
        })
    }

    /// Puts a header block into the lowest free run, where there is one.
    pub(crate) fn open(&mut self, block: &BlockPlan) -> Result<(), NoMemory>
        requires { 1 ≤ block.now.bytes }
        ensures { OnOk result (self.new ≡ with_header_block 1024 self.old block.now) }
    {
        let len = subs_for(block.bytes);
        let Some(start) = lowest_run(&self.blocks, self.texts.count(), len) else {
            return Ok(());
        };
        add_block(
            &mut self.blocks,
            Live {
                start,
                len,
                owner: block.owner,
                is_shared: block.owner == 0,
            },
        )
    }

    /// Answers a call of a caller of this enclave. After want of memory nothing has changed.
    pub(crate) fn answer(
        &mut self,
        alloc: Global,
        enclave: u16,
        who: u32,
        op: &Op,
    ) -> Result<Reply, NoMemory>
        ensures gives { IfOk result (λ reply. Gives enclave who op.now self.old reply self.new) }
        ensures err { OnErr result (self.new ≡ self.old) }
    {
        match op {
            Op::Alloc { bytes } => self.alloc(enclave, who, *bytes),
            Op::Free { at } => Ok(self.free(enclave, who, *at)),
            Op::Share { at } => Ok(self.share(enclave, who, *at)),
            Op::Read { at, len } => self.read(alloc, enclave, who, *at, *len),
            Op::Write { at, bytes } => self.write(alloc, enclave, who, *at, bytes),
        }
    }

    /// Allocates a block of so many bytes in the lowest free run.
    fn alloc(&mut self, enclave: u16, who: u32, bytes: u32) -> Result<Reply, NoMemory>
        ensures gives { IfOk result (λ reply.
            Gives enclave who (Op.Alloc bytes) self.old reply self.new) }
        ensures err { OnErr result (self.new ≡ self.old) }
    {
        if !is_good_size(bytes) {
            return Ok(Reply::BadSize);
        }
        let len = subs_for(bytes);
        let Some(start) = lowest_run(&self.blocks, self.texts.count(), len) else {
            return Ok(Reply::NoSpace);
        };
        let block = Live {
            start,
            len,
            owner: who,
            is_shared: false,
        };
        add_block(&mut self.blocks, block)?;
        self.texts.clear(start, len);
        Ok(Reply::Got(Addr {
            enclave,
            at: start * SUB_BYTES,
        }))
    }

    /// Frees the caller's block that starts at the address.
    fn free(&mut self, enclave: u16, who: u32, at: Addr) -> Reply
        ensures { Gives enclave who (Op.Free at) self.old result self.new }
    {
        let block = match owned_block(&self.blocks, enclave, who, at) {
            Ok(block) => block,
            Err(refusal) => return refusal,
        };
        self.texts.clear(block.start, block.len);
        remove_at(&mut self.blocks, enclave, at);
        Reply::Done
    }

    /// Shares the caller's block that starts at the address with all callers of the enclave.
    fn share(&mut self, enclave: u16, who: u32, at: Addr) -> Reply
        ensures { Gives enclave who (Op.Share at) self.old result self.new }
    {
        if let Err(refusal) = owned_block(&self.blocks, enclave, who, at) {
            return refusal;
        }
        share_block(&mut self.blocks, enclave, at);
        Reply::Done
    }

    /// Reads within one sub-page.
    fn read(
        &self,
        alloc: Global,
        enclave: u16,
        who: u32,
        at: Addr,
        len: u32,
    ) -> Result<Reply, NoMemory>
        ensures { IfOk result (λ reply.
            Gives enclave who (Op.Read at len) self.now reply self.now) }
    {
        let len = len as usize;
        if let Some(refusal) = self.access_refusal(enclave, who, at, len) {
            return Ok(refusal);
        }
        let from = (at.at % SUB_BYTES) as usize;
        let text = self.texts.text(at.at / SUB_BYTES);
        let bytes = Vec::from_slice(alloc, &text[from..from + len])?;
        Ok(Reply::Text(Bytes::of(bytes)))
    }

    /// Writes within one sub-page.
    fn write(
        &mut self,
        alloc: Global,
        enclave: u16,
        who: u32,
        at: Addr,
        bytes: &Bytes,
    ) -> Result<Reply, NoMemory>
        ensures gives { IfOk result (λ reply.
            Gives enclave who (Op.Write at bytes.now) self.old reply self.new) }
        ensures err { OnErr result (self.new ≡ self.old) }
    {
        if let Some(refusal) = self.access_refusal(enclave, who, at, bytes.len()) {
            return Ok(refusal);
        }
        let from = (at.at % SUB_BYTES) as usize;
        self.texts
            .write(alloc, at.at / SUB_BYTES, from, bytes.as_slice())?;
        Ok(Reply::Done)
    }

    /// Why the caller may not access so many bytes at the address.
    fn access_refusal(&self, enclave: u16, who: u32, at: Addr, len: usize) -> Option<Reply>
        ensures { result ≡ access_refusal 1024 enclave self.now.blocks (length self.now.texts)
            who at len }
    {
        if !self.is_in_range(enclave, at, len) {
            return Some(Reply::BadRange);
        }
        use_refusal(who, block_with(&self.blocks, at.at / SUB_BYTES))
    }

    /// So many bytes from the address on lie in one sub-page of this enclave.
    fn is_in_range(&self, enclave: u16, at: Addr, len: usize) -> bool
        ensures { result ≡ is_in_range 1024 enclave (length self.now.texts) at len }
    {
        let size = SUB_BYTES as usize;
        let offset = at.at as usize;
        at.enclave == enclave
            && 1 <= len
            && len <= size
            && offset % size + len <= size
            && offset + len <= size * self.texts.count() as usize
    }
}
