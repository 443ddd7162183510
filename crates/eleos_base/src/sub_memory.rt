// Memory that others use through one trait.
ghost use Rattle.std.specs.Prelude.{◌≡◌, ◌≤◌, ◌<◌, ◌^◌, ◌↔◌, false, length};
ghost use Rattle.std.specs.Prelude.{IsOk, IfOk, IfErr, OnErr, Err};
ghost use Rattle.eleos_base.specs.declared.memory.Op.TheVariants as ops;
ghost use Rattle.eleos_base.specs.declared.refusals.AllocRefused.TheVariants as refusals;
ghost use Rattle.eleos_base.specs.declared.sizes.TheConstants.{MOST_WRITTEN, SUB_BYTES};
ghost use Rattle.eleos_base.specs.Answers.{alloc_reply, block_reply, read_reply, write_reply};
ghost use Rattle.eleos_base.specs.Own.{IsNew, IsOwnRange, IsOwnStart, block_of};
ghost use Rattle.eleos_base.specs.Plain.{is_good_size};
ghost use Rattle.eleos_base.specs.SubMemory.{MemoryState, HasCalled, owned};
ghost use Rattle.eleos_base.specs.SubMemory.{IsReadFault, IsWriteFault};

use crate::{AccessRefused, Addr, AllocRefused, BlockRefused};

/// A memory with one owner, whose blocks are private to it. Each call costs at most one of the
/// calls left. Sub-pages have 1,024 bytes.
pub trait SubMemory {
    /// What it was made with. No value of it is made.
    type Origin;

    // Its owner's calls, of which the private blocks and their bytes are functions.
    ghost state: { Self → MemoryState Self.Origin };

    /// Allocates a private block of zeros, in whole sub-pages.
    fn alloc(&mut self, bytes: u32) -> Result<Addr, AllocRefused>
        requires { 0 < (state self.old).left }
        ensures called { HasCalled (state self.old)
            (ops.Alloc bytes) (alloc_reply result) (state self.new) }
        ensures fresh { IfOk result (λ at. IsNew SUB_BYTES (owned (state self.old))
            (block_of SUB_BYTES at bytes)) }
        ensures sized { result ≡ Err refusals.BadSize ↔ (is_good_size bytes ≡ false) };

    /// Frees a block. The start of a private block is never refused.
    fn free(&mut self, at: Addr) -> Result<(), BlockRefused>
        requires { 0 < (state self.old).left }
        ensures called { HasCalled (state self.old)
            (ops.Free at) (block_reply result) (state self.new) }
        ensures own { IsOwnStart (owned (state self.old)) at → IsOk result };

    /// Reads within one sub-page.
    fn read(&mut self, at: Addr, buf: &mut [u8]) -> Result<(), AccessRefused>
        requires left { 0 < (state self.old).left }
        requires buffer { length buf.old < 2 ^ 32 }
        ensures called { HasCalled (state self.old)
            (ops.Read at (length buf.old)) (read_reply result buf.new) (state self.new) }
        ensures refused { OnErr result (buf.new ≡ buf.old) }
        ensures own { IsOwnRange SUB_BYTES (owned (state self.old)) at (length buf.old)
            → IfErr result IsReadFault };

    /// Writes within one sub-page.
    fn write(&mut self, at: Addr, bytes: &[u8]) -> Result<(), AccessRefused>
        requires left { 0 < (state self.old).left }
        requires bytes { length bytes.now ≤ MOST_WRITTEN }
        ensures called { HasCalled (state self.old)
            (ops.Write at bytes.now) (write_reply result) (state self.new) }
        ensures own { IsOwnRange SUB_BYTES (owned (state self.old)) at (length bytes.now)
            → IfErr result IsWriteFault };
}
