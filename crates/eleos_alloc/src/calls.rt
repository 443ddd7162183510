// The calls.
ghost use Rattle.std.specs.Prelude.{◌≡◌, ◌↔◌, ◌≤◌, Err, false, [], option_map, unwrap_or};
ghost use Rattle.eleos_base.specs.declared.memory.Live.{Live};
ghost use Rattle.eleos_base.specs.declared.memory.Op.TheVariants as ops;
ghost use Rattle.eleos_base.specs.declared.refusals.AllocRefused.TheVariants as refusals;
ghost use Rattle.eleos_base.specs.Plain.{is_good_size};
ghost use Rattle.eleos_core.specs.declared.event.Event.TheVariants as events;
ghost use Rattle.eleos_core.specs.Applying.{stamp_of};
ghost use Rattle.eleos_core.specs.Parts.{alloc_cell, alloc_part};
ghost use Rattle.eleos_machine.specs.Machines.{plan_at};
ghost use Rattle.eleos_machine.specs.Passes.{part_seen};
ghost use Rattle.eleos_plot.specs.Refs.{reply_bytes, reply_of};
ghost use Rattle.eleos_alloc.specs.Calls.{CanCall, HasCalled};
ghost use Rattle.eleos_base.specs.Answers.{block_reply, alloc_reply};
ghost use Rattle.eleos_alloc.specs.Changes.{call_of};
ghost use Rattle.eleos_alloc.specs.Stamping.{CanCallWith};

use crate::changes::Change;
use crate::holding::{stamp_with_pages, take_blocks};
use crate::refusals::{judge, reply_to};
use crate::runs::Run;
use eleos_base::{Addr, AllocRefused, BlockRefused, Live, MOST_BLOCK_BYTES, SUB_BYTES, Sealer};
use eleos_core::{Mark, enclave_of, first_sub, subs_of};
use eleos_machine::{Machine, Pass};
use eleos_plot::{BlockList, Cell, EventRef, OpRef, ReplyRef};
use std::sync::Wait;

/// Allocates a block of so many bytes in the lowest free run of the caller's enclave, and answers
/// its address. The block is the caller's alone, and its bytes are zero.
pub fn alloc<S: Sealer, R: Wait>(
    rt: &R,
    m: &Machine<S>,
    pass: &mut Pass,
    bytes: u32,
) -> Result<Addr, AllocRefused>
    requires can { CanCall m.now pass.old }
    ensures one { HasCalled pass.old (ops.Alloc bytes) (alloc_reply result) pass.new }
    ensures sized { result ≡ Err refusals.BadSize ↔ is_good_size bytes ≡ false }
{
    if bytes == 0 || bytes > MOST_BLOCK_BYTES {
        pass.set(EventRef::Op(OpRef::Alloc { bytes }), ReplyRef::BadSize);
        m.stamp(pass);
        return Err(AllocRefused::BadSize);
    }
    let enclave = enclave_of(m.plan(), pass.who());
    let mut blocks = take_blocks(rt, m, pass, enclave);
    let answer = alloc_in(rt, m, pass, enclave, &mut blocks, bytes);
    m.give(pass, u32::from(enclave), Cell::Alloc(blocks));
    answer
}

/// Frees the caller's block that starts at the address.
pub fn free<S: Sealer, R: Wait>(
    rt: &R,
    m: &Machine<S>,
    pass: &mut Pass,
    at: Addr,
) -> Result<(), BlockRefused>
    requires can { CanCall m.now pass.old }
    ensures one { HasCalled pass.old (ops.Free at) (block_reply result) pass.new }
{
    change_block(rt, m, pass, at, Change::Free)
}

/// Shares the caller's block that starts at the address with all callers of its enclave. A block
/// that is shared stays so.
pub fn share<S: Sealer, R: Wait>(
    rt: &R,
    m: &Machine<S>,
    pass: &mut Pass,
    at: Addr,
) -> Result<(), BlockRefused>
    requires can { CanCall m.now pass.old }
    ensures one { HasCalled pass.old (ops.Share at) (block_reply result) pass.new }
{
    change_block(rt, m, pass, at, Change::Share)
}

/// Frees or shares the caller's block that starts at the address.
pub fn change_block<S: Sealer, R: Wait>(
    rt: &R,
    m: &Machine<S>,
    pass: &mut Pass,
    at: Addr,
    change: Change,
) -> Result<(), BlockRefused>
    requires can { CanCall m.now pass.old }
    ensures one { HasCalled pass.old (call_of change at) (block_reply result) pass.new }
{
    let enclave = enclave_of(m.plan(), pass.who());
    let mut blocks = take_blocks(rt, m, pass, enclave);
    let answer = change_in(rt, m, pass, enclave, &mut blocks, at, change);
    m.give(pass, u32::from(enclave), Cell::Alloc(blocks));
    answer
}

/// Allocates among the enclave's live blocks, whose turn the pass has.
fn alloc_in<S: Sealer, R: Wait>(
    rt: &R,
    m: &Machine<S>,
    pass: &mut Pass,
    enclave: u16,
    blocks: &mut BlockList,
    bytes: u32,
) -> Result<Addr, AllocRefused>
    requires can { CanCallWith m.now enclave blocks.old pass.old }
    requires some { 1 ≤ bytes }
    requires most { bytes ≤ MOST_BLOCK_BYTES }
    ensures one { HasCalled pass.old (ops.Alloc bytes) (alloc_reply result) pass.new }
    ensures blocks { part_seen pass.new (alloc_cell (plan_at m.now) enclave)
        ≡ alloc_part blocks.new }
    ensures sized { result ≡ Err refusals.BadSize → ⊥ }
{
    let plan = m.plan();
    let event = EventRef::Op(OpRef::Alloc { bytes });
    let len = bytes.div_ceil(SUB_BYTES);
    let Some(start) = blocks.lowest_run(subs_of(plan, enclave), len) else {
        pass.set(event, ReplyRef::NoSpace);
        m.stamp(pass);
        return Err(AllocRefused::NoSpace);
    };
    let block = Live {
        start,
        len,
        owner: pass.who(),
        is_shared: false,
    };
    let at = Addr {
        enclave,
        at: SUB_BYTES * start,
    };
    let run = Run {
        start: first_sub(plan, enclave) + start,
        len,
    };
    pass.set(event, ReplyRef::Got(at));
    stamp_with_pages(rt, m, pass, run.first_page(), run, Mark::Blank(Some(block)));
    blocks.add(block);
    Ok(at)
}

/// Frees or shares among the enclave's live blocks, whose turn the pass has.
fn change_in<S: Sealer, R: Wait>(
    rt: &R,
    m: &Machine<S>,
    pass: &mut Pass,
    enclave: u16,
    blocks: &mut BlockList,
    at: Addr,
    change: Change,
) -> Result<(), BlockRefused>
    requires can { CanCallWith m.now enclave blocks.old pass.old }
    ensures one { HasCalled pass.old (call_of change at) (block_reply result) pass.new }
    ensures blocks { part_seen pass.new (alloc_cell (plan_at m.now) enclave)
        ≡ alloc_part blocks.new }
{
    let plan = m.plan();
    let found = blocks.block_at(enclave, at);
    let len = len_of(found);
    let block = match judge(found, pass.who()) {
        Ok(block) => block,
        Err(refused) => {
            draft_change(pass, change, at, reply_to(refused), len);
            m.stamp(pass);
            return Err(refused);
        }
    };
    let run = Run {
        start: first_sub(plan, enclave) + block.start,
        len,
    };
    draft_change(pass, change, at, ReplyRef::Done, len);
    stamp_with_pages(rt, m, pass, run.first_page(), run, change.mark());
    change.apply(blocks, enclave, at);
    Ok(())
}

/// The length of the block that was found, 0 where there is none.
fn len_of(found: Option<Live>) -> u32
    ensures { result ≡ unwrap_or (option_map (λ (block : Live). block.len) found) 0 }
{
    found.map_or(0, |block| block.len)
}

/// Makes the draft the entry of a free or a share.
fn draft_change(pass: &mut Pass, change: Change, at: Addr, reply: ReplyRef<'_>, len: u32)
    requires text { reply_bytes reply ≡ [] }
    ensures { pass.new ≡ record pass.old {
      draft = stamp_of pass.old.hand.number
          (events.Op (call_of change at)) [] (reply_of reply.entry) len;
    } }
{
    pass.set(EventRef::Op(change.call(at)), reply);
    pass.set_len(len);
}
