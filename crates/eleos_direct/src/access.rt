// What all accesses have in common: how one begins, and what it stamps.
ghost use Rattle.std.specs.Prelude.{◌≡◌, ◌≤◌, [], length, MatchOption, IfSome, IfNone};
ghost use Rattle.eleos_base.specs.declared.memory.Reply.TheVariants as replies;
ghost use Rattle.eleos_base.specs.Plain.{is_in_range};
ghost use Rattle.eleos_base.specs.Plans.{IsCaller, IsGood, enclave_of, sub_bytes};
ghost use Rattle.eleos_base.specs.Places.{subs};
ghost use Rattle.eleos_direct.specs.Accesses.{HasAccessed, IsAccessAt};
ghost use Rattle.eleos_pages.specs.Crossed.{HasBegun, came, came_if};
ghost use Rattle.eleos_pages.specs.Entered.{CanCall, Enters};
ghost use Rattle.eleos_pages.specs.Held.{IsOutside, IsPageOf, access_stamp};
ghost use Rattle.eleos_plot.specs.Refs.{op_bytes, op_of, reply_bytes, reply_of};
ghost use Rattle.eleos_machine.specs.Machines.{plan_at};

use eleos_base::{Addr, MOST_WRITTEN, Plan, Sealer};
use eleos_core::{is_in_range, spot_of};
use eleos_host::{HostPort, Tap};
use eleos_machine::{Machine, Pass, page_cell};
use eleos_pages::begin;
use eleos_plot::{EventRef, OpRef, ReplyRef};

/// Begins the tap for an access of so many bytes, and finds the number of its page's cell. There is
/// none where the access is out of range, and it was stamped as refused then.
pub(crate) fn begin_access<S: Sealer, P: HostPort>(
    m: &Machine<S>,
    pass: &mut Pass,
    tap: &mut Tap<P>,
    at: Addr,
    len: usize,
    op: OpRef<'_>,
) -> Option<u32>
    requires can { CanCall m.now pass.old }
    requires access { IsAccessAt at len (op_of op) }
    requires written { length (op_bytes op) ≤ MOST_WRITTEN }
    ensures found { IfSome result (λ cell.
        IsPageOf (plan_at m.now) pass.old.hand.number at len cell) }
    ensures kept { IfSome result (λ _. pass.new ≡ pass.old) }
    ensures begun { HasBegun P.HostPort.own P.HostStore.own tap.old tap.new }
    ensures refused { IfNone result (HasAccessed P.HostPort.own P.HostStore.own
        pass.old tap.old at (op_of op.entry) replies.BadRange pass.new tap.new) }
{
    begin(tap);
    let Some(cell) = find_page(m, pass, at, len) else {
        refuse(m, pass, at, len, op);
        return None;
    };
    Some(cell)
}

/// The number of the cell of the access's page, if it is in range.
fn find_page<S: Sealer>(m: &Machine<S>, pass: &Pass, at: Addr, len: usize) -> Option<u32>
    requires can { CanCall m.now pass.now }
    ensures { MatchOption result (IsOutside (plan_at m.now) pass.now.hand.number at len)
        (λ cell. IsPageOf (plan_at m.now) pass.now.hand.number at len cell) }
{
    let plan = m.plan();
    if !is_access(plan, pass.who(), at, len) {
        return None;
    }
    Some(page_cell(plan, spot_of(plan, at).page))
}

/// So many bytes from the address on lie in one sub-page of the caller's enclave.
fn is_access(plan: &Plan, who: u32, at: Addr, len: usize) -> bool
    requires good { IsGood plan.now }
    requires caller { IsCaller plan.now who }
    ensures { result ≡ is_in_range (sub_bytes plan.now (enclave_of plan.now who))
        (enclave_of plan.now who) (subs plan.now (enclave_of plan.now who)) at len }
{
    let enclave = plan.callers.as_slice()[who as usize - 1];
    is_in_range(plan, enclave, at, len)
}

/// Stamps the refusal of an access that is out of range.
pub(crate) fn refuse<S: Sealer>(
    m: &Machine<S>,
    pass: &mut Pass,
    at: Addr,
    len: usize,
    op: OpRef<'_>,
)
    requires can { CanCall m.now pass.old }
    requires access { IsAccessAt at len (op_of op) }
    requires written { length (op_bytes op) ≤ MOST_WRITTEN }
    requires outside { IsOutside (plan_at m.now) pass.old.hand.number at len }
    ensures { Enters pass.old
        (access_stamp pass.old (op_of op.entry) [] replies.BadRange) [] pass.new }
{
    pass.set(EventRef::Op(op), ReplyRef::BadRange);
    m.stamp(pass);
}

/// Makes the draft the access with its reply, and with the block that came for it.
pub(crate) fn draft<P: HostPort>(
    pass: &mut Pass,
    tap: &Tap<P>,
    op: OpRef<'_>,
    reply: ReplyRef<'_>,
    has_block: bool,
)
    requires written { length (op_bytes op) ≤ MOST_WRITTEN }
    requires text { length (reply_bytes reply) ≤ 1024 }
    requires block { came tap.now ≡ came_if has_block tap.now }
    ensures { pass.new ≡ record pass.old {
      draft = access_stamp pass.old (op_of op.entry) (came tap.now) (reply_of reply.entry);
    } }
{
    pass.set(EventRef::Op(op), reply);
    if has_block {
        pass.add_block(tap.block(0));
    }
}
