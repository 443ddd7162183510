// A page in hand is linked for a pointer.
ghost use Rattle.eleos_spointer.specs.Tied.{MayTie, Ties};

use crate::points::place_of;
use eleos_base::Sealer;
use eleos_machine::{HeldPage, Machine, Pass, Pointer, SpId, page_cell};
use eleos_plot::{EventRef, ReplyRef};

/// Links the page in hand, which is in a frame, for the pointer that stands on it. Its turn goes
/// back.
pub(crate) fn tie<S: Sealer>(
    m: &Machine<S>,
    pass: &mut Pass,
    id: SpId,
    pointer: Pointer,
    page: HeldPage,
)
    requires may { MayTie m.now pass.old id pointer page }
    ensures { Ties pass.old id pointer pass.new }
{
    // What it has seen is a legal history.
    let _ = pass.left();
    let at = place_of(pointer);
    let HeldPage { page: number, cell } = page;
    let page = page_cell(m.plan(), number);
    // The pin comes before the link that it covers.
    m.pin(pass, page);
    pass.set(EventRef::Link { at }, ReplyRef::Done);
    m.stamp(pass);
    m.give(pass, page, cell);
    let linked = Pointer {
        is_linked: true,
        ..pointer
    };
    pass.set_pointer(id, linked);
}
