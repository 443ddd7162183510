use crate::HERE;
use eleos_base::{Looked, Plot, Tied};
use eleos_plot::{CorePlot, Draft, EventRef, OpRef, ReplyRef, WantedRef};
use std::test::*;

#[test]
fn which_entries_tie(rt: HostRuntime) -> Result<(), Fail> {
    let alloc = rt.alloc();
    let Ok(mut draft) = Draft::make(alloc) else {
        return Err("memory".into());
    };
    draft.set(1, EventRef::Link { at: HERE }, ReplyRef::Done);
    assert!(rt; CorePlot::tied(&draft) == Tied::Adds);
    draft.set(1, EventRef::Link { at: HERE }, ReplyRef::Unallocated);
    assert!(rt; CorePlot::tied(&draft) == Tied::No);
    draft.set(1, EventRef::Unlink { page: 0 }, ReplyRef::Done);
    assert!(rt; CorePlot::tied(&draft) == Tied::Takes);
    draft.set(1, EventRef::Op(OpRef::Free { at: HERE }), ReplyRef::Done);
    draft.set_len(1);
    assert!(rt; CorePlot::tied(&draft) == Tied::No);
    Ok(())
}

#[test]
fn is_there_room_for_the_largest_entries(rt: HostRuntime) -> Result<(), Fail> {
    let alloc = rt.alloc();
    let Ok(mut draft) = Draft::make(alloc) else {
        return Err("memory".into());
    };
    let bytes = [7; 8192];
    let block = [7; 1024];
    let write = OpRef::Write {
        at: HERE,
        bytes: &bytes,
    };
    draft.set(1, EventRef::Op(write), ReplyRef::Text(&block));
    draft.add_block(&block);
    draft.add_block(&block);
    draft.add_block(&block);
    draft.add_block(&block);
    let wanted = WantedRef::Op(write);
    draft.set(1, EventRef::Starved { wanted }, ReplyRef::NoFrame);
    draft.add_looked(Looked { frame: 0, word: 1 });
    draft.add_looked(Looked {
        frame: 1,
        word: 257,
    });
    Ok(())
}
