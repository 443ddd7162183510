// The names of a caller before its first command.
ghost use Rattle.std.specs.Prelude.{◌≡◌, ◌<◌, length, IfOk};
ghost use Rattle.eleos_base.specs.Plans.{IsCaller, IsGood};
ghost use Rattle.eleos_meaning.specs.Names.{header_names, opening_names};
ghost use Rattle.eleos_meaning.specs.NameTable.{names_in};

use crate::names::NameTable;
use eleos_base::{Addr, NoMemory, SUB_BYTES, SUBS_PER_PAGE};
use eleos_trace::Trace;
use std::alloc::Global;

/// The addresses that a caller's names have before its first command.
pub fn opening_names(alloc: Global, trace: &Trace, who: u32) -> Result<NameTable, NoMemory>
    requires good { IsGood trace.now.plan }
    requires names { length trace.now.names ≡ length trace.now.plan.blocks }
    requires caller { IsCaller trace.now.plan who }
    ensures { IfOk result (λ names. names_in names ≡ opening_names trace.now who) }
{
    let home = trace.plan.callers.as_slice()[who as usize - 1];
    header_names(alloc, trace, home)
}

/// The addresses of an enclave's header blocks, by their names. They stand one behind the other,
/// and one for which there is no room is left out.
pub fn header_names(alloc: Global, trace: &Trace, home: u16) -> Result<NameTable, NoMemory>
    requires good { IsGood trace.now.plan }
    requires names { length trace.now.names ≡ length trace.now.plan.blocks }
    requires home { home < length trace.now.plan.enclaves }
    ensures { IfOk result (λ names. names_in names ≡ header_names trace.now home) }
{
    let subs = trace.plan.enclaves.as_slice()[home as usize].pages * SUBS_PER_PAGE;
    let texts = trace.names.as_slice();
    let mut names = NameTable::new(alloc);
    let mut start = 0;
    for (i, block) in trace.plan.blocks.as_slice().iter().enumerate() {
        let len = block.bytes.div_ceil(SUB_BYTES);
        if block.enclave == home && len <= subs - start {
            let at = start * SUB_BYTES;
            names.add(alloc, texts[i].as_slice(), Addr { enclave: home, at })?;
            start += len;
        }
    }
    Ok(names)
}
