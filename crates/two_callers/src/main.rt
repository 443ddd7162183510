//! Two callers of one enclave, each in a thread: one writes to the block that they share, the other
//! reads there. Then the machine is closed, which shows how many entries its history has.
#![tactic(auto)]

mod caller;
mod site;

use site::call_beside;
use std::io;
use std::process::ExitCode;

fn main(rt: HostRuntime) -> io::Result<ExitCode> {
    let Ok(seen) = call_beside(&rt, rt.alloc()) else {
        eprintln!(rt; "two_callers: not enough memory")?;
        return Ok(ExitCode::FAILURE);
    };
    let Some(seen) = seen else {
        eprintln!(rt; "two_callers: the machine was not made or not closed")?;
        return Ok(ExitCode::FAILURE);
    };
    println!(rt; "the text was written: {}", seen.is_written)?;
    println!(rt;
        "what was read is the old text or the new one: {}",
        seen.is_whole
    )?;
    Ok(ExitCode::SUCCESS)
}
