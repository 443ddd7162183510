//! Rounds of turns, and of an atomic add beside them, to be timed from outside. It keeps no clock.
#![tactic(auto)]

mod order;
mod tally;
mod work;
mod worker;

use order::{Kind, Order, read_order};
use std::process::ExitCode;
use std::{env, io};
use work::{Places, add_rounds, add_shared, turn_rounds};

fn main(rt: HostRuntime) -> io::Result<ExitCode> {
    let mut words = env::args(&rt)?.skip(1);
    let (kind, rounds) = (words.next(), words.next());
    let Some(Order { kind, rounds }) = read_order(kind, rounds) else {
        eprintln!(rt; "usage: turn_bench add|shared|turn|four|apart ROUNDS")?;
        return Ok(ExitCode::from(2));
    };
    let made = match kind {
        Kind::Add => add_rounds(rounds),
        Kind::Shared => add_shared(&rt, rounds),
        Kind::Turn => turn_rounds(&rt, rt.alloc(), rounds, false, Places::Beside)?,
        Kind::Four => turn_rounds(&rt, rt.alloc(), rounds, true, Places::Beside)?,
        Kind::Apart => turn_rounds(&rt, rt.alloc(), rounds, true, Places::Apart)?,
    };
    println!(rt; "{made}")?;
    Ok(ExitCode::SUCCESS)
}
