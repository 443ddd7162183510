//! Rounds of sealing, to be timed from outside. It keeps no clock.
#![tactic(auto)]

mod order;
mod rounds;

use eleos_gcm::Gcm;
use order::{Kind, Order, read_order};
use rounds::{key_rounds, open_rounds, seal_rounds};
use std::process::ExitCode;
use std::{env, io};

fn main(rt: HostRuntime) -> io::Result<ExitCode> {
    let mut words = env::args(&rt)?.skip(1);
    let (kind, bytes, rounds) = (words.next(), words.next(), words.next());
    let Some(
        Order {
            kind,
            bytes,
            rounds,
        },
    ) = read_order(kind, bytes, rounds)
    else {
        eprintln!(rt; "usage: seal_bench seal|open|key BYTES ROUNDS")?;
        return Ok(ExitCode::from(2));
    };
    let Ok(sealer) = Gcm::new(&[0; 16]) else {
        return Ok(ExitCode::from(1));
    };
    let mut text = vec![in rt.alloc(); 0u8; bytes]?;
    let made = match kind {
        Kind::Seal => seal_rounds(&sealer, text.as_mut_slice(), rounds),
        Kind::Open => open_rounds(&sealer, text.as_mut_slice(), rounds),
        Kind::Key => key_rounds(text.as_mut_slice(), rounds),
    };
    println!(rt; "{made}")?;
    Ok(ExitCode::SUCCESS)
}
