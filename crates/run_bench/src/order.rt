//! What the words of the command line ask for.
ghost use Rattle.std.specs.Prelude.{◌≤◌, IfSome};

use crate::caller::Call;

/// The most threads: as many as a machine of this crate has callers.
const MOST_THREADS: usize = 4;

/// The most rounds of one thread. A caller has 2^40 stamps, and no round takes more than two.
const MOST_ROUNDS: u64 = 1 << 38;

/// The most adds of one round.
const MOST_ADDS: u32 = 1 << 20;

/// The most pages of an enclave.
const MOST_PAGES: u32 = 1024;

#[derive(Clone, Copy, Debug, PartialEq, Eq)]
pub enum Work {
    /// Opens a sealed text by GCM alone, apart from any machine.
    Open,
    /// Adds to one atomic word for all threads, after so many adds to a word of the thread's own.
    Add { own: u32 },
    /// Calls on a machine whose enclaves have so many pages.
    Call { call: Call, pages: u32 },
}

/// What is done, in how many threads, and how many rounds of it in each.
#[derive(Clone, Copy, Debug, PartialEq, Eq)]
pub struct Order {
    pub work: Work,
    pub threads: usize,
    pub rounds: u64,
}

// The number that the word spells, if it is 1 to `most`.
fn number_in(word: Option<String>, most: u64) -> Option<u64>
    ensures { IfSome result (λ n. n ≤ most) }
{
    let number = word?.parse::<u64>().ok()?;
    (1 <= number && number <= most).then_some(number)
}

// The call that the word names.
fn call_of(word: &str) -> Option<Call> {
    match word {
        "blank" => Some(Call::ReadBlank),
        "sealed" => Some(Call::ReadSealed),
        "mixed" => Some(Call::WriteAndRead),
        "blocks" => Some(Call::AllocAndFree),
        _ => None,
    }
}

// The work that the word names, with its size where it has one.
fn work_of(word: &str, size: Option<String>) -> Option<Work> {
    match word {
        "open" => Some(Work::Open),
        "add" => Some(Work::Add {
            own: number_in(size, u64::from(MOST_ADDS))? as u32,
        }),
        _ => Some(Work::Call {
            call: call_of(word)?,
            pages: number_in(size, u64::from(MOST_PAGES))? as u32,
        }),
    }
}

/// The order that the words spell, if they do.
pub fn read_order(
    work: Option<String>,
    threads: Option<String>,
    rounds: Option<String>,
    size: Option<String>,
) -> Option<Order> {
    let work = work_of(work?.as_str(), size)?;
    let threads = number_in(threads, MOST_THREADS as u64)? as usize;
    let rounds = number_in(rounds, MOST_ROUNDS)?;
    Some(Order {
        work,
        threads,
        rounds,
    })
}
