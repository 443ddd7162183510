//! What the words of the command line ask for.
ghost use Rattle.std.specs.Prelude.{◌≤◌, IfSome};
ghost use Rattle.ring_bench.specs.Orders.{IsGood};

/// The most callers: with two workers there are no more threads than that and two.
const MOST_CALLERS: u32 = 4;

/// The most bytes of a message, as of a job.
const MOST_TEXT: u32 = 1024;

/// By what a caller's message goes to another thread and comes back.
#[derive(Clone, Copy, Debug, PartialEq, Eq)]
pub enum Way {
    /// A call of the ring, answered by a worker.
    Ring,
    /// A channel to a thread of the caller's own, and one back.
    Channel,
}

/// By what, how many callers, the rounds of each, and the bytes of a message each way.
#[derive(Clone, Copy, Debug, PartialEq, Eq)]
pub struct Order {
    pub way: Way,
    pub callers: u32,
    pub rounds: u32,
    pub bytes: u32,
}

// The number that the word spells, if it is 1 to `most`.
fn number_in(word: Option<String>, most: u32) -> Option<u32>
    ensures { IfSome result (λ n. (1 ≤ n) × (n ≤ most)) }
{
    let number = word?.parse::<u32>().ok()?;
    if number < 1 || most < number {
        return None;
    }
    Some(number)
}

fn way_of(word: &str) -> Option<Way> {
    match word {
        "ring" => Some(Way::Ring),
        "channel" => Some(Way::Channel),
        _ => None,
    }
}

/// The order that the words spell, if they do.
pub fn read_order(
    way: Option<String>,
    callers: Option<String>,
    rounds: Option<String>,
    bytes: Option<String>,
) -> Option<Order>
    ensures { IfSome result IsGood }
{
    let way = way_of(way?.as_str())?;
    let callers = number_in(callers, MOST_CALLERS)?;
    let rounds = number_in(rounds, u32::MAX)?;
    let bytes = number_in(bytes, MOST_TEXT)?;
    Some(Order {
        way,
        callers,
        rounds,
        bytes,
    })
}
