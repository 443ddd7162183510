//! What the words of the command line ask for.
ghost use Rattle.std.specs.Prelude.{◌<◌, ◌≤◌, ◌^◌};

/// The most rounds of one thread: as many as a hand may have stamps.
const MOST_ROUNDS: u64 = 1 << 40;

#[derive(Clone, Copy, Debug, PartialEq, Eq)]
pub enum Kind {
    /// Adds to one atomic word, in one thread.
    Add,
    /// Adds to one atomic word in four threads, between adds to a word of the thread's own.
    Shared,
    /// Turns at one cell, in one thread.
    Turn,
    /// Turns in four threads, each at a cell of its own beside the others.
    Four,
    /// The same, each at a cell far from the others.
    Apart,
}

/// What is done, and how many rounds of it in each thread.
#[derive(Clone, Copy, Debug, PartialEq, Eq)]
pub struct Order {
    pub kind: Kind,
    pub rounds: u64,
    ghost some: { 0 < rounds },
    ghost few: { rounds ≤ 2 ^ 40 },
}

fn kind_of(word: &str) -> Option<Kind> {
    match word {
        "add" => Some(Kind::Add),
        "shared" => Some(Kind::Shared),
        "turn" => Some(Kind::Turn),
        "four" => Some(Kind::Four),
        "apart" => Some(Kind::Apart),
        _ => None,
    }
}

/// The order that the two words spell, if they do.
pub fn read_order(kind: Option<String>, rounds: Option<String>) -> Option<Order> {
    let kind = kind_of(kind?.as_str())?;
    let rounds = rounds?.parse::<u64>().ok()?;
    if rounds == 0 || rounds > MOST_ROUNDS {
        return None;
    }
    Some(Order { kind, rounds })
}
