//! What the words of the command line ask for.
ghost use Rattle.std.specs.Prelude.{◌≤◌};

use eleos_base::LONGEST_SEALED;

#[derive(Clone, Copy, Debug, PartialEq, Eq)]
pub enum Kind {
    /// Seals.
    Seal,
    /// Seals, and unseals that.
    Open,
    /// Makes the sealer of a key, and seals by it.
    Key,
}

/// What is done to a text of how many bytes, and how often.
#[derive(Clone, Copy, Debug, PartialEq, Eq)]
pub struct Order {
    pub kind: Kind,
    pub bytes: usize,
    pub rounds: u64,
    // `LONGEST_SEALED`
    ghost fits: { bytes ≤ 16777216 },
}

fn kind_of(word: &str) -> Option<Kind> {
    match word {
        "seal" => Some(Kind::Seal),
        "open" => Some(Kind::Open),
        "key" => Some(Kind::Key),
        _ => None,
    }
}

/// The order that the three words spell, if they do.
pub fn read_order(
    kind: Option<String>,
    bytes: Option<String>,
    rounds: Option<String>,
) -> Option<Order> {
    let kind = kind_of(kind?.as_str())?;
    let bytes = bytes?.parse::<usize>().ok()?;
    let rounds = rounds?.parse::<u64>().ok()?;
    if bytes > LONGEST_SEALED {
        return None;
    }
    Some(Order {
        kind,
        bytes,
        rounds,
    })
}
