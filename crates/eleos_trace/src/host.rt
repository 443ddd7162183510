// Commands of the host on its places.
ghost use Rattle.std.specs.Prelude.{◌≡◌, List, ℕ, map};
ghost use Rattle.eleos_base.specs.Plans.{IsGood};
ghost use Rattle.eleos_trace.specs.Host.{flip_of, swap_of, place_of};
ghost use Rattle.eleos_texts.specs.Reasons.{Reads};

use crate::Word;
use crate::givers::Asked;
use crate::machines::places;
use eleos_texts::counts::{one, two};
use eleos_texts::fields::{is_numeral, number_below, number_up_to};
use eleos_texts::{LineRefused, Why, refused};

/// The last bit of a sub-page.
const LAST_BIT: u64 = 8191;

/// `flip PLACE BIT`
pub(crate) fn flip_of(asked: &Asked, args: &[&[u8]]) -> Result<Word, LineRefused>
    requires { IsGood asked.now.header.now.plan }
    ensures { Reads (λ x. x) result (flip_of asked.now.header.now asked.now.seen.now
        asked.now.actor asked.now.givers (map (λ arg. arg.now) args.now)) }
{
    let (place, bit) = two(args)?;
    asked.admit(is_numeral(place) && is_numeral(bit))?;
    let (Some(place), Some(bit)) = (
        number_below(place, places(&asked.header.plan)),
        number_up_to(bit, LAST_BIT),
    ) else {
        return refused(Why::Range);
    };
    let bit = bit as u32;
    Ok(Word::Flip { place, bit })
}

/// `swap PLACE PLACE`
pub(crate) fn swap_of(asked: &Asked, args: &[&[u8]]) -> Result<Word, LineRefused>
    requires { IsGood asked.now.header.now.plan }
    ensures { Reads (λ x. x) result (swap_of asked.now.header.now asked.now.seen.now
        asked.now.actor asked.now.givers (map (λ arg. arg.now) args.now)) }
{
    let (a, b) = two(args)?;
    asked.admit(is_numeral(a) && is_numeral(b))?;
    let places = places(&asked.header.plan);
    let (Some(a), Some(b)) = (number_below(a, places), number_below(b, places)) else {
        return refused(Why::Range);
    };
    Ok(Word::SwapPlaces { a, b })
}

/// The place alone, which is in the machine: `keep PLACE` and `restore PLACE`.
pub(crate) fn place_of(asked: &Asked, args: &[&[u8]]) -> Result<u32, LineRefused>
    requires { IsGood asked.now.header.now.plan }
    ensures { Reads (λ x. x) result (place_of asked.now.header.now asked.now.seen.now
        asked.now.actor asked.now.givers (map (λ arg. arg.now) args.now)) }
{
    let place = one(args)?;
    asked.admit(is_numeral(place))?;
    let Some(place) = number_below(place, places(&asked.header.plan)) else {
        return refused(Why::Range);
    };
    Ok(place)
}
