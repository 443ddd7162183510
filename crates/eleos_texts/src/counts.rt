// The words of a line by their number; any other number is of no form.
ghost use Rattle.std.specs.Prelude.{◌≡◌, List, ℕ, map};
ghost use Rattle.eleos_texts.specs.Reasons.{Reads, one, two, three, four, five, six, eight};
ghost use Rattle.eleos_texts.specs.Reasons.{one_and_more, two_and_more};

use crate::Why;
use crate::why::{LineRefused, refused};

#[tactic(auto, unfolding(crate::specs::Reasons::one))]
pub fn one<'a>(words: &[&'a [u8]]) -> Result<&'a [u8], LineRefused>
    ensures { Reads (λ a. a.now) result (one (map (λ word. word.now) words.now)) }
{
    let [a] = words else {
        return refused(Why::Form);
    };
    Ok(a)
}

#[tactic(auto, unfolding(crate::specs::Reasons::two))]
pub fn two<'a>(words: &[&'a [u8]]) -> Result<(&'a [u8], &'a [u8]), LineRefused>
    ensures { Reads (λ x. (x.0.now, x.1.now)) result (two (map (λ word. word.now) words.now)) }
{
    let [a, b] = words else {
        return refused(Why::Form);
    };
    Ok((a, b))
}

#[tactic(auto, unfolding(crate::specs::Reasons::three))]
pub fn three<'a>(words: &[&'a [u8]]) -> Result<(&'a [u8], &'a [u8], &'a [u8]), LineRefused>
    ensures { Reads (λ x. (x.0.now, x.1.now, x.2.now)) result
        (three (map (λ word. word.now) words.now)) }
{
    let [a, b, c] = words else {
        return refused(Why::Form);
    };
    Ok((a, b, c))
}

#[tactic(auto, unfolding(crate::specs::Reasons::four))]
pub fn four<'a>(words: &[&'a [u8]]) -> Result<(&'a [u8], &'a [u8], &'a [u8], &'a [u8]), LineRefused>
    ensures { Reads (λ x. (x.0.now, x.1.now, x.2.now, x.3.now)) result
        (four (map (λ word. word.now) words.now)) }
{
    let [a, b, c, d] = words else {
        return refused(Why::Form);
    };
    Ok((a, b, c, d))
}

#[tactic(auto, unfolding(crate::specs::Reasons::five))]
pub fn five<'a>(
    words: &[&'a [u8]],
) -> Result<(&'a [u8], &'a [u8], &'a [u8], &'a [u8], &'a [u8]), LineRefused>
    ensures { Reads (λ x. (x.0.now, x.1.now, x.2.now, x.3.now, x.4.now)) result
        (five (map (λ word. word.now) words.now)) }
{
    let [a, b, c, d, e] = words else {
        return refused(Why::Form);
    };
    Ok((a, b, c, d, e))
}

#[tactic(auto, unfolding(crate::specs::Reasons::six))]
pub fn six<'a>(
    words: &[&'a [u8]],
) -> Result<(&'a [u8], &'a [u8], &'a [u8], &'a [u8], &'a [u8], &'a [u8]), LineRefused>
    ensures { Reads (λ x. (x.0.now, x.1.now, x.2.now, x.3.now, x.4.now, x.5.now)) result
        (six (map (λ word. word.now) words.now)) }
{
    let [a, b, c, d, e, f] = words else {
        return refused(Why::Form);
    };
    Ok((a, b, c, d, e, f))
}

/// Eight words.
pub type Eight<'a> = (
    &'a [u8],
    &'a [u8],
    &'a [u8],
    &'a [u8],
    &'a [u8],
    &'a [u8],
    &'a [u8],
    &'a [u8],
);

#[tactic(auto, unfolding(crate::specs::Reasons::eight))]
pub fn eight<'a>(words: &[&'a [u8]]) -> Result<Eight<'a>, LineRefused>
    ensures { Reads
        (λ x. (x.0.now, x.1.now, x.2.now, x.3.now, x.4.now, x.5.now, x.6.now, x.7.now)) result
        (eight (map (λ word. word.now) words.now)) }
{
    let [a, b, c, d, e, f, g, h] = words else {
        return refused(Why::Form);
    };
    Ok((a, b, c, d, e, f, g, h))
}

/// The first word, and the others.
#[tactic(auto, unfolding(crate::specs::Reasons::one_and_more))]
pub fn one_and_more<'w, 'a>(
    words: &'w [&'a [u8]],
) -> Result<(&'a [u8], &'w [&'a [u8]]), LineRefused>
    ensures { Reads (λ x. (x.0.now, map (λ word. word.now) x.1.now)) result
        (one_and_more (map (λ word. word.now) words.now)) }
{
    let [a, more @ ..] = words else {
        return refused(Why::Form);
    };
    Ok((a, more))
}

/// The first two words, and the others.
#[tactic(auto, unfolding(crate::specs::Reasons::two_and_more))]
pub fn two_and_more<'w, 'a>(
    words: &'w [&'a [u8]],
) -> Result<(&'a [u8], &'a [u8], &'w [&'a [u8]]), LineRefused>
    ensures { Reads (λ x. (x.0.now, x.1.now, map (λ word. word.now) x.2.now)) result
        (two_and_more (map (λ word. word.now) words.now)) }
{
    let [a, b, more @ ..] = words else {
        return refused(Why::Form);
    };
    Ok((a, b, more))
}
