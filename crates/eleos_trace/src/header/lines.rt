// The lines of which a header has one each.
ghost use Rattle.std.specs.Prelude.{◌≡◌, ◌≤◌, List, ℕ, map};
ghost use Rattle.eleos_trace.specs.Header.{title_line, spare_line, wear_line};
ghost use Rattle.eleos_trace.specs.WholeHeader.{begins, is_one_of};
ghost use Rattle.eleos_trace.specs.Machines.{frames_of};
ghost use Rattle.eleos_texts.specs.Reasons.{Reads};

use crate::Kind;
use crate::machines::frames_of;
use eleos_base::{EnclavePlan, MOST_FRAMES, MOST_WEAR};
use eleos_texts::counts::{three, two};
use eleos_texts::fields::{is_numeral, number_up_to};
use eleos_texts::{LineRefused, Why, refused};

/// `eleos 1 run` or `eleos 1 replay`, by the kind that is asked for.
pub(crate) fn title_line(kind: Kind, words: &[&[u8]]) -> Result<(), LineRefused>
    ensures { Reads (λ x. x) result (title_line kind (map (λ word. word.now) words.now)) }
{
    let (first, version, word) = three(words)?;
    if first != b"eleos".as_slice() || version != b"1".as_slice() || word != kind.word() {
        return refused(Why::Form);
    }
    Ok(())
}

/// `spare S`, beside the frames of these enclaves.
pub(crate) fn spare_line(enclaves: &[EnclavePlan], words: &[&[u8]]) -> Result<u32, LineRefused>
    requires { frames_of enclaves.now ≤ 512 }
    ensures { Reads (λ x. x) result (spare_line enclaves.now (map (λ word. word.now) words.now)) }
{
    let (first, spare) = two(words)?;
    if first != b"spare".as_slice() || !is_numeral(spare) {
        return refused(Why::Form);
    }
    let Some(spare) = number_up_to(spare, u64::from(MOST_FRAMES)) else {
        return refused(Why::Range);
    };
    if frames_of(enclaves) + spare as u32 > MOST_FRAMES {
        return refused(Why::Range);
    }
    Ok(spare as u32)
}

/// `wear W`
pub(crate) fn wear_line(words: &[&[u8]]) -> Result<u64, LineRefused>
    ensures { Reads (λ x. x) result (wear_line (map (λ word. word.now) words.now)) }
{
    let (first, wear) = two(words)?;
    if first != b"wear".as_slice() || !is_numeral(wear) {
        return refused(Why::Form);
    }
    let Some(wear) = number_up_to(wear, MOST_WEAR) else {
        return refused(Why::Range);
    };
    if wear == 0 {
        return refused(Why::Range);
    }
    Ok(wear)
}

/// Whether this is the first word of the line.
pub(crate) fn begins(word: &[u8], words: &[&[u8]]) -> bool
    ensures { result ≡ begins word.now (map (λ word. word.now) words.now) }
{
    match words {
        [first, ..] => *first == word,
        [] => false,
    }
}

/// Whether the line is one of several that begin with this word, of which there has to be one.
pub(crate) fn is_one_of<A>(word: &[u8], before: &[A], words: &[&[u8]]) -> bool
    ensures { result ≡ is_one_of word.now before.now (map (λ word. word.now) words.now) }
{
    before.is_empty() || begins(word, words)
}
