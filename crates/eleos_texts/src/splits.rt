// Lines of a text, and words of a line.
ghost use Rattle.std.specs.Prelude.{◌≡◌, ◌<◌, ◌==◌, List, ℕ, [], ◌∷◌, length, map};
ghost use Rattle.std.specs.Prelude.{IfOk, MatchOption, IfSome};
ghost use Rattle.std.specs.List.{slice_split, position};
ghost use Rattle.eleos_texts.specs.Fields.{is_newline, is_blank};

use memchr::memchr;
use std::alloc::{AllocError, Global};

/// The first line, and what stands behind its newline.
pub fn first_line(text: &[u8]) -> Option<(&[u8], &[u8])>
    ensures parts { MatchOption result
        (slice_split is_newline text.now ≡ text.now ∷ [])
        (λ p. slice_split is_newline text.now ≡ p.0.now ∷ slice_split is_newline p.1.now) }
    ensures shorter { IfSome result (λ p. length p.1.now < length text.now) }
{
    first_part(text, b'\n')
}

/// The part before the first separator, and what stands behind that.
fn first_part(text: &[u8], separator: u8) -> Option<(&[u8], &[u8])>
    ensures parts { MatchOption result
        (slice_split (λ c. c == separator) text.now ≡ text.now ∷ [])
        (λ p. slice_split (λ c. c == separator) text.now
        ≡ p.0.now ∷ slice_split (λ c. c == separator) p.1.now) }
    ensures shorter { IfSome result (λ p. length p.1.now < length text.now) }
{
    let end = separator_at(text, separator)?;
    Some((&text[..end], &text[end + 1..]))
}

fn separator_at(text: &[u8], separator: u8) -> Option<usize>
    ensures { result ≡ position (λ c. c == separator) text.now }
{
    memchr(separator, text)
}

/// The words of a line.
pub fn words_of(alloc: Global, line: &[u8]) -> Result<Vec<&[u8]>, AllocError>
    ensures { IfOk result (λ words.
        map (λ word. word.now) words.items ≡ slice_split is_blank line.now) }
{
    let mut words = Vec::new(alloc);
    let mut rest = line;
    while let Some((word, after)) = first_part(rest, b' ') {
        words.push(word)?;
        rest = after;
    }
    words.push(rest)?;
    Ok(words)
}
