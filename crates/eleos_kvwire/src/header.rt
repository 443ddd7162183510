// The lines of a header.
ghost use Rattle.std.specs.Prelude.{◌≡◌, ◌≤◌, ◌^◌, List, ℕ, map};
ghost use Rattle.eleos_kvwire.specs.Header.{title_line, sizes_line, count_line};
ghost use Rattle.eleos_kvwire.specs.Header.{header_line, no_header};
ghost use Rattle.eleos_kvwire.specs.Reading.{plan_of};
ghost use Rattle.eleos_texts.specs.Fields.{is_blank};
ghost use Rattle.eleos_texts.specs.Reasons.{Reads};
ghost use Rattle.std.specs.Prelude.{IfOk};
ghost use Rattle.std.specs.List.{slice_split};

use crate::stage::HeaderLine;
use eleos_base::{
    Bytes, EnclavePlan, List, MOST_CALLERS, MOST_FRAMES, MOST_PAGES, MOST_WEAR, Plan,
};
use eleos_texts::counts::{four, two};
use eleos_texts::fields::{is_numeral, number_up_to};
use eleos_texts::heads::{key_line, start_line};
use eleos_texts::splits::words_of;
use eleos_texts::{LineRefused, Why, refused};
use std::alloc::{AllocError, Global};

/// Clients.
const MOST_CLIENTS: u64 = 8;

/// What the lines of a header said so far; the others are 0 or empty.
#[derive(Debug, Drop)]
pub(crate) struct Header {
    pub pages: u32,
    pub frames: u32,
    pub shards: u32,
    pub clients: u32,
    pub wear: u64,
    pub key: Bytes,
}

impl Header {
    pub(crate) fn nothing(alloc: Global) -> Self
        ensures { result ≡ no_header }
    {
        Header {
            pages: 0,
            frames: 0,
            shards: 0,
            clients: 0,
            wear: 0,
            key: Bytes::of(Vec::new(alloc)),
        }
    }

    /// The machine: one enclave, and a caller for each shard.
    pub(crate) fn plan(&self, alloc: Global) -> Result<Plan, AllocError>
        ensures { IfOk result (λ plan. plan ≡ plan_of self.now) }
    {
        let enclave = EnclavePlan {
            pages: self.pages,
            frames: self.frames,
        };
        Ok(Plan {
            enclaves: List::of(vec![in alloc; enclave]?),
            spare: 0,
            callers: List::of(vec![in alloc; 0; self.shards as usize]?),
            wear: self.wear,
            blocks: List::of(Vec::new(alloc)),
        })
    }

    /// Reads the line that is due.
    pub(crate) fn read(
        &mut self,
        alloc: Global,
        due: HeaderLine,
        line: &[u8],
    ) -> Result<(), LineRefused>
        ensures { Reads (λ _. self.new) result
            (header_line due self.old (slice_split is_blank line.now)) }
    {
        let words = words_of(alloc, line)?;
        self.read_words(alloc, due, &words)
    }

    fn read_words(
        &mut self,
        alloc: Global,
        due: HeaderLine,
        words: &[&[u8]],
    ) -> Result<(), LineRefused>
        ensures { Reads (λ _. self.new) result
            (header_line due self.old (map (λ word. word.now) words.now)) }
    {
        match due {
            HeaderLine::Title => title_line(words)?,
            HeaderLine::Sizes => {
                let (pages, frames) = sizes_line(words)?;
                self.pages = pages;
                self.frames = frames;
            }
            HeaderLine::Shards => self.shards = count_line(
                b"shards",
                u64::from(MOST_CALLERS),
                words,
            )? as u32,
            HeaderLine::Clients => {
                self.clients = count_line(b"clients", MOST_CLIENTS, words)? as u32;
            }
            HeaderLine::Wear => self.wear = count_line(b"wear", MOST_WEAR, words)?,
            HeaderLine::Key => self.key = key_line(alloc, words)?,
            HeaderLine::Start => start_line(words)?,
        }
        Ok(())
    }
}

/// `eleos-kv 1`
fn title_line(words: &[&[u8]]) -> Result<(), LineRefused>
    ensures { Reads (λ x. x) result (title_line (map (λ word. word.now) words.now)) }
{
    let (name, version) = two(words)?;
    if name != b"eleos-kv".as_slice() || version != b"1".as_slice() {
        return refused(Why::Form);
    }
    Ok(())
}

/// `pages N frames N`
fn sizes_line(words: &[&[u8]]) -> Result<(u32, u32), LineRefused>
    ensures { Reads (λ x. x) result (sizes_line (map (λ word. word.now) words.now)) }
{
    let (first, pages, second, frames) = four(words)?;
    if first != b"pages".as_slice()
        || !is_numeral(pages)
        || second != b"frames".as_slice()
        || !is_numeral(frames)
    {
        return refused(Why::Form);
    }
    let (Some(pages), Some(frames)) = (
        number_up_to(pages, u64::from(MOST_PAGES)),
        number_up_to(frames, u64::from(MOST_FRAMES)),
    ) else {
        return refused(Why::Range);
    };
    if pages == 0 {
        return refused(Why::Range);
    }
    Ok((pages as u32, frames as u32))
}

/// A word, and a number from 1 up to so much.
fn count_line(word: &[u8], most: u64, words: &[&[u8]]) -> Result<u64, LineRefused>
    ensures given { Reads (λ x. x) result
        (count_line word.now most (map (λ word. word.now) words.now)) }
    ensures within { IfOk result (λ count. count ≤ most) }
{
    let (first, count) = two(words)?;
    if first != word || !is_numeral(count) {
        return refused(Why::Form);
    }
    let Some(count) = number_up_to(count, most) else {
        return refused(Why::Range);
    };
    if count == 0 {
        return refused(Why::Range);
    }
    Ok(count)
}
