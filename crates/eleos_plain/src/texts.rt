// The bytes of an enclave's sub-pages.
ghost use Rattle.std.specs.Prelude.{◌≡◌, ◌+◌, ◌-◌, ◌^◌, ◌<◌, ◌≤◌, ℕ, [], length, replicate};
ghost use Rattle.std.specs.Prelude.{slice_index_or, slice_set, IfOk, OnOk, OnErr, None};
ghost use Rattle.std.specs.Prelude.{if◌then◌else◌};
ghost use Rattle.std.specs.BTreeMap.{get};
ghost use Rattle.std.specs.List.{splice};
ghost use Rattle.std.specs.Ordering.{nat_cmp};
ghost use Rattle.eleos_base.specs.Lists.{map_from};
ghost use Rattle.eleos_base.specs.Plain.{is_in_run, zeros};

use eleos_base::{Bytes, NoMemory, SUB_BYTES};
use std::alloc::Global;
use std::collections::BTreeMap;
use std::marker::Model;

/// The bytes of each sub-page of an enclave. Those that were written since they were last cleared
/// stand in a map, and all others are zeros.
#[derive(Drop)]
pub(crate) struct Texts {
    count: u32,
    written: BTreeMap<u32, Bytes>,
    blank: Bytes,
}

impl Model for Texts {
    ghost use Rattle.std.specs.Prelude.{List, ℕ};

    ghost Value = { List (List ℕ) };

    ghost use Rattle.eleos_plain.specs.Texts.{AreTexts, texts_of};

    ghost view = { λ t. texts_of t.written t.count };

    ghost invariant = { λ t. AreTexts t.written t.blank };
}

impl Texts {
    /// So many sub-pages of zeros.
    pub(crate) fn blank(alloc: Global, count: u32) -> Result<Self, NoMemory>
        ensures { IfOk result (λ texts. texts ≡ replicate count (zeros 1024)) }
    {
        Ok(Texts {
            count,
            written: BTreeMap::new(alloc),
            blank: zero_bytes(alloc, SUB_BYTES as usize)?,
        })
    }

    /// How many sub-pages there are.
    pub(crate) fn count(&self) -> u32
        ensures { result ≡ length self.now }
    {
        self.count
    }

    /// The bytes of a sub-page.
    pub(crate) fn text(&self, sub: u32) -> &[u8]
        requires { sub < length self.now }
        ensures text { result.now ≡ slice_index_or self.now sub [] }
        ensures whole { length result.now ≡ 1024 }
    {
        match self.written.get(&sub) {
            Some(text) => text.as_slice(),
            None => self.blank.as_slice(),
        }
    }

    /// Writes within a sub-page. After want of memory nothing has changed.
    pub(crate) fn write(
        &mut self,
        alloc: Global,
        sub: u32,
        from: usize,
        bytes: &[u8],
    ) -> Result<(), NoMemory>
        requires sub { sub < length self.old }
        requires within { from + length bytes.now ≤ 1024 }
        ensures ok { OnOk result (self.new ≡ slice_set self.old sub
            (splice (slice_index_or self.old sub []) from (from + length bytes.now) bytes.now)) }
        ensures err { OnErr result (self.new ≡ self.old) }
    {
        let text = rewritten(alloc, self.text(sub), from, bytes)?;
        self.written.insert(sub, text)?;
        Ok(())
    }

    /// Clears the sub-pages of a run.
    pub(crate) fn clear(&mut self, start: u32, len: u32)
        requires { start + len ≤ length self.old }
        ensures { self.new ≡ map_from
            (λ s text. if is_in_run start len s then zeros 1024 else text) 0 self.old }
    {
        forget(&mut self.written, start, len);
    }
}

/// So many zero bytes.
fn zero_bytes(alloc: Global, count: usize) -> Result<Bytes, NoMemory>
    ensures { IfOk result (λ bytes. bytes ≡ replicate count 0) }
{
    let mut bytes = Vec::new(alloc);
    bytes.resize(count, 0)?;
    Ok(Bytes::of(bytes))
}

/// A copy of the text with other bytes from a place on.
fn rewritten(alloc: Global, text: &[u8], from: usize, bytes: &[u8]) -> Result<Bytes, NoMemory>
    requires { from + length bytes.now ≤ length text.now }
    ensures { IfOk result (λ new.
        new ≡ splice text.now from (from + length bytes.now) bytes.now) }
{
    let mut new = Vec::from_slice(alloc, text)?;
    new[from..from + bytes.len()].copy_from_slice(bytes);
    Ok(Bytes::of(new))
}

/// Takes the entries of a run of sub-pages out.
fn forget(written: &mut BTreeMap<u32, Bytes>, start: u32, len: u32)
    requires { start + len < 2 ^ 32 }
    ensures { (s : ℕ) → get nat_cmp written.new s
        ≡ (if is_in_run start len s then None else get nat_cmp written.old s) }
{
    for sub in start..start + len {
        let _ = written.remove(&sub);
    }
}
