// An array of numbers in a block of a memory.
ghost use Rattle.std.specs.Prelude.{◌≡◌, ◌<◌, ◌≤◌, ◌+◌, ◌*◌, ◌^◌, IfOk, IfErr, OnOk, OnErr};
ghost use Rattle.std.specs.Prelude.{slice_set, sum};
ghost use Rattle.eleos_sarray.specs.Arrays.{bytes_of, number_of};
ghost use Rattle.eleos_base.specs.declared.memory.Op.TheVariants as ops;
ghost use Rattle.eleos_base.specs.declared.refusals.AllocRefused.TheVariants as refusals;
ghost use Rattle.eleos_base.specs.Answers.{write_reply};
ghost use Rattle.eleos_base.specs.Own.{AreTrue};
ghost use Rattle.eleos_base.specs.SubMemory.{HasCalled, HasMade, owned};
ghost use Rattle.eleos_base.specs.SubMemory.{IsReadFault, IsWriteFault};

use eleos_base::{AccessRefused, Addr, AllocRefused, SubMemory};

/// Bytes of an item.
pub const ITEM_BYTES: u32 = 8;

/// The most items of an array.
pub const MOST_ITEMS: u32 = 8192;

/// An array: where its block starts, and how many numbers it has.
#[derive(Clone, Copy, Debug, PartialEq, Eq)]
pub struct SArray {
    pub at: Addr,
    pub len: u32,
}

/// Where a run over the items stopped, and why. The items before `at` are done, and no others.
#[derive(Clone, Copy, Debug, PartialEq, Eq)]
pub struct Stopped {
    pub at: u32,
    pub why: AccessRefused,
}

/// The bytes of a number, low byte first.
#[tactic(auto, unfolding(crate::specs::Arrays::bytes_of))]
fn bytes_of(value: u64) -> [u8; 8]
    ensures { result ≡ bytes_of value }
{
    value.to_le_bytes()
}

/// The number of these bytes, low byte first.
fn number_of(bytes: &[u8; 8]) -> u64
    ensures number { result ≡ number_of bytes.now }
    ensures back { bytes_of result ≡ bytes.now }
{
    u64::from_le_bytes(*bytes)
}

impl SArray {
    ghost use Rattle.eleos_sarray.specs.Arrays.{IsArray, item, item_at, items};
    ghost use Rattle.eleos_sarray.specs.Calls.{HasSummed, IsMade};
    ghost use Rattle.eleos_sarray.specs.Calls.{fill_writes, filled, item_reply, made_reply};

    /// Makes an array of zeros in a block of its own.
    pub fn make<M: SubMemory>(mem: &mut M, len: u32) -> Result<Self, AllocRefused>
        requires some { 1 ≤ len }
        requires most { len ≤ MOST_ITEMS }
        requires left { 1 ≤ (M.state mem.old).left }
        ensures one { HasCalled (M.state mem.old)
            (ops.Alloc (8 * len)) (made_reply result) (M.state mem.new) }
        ensures made { IfOk result (λ a. IsMade (M.state mem.old) len a (M.state mem.new)) }
        ensures err { IfErr result (λ why. why ≡ refusals.NoSpace) }
    {
        match mem.alloc(ITEM_BYTES * len) {
            Ok(at) => Ok(SArray { at, len }),
            Err(why) => Err(why),
        }
    }

    /// The item, by one read.
    pub fn get<M: SubMemory>(&self, mem: &mut M, i: u32) -> Result<u64, AccessRefused>
        requires array { IsArray (owned (M.state mem.old)) self.now }
        requires within { i < self.now.len }
        requires left { 1 ≤ (M.state mem.old).left }
        ensures one { HasCalled (M.state mem.old)
            (ops.Read (item_at self.now i) 8) (item_reply result) (M.state mem.new) }
        ensures value { IfOk result (λ v. AreTrue 1024 (M.state mem.new).calls
            → v ≡ item (owned (M.state mem.old)) self.now i) }
        ensures err { IfErr result IsReadFault }
        ensures fits { IfOk result (λ v. v < 2 ^ 64) }
        ensures array { IsArray (owned (M.state mem.new)) self.now }
    {
        let mut bytes = [0; 8];
        match mem.read(self.item_at(i), &mut bytes) {
            Ok(()) => Ok(number_of(&bytes)),
            Err(why) => Err(why),
        }
    }

    /// Changes the item, by one write.
    pub fn set<M: SubMemory>(&self, mem: &mut M, i: u32, value: u64) -> Result<(), AccessRefused>
        requires array { IsArray (owned (M.state mem.old)) self.now }
        requires within { i < self.now.len }
        requires left { 1 ≤ (M.state mem.old).left }
        ensures one { HasCalled (M.state mem.old)
            (ops.Write (item_at self.now i) (bytes_of value)) (write_reply result)
            (M.state mem.new) }
        ensures ok { OnOk result (items (owned (M.state mem.new)) self.now
            ≡ slice_set (items (owned (M.state mem.old)) self.now) i value) }
        ensures err { OnErr result (items (owned (M.state mem.new)) self.now
            ≡ items (owned (M.state mem.old)) self.now) }
        ensures fault { IfErr result IsWriteFault }
        ensures array { IsArray (owned (M.state mem.new)) self.now }
    {
        mem.write(self.item_at(i), &bytes_of(value))
    }

    /// Where the item lies.
    fn item_at(&self, i: u32) -> Addr
        requires { self.now.at.at + 8 * i < 2 ^ 32 }
        ensures { result ≡ item_at self.now i }
    {
        Addr {
            enclave: self.at.enclave,
            at: self.at.at + ITEM_BYTES * i,
        }
    }

    /// Makes every item the same number, in their order.
    pub fn fill<M: SubMemory>(&self, mem: &mut M, value: u64) -> Result<(), Stopped>
        requires array { IsArray (owned (M.state mem.old)) self.now }
        requires left { self.now.len ≤ (M.state mem.old).left }
        ensures made { HasMade (M.state mem.old)
            (fill_writes self.now value result) (M.state mem.new) }
        ensures items { items (owned (M.state mem.new)) self.now
            ≡ filled value result (items (owned (M.state mem.old)) self.now) }
        ensures fault { IfErr result (λ s. (s.at < self.now.len) × IsWriteFault s.why) }
        ensures array { IsArray (owned (M.state mem.new)) self.now }
    {
        for i in 0..self.len {
            match self.set(mem, i, value) {
                Ok(()) => {}
                Err(why) => return Err(Stopped { at: i, why }),
            }
        }
        Ok(())
    }

    /// The sum of the items, by a read of each in their order.
    pub fn sum<M: SubMemory>(&self, mem: &mut M) -> Result<u128, Stopped>
        requires array { IsArray (owned (M.state mem.old)) self.now }
        requires left { self.now.len ≤ (M.state mem.old).left }
        ensures summed { HasSummed (M.state mem.old) self.now result (M.state mem.new) }
        ensures value { IfOk result (λ total. AreTrue 1024 (M.state mem.new).calls
            → total ≡ sum (items (owned (M.state mem.old)) self.now)) }
        ensures fault { IfErr result (λ s. IsReadFault s.why) }
        ensures array { IsArray (owned (M.state mem.new)) self.now }
    {
        let mut total = 0;
        for i in 0..self.len {
            match self.get(mem, i) {
                Ok(value) => total += u128::from(value),
                Err(why) => return Err(Stopped { at: i, why }),
            }
        }
        Ok(total)
    }
}
