// The names that a trace has bound so far.
ghost use Rattle.std.specs.Prelude.{◌≡◌, ◌-◌, List, ℕ, OnOk, OnErr, IfOk, replicate};
ghost use Rattle.std.specs.FinSet as set;
ghost use Rattle.eleos_trace.specs.Seen.{names_of, with_name};

use std::alloc::{AllocError, Global};
use std::collections::BTreeSet;
use std::marker::Model;

/// Names as a set. Looking one up takes the logarithm of their number.
#[derive(Drop)]
pub struct Names {
    items: BTreeSet<Vec<u8>>,
}

impl Model for Names {
    ghost use Rattle.std.specs.FinSet as set;
    ghost use Rattle.std.specs.Prelude.{ℕ, List, map};
    ghost use Rattle.std.specs.Ordering.{nat_cmp};
    ghost use Rattle.std.specs.Cmp.Lexicographic.{slice_cmp};
    ghost use Rattle.std.specs.Coded.{coded_ℕ, coded_list};

    ghost Value = { set.FinSet (slice_cmp nat_cmp) };

    ghost coded = { set.code (coded_list coded_ℕ) };

    ghost view = { λ n. set.from_list (map (λ v. v.items) n.items.keys) };
}

impl Names {
    pub fn new(alloc: Global) -> Self
        ensures { result ≡ set.empty }
    {
        Names {
            items: BTreeSet::new(alloc),
        }
    }

    pub fn has(&self, name: &[u8]) -> bool
        ensures { result ≡ set.contains self.now name.now }
    {
        self.items.contains(name)
    }

    pub fn add(&mut self, alloc: Global, name: &[u8]) -> Result<(), AllocError>
        ensures ok { OnOk result (self.new ≡ set.insert self.old name.now) }
        ensures err { OnErr result (self.new ≡ self.old) }
    {
        self.items.insert(name.to_vec(alloc)?)?;
        Ok(())
    }
}

/// Names by their callers, which are numbered from 1.
#[derive(Drop)]
pub struct ByCaller {
    sets: Vec<Names>,
}

impl Model for ByCaller {
    ghost use Rattle.std.specs.FinSet as set;
    ghost use Rattle.std.specs.Prelude as prelude;
    ghost use Rattle.std.specs.Ordering.{nat_cmp};
    ghost use Rattle.std.specs.Cmp.Lexicographic.{slice_cmp};
    ghost use Rattle.std.specs.Coded.{coded_ℕ, coded_list};

    ghost Value = { prelude.List (set.FinSet (slice_cmp nat_cmp)) };

    ghost coded = { coded_list (set.code (coded_list coded_ℕ)) };

    ghost view = { λ names. names.sets.items };
}

impl ByCaller {
    /// No names of so many callers.
    pub fn of(alloc: Global, callers: usize) -> Result<Self, AllocError>
        ensures { IfOk result (λ names. names ≡ replicate callers set.empty) }
    {
        let mut sets = Vec::new(alloc);
        for _ in 0..callers {
            sets.push(Names::new(alloc))?;
        }
        Ok(ByCaller { sets })
    }

    /// A caller that there is not has no names.
    pub fn has(&self, caller: u32, name: &[u8]) -> bool
        ensures { result ≡ set.contains (names_of self.now caller) name.now }
    {
        match self.sets.get(place_of(caller)) {
            Some(names) => names.has(name),
            None => false,
        }
    }

    /// A caller that there is not gets no name.
    pub fn add(&mut self, alloc: Global, caller: u32, name: &[u8]) -> Result<(), AllocError>
        ensures ok { OnOk result (self.new ≡ with_name self.old caller name.now) }
        ensures err { OnErr result (self.new ≡ self.old) }
    {
        if let Some(names) = self.sets.get_mut(place_of(caller)) {
            names.add(alloc, name)?;
        }
        Ok(())
    }
}

/// The place of a caller in a list of all.
fn place_of(caller: u32) -> usize
    ensures { result ≡ caller - 1 }
{
    caller.saturating_sub(1) as usize
}
