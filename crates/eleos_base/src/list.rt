// Lists that public data holds.
ghost use Rattle.std.specs.Prelude.{◌≡◌, IfOk, length};

use crate::NoMemory;
use std::alloc::Global;
use std::marker::Model;

/// Owned items, of which contracts see the list alone.
#[derive(Debug, Drop)]
pub struct List<T> {
    items: Vec<T>,
}

/// Owned bytes.
pub type Bytes = List<u8>;

impl<T> Model for List<T> {
    ghost use Rattle.std.specs.Prelude as prelude;

    ghost Value = { prelude.List T };

    ghost view = { λ list. list.items.items };
}

impl<T> List<T> {
    /// Takes no memory, as `into_vec`.
    pub fn of(items: Vec<T>) -> Self
        ensures { result ≡ items.items }
    {
        List { items }
    }

    pub fn into_vec(self) -> Vec<T>
        ensures { result.items ≡ self }
    {
        let List { items } = self;
        items
    }

    pub fn as_slice(&self) -> &[T]
        ensures { result.now ≡ self.now }
    {
        &self.items
    }

    pub fn len(&self) -> usize
        ensures { result ≡ length self.now }
    {
        self.items.len()
    }
}

impl<T: Copy> List<T> {
    pub fn copy(&self, alloc: Global) -> Result<Self, NoMemory>
        ensures { IfOk result (λ list. list ≡ self.now) }
    {
        Ok(List {
            items: Vec::from_slice(alloc, &self.items)?,
        })
    }
}
