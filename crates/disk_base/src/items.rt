ghost use Rattle.std.specs.Prelude.{◌≡◌, [], ◌∷◌, ◌++◌, OnOk, OnErr, IfOk};

use crate::NoMemory;
use std::alloc::Global;
use std::marker::Model;

/// A list, which contracts see as a list. It keeps the allocator that it was made with.
#[derive(Debug, Drop)]
pub struct Items<T> {
    vec: Vec<T>,
}

/// Bytes, as a command's data or a text.
pub type Bytes = Items<u8>;

/// Numbers of calls, counted from 1.
pub type Calls = Items<u64>;

impl<T> Model for Items<T> {
    ghost use Rattle.std.specs.Prelude.{List};

    ghost Value = { List T };

    ghost view = { λ a. a.vec.items };
}

impl<T> Items<T> {
    /// The empty list, which takes no memory.
    pub fn new(alloc: Global) -> Self
        ensures { result ≡ [] }
    {
        Items {
            vec: Vec::new(alloc),
        }
    }

    /// Wraps a vector as it is.
    pub fn from_vec(vec: Vec<T>) -> Self
        ensures { result ≡ vec.items }
    {
        Items { vec }
    }

    /// Gives the vector back as it is.
    pub fn into_vec(self) -> Vec<T>
        ensures { result.items ≡ self }
    {
        let Items { vec } = self;
        vec
    }

    pub fn as_slice(&self) -> &[T]
        ensures { result.now ≡ self.now }
    {
        self.vec.as_slice()
    }
}

impl<T: Drop> Items<T> {
    /// Adds an item at the end.
    pub fn push(&mut self, item: T) -> Result<(), NoMemory>
        ensures ok { OnOk result (self.new ≡ self.old ++ item ∷ []) }
        ensures err { OnErr result (self.new ≡ self.old) }
    {
        self.vec.push(item)?;
        Ok(())
    }
}

impl<T: Copy> Items<T> {
    /// Adds the items of a slice at the end, all or none.
    pub fn extend(&mut self, more: &[T]) -> Result<(), NoMemory>
        ensures ok { OnOk result (self.new ≡ self.old ++ more.now) }
        ensures err { OnErr result (self.new ≡ self.old) }
    {
        self.vec.extend_from_slice(more)?;
        Ok(())
    }

    /// An equal list in memory of its own.
    pub fn copy(&self, alloc: Global) -> Result<Self, NoMemory>
        ensures { IfOk result (λ list. list ≡ self.now) }
    {
        let vec = Vec::from_slice(alloc, self.vec.as_slice())?;
        Ok(Items { vec })
    }
}
