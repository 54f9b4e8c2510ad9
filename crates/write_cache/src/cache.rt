//! The cache and its calls.
ghost use Rattle.std.specs.Prelude.{◌≡◌, ◌↔◌, ◌⊎◌, [], IsTrue, IsSome, IfSome, IfOk, None};
ghost use Rattle.write_cache.specs.Contents.{empty, newest, clean_data, found_at, after_look, oldest_but, dirty_within, IsLeast};
ghost use Rattle.write_cache.specs.Contents.{IsCache, IsFullFor, with_newest, with_clean, without_dirty, without_clean};

use crate::clean::{self, CLEAN_BLOCKS, CleanList};
use crate::dirty::{self, DirtyList};
use disk_base::{Block, Lba, NoMemory};
use std::alloc::Global;
use std::marker::Model;
use std::num::NonZeroUsize;

/// What a look at a block finds.
#[derive(Clone, Copy, Debug, PartialEq, Eq)]
pub enum Look {
    /// The newest data of a dirty block.
    Dirty(Block),
    /// The data of a clean block.
    Clean(Block),
    /// The block is neither.
    Absent,
}

/// Whether a put found room.
#[derive(Clone, Copy, Debug, PartialEq, Eq)]
pub enum Put {
    Kept,
    Full,
}

/// A cache of blocks, which contracts see as two lists: the dirty ones in the order in which they became dirty, and the
/// clean ones by their last use, the most recent first.
#[derive(Drop)]
pub struct Cache {
    // Behind a box, so that moving a cache copies no block.
    dirty: Box<DirtyList>,
    clean: CleanList,
}

impl Model for Cache {
    ghost use Rattle.std.specs.Prelude.{◌≡◌};
    ghost use Rattle.write_cache.specs.Contents.{Contents, IsCache, clean_room};

    ghost Value = { Contents };

    ghost view = { λ c. record { dirty = c.dirty.value.items; clean = c.clean.entries } };

    ghost invariant = { λ c. IsCache (record { dirty = c.dirty.value.items; clean = c.clean.entries }) × (c.clean.cap ≡ clean_room) };
}

impl Cache {
    /// A cache that holds nothing.
    pub fn new(alloc: Global) -> Result<Self, NoMemory>
        ensures { IfOk result (λ cache. cache ≡ empty) }
    {
        let dirty = Box::new(alloc, DirtyList::new())?;
        let room = NonZeroUsize::new(CLEAN_BLOCKS).unwrap();
        let clean = CleanList::new(alloc, room)?;
        Ok(Cache { dirty, clean })
    }

    /// Holds of every cache: each half has room for what it holds, and no block stands twice.
    pub fn holds_each_once(&self)
        ensures { IsCache self.now }
    {
        let _ = &self.dirty;
    }

    /// Whether a block is dirty.
    pub fn is_dirty(&self, b: Lba) -> bool
        ensures { IsTrue result ↔ IsSome (newest b self.now) }
    {
        dirty::find(&self.dirty, b).is_some()
    }

    /// Looks a block up. A clean one becomes the most recent.
    pub fn look(&mut self, b: Lba) -> Look
        ensures found { result ≡ found_at b self.old }
        ensures used { self.new ≡ after_look b self.old }
    {
        if let Some(block) = dirty::find(&self.dirty, b) {
            return Look::Dirty(*block);
        }
        match self.clean.get(&b) {
            Some(block) => Look::Clean(*block),
            None => Look::Absent,
        }
    }

    /// Puts the newest data of a block, which go to their place later. It takes no memory.
    pub fn put(&mut self, b: Lba, block: &Block) -> Put
        // A full cache still takes a block that is dirty already.
        ensures full { (result ≡ Put.Full) ↔ IsFullFor b self.old }
        ensures kept { result ≡ Put.Kept → self.new ≡ with_newest b block.now self.old }
        ensures refused { result ≡ Put.Full → self.new ≡ self.old }
    {
        match dirty::put(&mut self.dirty, b, block) {
            Put::Kept => {
                let _ = self.clean.pop(&b);
                Put::Kept
            }
            Put::Full => Put::Full,
        }
    }

    /// Ends that a block is dirty, once its newest data are at their place: it is kept clean with them where memory allows.
    pub fn settle(&mut self, b: Lba)
        ensures not_dirty { newest b self.old ≡ None → self.new ≡ self.old }
        ensures settled { IfSome (newest b self.old) (λ block.
            (self.new ≡ with_clean b block (without_dirty b self.old)) ⊎ (self.new ≡ without_dirty b self.old)) }
    {
        if let Some(held) = dirty::take(&mut self.dirty, b) {
            clean::keep(&mut self.clean, b, held.block());
        }
    }

    /// Keeps a block clean, as the most recent, where memory allows.
    pub fn keep_clean(&mut self, b: Lba, block: &Block)
        requires { newest b self.old ≡ None }
        // Memory is refused only to a block that isn't clean yet.
        ensures { (self.new ≡ with_clean b block.now self.old)
            ⊎ ((self.new ≡ self.old) × (clean_data b self.old ≡ None)) }
    {
        clean::keep(&mut self.clean, b, block);
    }

    /// Ends that a block is clean. A dirty one stays dirty.
    pub fn forget(&mut self, b: Lba)
        ensures { self.new ≡ without_clean b self.old }
    {
        self.clean.pop(&b);
    }

    /// The block that has been dirty for longest, of those that aren't skipped.
    pub fn oldest_dirty(&self, skip: &[Lba]) -> Option<Lba>
        ensures { result ≡ oldest_but skip.now self.now }
    {
        dirty::oldest(&self.dirty, skip)
    }

    /// The dirty block of the least address from `from` to below `to`.
    pub fn next_dirty(&self, from: Lba, to: Lba) -> Option<Lba>
        ensures none { result ≡ None → dirty_within from to self.now ≡ [] }
        ensures least { IfSome result (IsLeast (dirty_within from to self.now)) }
    {
        dirty::least(&self.dirty, from, to)
    }

    /// Empties both halves.
    pub fn clear(&mut self)
        ensures { self.new ≡ empty }
    {
        self.dirty.clear();
        self.clean.clear();
    }
}
