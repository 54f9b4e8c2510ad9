ghost use Rattle.std.specs.Prelude.{◌≡◌, ◌++◌, [], IfOk, List, ℕ};

use crate::Out;
use disk_base::{Bytes, NoMemory};
use std::alloc::Global;

/// A place in memory. Once there is no memory, it takes nothing more.
#[derive(Drop)]
pub struct ToMemory {
    bytes: Bytes,
    has_failed: bool,
}

impl ToMemory {
    pub fn new(alloc: Global) -> Self
        ensures bytes { result.bytes ≡ [] }
        ensures fresh { ⟦<ToMemory as Out>⟧.written result [] result }
    {
        ToMemory {
            bytes: Bytes::new(alloc),
            has_failed: false,
        }
    }

    /// What was put, where there was memory for all of it.
    pub fn finish(self) -> Result<Bytes, NoMemory>
        ensures { (start : _) (text : List ℕ) → ⟦<ToMemory as Out>⟧.written start text self → IfOk result (λ bytes. bytes ≡ start.bytes ++ text) }
    {
        let ToMemory { bytes, has_failed } = self;
        if has_failed {
            return Err(NoMemory);
        }
        Ok(bytes)
    }
}

impl Out for ToMemory {
    ghost use Rattle.std.specs.Prelude.{false};

    ghost written = { λ start text now. now.has_failed ≡ false → now.bytes ≡ start.bytes ++ text };

    fn put(&mut self, piece: &[u8]) {
        if !self.has_failed {
            self.has_failed = self.bytes.extend(piece).is_err();
        }
    }
}
