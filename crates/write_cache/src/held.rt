//! A block beside its address.
ghost use Rattle.std.specs.Prelude.{◌≡◌};

use disk_base::{BLOCK_LENGTH, Block, Lba};
use std::marker::Model;

/// A block beside its address, which contracts see as a pair.
#[derive(Drop)]
pub(crate) struct Held {
    address: Lba,
    block: Block,
}

impl Model for Held {
    ghost use Rattle.std.specs.Prelude.{ℕ, List};
    ghost use Rattle.disk_base.specs.declared.address.Lba.{Lba};

    ghost Value = { Lba × List ℕ };

    ghost view = { λ h. (h.address, h.block) };
}

// The blank of the places that are free.
impl Default for Held {
    fn default() -> Self {
        Held {
            address: Lba(0),
            block: [0; BLOCK_LENGTH],
        }
    }
}

impl Held {
    pub(crate) fn new(address: Lba, block: &Block) -> Self
        ensures { result ≡ (address, block.now) }
    {
        Held {
            address,
            block: *block,
        }
    }

    pub(crate) fn address(&self) -> Lba
        ensures { result ≡ self.now.0 }
    {
        self.address
    }

    pub(crate) fn block(&self) -> &Block
        ensures { result.now ≡ self.now.1 }
    {
        &self.block
    }
}
