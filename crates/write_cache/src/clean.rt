//! The clean blocks, by their last use. Contracts see them as the list of their entries, the most recent first.
ghost use Rattle.std.specs.Prelude.{◌≡◌, ◌≤◌, ◌⊎◌, length, None};
ghost use Rattle.std.specs.Map.{lookup};
ghost use Rattle.write_cache.specs.Contents.{is_at, in_front, clean_room};

use disk_base::{Block, Lba};
use lru::LruCache;

/// The most blocks that are kept clean.
pub const CLEAN_BLOCKS: usize = 64;

pub(crate) type CleanList = LruCache<Lba, Block>;

/// Makes a block the most recent one, with these data, where memory allows. One that is there already takes none.
pub(crate) fn keep(clean: &mut CleanList, b: Lba, block: &Block)
    requires capacity { clean.old.cap ≡ clean_room }
    requires fit { length clean.old.entries ≤ clean_room }
    ensures entries { (clean.new.entries ≡ in_front b block.now clean.old.entries)
        ⊎ ((clean.new.entries ≡ clean.old.entries) × (lookup (is_at b) clean.old.entries ≡ None)) }
    ensures capacity { clean.new.cap ≡ clean_room }
{
    let _ = clean.put(b, *block);
}
