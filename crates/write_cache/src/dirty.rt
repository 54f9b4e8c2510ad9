//! The list of the dirty blocks, in the order in which they became dirty. Contracts see it as the list of its items.
ghost use Rattle.std.specs.Prelude.{◌≡◌, ◌↔◌, ◌≤◌, ◌⊎◌, [], length, Some, None, MatchOption, IfSome, option_copied, option_map, find, position, not, filter};
ghost use Rattle.std.specs.List.{list_any};
ghost use Rattle.std.specs.Map.{keys_of, lookup, remove_entry};
ghost use Rattle.write_cache.specs.Contents.{is_at, is_within, put_data, dirty_room, IsLeast};

use crate::cache::Put;
use crate::held::Held;
use arrayvec::ArrayVec;
use disk_base::{Block, Lba};

/// The most blocks that are dirty at a time.
pub const DIRTY_BLOCKS: usize = 64;

/// Room for all blocks that may be dirty, so that none of them takes memory.
pub(crate) type DirtyList = ArrayVec<Held, DIRTY_BLOCKS>;

/// The data of a block.
pub(crate) fn find(list: &DirtyList, b: Lba) -> Option<&Block>
    ensures { option_copied result ≡ lookup (is_at b) list.now.items }
{
    let place = place_of(list.as_slice(), b)?;
    Some(list.as_slice()[place].block())
}

/// Puts a block's data in place of the older ones, or behind all others where there is room.
pub(crate) fn put(list: &mut DirtyList, b: Lba, block: &Block) -> Put
    ensures full { (result ≡ Put.Full) ↔ ((length list.old.items ≡ dirty_room) × (lookup (is_at b) list.old.items ≡ None)) }
    ensures kept { result ≡ Put.Kept → list.new.items ≡ put_data b block.now list.old.items }
    ensures refused { result ≡ Put.Full → list.new ≡ list.old }
{
    let held = Held::new(b, block);
    match place_of(list.as_slice(), b) {
        Some(place) => {
            list[place] = held;
            Put::Kept
        }
        None => match list.try_push(held) {
            Ok(()) => Put::Kept,
            Err(_) => Put::Full,
        },
    }
}

/// Takes a block out.
pub(crate) fn take(list: &mut DirtyList, b: Lba) -> Option<Held>
    ensures absent { result ≡ None → list.new ≡ list.old }
    ensures data_was { option_map (λ held. held.1) result ≡ lookup (is_at b) list.old.items }
    ensures rest { list.new.items ≡ remove_entry (is_at b) list.old.items }
{
    let place = place_of(list.as_slice(), b)?;
    Some(list.remove(place))
}

/// The first address that isn't skipped.
pub(crate) fn oldest(list: &DirtyList, skip: &[Lba]) -> Option<Lba>
    ensures { result ≡ find (λ b. not (list_any (is_at b) skip.now)) (keys_of list.now.items) }
{
    list.iter()
        .map(|held| held.address())
        .find(|b| !skip.contains(b))
}

/// The least address from `from` to below `to`.
pub(crate) fn least(list: &DirtyList, from: Lba, to: Lba) -> Option<Lba>
    ensures none { result ≡ None → filter (is_within from to) (keys_of list.now.items) ≡ [] }
    ensures least { IfSome result (IsLeast (filter (is_within from to) (keys_of list.now.items))) }
{
    let mut least = None;
    for held in list.as_slice() {
        let b = held.address();
        if is_within(from, to, b) {
            least = Some(lesser(least, b));
        }
    }
    least
}

fn is_within(from: Lba, to: Lba, b: Lba) -> bool
    ensures { result ≡ is_within from to b }
{
    from <= b && b < to
}

// The lesser of two addresses, where there are two.
fn lesser(least: Option<Lba>, b: Lba) -> Lba
    ensures { MatchOption least (result ≡ b) (λ k. ((result ≡ k) × (k.0 ≤ b.0)) ⊎ ((result ≡ b) × (b.0 ≤ k.0))) }
{
    match least {
        Some(k) if k <= b => k,
        _ => b,
    }
}

// The first place at which an address stands.
fn place_of(list: &[Held], b: Lba) -> Option<usize>
    ensures { result ≡ position (λ e. is_at b e.0) list.now }
{
    list.iter().position(|held| b == held.address())
}
