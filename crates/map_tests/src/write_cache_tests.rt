use disk_base::{Block, Lba};
use std::test::Fail;
use write_cache::*;

// Data that tell blocks and puts apart.
fn block_of(number: u8) -> Block {
    [number; 512]
}

#[test]
fn dirty_blocks_by_first_put(rt: HostRuntime) -> Result<(), Fail> {
    let mut cache = Cache::new(rt.alloc()).ok().ok_or("no memory")?;
    for n in 0..64 {
        assert_eq!(rt; cache.put(Lba(n), &block_of(1)), Put::Kept);
    }
    assert_eq!(rt; cache.put(Lba(64), &block_of(1)), Put::Full);
    assert_eq!(rt; cache.put(Lba(0), &block_of(2)), Put::Kept);
    assert_eq!(rt; cache.oldest_dirty(&[]), Some(Lba(0)));
    assert_eq!(rt; cache.oldest_dirty(&[Lba(1), Lba(0)]), Some(Lba(2)));
    assert!(rt; cache.look(Lba(0)) == Look::Dirty(block_of(2)));

    cache.settle(Lba(0));
    assert!(rt; cache.look(Lba(0)) == Look::Clean(block_of(2)));
    assert_eq!(rt; cache.oldest_dirty(&[]), Some(Lba(1)));
    assert!(rt; !cache.is_dirty(Lba(0)) && cache.is_dirty(Lba(1)));

    cache.forget(Lba(0));
    cache.forget(Lba(1));
    assert!(rt; cache.look(Lba(0)) == Look::Absent);
    assert!(rt; cache.look(Lba(1)) == Look::Dirty(block_of(1)));

    assert_eq!(rt; cache.next_dirty(Lba(0), Lba(64)), Some(Lba(1)));
    assert_eq!(rt; cache.next_dirty(Lba(63), Lba(64)), Some(Lba(63)));
    assert_eq!(rt; cache.next_dirty(Lba(64), Lba(65)), None);
    cache.holds_each_once();
    cache.clear();
    assert_eq!(rt; cache.oldest_dirty(&[]), None);
    assert!(rt; cache.look(Lba(1)) == Look::Absent);
    Ok(())
}

#[test]
fn clean_blocks_by_last_use(rt: HostRuntime) -> Result<(), Fail> {
    let mut cache = Cache::new(rt.alloc()).ok().ok_or("no memory")?;
    for n in 0..64 {
        assert!(rt; !cache.is_dirty(Lba(n)));
        cache.keep_clean(Lba(n), &block_of(1));
    }
    assert!(rt; cache.look(Lba(0)) == Look::Clean(block_of(1)));
    assert!(rt; !cache.is_dirty(Lba(64)));
    cache.keep_clean(Lba(64), &block_of(3));
    assert!(rt; cache.look(Lba(1)) == Look::Absent);
    for n in [0, 2, 63] {
        assert!(rt; cache.look(Lba(n)) == Look::Clean(block_of(1)));
    }
    assert!(rt; cache.look(Lba(64)) == Look::Clean(block_of(3)));

    assert_eq!(rt; cache.put(Lba(2), &block_of(4)), Put::Kept);
    cache.settle(Lba(2));
    assert!(rt; cache.look(Lba(2)) == Look::Clean(block_of(4)));
    Ok(())
}
