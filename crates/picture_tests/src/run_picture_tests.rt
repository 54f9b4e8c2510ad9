use block_machine::{Entries, Entry, Label, Turn};
use disk_base::Lba;
use platter_model::World;
use run_picture::*;
use std::alloc::Global;
use std::test::Fail;

// Three minutes pass, and a block is given up.
fn turn_of_two_entries(alloc: Global) -> Result<Turn, Fail> {
    let mut entries = Entries::new(alloc);
    entries.push(Entry::Tick { minutes: 3 })?;
    entries.push(Entry::GiveUp { b: Lba(7) })?;
    Ok(Turn {
        label: Label::World(World::Minutes(3)),
        ops_from: 0,
        ops_to: 0,
        entries,
    })
}

#[test]
fn one_turn_is_drawn(rt: HostRuntime) -> Result<(), Fail> {
    let turns = [turn_of_two_entries(rt.alloc())?];
    let points = points_of(rt.alloc(), turns.as_slice())?;
    assert_eq!(rt; points.as_slice().len(), 3);
    // The label, both entries, and the stretch over which the block is dirty.
    let marks = marks_of(rt.alloc(), turns.as_slice())?;
    assert_eq!(rt; marks.as_slice().len(), 4);
    let first = Window { from: 1, to: 1 };
    let shown = shown_of(rt.alloc(), first, marks.as_slice())?;
    assert_eq!(rt; shown.as_slice().len(), 4);
    assert_eq!(rt;
        blocks_of(rt.alloc(), shown.as_slice())?.as_slice().len(),
        1
    );
    let text = draw(rt.alloc(), turns.as_slice(), first)
        .ok()
        .ok_or("a picture")?;
    assert!(rt; text.as_slice().starts_with(b"<svg "));
    Ok(())
}
