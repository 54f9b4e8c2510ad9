use disk_base::{Attribute, Initiator, Tag};
use std::process::Abort;
use std::test::Fail;
use task_set::*;

// A command of an initiator that touches nothing; its tag is its number's last two digits.
fn task(c: u32, initiator: Initiator, attribute: Attribute) -> Task {
    Task {
        c,
        initiator,
        tag: Tag((c % 100) as u16),
        attribute,
        touch: Touch::Nothing,
    }
}

fn enter(rt: &impl Abort, set: &mut TaskSet, task: &Task) -> Arrive {
    let newest = set.members().iter().all(|m| m.task.c < task.c);
    assert!(rt; newest);
    set.arrive(*task)
}

// What keeps a command of the set from running.
fn blocker(rt: &impl Abort, set: &TaskSet, c: u32) -> Option<u32> {
    assert!(rt; set.member(c).is_some());
    set.may_run(c)
}

#[test]
fn ordered_in_front(rt: HostRuntime) -> Result<(), Fail> {
    let first = Initiator::new(1).ok_or("the first")?;
    let mut set = TaskSet::new();
    for (c, attribute) in [
        (1, Attribute::Ordered),
        (2, Attribute::Simple),
        (3, Attribute::Head),
    ] {
        assert_eq!(rt;
            enter(&rt, &mut set, &task(c, first, attribute)),
            Arrive::Entered
        );
    }
    for (c, keeps) in [(1, Some(3)), (2, Some(1)), (3, None)] {
        assert_eq!(rt; blocker(&rt, &set, c), keeps, "{c}");
    }
    for c in [3, 1] {
        assert!(rt; set.member(c).is_some());
        set.start(c);
        assert!(rt; set.member(c).is_some_and(|m| m.started));
        set.end(c);
        assert!(rt; set.member(c).is_none());
    }
    assert_eq!(rt; blocker(&rt, &set, 2), None);
    Ok(())
}

const READ: bool = false;

const WRITE: bool = true;

// Two ranges, each as its first block, its length and whether it is written, and whether they collide.
const RANGES: [((u64, u64, bool), (u64, u64, bool), bool); 10] = [
    ((0, 8, READ), (4, 8, READ), false),
    ((0, 8, WRITE), (7, 8, READ), true),
    ((0, 8, WRITE), (8, 8, READ), false),
    ((0, 8, WRITE), (4, 8, WRITE), true),
    ((0, 8, WRITE), (2, 1, READ), true),
    ((0, 8, WRITE), (4, 0, READ), false),
    ((4, 0, WRITE), (4, 0, WRITE), false),
    ((u64::MAX, 2, WRITE), (0, 1, READ), false),
    ((u64::MAX, 2, WRITE), (u64::MAX, 1, READ), true),
    ((1, u64::MAX, WRITE), (u64::MAX, u64::MAX, READ), true),
];

#[test]
fn ranges_that_collide(rt: HostRuntime) {
    for ((from, count, writes), other, expected) in RANGES {
        let a = Touch::Range {
            from,
            count,
            writes,
        };
        let (from, count, writes) = other;
        let b = Touch::Range {
            from,
            count,
            writes,
        };
        assert_eq!(rt; collide(&a, &b), expected, "{a:?} {b:?}");
        assert_eq!(rt; collide(&b, &a), expected, "{b:?} {a:?}");
        assert_eq!(rt; collide(&a, &Touch::Nothing), false);
        assert!(rt; collide(&Touch::All, &Touch::All));
    }
}

#[test]
fn sixty_five_commands(rt: HostRuntime) -> Result<(), Fail> {
    let first = Initiator::new(1).ok_or("the first")?;
    let mut set = TaskSet::new();
    for c in 1..=64 {
        let attribute = if c == 1 {
            Attribute::Ordered
        } else {
            Attribute::Simple
        };
        assert_eq!(rt;
            enter(&rt, &mut set, &task(c, first, attribute)),
            Arrive::Entered
        );
    }
    assert_eq!(rt;
        enter(&rt, &mut set, &task(65, first, Attribute::Simple)),
        Arrive::SetFull
    );
    assert_eq!(rt; set.members().len(), 64);
    assert_eq!(rt; blocker(&rt, &set, 64), Some(1));
    Ok(())
}

#[test]
fn functions(rt: HostRuntime) -> Result<(), Fail> {
    let first = Initiator::new(1).ok_or("the first")?;
    let second = Initiator::new(2).ok_or("the second")?;
    let mut set = TaskSet::new();
    for (c, initiator) in [
        (7, first),
        (107, first),
        (207, second),
        (208, first),
        (300, second),
    ] {
        assert_eq!(rt;
            enter(&rt, &mut set, &task(c, initiator, Attribute::Simple)),
            Arrive::Entered
        );
    }
    assert_eq!(rt; set.abort(first, Tag(7)).as_slice(), [7, 107].as_slice());
    assert_eq!(rt; set.abort(first, Tag(7)).as_slice(), [].as_slice());
    assert_eq!(rt; set.abort_set(second).as_slice(), [207, 300].as_slice());
    assert_eq!(rt; set.clear().as_slice(), [208].as_slice());
    assert!(rt; set.members().is_empty());
    Ok(())
}
