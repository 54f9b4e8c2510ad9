use disk_base::{How, Stage};
use read_recovery::*;

// The stages of retry count 2: number, reread, head offset, decoding.
const TABLE: [(u8, u8, i8, How); 7] = [
    (0, 0, 0, How::Light),
    (1, 1, 0, How::Light),
    (2, 2, 0, How::Light),
    (3, 2, 1, How::Light),
    (4, 2, -1, How::Light),
    (5, 2, 0, How::Full),
    (6, 2, 0, How::Erased),
];

#[test]
fn table_of_two_retries(rt: HostRuntime) {
    let found = stages(2);
    assert_eq!(rt; found.len(), 7);
    let mut trying = Trying::new(2);
    for (at, (number, reread, offset, how)) in TABLE.iter().enumerate() {
        let stage = Stage {
            number: *number,
            reread: *reread,
            offset: *offset,
            how: *how,
        };
        assert!(rt; found.get(at) == Some(&stage));
        assert_eq!(rt; is_heavy(&stage), at >= 5);
        assert!(rt; trying.next() == Some(stage));
        assert!(rt; trying.found_at().is_none());
        if trying.next().is_some() {
            trying.answer(false);
        }
    }
    assert!(rt; trying.next().is_none());
    assert!(rt; trying.found_at().is_none());
}

#[test]
fn a_stage_finds(rt: HostRuntime) {
    let mut trying = Trying::new(0);
    if trying.next().is_some() {
        trying.answer(false);
    }
    let ahead = trying.next();
    assert!(rt; ahead.is_some());
    trying.answer(true);
    assert!(rt; trying.found_at() == ahead);
    assert!(rt; trying.next().is_none());
    assert_eq!(rt; stages(0).len(), 5);
    assert_eq!(rt; stages(20).len(), STAGES_MAX);
}
