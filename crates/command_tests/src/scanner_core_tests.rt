use disk_base::{How, Lba};
use scanner_core::*;
use std::process::Abort;

// Answers at retry count 0 that the needed stage found the block or failed, and gives what the scan found.
fn tried(scan: &mut Scan, found: bool) -> Option<ScanFinding> {
    scan.answer(0, found)
}

#[test]
fn one_block_by_each_finding(rt: HostRuntime) {
    let mut scan = Scan::new(3);
    assert!(rt; scan.cursor() == Lba(0) && scan.need(0).how == How::Light);
    assert!(rt; tried(&mut scan, true) == Some(ScanFinding::Light));
    for stage in 0..3 {
        assert_eq!(rt; scan.need(0).number, stage);
        assert!(rt; tried(&mut scan, false).is_none());
    }
    assert!(rt; scan.cursor() == Lba(1) && scan.need(0).how == How::Full);
    assert!(rt; tried(&mut scan, true) == Some(ScanFinding::Heavy));
    for _ in 0..4 {
        assert!(rt; tried(&mut scan, false).is_none());
    }
    assert!(rt; scan.cursor() == Lba(2) && scan.need(0).how == How::Erased);
    assert!(rt; tried(&mut scan, false) == Some(ScanFinding::Unread));
    assert!(rt; scan.cursor() == Lba(0) && scan.passes() == 1);
}

#[test]
fn read_keeps_its_retry_count_until_it_is_let_go(rt: HostRuntime) {
    let mut scan = Scan::new(912);
    assert!(rt; scan.answer(2, false).is_none());
    assert!(rt; scan.is_reading());
    assert_eq!(rt; scan.need(0).reread, 1);
    scan.let_go();
    assert!(rt; !scan.is_reading());
    assert_eq!(rt; scan.need(0).number, 0);
    assert!(rt; scan.cursor() == Lba(0));
}

#[test]
fn passes_end_at_65535(rt: HostRuntime) {
    let mut scan = Scan::new(2);
    for _ in 0..131_073 {
        scan.let_go();
        scan.skip();
    }
    assert!(rt; scan.passes() == 65_535 && scan.cursor() == Lba(1));
}
