use disk_base::Lba;
use scan_log::*;
use sense_data::codes::INVALID_FIELD_IN_CDB;
use std::test::Fail;

const FRESH: ScanState = ScanState {
    minutes: 0,
    active: true,
    passes: 0,
    cursor: 0,
    capacity: 912,
};

// Minutes 258, two passes, and the scan at the last block, 65,464.1 parts of 65,536.
const AT_THE_END: ScanState = ScanState {
    minutes: 0x0102,
    active: false,
    passes: 2,
    cursor: 911,
    capacity: 912,
};

#[test]
fn empty_log_by_bytes(rt: HostRuntime) -> Result<(), Fail> {
    let log = ScanLog::new(rt.alloc())?;
    let results = log.page(rt.alloc(), &FRESH, 0x15, 0, 0, 0xFF)?;
    let expected = [
        0x15, 0x00, 0x00, 0x10, 0x00, 0x00, 0x03, 0x0C, 0x00, 0x00, 0x00, 0x00, 0x00, 0x01, 0x00,
        0x00, 0x00, 0x00, 0x00, 0x00,
    ];
    assert!(rt; results.as_slice() == expected.as_slice());
    let results = log.page(rt.alloc(), &AT_THE_END, 0x15, 0, 0, 0xFF)?;
    let expected = [
        0x15, 0x00, 0x00, 0x10, 0x00, 0x00, 0x03, 0x0C, 0x00, 0x00, 0x01, 0x02, 0x00, 0x00, 0x00,
        0x02, 0xFF, 0xB8, 0x00, 0x02,
    ];
    assert!(rt; results.as_slice() == expected.as_slice());
    let supported = log.page(rt.alloc(), &FRESH, 0x00, 0, 0, 0xFF)?;
    assert!(rt; supported.as_slice() == [0x00, 0x00, 0x00, 0x02, 0x00, 0x15].as_slice());
    let cut = log.page(rt.alloc(), &FRESH, 0x00, 0, 0, 3)?;
    assert!(rt; cut.as_slice() == [0x00, 0x00, 0x00].as_slice());
    for (page, subpage, pointer) in [
        (0x00, 0, 1),
        (0x00, 1, 0),
        (0x15, 0, 1),
        (0x15, 1, 0),
        (0x16, 0, 0),
    ] {
        let refused = log.page(rt.alloc(), &FRESH, page, subpage, pointer, 0xFF);
        assert!(rt;
            refused.err() == Some(PageFault::Bad(INVALID_FIELD_IN_CDB)),
            "{page} {subpage} {pointer}"
        );
    }
    Ok(())
}

// The parameters of the last and of the oldest finding that are left of seventy, at minutes 0 to 69 of block 1,000 up.
const LAST: [u8; 24] = [
    0x00, 0x40, 0x03, 0x14, 0x00, 0x00, 0x00, 0x45, 0x21, 0x18, 0x02, 0, 0, 0, 0, 0, 0, 0, 0, 0, 0,
    0, 0x04, 0x2D,
];

const OLDEST: [u8; 24] = [
    0x00, 0x01, 0x03, 0x14, 0x00, 0x00, 0x00, 0x06, 0x21, 0x18, 0x02, 0, 0, 0, 0, 0, 0, 0, 0, 0, 0,
    0, 0x03, 0xEE,
];

#[test]
fn seventy_findings(rt: HostRuntime) -> Result<(), Fail> {
    let mut log = ScanLog::new(rt.alloc())?;
    for minutes in 0..70u32 {
        log.add(Finding {
            minutes,
            status: 2,
            key: 1,
            asc: 0x18,
            ascq: 0x02,
            b: Lba(1_000 + minutes as u64),
        });
    }
    let all = log.page(rt.alloc(), &FRESH, 0x15, 0, 0, 0xFFFF)?;
    // 16 bytes of the state and 64 times 24.
    assert!(rt; all.as_slice().starts_with(&[0x15, 0x00, 0x06, 0x10]));
    assert_eq!(rt; all.as_slice().len(), 4 + 16 + 64 * 24);
    assert!(rt; all.as_slice().ends_with(&LAST));
    let findings = log.page(rt.alloc(), &FRESH, 0x15, 0, 1, 28)?;
    assert_eq!(rt; findings.as_slice().len(), 28);
    assert!(rt; findings.as_slice().starts_with(&[0x15, 0x00, 0x06, 0x00]));
    assert!(rt; findings.as_slice().ends_with(&OLDEST));
    let last = log.page(rt.alloc(), &FRESH, 0x15, 0, 64, 0xFF)?;
    assert_eq!(rt; last.as_slice().len(), 28);
    assert!(rt; last.as_slice().starts_with(&[0x15, 0x00, 0x00, 0x18]));
    assert!(rt; last.as_slice().ends_with(&LAST));
    assert!(rt; log.page(rt.alloc(), &FRESH, 0x15, 0, 65, 0xFF).is_err());
    Ok(())
}
