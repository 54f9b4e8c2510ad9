use inquiry_data::*;
use sense_data::codes::INVALID_FIELD_IN_CDB;
use std::test::Fail;

// Standard INQUIRY data, and the pages of vital product data up to their trailing zeros.
const STANDARD: [u8; 36] = [
    0x00, 0x00, 0x06, 0x02, 0x1F, 0x00, 0x00, 0x02, 0x50, 0x4C, 0x41, 0x54, 0x54, 0x45, 0x52, 0x20,
    0x53, 0x49, 0x4D, 0x55, 0x4C, 0x41, 0x54, 0x45, 0x44, 0x20, 0x44, 0x49, 0x53, 0x4B, 0x20, 0x20,
    0x30, 0x31, 0x30, 0x30,
];

const PAGE_CODES: [u8; 9] = [0x00, 0x00, 0x00, 0x05, 0x00, 0x80, 0x83, 0xB0, 0xB1];

const SERIAL_NUMBER: [u8; 12] = [
    0x00, 0x80, 0x00, 0x08, 0x30, 0x30, 0x30, 0x30, 0x30, 0x30, 0x30, 0x31,
];

const IDENTIFICATION: [u8; 24] = [
    0x00, 0x83, 0x00, 0x14, 0x02, 0x01, 0x00, 0x10, 0x50, 0x4C, 0x41, 0x54, 0x54, 0x45, 0x52, 0x20,
    0x30, 0x30, 0x30, 0x30, 0x30, 0x30, 0x30, 0x31,
];

const LIMITS: [u8; 12] = [
    0x00, 0xB0, 0x00, 0x3C, 0x00, 0x00, 0x00, 0x00, 0x00, 0x00, 0x01, 0x00,
];

const CHARACTERISTICS: [u8; 6] = [0x00, 0xB1, 0x00, 0x3C, 0x1C, 0x20];

#[test]
fn identity_by_bytes(rt: HostRuntime) -> Result<(), Fail> {
    for (evpd, page, head, len) in [
        (false, 0x00, STANDARD.as_slice(), 36),
        (true, 0x00, PAGE_CODES.as_slice(), 9),
        (true, 0x80, SERIAL_NUMBER.as_slice(), 12),
        (true, 0x83, IDENTIFICATION.as_slice(), 24),
        (true, 0xB0, LIMITS.as_slice(), 64),
        (true, 0xB1, CHARACTERISTICS.as_slice(), 64),
    ] {
        let data = inquiry(evpd, page, 0xFF)?;
        assert_eq!(rt; data.len(), len, "{page}");
        assert!(rt; data.as_slice().starts_with(head), "{page}");
        assert!(rt;
            data.iter().skip(head.len()).all(|byte| *byte == 0),
            "{page}"
        );
    }
    assert!(rt; inquiry(false, 0, 5)?.as_slice() == [0x00, 0x00, 0x06, 0x02, 0x1F].as_slice());
    assert!(rt; inquiry(true, 0xB1, 0)?.is_empty());
    for (evpd, page) in [(false, 0x80), (true, 0x01), (true, 0xB2)] {
        assert!(rt;
            inquiry(evpd, page, 0xFF).err() == Some(INVALID_FIELD_IN_CDB),
            "{page}"
        );
    }
    Ok(())
}

#[test]
fn capacity_of_912_blocks(rt: HostRuntime) {
    assert!(rt; capacity_10(912) == [0x00, 0x00, 0x03, 0x8F, 0x00, 0x00, 0x02, 0x00]);
    let long = capacity_16(912, 0xFFFF_FFFF);
    let head = [
        0x00, 0x00, 0x00, 0x00, 0x00, 0x00, 0x03, 0x8F, 0x00, 0x00, 0x02, 0x00,
    ];
    assert_eq!(rt; long.len(), 32);
    assert!(rt; long.as_slice().starts_with(&head));
    assert!(rt; long.iter().skip(12).all(|byte| *byte == 0));
    assert!(rt; capacity_16(912, 12).as_slice() == head.as_slice());
}

#[test]
fn logical_units_by_select(rt: HostRuntime) -> Result<(), Fail> {
    let list = [0x00, 0x00, 0x00, 0x08, 0, 0, 0, 0, 0, 0, 0, 0, 0, 0, 0, 0];
    assert!(rt; report_luns(0x00, 16)?.as_slice() == list.as_slice());
    assert!(rt; report_luns(0x01, 16)?.as_slice() == [0; 8].as_slice());
    assert!(rt; report_luns(0x02, 4)?.as_slice() == &list[..4]);
    assert!(rt; report_luns(0x03, 16).err() == Some(INVALID_FIELD_IN_CDB));
    Ok(())
}
