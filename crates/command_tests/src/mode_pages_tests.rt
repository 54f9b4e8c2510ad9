use mode_pages::*;
use sense_data::Sense;
use sense_data::codes::*;
use std::test::Fail;

// Blocks of the drive.
const CAPACITY: u64 = 0x390;

const REQUEST: ModeRequest = ModeRequest {
    ten: false,
    dbd: false,
    control: 0,
    page: 0x3F,
    subpage: 0x00,
    allocation: 0xFF,
};

// A header of 10 with no descriptor, and the Caching mode page with both caches off.
const CACHES_OFF: [u8; 28] = [
    0, 0, 0, 0, 0, 0, 0, 0, 0x08, 0x12, 0, 0, 0, 0, 0, 0, 0, 0, 0, 0, 0, 0, 0, 0, 0, 0, 0, 0,
];

#[test]
fn mode_sense(rt: HostRuntime) -> Result<(), Fail> {
    let settings = Settings::default_values();
    let all = sense(&settings, CAPACITY, &REQUEST)?;
    let bytes = [
        0x2B, 0x00, 0x10, 0x08, 0x00, 0x00, 0x03, 0x90, 0x00, 0x00, 0x02, 0x00, 0x01, 0x0A, 0xC0,
        0x05, 0, 0, 0, 0, 0, 0, 0, 0, 0x08, 0x12, 0x04, 0, 0, 0, 0, 0, 0, 0, 0, 0, 0, 0, 0, 0, 0,
        0, 0, 0,
    ];
    assert!(rt; all.as_slice() == bytes.as_slice());
    let request = ModeRequest {
        ten: true,
        dbd: true,
        page: 0x08,
        ..REQUEST
    };
    let caching = sense(&settings, CAPACITY, &request)?;
    let bytes = [
        0x00, 0x1A, 0x00, 0x10, 0x00, 0x00, 0x00, 0x00, 0x08, 0x12, 0x04, 0, 0, 0, 0, 0, 0, 0, 0,
        0, 0, 0, 0, 0, 0, 0, 0, 0,
    ];
    assert!(rt; caching.as_slice() == bytes.as_slice());
    let request = ModeRequest {
        dbd: true,
        control: 1,
        page: 0x1C,
        subpage: 0x01,
        allocation: 10,
        ..REQUEST
    };
    let changeable = sense(&settings, CAPACITY, &request)?;
    let bytes = [0x13, 0x00, 0x10, 0x00, 0x5C, 0x01, 0x00, 0x0C, 0x01, 0x00];
    assert!(rt; changeable.as_slice() == bytes.as_slice());
    Ok(())
}

#[test]
fn refused_mode_sense(rt: HostRuntime) {
    for (page, subpage) in [(0x0A, 0x00), (0x1C, 0x00), (0x01, 0xFF), (0x3F, 0x01)] {
        let request = ModeRequest {
            control: 3,
            page,
            subpage,
            ..REQUEST
        };
        let refusal = sense(&Settings::default_values(), CAPACITY, &request);
        assert!(rt;
            refusal.err() == Some(INVALID_FIELD_IN_CDB),
            "{page} {subpage}"
        );
    }
    let request = ModeRequest {
        control: 3,
        ..REQUEST
    };
    let refusal = sense(&Settings::default_values(), CAPACITY, &request);
    assert!(rt; refusal.err() == Some(SAVING_PARAMETERS_NOT_SUPPORTED));
}

#[test]
fn mode_select(rt: HostRuntime) {
    let settings = Settings::default_values();
    let off = Settings {
        wce: false,
        ..settings
    };
    assert_eq!(rt; select(&settings, CAPACITY, true, &CACHES_OFF), Ok(off));
    assert_eq!(rt; select(&settings, CAPACITY, false, &[]), Ok(settings));
    // A block descriptor as it is shown, then Background Control twice, the second time with EN_BMS 0.
    let list = [
        0, 0, 0, 8, 0x00, 0x00, 0x03, 0x90, 0, 0x00, 0x02, 0x00, 0x5C, 0x01, 0, 0x0C, 1, 0, 0,
        0x18, 0, 0, 0, 0, 0, 0, 0, 0, 0xDC, 0x01, 0, 0x0C, 0, 0, 0, 0x18, 0, 0, 0, 0, 0, 0, 0, 0,
    ];
    let no_scan = Settings {
        bms: false,
        ..settings
    };
    assert_eq!(rt; select(&settings, CAPACITY, false, &list), Ok(no_scan));
}

// Lists of the six-byte form, each with one fault.
const SHORT_HEADER: &[u8] = &[0, 0, 0];

const ODD_DESCRIPTOR: &[u8] = &[0, 0, 0, 4, 0, 0, 0, 0];

const SHORT_DESCRIPTOR: &[u8] = &[0, 0, 0, 8, 0, 0, 3, 0x90, 0, 0, 2];

const BLOCK_COUNT: &[u8] = &[0, 0, 0, 8, 0, 0, 3, 0x91, 0, 0, 2, 0];

const BLOCK_LENGTH: &[u8] = &[0, 0, 0, 8, 0, 0, 3, 0x90, 0, 0, 4, 0];

const UNKNOWN_PAGE: &[u8] = &[0, 0, 0, 0, 0x0A, 2, 0, 0];

const UNKNOWN_PAGE_CUT_SHORT: &[u8] = &[0, 0, 0, 0, 0x0A, 2, 0];

const SHORT_HEAD: &[u8] = &[0, 0, 0, 0, 0x5C, 1, 0];

const PAGE_LENGTH: &[u8] = &[0, 0, 0, 0, 0x08, 2, 0, 0];

const FIXED_BIT: &[u8] = &[0, 0, 0, 0, 0x01, 0x0A, 0xC0, 5, 1, 0, 0, 0, 0, 0, 0, 0];

const MANY_RETRIES: &[u8] = &[0, 0, 0, 0, 0x01, 0x0A, 0xC0, 21, 0, 0, 0, 0, 0, 0, 0, 0];

#[test]
fn refused_mode_select(rt: HostRuntime) {
    for (list, refusal) in [
        (SHORT_HEADER, PARAMETER_LIST_LENGTH_ERROR),
        (ODD_DESCRIPTOR, INVALID_FIELD_IN_PARAMETER_LIST),
        (SHORT_DESCRIPTOR, PARAMETER_LIST_LENGTH_ERROR),
        (BLOCK_COUNT, INVALID_FIELD_IN_PARAMETER_LIST),
        (BLOCK_LENGTH, INVALID_FIELD_IN_PARAMETER_LIST),
        (UNKNOWN_PAGE, INVALID_FIELD_IN_PARAMETER_LIST),
        (UNKNOWN_PAGE_CUT_SHORT, PARAMETER_LIST_LENGTH_ERROR),
        (SHORT_HEAD, PARAMETER_LIST_LENGTH_ERROR),
        (PAGE_LENGTH, INVALID_FIELD_IN_PARAMETER_LIST),
        (FIXED_BIT, INVALID_FIELD_IN_PARAMETER_LIST),
        (MANY_RETRIES, INVALID_FIELD_IN_PARAMETER_LIST),
    ] {
        let taken = select(&Settings::default_values(), CAPACITY, false, list);
        assert_eq!(rt; taken, Err(refusal), "{list:?}");
    }
}
