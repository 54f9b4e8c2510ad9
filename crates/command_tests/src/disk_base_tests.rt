use disk_base::*;
use std::test::Fail;

// A payload's first sixteen bytes, by kind: a user block, a lost mark and a map record for sector 0x01020304.
const USER_HEADING: [u8; 16] = [1, 0, 0, 0, 1, 2, 3, 4, 0, 0, 0, 0, 0, 0, 3, 0x8F];

const LOST_HEADING: [u8; 16] = [2, 0, 0, 0, 1, 2, 3, 4, 0, 0, 0, 0, 0, 0, 3, 0x8F];

const RECORD_HEADING: [u8; 16] = [
    3, 2, 1, 9, 1, 2, 3, 4, 0x11, 0x12, 0x13, 0x14, 0x15, 0x16, 0x17, 0x18,
];

#[test]
fn payloads_by_bytes(rt: HostRuntime) {
    let p = Psn(0x0102_0304);
    let user = Payload::user(p, Lba(911), &[0x5A; 512]);
    let lost = Payload::lost(p, Lba(911));
    let record = Payload::map_record(p, 2, 1, 9, 0x1112_1314_1516_1718, &[7; 512]);
    for (payload, heading, data) in [
        (user, USER_HEADING, 0x5A),
        (lost, LOST_HEADING, 0),
        (record, RECORD_HEADING, 7),
    ] {
        let bytes = payload.bytes();
        assert!(rt; &bytes[..16] == heading.as_slice());
        assert!(rt; (&bytes[16..]).iter().all(|b| *b == data));
        assert!(rt; Payload::of_bytes(bytes) == payload);
        assert_eq!(rt; payload.psn(), p);
    }
    assert_eq!(rt;
        (
            record.kind(),
            record.index(),
            record.state(),
            record.version()
        ),
        (3, 2, 1, 9)
    );
    assert_eq!(rt; record.address(), 0x1112_1314_1516_1718);
    assert!(rt; record.block() == [7; 512]);
    assert!(rt; user.value(Lba(911)) == Value::Data([0x5A; 512]));
    assert!(rt; user.value(Lba(910)) == Value::Lost);
    assert!(rt; lost.value(Lba(911)) == Value::Lost);
}

// The lengths that each group of operation codes allows.
const ALLOWED: [&[usize]; 8] = [
    &[6],
    &[10],
    &[10],
    &[6, 10, 12, 16],
    &[16],
    &[12],
    &[6, 10, 12, 16],
    &[6, 10, 12, 16],
];

#[test]
fn every_first_byte_with_every_length(rt: HostRuntime) {
    assert!(rt; Cdb::new(&[]).is_none());
    for first in 0..=255u8 {
        for len in 1..=17usize {
            let mut bytes = [0; 17];
            bytes[0] = first;
            let cdb = Cdb::new(&bytes[..len]);
            let allowed = ALLOWED[(first / 32) as usize].contains(&len);
            assert_eq!(rt; cdb.is_some(), allowed, "{first} {len}");
            if let Some(cdb) = cdb {
                assert!(rt; cdb.bytes() == &bytes[..len]);
            }
        }
    }
}

#[test]
fn lists_and_units(rt: HostRuntime) -> Result<(), Fail> {
    let alloc = rt.alloc();
    let mut bytes = Bytes::new(alloc);
    bytes.push(1)?;
    bytes.extend(&[2, 3])?;
    let copy = bytes.copy(alloc)?;
    assert_eq!(rt; copy.as_slice(), [1, 2, 3].as_slice());
    assert_eq!(rt;
        Bytes::from_vec(copy.into_vec()).as_slice(),
        bytes.as_slice()
    );
    let DataOut::Given(sent) = DataOut::Given(bytes).copy(alloc)? else {
        return Err(Fail::from("the data are given"));
    };
    assert_eq!(rt; sent.as_slice(), [1, 2, 3].as_slice());
    for number in 0..=255u8 {
        let initiator = Initiator::new(number);
        assert_eq!(rt; initiator.is_some(), (1..=8).contains(&number));
        assert_eq!(rt; initiator.map_or(number, |i| i.number()), number);
    }
    Ok(())
}
