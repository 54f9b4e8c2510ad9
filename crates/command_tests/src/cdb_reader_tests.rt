use cdb_reader::*;
use disk_base::{Bytes, Cdb, DataOut};
use sense_data::Sense;
use sense_data::codes::{
    ADDRESS_OUT_OF_RANGE, INVALID_FIELD_IN_CDB, INVALID_FIELD_IN_PARAMETER_LIST,
    INVALID_OPERATION_CODE, PARAMETER_LIST_LENGTH_ERROR,
};
use std::alloc::Global;
use std::test::Fail;
use task_set::Touch;

// Blocks of the default disk.
const CAPACITY: u64 = 912;

// The data that go with a command block.
#[derive(Clone, Copy, Debug)]
enum Data {
    Nothing,
    Fill,
    Given(usize),
}

const FIELD: Option<Sense> = Some(INVALID_FIELD_IN_CDB);

const RANGE: Option<Sense> = Some(ADDRESS_OUT_OF_RANGE);

const LENGTH: Option<Sense> = Some(PARAMETER_LIST_LENGTH_ERROR);

// Command blocks with their data, and why each is refused. Bytes left out at the end are 0.
const ROWS: [(&[u8], Data, Option<Sense>); 56] = [
    (&[0x00], Data::Nothing, None),
    (&[0x00, 0, 0, 0, 0, 4], Data::Nothing, FIELD),
    (&[0x00, 0, 0, 0, 0, 3], Data::Given(1), None),
    (&[0x03], Data::Nothing, None),
    (&[0x03, 1], Data::Nothing, FIELD),
    (&[0x04], Data::Nothing, Some(INVALID_OPERATION_CODE)),
    (&[0x07], Data::Nothing, LENGTH),
    (&[0x07], Data::Fill, LENGTH),
    (&[0x07], Data::Given(4), None),
    (&[0x07], Data::Given(5), LENGTH),
    (&[0x12, 0, 1], Data::Nothing, None),
    (&[0x15, 0x10, 0, 0, 4], Data::Given(4), None),
    (&[0x15, 0x10, 0, 0, 4], Data::Given(3), LENGTH),
    (&[0x15, 0x10, 0, 0, 4], Data::Nothing, LENGTH),
    (&[0x15, 0x11, 0, 0, 4], Data::Given(4), FIELD),
    (&[0x15, 0, 0, 0, 4], Data::Given(4), FIELD),
    (&[0x55, 0x10, 0, 0, 4, 0, 0, 1, 1], Data::Given(257), None),
    (&[0x55, 0x10, 0, 0, 4, 0, 0, 1, 1], Data::Given(4), LENGTH),
    (&[0x55, 0x10, 0, 0, 0, 0, 0, 1, 1], Data::Fill, None),
    (&[0x1A, 0, 0xFF], Data::Nothing, None),
    (&[0x5A, 0, 0xFF], Data::Nothing, None),
    (&[0x25], Data::Nothing, None),
    (&[0x28, 0, 0, 0, 3, 0x8F, 0, 0, 1], Data::Nothing, None),
    (&[0x28, 0, 0, 0, 3, 0x90, 0, 0, 0], Data::Nothing, None),
    (&[0x28, 0, 0, 0, 3, 0x90, 0, 0, 1], Data::Nothing, RANGE),
    (&[0x28, 0, 0, 0, 3, 0x91, 0, 0, 0], Data::Nothing, RANGE),
    (&[0x28, 0x20, 0, 0, 3, 0x90, 0, 0, 1], Data::Nothing, FIELD),
    (&[0x28, 0, 0, 0, 0, 0, 0, 1, 0], Data::Nothing, None),
    (&[0x28, 0, 0, 0, 0, 0, 0, 1, 1], Data::Nothing, FIELD),
    (
        &[0x28, 0, 0xFF, 0xFF, 0xFF, 0xFF, 0, 0, 1],
        Data::Nothing,
        RANGE,
    ),
    (
        &[
            0x88, 0, 0xFF, 0xFF, 0xFF, 0xFF, 0xFF, 0xFF, 0xFF, 0xFF, 0, 0, 0, 1,
        ],
        Data::Nothing,
        RANGE,
    ),
    (
        &[0x88, 0, 0, 0, 0, 1, 0, 0, 0, 0, 0, 0, 0, 1],
        Data::Nothing,
        RANGE,
    ),
    (
        &[0x88, 0, 0, 0, 0, 0, 0, 0, 0, 0, 0, 1, 0, 1],
        Data::Nothing,
        FIELD,
    ),
    (&[0x88, 0x20], Data::Nothing, FIELD),
    (&[0x2A, 0, 0, 0, 0, 0, 0, 0, 1], Data::Given(512), None),
    (&[0x2A, 0, 0, 0, 0, 0, 0, 0, 1], Data::Given(511), FIELD),
    (&[0x2A, 0, 0, 0, 0, 0, 0, 0, 1], Data::Nothing, FIELD),
    (&[0x2A, 0, 0, 0, 0, 0, 0, 0, 9], Data::Fill, None),
    (&[0x2A, 0, 0, 0, 0, 0, 0, 0, 0], Data::Given(0), None),
    (
        &[0x8A, 0, 0, 0, 0, 0, 0, 0, 0, 0, 0, 0, 0, 1],
        Data::Given(1),
        FIELD,
    ),
    (&[0x2E, 0, 0, 0, 0, 0, 0, 0, 1], Data::Fill, None),
    (&[0x2E, 2, 0, 0, 0, 0, 0, 0, 1], Data::Fill, FIELD),
    (&[0x2E, 0, 0, 0, 0, 0, 0, 0, 1], Data::Given(513), FIELD),
    (&[0x2F, 4, 0, 0, 0, 0, 0, 0, 1], Data::Nothing, FIELD),
    (&[0x2F, 0, 0, 0, 3, 0x8F, 0, 0, 2], Data::Nothing, RANGE),
    (&[0x35, 0, 0, 0, 3, 0x90], Data::Nothing, None),
    (&[0x35, 0, 0, 0, 3, 0x91], Data::Nothing, RANGE),
    (&[0x35, 2], Data::Nothing, FIELD),
    (&[0x91, 2], Data::Nothing, FIELD),
    (&[0x37, 0, 0x1D], Data::Nothing, None),
    (&[0x4D, 0, 0x15], Data::Nothing, None),
    (&[0x4D, 1, 0x15], Data::Nothing, FIELD),
    (&[0x9E, 0x10], Data::Nothing, None),
    (&[0x9E, 0x11], Data::Nothing, FIELD),
    (&[0xA0, 0, 3], Data::Nothing, None),
    (&[0x5E], Data::Nothing, Some(INVALID_OPERATION_CODE)),
];

// The command block that begins with these bytes and goes on with zeros, by its first byte's group.
fn command_block(start: &[u8]) -> Option<Cdb> {
    let mut bytes = [0; 16];
    let len = match *start.first()? / 32 {
        0 => 6,
        4 => 16,
        5 => 12,
        _ => 10,
    };
    if start.len() > len {
        return None;
    }
    bytes[..start.len()].copy_from_slice(start);
    Cdb::new(&bytes[..len])
}

fn read_with(start: &[u8], sent: &DataOut) -> Result<Result<Command, Sense>, Fail> {
    let cdb = command_block(start).ok_or("a command block")?;
    Ok(read(&cdb, sent, CAPACITY))
}

// So many zeros.
fn zeros(alloc: Global, length: usize) -> Result<DataOut, Fail> {
    Ok(DataOut::Given(Bytes::from_vec(vec![in alloc; 0; length]?)))
}

#[test]
fn each_code_and_each_refusal(rt: HostRuntime) -> Result<(), Fail> {
    for (start, data, refusal) in ROWS {
        let sent = match data {
            Data::Nothing => DataOut::Nothing,
            Data::Fill => DataOut::Fill(7),
            Data::Given(length) => zeros(rt.alloc(), length)?,
        };
        assert_eq!(rt;
            read_with(start, &sent)?.err(),
            refusal,
            "{start:?} {data:?}"
        );
    }
    Ok(())
}

#[test]
fn forms_of_one_command(rt: HostRuntime) -> Result<(), Fail> {
    let ten: &[u8] = &[0x28, 8, 0, 0, 2, 1, 0, 1, 0, 0];
    let sixteen: &[u8] = &[0x88, 8, 0, 0, 0, 0, 0, 0, 2, 1, 0, 0, 1, 0];
    for start in [ten, sixteen] {
        let Ok(command) = read_with(start, &DataOut::Nothing)? else {
            return Err(Fail::from("a read"));
        };
        assert_eq!(rt;
            touch(&command),
            Touch::Range {
                from: 0x201,
                count: 256,
                writes: false
            }
        );
        let Command::Read { fua, .. } = command else {
            return Err(Fail::from("a read"));
        };
        assert!(rt; fua);
    }
    Ok(())
}

// Lists of REASSIGN BLOCKS: byte 1 of the command block, the list, and why it is refused.
const LISTS: [(u8, &[u8], Option<Sense>); 8] = [
    (0, &[0, 0, 0, 4, 0, 0, 3, 0x8F], None),
    (0, &[0, 0, 0, 4, 0, 0, 3, 0x90], RANGE),
    (0, &[9, 9, 0, 4, 0, 0, 0, 0], None),
    (1, &[9, 9, 0, 4, 0, 0, 0, 0], LENGTH),
    (2, &[0, 0, 0, 4, 0, 0, 0, 0], LENGTH),
    (2, &[0, 0, 0, 8, 0, 0, 0, 1, 0, 0, 0, 0], RANGE),
    (3, &[0, 0, 0, 8, 0, 0, 0, 0, 0, 0, 0, 7], None),
    (0, &[0, 0, 0, 8, 0, 0, 0, 0, 0, 0, 3, 0x90], RANGE),
];

#[test]
fn lists_of_blocks(rt: HostRuntime) -> Result<(), Fail> {
    for (flags, list, refusal) in LISTS {
        let sent = DataOut::Given(Bytes::from_vec(list.to_vec(rt.alloc())?));
        let command = read_with(&[0x07, flags], &sent)?;
        assert_eq!(rt; command.err(), refusal, "{flags} {list:?}");
    }
    // 256 blocks, and one more.
    for (header, length, refusal) in [
        ([0, 0, 4, 0], 1024, None),
        ([0, 0, 4, 4], 1028, Some(INVALID_FIELD_IN_PARAMETER_LIST)),
    ] {
        let mut list = header.to_vec(rt.alloc())?;
        list.extend_from_slice(vec![in rt.alloc(); 0; length]?.as_slice())?;
        let sent = DataOut::Given(Bytes::from_vec(list));
        assert_eq!(rt; read_with(&[0x07], &sent)?.err(), refusal, "{length}");
    }
    Ok(())
}
