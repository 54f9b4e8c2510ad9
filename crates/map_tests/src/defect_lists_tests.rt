use defect_lists::*;
use disk_base::Psn;
use geometry_map::{Map, Pair, Size};
use std::test::Fail;

// The request of 37 00 1D 00 00 00 00 00 FF 00: both lists, physical sector format, 255 bytes at most.
const BOTH: DefectRequest = DefectRequest {
    primary: true,
    grown: true,
    format: 5,
    allocation: 255,
};

#[test]
fn replies_by_bytes(rt: HostRuntime) -> Result<(), Fail> {
    let size = Size::new(16, 4, 16, 96).ok_or("within the limits")?;
    let none = Map::factory(size, &[]).ok_or("no defects")?;
    let reply = defect_reply(rt.alloc(), &none, &BOTH).map_err(|_| "no memory")?;
    assert!(rt; reply.bytes.as_slice() == [0, 0x1D, 0, 0].as_slice());
    assert!(rt; !reply.other_format);
    let other = DefectRequest { format: 0, ..BOTH };
    let reply = defect_reply(rt.alloc(), &none, &other).map_err(|_| "no memory")?;
    assert!(rt; reply.bytes.as_slice() == [0, 0x1D, 0, 0].as_slice());
    assert!(rt; reply.other_format);
    let moved = [Pair {
        old: Psn(16),
        new: Psn(929),
    }];
    let some = Map::of_lists(size, &[Psn(20)], &moved, 3, 0, 0).ok_or("one of each")?;
    let reply = defect_reply(rt.alloc(), &some, &BOTH).map_err(|_| "no memory")?;
    assert!(rt;
        reply.bytes.as_slice()
            == [
                0, 0x1D, 0, 0x10, 0, 0, 0, 1, 0, 0, 0, 0, 0, 0, 0, 1, 0, 0, 0, 4,
            ]
            .as_slice()
    );
    let short = DefectRequest {
        allocation: 9,
        ..BOTH
    };
    let reply = defect_reply(rt.alloc(), &some, &short).map_err(|_| "no memory")?;
    assert!(rt; reply.bytes.as_slice() == [0, 0x1D, 0, 0x10, 0, 0, 0, 1, 0].as_slice());
    Ok(())
}
