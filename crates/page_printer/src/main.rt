//! Prints what the drive says of itself in hexadecimal: a line for each page of INQUIRY, for each log page of a scan with
//! three findings, and for some sense data, its name and its bytes. bench/pages gives them to sg3-utils.
#![tactic(auto)]

use disk_base::Lba;
use inquiry_data::inquiry;
use scan_log::{Finding, ScanLog, ScanState};
use sense_data::Sense;
use sense_data::codes::{ADDRESS_OUT_OF_RANGE, UNIT_ATTENTION, UNRECOVERED_READ_ERROR};
use std::io;

const MOST: u16 = 0xFFFF;

// Which INQUIRY data, by a name: the EVPD bit and the page code.
const IDENTITY: [(&str, bool, u8); 6] = [
    ("inquiry", false, 0x00),
    ("vpd-00", true, 0x00),
    ("vpd-80", true, 0x80),
    ("vpd-83", true, 0x83),
    ("vpd-b0", true, 0xB0),
    ("vpd-b1", true, 0xB1),
];

// A scan in its third pass, half way through.
const STATE: ScanState = ScanState {
    minutes: 300,
    active: true,
    passes: 2,
    cursor: 456,
    capacity: 912,
};

const UNREAD: Finding = Finding {
    minutes: 258,
    status: 1,
    key: 3,
    asc: 0x11,
    ascq: 0x00,
    b: Lba(5),
};

const MOVED: Finding = Finding {
    minutes: 259,
    status: 2,
    key: 1,
    asc: 0x18,
    ascq: 0x02,
    b: Lba(1_006),
};

const WITHOUT_A_SPARE: Finding = Finding {
    minutes: 260,
    status: 4,
    key: 1,
    asc: 0x18,
    ascq: 0x05,
    b: Lba(911),
};

fn main(rt: HostRuntime) -> io::Result<()> {
    let alloc = rt.alloc();
    for (name, evpd, page) in IDENTITY {
        if let Ok(page) = inquiry(evpd, page, MOST) {
            println!(rt; "{name} {}", hex::encode(alloc, page.as_slice())?)?;
        }
    }
    if let Ok(mut log) = ScanLog::new(alloc) {
        log.add(UNREAD);
        log.add(MOVED);
        log.add(WITHOUT_A_SPARE);
        for (name, page) in [("log-00", 0x00), ("log-15", 0x15)] {
            if let Ok(page) = log.page(alloc, &STATE, page, 0, 0, MOST) {
                println!(rt; "{name} {}", hex::encode(alloc, page.as_slice())?)?;
            }
        }
    }
    let unread = Sense {
        information: Some(911),
        ..UNRECOVERED_READ_ERROR
    };
    for (name, sense) in [
        ("sense-power-on", Sense::new(UNIT_ATTENTION, 0x29, 0x01)),
        ("sense-unread", unread),
        ("sense-past-the-end", ADDRESS_OUT_OF_RANGE),
    ] {
        println!(rt; "{name} {}", hex::encode(alloc, sense.bytes().as_slice())?)?;
    }
    Ok(())
}
