ghost use Rattle.std.specs.Prelude.{◌≡◌, take, Err, IfSome, IfNone, IsOkAnd};
ghost use Rattle.inquiry_data.specs.Identity.{inquiry_data};

use crate::cut::cut;
use arrayvec::ArrayVec;
use sense_data::Sense;
use sense_data::codes::INVALID_FIELD_IN_CDB;

/// The most bytes of INQUIRY data.
pub const INQUIRY_LENGTH_MAX: usize = 64;

// Page codes of vital product data (SPC-4 and SBC-3, vital product data parameters).
const SUPPORTED_PAGES: u8 = 0x00;

const UNIT_SERIAL_NUMBER: u8 = 0x80;

const DEVICE_IDENTIFICATION: u8 = 0x83;

const BLOCK_LIMITS: u8 = 0xB0;

const BLOCK_DEVICE_CHARACTERISTICS: u8 = 0xB1;

/// The data of an INQUIRY by its EVPD bit and its PAGE CODE field. Without the bit any page code but 0 is refused, with
/// it one that no page has.
pub fn inquiry(
    evpd: bool,
    page: u8,
    allocation: u16,
) -> Result<ArrayVec<u8, INQUIRY_LENGTH_MAX>, Sense>
    ensures data { IfSome (inquiry_data evpd page)
        (λ bytes. IsOkAnd result (λ v. v.items ≡ take allocation bytes)) }
    ensures refused { IfNone (inquiry_data evpd page) (result ≡ Err INVALID_FIELD_IN_CDB) }
{
    let most = allocation as usize;
    match (evpd, page) {
        (false, 0) => Ok(cut(&STANDARD, most)),
        (true, SUPPORTED_PAGES) => Ok(cut(&PAGE_CODES, most)),
        (true, UNIT_SERIAL_NUMBER) => Ok(cut(&SERIAL_NUMBER, most)),
        (true, DEVICE_IDENTIFICATION) => Ok(cut(&DESIGNATORS, most)),
        (true, BLOCK_LIMITS) => Ok(cut(&LIMITS, most)),
        (true, BLOCK_DEVICE_CHARACTERISTICS) => Ok(cut(&CHARACTERISTICS, most)),
        _ => Err(INVALID_FIELD_IN_CDB),
    }
}

// Standard INQUIRY data.
const STANDARD: [u8; 36] = *b"\x00\x00\x06\x02\x1F\x00\x00\x02PLATTER SIMULATED DISK  0100";

const PAGE_CODES: [u8; 9] = [0x00, SUPPORTED_PAGES, 0, 5, 0x00, 0x80, 0x83, 0xB0, 0xB1];

const SERIAL_NUMBER: [u8; 12] = *b"\x00\x80\x00\x0800000001";

const DESIGNATORS: [u8; 24] = *b"\x00\x83\x00\x14\x02\x01\x00\x10PLATTER 00000001";

const LIMITS: [u8; 64] = [
    0, 0xB0, 0, 0x3C, 0, 0, 0, 0, 0, 0, 1, 0, 0, 0, 0, 0, 0, 0, 0, 0, 0, 0, 0, 0, 0, 0, 0, 0, 0, 0,
    0, 0, 0, 0, 0, 0, 0, 0, 0, 0, 0, 0, 0, 0, 0, 0, 0, 0, 0, 0, 0, 0, 0, 0, 0, 0, 0, 0, 0, 0, 0, 0,
    0, 0,
];

const CHARACTERISTICS: [u8; 64] = [
    0, 0xB1, 0, 0x3C, 0x1C, 0x20, 0, 0, 0, 0, 0, 0, 0, 0, 0, 0, 0, 0, 0, 0, 0, 0, 0, 0, 0, 0, 0, 0,
    0, 0, 0, 0, 0, 0, 0, 0, 0, 0, 0, 0, 0, 0, 0, 0, 0, 0, 0, 0, 0, 0, 0, 0, 0, 0, 0, 0, 0, 0, 0, 0,
    0, 0, 0, 0,
];
