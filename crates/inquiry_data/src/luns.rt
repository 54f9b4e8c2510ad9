ghost use Rattle.std.specs.Prelude.{◌≡◌, take, Err, IfSome, IfNone, IsOkAnd};
ghost use Rattle.inquiry_data.specs.Luns.{reported_luns};

use crate::cut::cut;
use arrayvec::ArrayVec;
use sense_data::Sense;
use sense_data::codes::INVALID_FIELD_IN_CDB;

/// The most bytes of REPORT LUNS data.
pub const LUN_LIST_LENGTH_MAX: usize = 16;

/// The data of a REPORT LUNS by its SELECT REPORT field, which is refused above 02h.
pub fn report_luns(select: u8, allocation: u32) -> Result<ArrayVec<u8, LUN_LIST_LENGTH_MAX>, Sense>
    ensures data { IfSome (reported_luns select)
        (λ bytes. IsOkAnd result (λ v. v.items ≡ take allocation bytes)) }
    ensures refused { IfNone (reported_luns select) (result ≡ Err INVALID_FIELD_IN_CDB) }
{
    let data = match select {
        0 | 2 => LUN_ZERO.as_slice(),
        1 => NO_LUN.as_slice(),
        _ => return Err(INVALID_FIELD_IN_CDB),
    };
    Ok(cut(data, allocation as usize))
}

// The list of LUN 0 alone: how many bytes of LUNs, four reserved bytes, the LUN.
const LUN_ZERO: [u8; 16] = [0, 0, 0, 8, 0, 0, 0, 0, 0, 0, 0, 0, 0, 0, 0, 0];

// The list of no LUN.
const NO_LUN: [u8; 8] = [0; 8];
