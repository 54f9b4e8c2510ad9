//! Sense keys, and the sense data that the drive uses, by the names of their additional sense codes (SPC-4, sense key and
//! additional sense code definitions); those of UNIT ATTENTION as attentions.
ghost use Rattle.std.specs.Prelude.{◌≡◌};
ghost use Rattle.sense_data.specs.Attentions.{attention};
ghost use Rattle.sense_data.specs.Sense.{sense_of};

use crate::{Attention, Sense};

pub const NO_SENSE: u8 = 0;

pub const RECOVERED_ERROR: u8 = 1;

pub const MEDIUM_ERROR: u8 = 3;

pub const HARDWARE_ERROR: u8 = 4;

pub const ILLEGAL_REQUEST: u8 = 5;

pub const UNIT_ATTENTION: u8 = 6;

// A sense key with an additional sense code and its qualifier alone.
macro_rules! code {
    ($key:expr, $asc:literal, $ascq:literal) => {
        Sense {
            key: $key,
            information: None,
            specific: 0,
            asc: $asc,
            ascq: $ascq,
        }
    };
}

pub const NO_ADDITIONAL_SENSE: Sense = code!(NO_SENSE, 0x00, 0x00);

pub const RECOVERED_WITH_RETRIES: Sense = code!(RECOVERED_ERROR, 0x17, 0x01);

pub const RECOVERED_WITH_POSITIVE_OFFSET: Sense = code!(RECOVERED_ERROR, 0x17, 0x02);

pub const RECOVERED_WITH_NEGATIVE_OFFSET: Sense = code!(RECOVERED_ERROR, 0x17, 0x03);

pub const RECOVERED_WITH_CORRECTION_AND_RETRIES: Sense = code!(RECOVERED_ERROR, 0x18, 0x01);

pub const RECOVERED_AND_REALLOCATED: Sense = code!(RECOVERED_ERROR, 0x18, 0x02);

pub const RECOVERED_RECOMMEND_REASSIGNMENT: Sense = code!(RECOVERED_ERROR, 0x18, 0x05);

pub const DEFECT_LIST_NOT_FOUND: Sense = code!(RECOVERED_ERROR, 0x1C, 0x00);

pub const WRITE_ERROR: Sense = code!(MEDIUM_ERROR, 0x0C, 0x00);

pub const WRITE_ERROR_REALLOCATION_FAILED: Sense = code!(MEDIUM_ERROR, 0x0C, 0x02);

pub const UNRECOVERED_READ_ERROR: Sense = code!(MEDIUM_ERROR, 0x11, 0x00);

pub const MEDIUM_FORMAT_CORRUPTED: Sense = code!(MEDIUM_ERROR, 0x31, 0x00);

pub const NO_DEFECT_SPARE: Sense = code!(HARDWARE_ERROR, 0x32, 0x00);

pub const PARAMETER_LIST_LENGTH_ERROR: Sense = code!(ILLEGAL_REQUEST, 0x1A, 0x00);

pub const INVALID_OPERATION_CODE: Sense = code!(ILLEGAL_REQUEST, 0x20, 0x00);

pub const ADDRESS_OUT_OF_RANGE: Sense = code!(ILLEGAL_REQUEST, 0x21, 0x00);

pub const INVALID_FIELD_IN_CDB: Sense = code!(ILLEGAL_REQUEST, 0x24, 0x00);

pub const INVALID_FIELD_IN_PARAMETER_LIST: Sense = code!(ILLEGAL_REQUEST, 0x26, 0x00);

pub const INVALID_RELEASE_OF_PERSISTENT_RESERVATION: Sense = code!(ILLEGAL_REQUEST, 0x26, 0x04);

pub const SAVING_PARAMETERS_NOT_SUPPORTED: Sense = code!(ILLEGAL_REQUEST, 0x39, 0x00);

pub const POWER_ON_OCCURRED: Attention = Attention {
    asc: 0x29,
    ascq: 0x01,
};

/// After LOGICAL UNIT RESET.
pub const RESET_OCCURRED: Attention = Attention {
    asc: 0x29,
    ascq: 0x03,
};

pub const MODE_PARAMETERS_CHANGED: Attention = Attention {
    asc: 0x2A,
    ascq: 0x01,
};

pub const RESERVATIONS_PREEMPTED: Attention = Attention {
    asc: 0x2A,
    ascq: 0x03,
};

pub const RESERVATIONS_RELEASED: Attention = Attention {
    asc: 0x2A,
    ascq: 0x04,
};

pub const REGISTRATIONS_PREEMPTED: Attention = Attention {
    asc: 0x2A,
    ascq: 0x05,
};

pub const COMMANDS_CLEARED: Attention = Attention {
    asc: 0x2F,
    ascq: 0x00,
};

/// The numbers of the standard's table behind each name.
pub fn codes_have_their_numbers()
    ensures no_additional_sense { NO_ADDITIONAL_SENSE ≡ sense_of 0 0x00 0x00 }
    ensures recovered_with_retries { RECOVERED_WITH_RETRIES ≡ sense_of 1 0x17 0x01 }
    ensures recovered_with_positive_offset { RECOVERED_WITH_POSITIVE_OFFSET ≡ sense_of 1 0x17 0x02 }
    ensures recovered_with_negative_offset { RECOVERED_WITH_NEGATIVE_OFFSET ≡ sense_of 1 0x17 0x03 }
    ensures recovered_with_correction_and_retries { RECOVERED_WITH_CORRECTION_AND_RETRIES ≡ sense_of 1 0x18 0x01 }
    ensures recovered_and_reallocated { RECOVERED_AND_REALLOCATED ≡ sense_of 1 0x18 0x02 }
    ensures recovered_recommend_reassignment { RECOVERED_RECOMMEND_REASSIGNMENT ≡ sense_of 1 0x18 0x05 }
    ensures defect_list_not_found { DEFECT_LIST_NOT_FOUND ≡ sense_of 1 0x1C 0x00 }
    ensures write_error { WRITE_ERROR ≡ sense_of 3 0x0C 0x00 }
    ensures write_error_reallocation_failed { WRITE_ERROR_REALLOCATION_FAILED ≡ sense_of 3 0x0C 0x02 }
    ensures unrecovered_read_error { UNRECOVERED_READ_ERROR ≡ sense_of 3 0x11 0x00 }
    ensures medium_format_corrupted { MEDIUM_FORMAT_CORRUPTED ≡ sense_of 3 0x31 0x00 }
    ensures no_defect_spare { NO_DEFECT_SPARE ≡ sense_of 4 0x32 0x00 }
    ensures parameter_list_length_error { PARAMETER_LIST_LENGTH_ERROR ≡ sense_of 5 0x1A 0x00 }
    ensures invalid_operation_code { INVALID_OPERATION_CODE ≡ sense_of 5 0x20 0x00 }
    ensures address_out_of_range { ADDRESS_OUT_OF_RANGE ≡ sense_of 5 0x21 0x00 }
    ensures invalid_field_in_cdb { INVALID_FIELD_IN_CDB ≡ sense_of 5 0x24 0x00 }
    ensures invalid_field_in_parameter_list { INVALID_FIELD_IN_PARAMETER_LIST ≡ sense_of 5 0x26 0x00 }
    ensures invalid_release_of_persistent_reservation { INVALID_RELEASE_OF_PERSISTENT_RESERVATION ≡ sense_of 5 0x26 0x04 }
    ensures saving_parameters_not_supported { SAVING_PARAMETERS_NOT_SUPPORTED ≡ sense_of 5 0x39 0x00 }
{}

/// The numbers of the standard's table behind each attention's name.
pub fn attentions_have_their_numbers()
    ensures power_on_occurred { POWER_ON_OCCURRED ≡ attention 0x29 0x01 }
    ensures reset_occurred { RESET_OCCURRED ≡ attention 0x29 0x03 }
    ensures mode_parameters_changed { MODE_PARAMETERS_CHANGED ≡ attention 0x2A 0x01 }
    ensures reservations_preempted { RESERVATIONS_PREEMPTED ≡ attention 0x2A 0x03 }
    ensures reservations_released { RESERVATIONS_RELEASED ≡ attention 0x2A 0x04 }
    ensures registrations_preempted { REGISTRATIONS_PREEMPTED ≡ attention 0x2A 0x05 }
    ensures commands_cleared { COMMANDS_CLEARED ≡ attention 0x2F 0x00 }
{}
