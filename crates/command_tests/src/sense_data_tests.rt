use disk_base::Initiator;
use sense_data::codes::*;
use sense_data::*;
use std::test::Fail;

// Each code that the drive uses, as sense key, additional sense code and qualifier.
const CODES: [(Sense, u8, u8, u8); 20] = [
    (NO_ADDITIONAL_SENSE, 0, 0x00, 0x00),
    (RECOVERED_WITH_RETRIES, 1, 0x17, 0x01),
    (RECOVERED_WITH_POSITIVE_OFFSET, 1, 0x17, 0x02),
    (RECOVERED_WITH_NEGATIVE_OFFSET, 1, 0x17, 0x03),
    (RECOVERED_WITH_CORRECTION_AND_RETRIES, 1, 0x18, 0x01),
    (RECOVERED_AND_REALLOCATED, 1, 0x18, 0x02),
    (RECOVERED_RECOMMEND_REASSIGNMENT, 1, 0x18, 0x05),
    (DEFECT_LIST_NOT_FOUND, 1, 0x1C, 0x00),
    (WRITE_ERROR, 3, 0x0C, 0x00),
    (WRITE_ERROR_REALLOCATION_FAILED, 3, 0x0C, 0x02),
    (UNRECOVERED_READ_ERROR, 3, 0x11, 0x00),
    (MEDIUM_FORMAT_CORRUPTED, 3, 0x31, 0x00),
    (NO_DEFECT_SPARE, 4, 0x32, 0x00),
    (PARAMETER_LIST_LENGTH_ERROR, 5, 0x1A, 0x00),
    (INVALID_OPERATION_CODE, 5, 0x20, 0x00),
    (ADDRESS_OUT_OF_RANGE, 5, 0x21, 0x00),
    (INVALID_FIELD_IN_CDB, 5, 0x24, 0x00),
    (INVALID_FIELD_IN_PARAMETER_LIST, 5, 0x26, 0x00),
    (INVALID_RELEASE_OF_PERSISTENT_RESERVATION, 5, 0x26, 0x04),
    (SAVING_PARAMETERS_NOT_SUPPORTED, 5, 0x39, 0x00),
];

#[test]
fn every_code_by_bytes(rt: HostRuntime) {
    for (sense, key, asc, ascq) in CODES {
        let bytes = [
            0x70, 0, key, 0, 0, 0, 0, 0x0A, 0, 0, 0, 0, asc, ascq, 0, 0, 0, 0,
        ];
        assert!(rt; sense.bytes() == bytes);
        assert_eq!(rt; Sense::read(&bytes), Some(sense));
        let at = Sense {
            information: Some(0x0102_038F),
            specific: 3,
            ..sense
        };
        let bytes = [
            0xF0, 0, key, 1, 2, 3, 0x8F, 0x0A, 0, 0, 0, 3, asc, ascq, 0, 0, 0, 0,
        ];
        assert!(rt; at.bytes() == bytes);
        assert_eq!(rt; Sense::read(&bytes), Some(at));
    }
}

#[test]
fn every_attention_by_bytes(rt: HostRuntime) {
    for (attention, asc, ascq) in [
        (POWER_ON_OCCURRED, 0x29, 0x01),
        (RESET_OCCURRED, 0x29, 0x03),
        (MODE_PARAMETERS_CHANGED, 0x2A, 0x01),
        (RESERVATIONS_PREEMPTED, 0x2A, 0x03),
        (RESERVATIONS_RELEASED, 0x2A, 0x04),
        (REGISTRATIONS_PREEMPTED, 0x2A, 0x05),
        (COMMANDS_CLEARED, 0x2F, 0x00),
    ] {
        let bytes = [
            0x70, 0, 6, 0, 0, 0, 0, 0x0A, 0, 0, 0, 0, asc, ascq, 0, 0, 0, 0,
        ];
        assert!(rt; attention.sense().bytes() == bytes);
        assert_eq!(rt; Sense::read(&bytes), Some(attention.sense()));
    }
}

// That power was on, as the first command of an initiator is told.
const POWER_ON: [u8; 18] = [
    0x70, 0, 6, 0, 0, 0, 0, 0x0A, 0, 0, 0, 0, 0x29, 1, 0, 0, 0, 0,
];

#[test]
fn no_sense_data_with_a_changed_byte(rt: HostRuntime) {
    for (place, byte) in [(0, 0x71), (1, 1), (6, 1), (7, 0x0B), (14, 1), (17, 1)] {
        let mut bytes = POWER_ON;
        bytes[place] = byte;
        assert_eq!(rt; Sense::read(&bytes), None, "{place}");
    }
}

#[test]
fn attentions_in_order(rt: HostRuntime) -> Result<(), Fail> {
    let third = Initiator::new(3).ok_or("the third")?;
    let fourth = Initiator::new(4).ok_or("the fourth")?;
    let mut attentions = Attentions::power_on();
    let told = Sense::read(&POWER_ON);
    assert_eq!(rt; attentions.first(third), told);
    for raised in [RESET_OCCURRED, MODE_PARAMETERS_CHANGED, RESET_OCCURRED] {
        assert!(rt; attentions.all(third).len() < 8);
        attentions.raise(third, raised.asc, raised.ascq);
    }
    let reset = Some(RESET_OCCURRED.sense());
    let changed = Some(MODE_PARAMETERS_CHANGED.sense());
    assert_eq!(rt; attentions.all(third).len(), 3);
    for first in [told, reset, changed, None] {
        assert_eq!(rt; attentions.first(third), first);
        assert_eq!(rt; attentions.take(third), first);
    }
    assert_eq!(rt; attentions.take(fourth), told);
    assert!(rt; Attentions::none().all(fourth).is_empty());
    Ok(())
}

#[test]
fn attentions_for_marked_initiators(rt: HostRuntime) -> Result<(), Fail> {
    let third = Initiator::new(3).ok_or("the third")?;
    let fourth = Initiator::new(4).ok_or("the fourth")?;
    let mut attentions = Attentions::none();
    let marks = [false, false, false, true, false, false, false, false];
    attentions.raise_where(&marks, RESERVATIONS_RELEASED);
    assert!(rt; attentions.all(third).is_empty());
    assert_eq!(rt;
        attentions.first(fourth),
        Some(RESERVATIONS_RELEASED.sense())
    );
    Ok(())
}

#[test]
fn replies(rt: HostRuntime) {
    let check = Reply::check_condition(INVALID_FIELD_IN_CDB);
    assert_eq!(rt;
        (check.status, check.sense),
        (0x02, Some(INVALID_FIELD_IN_CDB))
    );
    assert_eq!(rt; (Reply::good().status, Reply::good().sense), (0x00, None));
    let conflict = Reply::reservation_conflict();
    assert_eq!(rt; (conflict.status, conflict.sense), (0x18, None));
    assert_eq!(rt; Reply::task_set_full().status, 0x28);
}
