use disk_base::{Bytes, Cdb, DataOut, Initiator};
use reservations::*;
use sense_data::Reply;
use std::alloc::Global;
use std::process::Abort;
use std::test::Fail;

// What is sent with a command.
#[derive(Clone, Copy)]
enum Sent {
    Nothing,
    Fill,
    // 24 bytes with the last bytes of both keys, and the byte of flags.
    List(u8, u8, u8),
    // One byte less.
    Short,
}

// A command of an initiator, and how it is answered: the rule's name with the holder and the type that it names, the
// status, the additional sense code with its qualifier, and the data.
struct Step {
    i: u8,
    cdb: &'static [u8],
    sent: Sent,
    rule: &'static str,
    held: (u8, u8),
    status: u8,
    code: (u8, u8),
    page: &'static [u8],
}

macro_rules! step {
    ($i:literal, $cdb:expr, $sent:expr, $rule:literal) => {
        step!($i, $cdb, $sent, $rule, 0x00, (0, 0), (0, 0), [])
    };
    ($i:literal, $cdb:expr, $sent:expr, $rule:literal, $asc:literal, $ascq:literal) => {
        step!($i, $cdb, $sent, $rule, 0x02, (0, 0), ($asc, $ascq), [])
    };
    ($i:literal, $cdb:expr, $sent:expr, $rule:literal, $status:literal, $held:expr, $code:expr, $page:expr) => {
        Step {
            i: $i,
            cdb: &$cdb,
            sent: $sent,
            rule: $rule,
            held: $held,
            status: $status,
            code: $code,
            page: &$page,
        }
    };
}

// PERSISTENT RESERVE OUT of an action and a type.
macro_rules! out {
    ($action:literal, $kind:literal) => {
        [0x5F, $action, $kind, 0, 0, 0, 0, 0, 24, 0]
    };
}

// PERSISTENT RESERVE IN of an action and an allocation length.
macro_rules! read {
    ($action:literal, $allocation:literal) => {
        [0x5E, $action, 0, 0, 0, 0, 0, 0, $allocation, 0]
    };
}

macro_rules! denied {
    ($i:literal, $cdb:expr, $sent:expr, $held:expr) => {
        step!($i, $cdb, $sent, "deny holder", 0x18, $held, (0, 0), [])
    };
}

macro_rules! shown {
    ($i:literal, $cdb:expr, $rule:literal, $page:expr) => {
        step!($i, $cdb, Sent::Nothing, $rule, 0x00, (0, 0), (0, 0), $page)
    };
}

const READY: [u8; 6] = [0; 6];

const INQUIRY: [u8; 6] = [0x12, 0, 0, 0, 36, 0];

const SENSE: [u8; 6] = [0x03, 0, 0, 0, 18, 0];

const LUNS: [u8; 12] = [0xA0, 0, 0, 0, 0, 0, 0, 0, 0, 16, 0, 0];

const READ: [u8; 10] = [0x28, 0, 0, 0, 0, 0, 0, 0, 1, 0];

const WRITE: [u8; 10] = [0x2A, 0, 0, 0, 0, 0, 0, 0, 1, 0];

// A first registrant, whose key another reads; its reservation, which keeps the other's writes out and not its reads.
static FIRST_RESERVATION: [Step; 5] = [
    step!(1, out!(0, 0), Sent::List(0, 10, 0), "register"),
    shown!(
        2,
        read!(0, 255),
        "keys",
        [0, 0, 0, 1, 0, 0, 0, 8, 0, 0, 0, 0, 0, 0, 0, 10]
    ),
    step!(1, out!(1, 1), Sent::List(10, 0, 0), "reserve"),
    denied!(2, WRITE, Sent::Fill, (1, 1)),
    step!(2, READ, Sent::Nothing, "admit"),
];

// Each check with the next one failing too, and the cut of the data.
static CHECKS: [Step; 20] = [
    step!(
        1,
        [0x5F, 0, 0, 0, 0, 0, 0, 0, 23, 4],
        Sent::Nothing,
        "field",
        0x24,
        0x00
    ),
    step!(
        1,
        [0x5F, 5, 0, 0, 0, 0, 0, 0, 23, 0],
        Sent::Nothing,
        "field",
        0x24,
        0x00
    ),
    step!(
        1,
        [0x5F, 1, 2, 0, 0, 0, 0, 0, 23, 0],
        Sent::Nothing,
        "field",
        0x24,
        0x00
    ),
    step!(
        1,
        [0x5F, 0, 2, 0, 0, 0, 0, 0, 23, 0],
        Sent::List(5, 0, 1),
        "field",
        0x1A,
        0x00
    ),
    step!(
        1,
        [0x5F, 0, 0, 0, 0, 1, 0, 0, 24, 0],
        Sent::List(5, 0, 1),
        "field",
        0x1A,
        0x00
    ),
    step!(1, out!(0, 0), Sent::Short, "field", 0x1A, 0x00),
    step!(1, out!(0, 0), Sent::Fill, "field", 0x1A, 0x00),
    step!(1, out!(0, 0), Sent::Nothing, "field", 0x1A, 0x00),
    step!(1, out!(0, 0), Sent::List(5, 0, 1), "field", 0x26, 0x00),
    step!(1, out!(0, 0), Sent::List(5, 0, 8), "field", 0x26, 0x00),
    step!(1, out!(4, 1), Sent::List(5, 0, 0), "field", 0x26, 0x00),
    step!(
        1,
        out!(0, 0),
        Sent::List(5, 10, 0),
        "deny key",
        0x18,
        (0, 0),
        (0, 0),
        []
    ),
    step!(
        1,
        out!(1, 1),
        Sent::List(0, 0, 0),
        "deny key",
        0x18,
        (0, 0),
        (0, 0),
        []
    ),
    step!(1, out!(0, 0), Sent::List(0, 10, 4), "register"),
    step!(
        1,
        out!(4, 1),
        Sent::List(10, 20, 0),
        "deny key",
        0x18,
        (0, 0),
        (0, 0),
        []
    ),
    step!(1, read!(2, 8), Sent::Nothing, "field", 0x24, 0x00),
    step!(
        1,
        [0x5E, 0, 0, 0, 0, 0, 0, 0, 72, 4],
        Sent::Nothing,
        "field",
        0x24,
        0x00
    ),
    shown!(1, read!(0xE0, 5), "keys", [0, 0, 0, 1, 0]),
    shown!(1, read!(0, 0), "keys", []),
    shown!(1, read!(1, 72), "reservation", [0, 0, 0, 1, 0, 0, 0, 0]),
];

// Every action and type, and who is told.
static ACTIONS: [Step; 62] = [
    step!(1, out!(0, 0), Sent::List(0, 10, 0), "register"),
    step!(2, out!(6, 0), Sent::List(7, 20, 0), "register"),
    step!(3, out!(0, 0), Sent::List(0, 20, 0), "register"),
    step!(2, out!(1, 6), Sent::List(20, 0, 0), "reserve"),
    step!(2, out!(1, 6), Sent::List(20, 0, 0), "reserve"),
    denied!(2, out!(1, 5), Sent::List(20, 0, 0), (2, 6)),
    denied!(1, out!(1, 6), Sent::List(10, 0, 0), (2, 6)),
    shown!(
        4,
        read!(1, 255),
        "reservation",
        [
            0, 0, 0, 3, 0, 0, 0, 16, 0, 0, 0, 0, 0, 0, 0, 20, 0, 0, 0, 0, 0, 6, 0, 0
        ]
    ),
    denied!(4, READ, Sent::Nothing, (2, 6)),
    step!(3, READ, Sent::Nothing, "admit"),
    step!(3, WRITE, Sent::Fill, "admit"),
    step!(4, INQUIRY, Sent::Nothing, "admit"),
    step!(4, READY, Sent::Nothing, "admit"),
    step!(1, out!(2, 6), Sent::List(10, 0, 0), "release"),
    step!(2, out!(2, 5), Sent::List(20, 0, 0), "field", 0x26, 0x04),
    denied!(4, READ, Sent::Nothing, (2, 6)),
    step!(1, out!(4, 3), Sent::List(10, 20, 0), "preempt"),
    step!(2, SENSE, Sent::Nothing, "admit"),
    step!(2, INQUIRY, Sent::Nothing, "admit"),
    step!(2, LUNS, Sent::Nothing, "admit"),
    step!(2, read!(0, 255), Sent::Nothing, "attention", 0x2A, 0x05),
    shown!(
        2,
        read!(0, 255),
        "keys",
        [0, 0, 0, 4, 0, 0, 0, 8, 0, 0, 0, 0, 0, 0, 0, 10]
    ),
    step!(3, READ, Sent::Nothing, "attention", 0x2A, 0x05),
    denied!(3, READ, Sent::Nothing, (1, 3)),
    step!(3, out!(0, 0), Sent::List(0, 30, 0), "register"),
    step!(3, out!(3, 0), Sent::List(30, 0, 0), "clear"),
    step!(3, READY, Sent::Nothing, "admit"),
    step!(1, READY, Sent::Nothing, "attention", 0x2A, 0x03),
    shown!(1, read!(0, 8), "keys", [0, 0, 0, 6, 0, 0, 0, 0]),
    shown!(1, read!(1, 72), "reservation", [0, 0, 0, 6, 0, 0, 0, 0]),
    step!(1, out!(0, 0), Sent::List(0, 0, 0), "register"),
    shown!(1, read!(0, 8), "keys", [0, 0, 0, 7, 0, 0, 0, 0]),
    step!(1, out!(6, 0), Sent::List(0, 10, 0), "register"),
    step!(2, out!(6, 0), Sent::List(0, 20, 0), "register"),
    step!(1, out!(1, 5), Sent::List(10, 0, 0), "reserve"),
    denied!(3, WRITE, Sent::Fill, (1, 5)),
    step!(3, READ, Sent::Nothing, "admit"),
    step!(2, WRITE, Sent::Fill, "admit"),
    step!(1, out!(2, 5), Sent::List(10, 0, 0), "release"),
    step!(2, READY, Sent::Nothing, "attention", 0x2A, 0x04),
    step!(3, READY, Sent::Nothing, "admit"),
    step!(1, READY, Sent::Nothing, "admit"),
    step!(1, out!(1, 3), Sent::List(10, 0, 0), "reserve"),
    denied!(2, READ, Sent::Nothing, (1, 3)),
    step!(1, out!(2, 3), Sent::List(10, 0, 0), "release"),
    step!(2, READ, Sent::Nothing, "admit"),
    step!(1, out!(1, 6), Sent::List(10, 0, 0), "reserve"),
    step!(1, out!(0, 0), Sent::List(10, 0, 0), "register"),
    step!(2, out!(1, 1), Sent::List(20, 0, 0), "attention", 0x2A, 0x04),
    step!(2, out!(1, 1), Sent::List(20, 0, 0), "reserve"),
    step!(2, out!(4, 3), Sent::List(20, 20, 0), "preempt"),
    step!(2, READY, Sent::Nothing, "admit"),
    shown!(
        1,
        read!(1, 24),
        "reservation",
        [
            0, 0, 0, 11, 0, 0, 0, 16, 0, 0, 0, 0, 0, 0, 0, 20, 0, 0, 0, 0, 0, 3, 0, 0
        ]
    ),
    step!(1, out!(6, 0), Sent::List(0, 20, 0), "register"),
    shown!(
        3,
        read!(0, 255),
        "keys",
        [
            0, 0, 0, 12, 0, 0, 0, 16, 0, 0, 0, 0, 0, 0, 0, 20, 0, 0, 0, 0, 0, 0, 0, 20
        ]
    ),
    step!(1, out!(4, 1), Sent::List(20, 20, 0), "preempt"),
    step!(2, READY, Sent::Nothing, "attention", 0x2A, 0x05),
    denied!(2, WRITE, Sent::Fill, (1, 1)),
    step!(1, out!(0, 0), Sent::List(20, 40, 0), "register"),
    denied!(2, WRITE, Sent::Fill, (1, 1)),
    step!(1, out!(0, 0), Sent::List(40, 0, 0), "register"),
    step!(2, WRITE, Sent::Fill, "admit"),
];

fn sent_of(alloc: Global, sent: Sent) -> Result<DataOut, Fail> {
    let (key, action_key, flags) = match sent {
        Sent::Nothing => return Ok(DataOut::Nothing),
        Sent::Fill => return Ok(DataOut::Fill(0)),
        Sent::Short => return Ok(DataOut::Given(Bytes::from_vec([0; 23].to_vec(alloc)?))),
        Sent::List(key, action_key, flags) => (key, action_key, flags),
    };
    let mut bytes = [0; 24];
    bytes[7] = key;
    bytes[15] = action_key;
    bytes[20] = flags;
    Ok(DataOut::Given(Bytes::from_vec(bytes.to_vec(alloc)?)))
}

fn name_of(rule: Rule) -> &'static str {
    match rule {
        Rule::Attention => "attention",
        Rule::Field => "field",
        Rule::Keys => "keys",
        Rule::Reservation => "reservation",
        Rule::Register => "register",
        Rule::Reserve => "reserve",
        Rule::Release => "release",
        Rule::Clear => "clear",
        Rule::Preempt => "preempt",
        Rule::DenyKey => "deny key",
        Rule::DenyHolder { .. } => "deny holder",
    }
}

fn held_of(rule: Rule) -> (u8, u8) {
    match rule {
        Rule::DenyHolder { holder, kind } => (holder.number(), kind),
        _ => (0, 0),
    }
}

// Takes a step, and compares how it is answered.
fn take(rt: &impl Abort, alloc: Global, desk: &mut Desk, step: &Step) -> Result<(), Fail> {
    let i = Initiator::new(step.i).ok_or("the initiator")?;
    let cdb = Cdb::new(step.cdb).ok_or("the command block")?;
    let sent = sent_of(alloc, step.sent)?;
    match desk.arrive(i, &cdb, &sent) {
        Verdict::Admit => assert!(rt; step.rule == "admit"),
        Verdict::Answered { rule, reply, page } => {
            assert!(rt; name_of(rule) == step.rule, "{rule:?}");
            compare(rt, held_of(rule), step.held);
            assert_eq!(rt; reply.status, step.status);
            compare(rt, code_of(&reply), step.code);
            assert!(rt; page.as_slice() == step.page);
        }
    }
    Ok(())
}

fn compare(rt: &impl Abort, (a, b): (u8, u8), (c, d): (u8, u8)) {
    assert_eq!(rt; a, c);
    assert_eq!(rt; b, d);
}

fn code_of(reply: &Reply) -> (u8, u8) {
    match reply.sense {
        Some(sense) => (sense.asc, sense.ascq),
        None => (0, 0),
    }
}

#[test]
fn the_first_reservation_keeps_writes_out(rt: HostRuntime) -> Result<(), Fail> {
    let mut desk = Desk::new();
    for step in &FIRST_RESERVATION {
        take(&rt, rt.alloc(), &mut desk, step)?;
    }
    Ok(())
}

#[test]
fn checks_in_their_order(rt: HostRuntime) -> Result<(), Fail> {
    let mut desk = Desk::new();
    for step in &CHECKS {
        take(&rt, rt.alloc(), &mut desk, step)?;
    }
    Ok(())
}

#[test]
fn every_action_and_who_is_told(rt: HostRuntime) -> Result<(), Fail> {
    let mut desk = Desk::new();
    for step in &ACTIONS {
        take(&rt, rt.alloc(), &mut desk, step)?;
    }
    desk.cut();
    for step in &FIRST_RESERVATION {
        take(&rt, rt.alloc(), &mut desk, step)?;
    }
    Ok(())
}

// Another's reservation of exclusive access.
static EXCLUSIVE: [Step; 2] = [
    step!(1, out!(0, 0), Sent::List(0, 10, 0), "register"),
    step!(1, out!(1, 3), Sent::List(10, 0, 0), "reserve"),
];

// The commands that it keeps out, by operation code.
const KEPT_OUT: [u8; 15] = [
    0x04, 0x07, 0x15, 0x1A, 0x28, 0x2A, 0x2E, 0x2F, 0x35, 0x37, 0x55, 0x5A, 0x88, 0x8A, 0x91,
];

#[test]
fn every_operation_code(rt: HostRuntime) -> Result<(), Fail> {
    let mut desk = Desk::new();
    for step in &EXCLUSIVE {
        take(&rt, rt.alloc(), &mut desk, step)?;
    }
    let i = Initiator::new(2).ok_or("the second")?;
    for code in 0..=255u8 {
        let len = match code / 32 {
            1 | 2 => 10,
            4 => 16,
            5 => 12,
            _ => 6,
        };
        let mut bytes = [0; 16];
        bytes[0] = code;
        let cdb = Cdb::new(&bytes[..len]).ok_or("the command block")?;
        let is_admitted = matches!(desk.arrive(i, &cdb, &DataOut::Nothing), Verdict::Admit);
        let is_served = code == 0x5E || code == 0x5F;
        assert_eq!(rt;
            is_admitted,
            !is_served && !KEPT_OUT.contains(&code),
            "{code}"
        );
    }
    Ok(())
}
