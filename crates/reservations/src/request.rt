ghost use Rattle.std.specs.Prelude.{◌≡◌, ◌<◌, slice_index};
ghost use Rattle.reservations.specs.Desk.{is_type};
ghost use Rattle.reservations.specs.Request.{action_of, allocation, given, has_naca, list_length, names_type, request_of, service_action};
ghost use Rattle.reservations.specs.Parameters.{is_set, parameters_of, refuses};

use disk_base::DataOut;
use sense_data::Sense;
use sense_data::codes::{
    INVALID_FIELD_IN_CDB, INVALID_FIELD_IN_PARAMETER_LIST, PARAMETER_LIST_LENGTH_ERROR,
};

/// The service actions of PERSISTENT RESERVE OUT that are served.
#[derive(Clone, Copy, Debug, PartialEq, Eq)]
pub enum Action {
    Register,
    Reserve,
    Release,
    Clear,
    Preempt,
    RegisterAndIgnoreExistingKey,
}

/// What a PERSISTENT RESERVE OUT asks for.
#[derive(Clone, Copy, Debug)]
pub struct Request {
    pub action: Action,
    /// The type's number; one of the four where the action has a type.
    pub kind: u8,
    /// RESERVATION KEY.
    pub key: u64,
    /// SERVICE ACTION RESERVATION KEY.
    pub action_key: u64,
}

// The fields of the parameter list.
#[derive(Drop)]
struct Parameters {
    key: u64,
    action_key: u64,
    // SPEC_I_PT, ALL_TG_PT and APTPL.
    flags: u8,
}

/// What a PERSISTENT RESERVE OUT asks for, or the sense data of the first check that fails.
pub fn request_of(cdb: &[u8], sent: &DataOut) -> Result<Request, Sense>
    ensures { result ≡ request_of cdb.now sent.now }
{
    let kind = byte(cdb, 2);
    let Some(action) = action_of(service_action(cdb)) else {
        return Err(INVALID_FIELD_IN_CDB);
    };
    if has_naca(cdb) || (names_type(action) && !is_type(kind)) {
        return Err(INVALID_FIELD_IN_CDB);
    }
    let Some(parameters) = parameters_of(given(sent)) else {
        return Err(PARAMETER_LIST_LENGTH_ERROR);
    };
    if list_length(cdb) != 24 {
        return Err(PARAMETER_LIST_LENGTH_ERROR);
    }
    if refuses(action, &parameters) {
        return Err(INVALID_FIELD_IN_PARAMETER_LIST);
    }
    Ok(Request {
        action,
        kind,
        key: parameters.key,
        action_key: parameters.action_key,
    })
}

/// The byte at a place, 0 past the end.
pub fn byte(bytes: &[u8], at: usize) -> u8
    ensures { result ≡ slice_index bytes.now at }
{
    bytes.get(at).copied().unwrap_or(0)
}

/// Whether NACA is set in the control byte (SAM-4, CONTROL byte).
pub fn has_naca(cdb: &[u8]) -> bool
    ensures { result ≡ has_naca cdb.now }
{
    is_set(byte(cdb, 9), 2)
}

/// The service action; the bits beside it aren't looked at.
pub fn service_action(cdb: &[u8]) -> u8
    ensures { result ≡ service_action cdb.now }
{
    byte(cdb, 1) % 32
}

/// How many bytes PERSISTENT RESERVE IN may give.
pub fn allocation(cdb: &[u8]) -> u16
    ensures { result ≡ allocation cdb.now }
{
    u16::from_be_bytes([byte(cdb, 7), byte(cdb, 8)])
}

// How many bytes are sent with PERSISTENT RESERVE OUT, as its command block has it.
fn list_length(cdb: &[u8]) -> u32
    ensures { result ≡ list_length cdb.now }
{
    u32::from_be_bytes([byte(cdb, 5), byte(cdb, 6), byte(cdb, 7), byte(cdb, 8)])
}

// A bit of a byte, the lowest one being 0.
fn is_set(byte: u8, number: u8) -> bool
    requires { number < 8 }
    ensures { result ≡ is_set byte number }
{
    (byte >> number) % 2 == 1
}

fn action_of(number: u8) -> Option<Action>
    ensures { result ≡ action_of number }
{
    match number {
        0 => Some(Action::Register),
        1 => Some(Action::Reserve),
        2 => Some(Action::Release),
        3 => Some(Action::Clear),
        4 => Some(Action::Preempt),
        6 => Some(Action::RegisterAndIgnoreExistingKey),
        _ => None,
    }
}

// Whether the command block's type is looked at.
fn names_type(action: Action) -> bool
    ensures { result ≡ names_type action }
{
    matches!(action, Action::Reserve | Action::Release | Action::Preempt)
}

fn is_type(kind: u8) -> bool
    ensures { result ≡ is_type kind }
{
    matches!(kind, 1 | 3 | 5 | 6)
}

// The bytes that were given; a fill isn't given.
fn given(sent: &DataOut) -> &[u8]
    ensures { result.now ≡ given sent.now }
{
    match sent {
        DataOut::Given(bytes) => bytes.as_slice(),
        DataOut::Nothing | DataOut::Fill(_) => &[],
    }
}

// Whether a field of the parameter list is refused: APTPL, SPEC_I_PT, or the key 0 to be preempted.
fn refuses(action: Action, parameters: &Parameters) -> bool
    ensures { result ≡ refuses action parameters.now }
{
    is_set(parameters.flags, 0)
        || is_set(parameters.flags, 3)
        || (matches!(action, Action::Preempt) && parameters.action_key == 0)
}

// The fields of a parameter list of 24 bytes.
fn parameters_of(bytes: &[u8]) -> Option<Parameters>
    ensures { result ≡ parameters_of bytes.now }
{
    let [
        k0,
        k1,
        k2,
        k3,
        k4,
        k5,
        k6,
        k7,
        a0,
        a1,
        a2,
        a3,
        a4,
        a5,
        a6,
        a7,
        _,
        _,
        _,
        _,
        flags,
        _,
        _,
        _,
    ] = bytes
    else {
        return None;
    };
    Some(Parameters {
        key: u64::from_be_bytes([*k0, *k1, *k2, *k3, *k4, *k5, *k6, *k7]),
        action_key: u64::from_be_bytes([*a0, *a1, *a2, *a3, *a4, *a5, *a6, *a7]),
        flags: *flags,
    })
}
