ghost use Rattle.std.specs.Prelude.{◌≡◌, ◌==◌, ◌&&◌, not, if◌then◌else◌, IsTrue};
ghost use Rattle.sense_data.specs.Attentions.{raised_where, waits_in};
ghost use Rattle.reservations.specs.Acts.{acted, cleared, dropped, has_right_keys, holder_has, is_anyones, other_registrants, others_with_key, preempted, registered, released, reserved, taken};
ghost use Rattle.reservations.specs.Desk.{KnownWait, known_attentions};

use crate::request::{Action, Request};
use crate::state::{Holder, State, place_of};
use crate::verdict::{Rule, Verdict};
use disk_base::Initiator;
use sense_data::codes::{
    INVALID_RELEASE_OF_PERSISTENT_RESERVATION, REGISTRATIONS_PREEMPTED, RESERVATIONS_PREEMPTED,
    RESERVATIONS_RELEASED,
};
use sense_data::{
    Attention, Attentions, INITIATORS, known_stay_known, no_more_wait_than_are_known,
};

/// Does what a PERSISTENT RESERVE OUT with the right keys asks for.
pub fn act(state: &mut State, i: Initiator, request: &Request) -> Verdict
    requires { KnownWait state.old.waiting }
    ensures verdict { result ≡ (acted request.now.action state.old i request.now).verdict }
    ensures desk { state.new ≡ (acted request.now.action state.old i request.now).desk }
{
    match request.action {
        Action::Register | Action::RegisterAndIgnoreExistingKey => {
            register(state, i, request.action_key);
            Verdict::done(Rule::Register)
        }
        Action::Reserve => reserve(state, i, request.kind),
        Action::Release => release(state, i, request.kind),
        Action::Clear => {
            clear(state, i);
            Verdict::done(Rule::Clear)
        }
        Action::Preempt => {
            preempt(state, i, request.kind, request.action_key);
            Verdict::done(Rule::Preempt)
        }
    }
}

/// Whether the keys of a request are the right ones.
pub fn has_right_keys(state: &State, i: Initiator, request: &Request) -> bool
    ensures { result ≡ has_right_keys state.now i request.now }
{
    let own = state.keys[place_of(i)];
    match request.action {
        Action::Register => request.key == own,
        Action::RegisterAndIgnoreExistingKey => true,
        Action::Preempt => {
            own != 0 && request.key == own && is_anyones(&state.keys, request.action_key)
        }
        Action::Reserve | Action::Release | Action::Clear => own != 0 && request.key == own,
    }
}

fn register(state: &mut State, i: Initiator, key: u64)
    requires { KnownWait state.old.waiting }
    ensures { state.new ≡ registered state.old i key }
{
    if key == 0 {
        if let Some(holder) = state.holder {
            if holder.initiator == i {
                drop_reservation(state, i, holder.kind);
            }
        }
    }
    state.keys[place_of(i)] = key;
    state.generation = state.generation.wrapping_add(1);
}

fn reserve(state: &mut State, i: Initiator, kind: u8) -> Verdict
    ensures verdict { result ≡ (reserved state.old.holder state.old i kind).verdict }
    ensures desk { state.new ≡ (reserved state.old.holder state.old i kind).desk }
{
    if let Some(holder) = state.holder {
        if holder.initiator != i || holder.kind != kind {
            return Verdict::denied(Rule::DenyHolder {
                holder: holder.initiator,
                kind: holder.kind,
            });
        }
    } else {
        let taken = Some(Holder { initiator: i, kind });
        state.holder = taken;
    }
    Verdict::done(Rule::Reserve)
}

fn release(state: &mut State, i: Initiator, kind: u8) -> Verdict
    requires { KnownWait state.old.waiting }
    ensures verdict { result ≡ (released state.old.holder state.old i kind).verdict }
    ensures desk { state.new ≡ (released state.old.holder state.old i kind).desk }
{
    if let Some(holder) = state.holder {
        if i == holder.initiator {
            if holder.kind != kind {
                return Verdict::refused(INVALID_RELEASE_OF_PERSISTENT_RESERVATION);
            }
            drop_reservation(state, i, kind);
        }
    }
    Verdict::done(Rule::Release)
}

fn clear(state: &mut State, i: Initiator)
    requires { KnownWait state.old.waiting }
    ensures { state.new ≡ cleared state.old i }
{
    let others = other_registrants(&state.keys, i);
    warn(&mut state.waiting, &others, RESERVATIONS_PREEMPTED);
    state.keys = [0; INITIATORS];
    state.holder = None;
    state.generation = state.generation.wrapping_add(1);
}

fn preempt(state: &mut State, i: Initiator, kind: u8, key: u64)
    requires { KnownWait state.old.waiting }
    ensures { state.new ≡ preempted state.old i kind key }
{
    let others = others_with_key(&state.keys, i, key);
    if holder_has(state, key) {
        state.holder = Some(Holder { initiator: i, kind });
    }
    warn(&mut state.waiting, &others, REGISTRATIONS_PREEMPTED);
    state.keys = taken(&state.keys, &others);
    state.generation = state.generation.wrapping_add(1);
}

// The holder's reservation ends; where the registrants had what it had, the others are told.
fn drop_reservation(state: &mut State, i: Initiator, kind: u8)
    requires { KnownWait state.old.waiting }
    ensures { state.new ≡ dropped state.old i kind }
{
    if kind == 5 || kind == 6 {
        let others = other_registrants(&state.keys, i);
        warn(&mut state.waiting, &others, RESERVATIONS_RELEASED);
    }
    state.holder = None;
}

// Raises one of the desk's attentions for each marked initiator.
fn warn(waiting: &mut Attentions, marks: &[bool; INITIATORS], attention: Attention)
    requires known { KnownWait waiting.old }
    requires one { IsTrue (waits_in attention known_attentions) }
    ensures { waiting.new ≡ raised_where marks.now attention waiting.old }
{
    known_stay_known();
    no_more_wait_than_are_known();
    waiting.raise_where(marks, attention);
}

// Marks of the registrants other than an initiator.
fn other_registrants(keys: &[u64; INITIATORS], i: Initiator) -> [bool; INITIATORS]
    ensures { result ≡ other_registrants keys.now i }
{
    let own = place_of(i);
    let mut marks = [false; INITIATORS];
    for place in 0..INITIATORS {
        let mark = is_other_registrant(place, own, keys[place]);
        marks[place] = mark;
    }
    marks
}

// Marks of the others that have a key.
fn others_with_key(keys: &[u64; INITIATORS], i: Initiator, key: u64) -> [bool; INITIATORS]
    ensures { result ≡ others_with_key keys.now i key }
{
    let own = place_of(i);
    let mut marks = [false; INITIATORS];
    for place in 0..INITIATORS {
        let mark = is_other_with_key(place, own, keys[place], key);
        marks[place] = mark;
    }
    marks
}

// The keys without those of the marked initiators.
fn taken(keys: &[u64; INITIATORS], marks: &[bool; INITIATORS]) -> [u64; INITIATORS]
    ensures { result ≡ taken keys.now marks.now }
{
    let mut left = [0; INITIATORS];
    for place in 0..INITIATORS {
        let key = left_key(marks[place], keys[place]);
        left[place] = key;
    }
    left
}

fn is_other_registrant(place: usize, own: usize, key: u64) -> bool
    ensures { result ≡ (not (place == own) && not (key == 0)) }
{
    place != own && key != 0
}

fn is_other_with_key(place: usize, own: usize, key: u64, named: u64) -> bool
    ensures { result ≡ (not (place == own) && key == named) }
{
    place != own && key == named
}

// The key of an initiator that is marked to lose it, or not.
fn left_key(mark: bool, key: u64) -> u64
    ensures { result ≡ (if mark then 0 else key) }
{
    if mark { 0 } else { key }
}

fn is_anyones(keys: &[u64; INITIATORS], key: u64) -> bool
    ensures { result ≡ is_anyones keys.now key }
{
    keys.iter().any(|k| *k == key)
}

// Whether the holder has a key.
fn holder_has(state: &State, key: u64) -> bool
    ensures { result ≡ holder_has state.now key }
{
    state
        .holder
        .is_some_and(|h| state.keys[place_of(h.initiator)] == key)
}
