ghost use Rattle.std.specs.Prelude.{◌≡◌, ℕ, ◌<◌, ◌^◌, slice_index};
ghost use Rattle.reservations.specs.Desk.{IsDesk, KnownWait, desk_at_start};
ghost use Rattle.reservations.specs.Judged.{after_attention, attention_met, judged, judged_other, judged_out};
ghost use Rattle.reservations.specs.Request.{request_of};

use crate::acting::{act, has_right_keys};
use crate::conflict::conflicts;
use crate::request::{byte, request_of};
use crate::showing::show;
use crate::state::{State, place_of};
use crate::verdict::{Rule, Verdict};
use disk_base::{Cdb, DataOut, Initiator};
use sense_data::{INITIATORS, Sense, known_stay_known};
use std::marker::Model;

// Operation codes (SPC-4).
const REQUEST_SENSE: u8 = 0x03;

const INQUIRY: u8 = 0x12;

const PERSISTENT_RESERVE_IN: u8 = 0x5E;

const PERSISTENT_RESERVE_OUT: u8 = 0x5F;

const REPORT_LUNS: u8 = 0xA0;

/// A desk in front of the drive, at which each command that arrives is judged.
#[derive(Debug, Drop)]
pub struct Desk {
    state: State,
}

impl Model for Desk {
    ghost use Rattle.reservations.specs.declared.state.State.{State};
    ghost use Rattle.reservations.specs.Desk.{IsDesk};

    ghost Value = { State };

    ghost view = { λ d. d.state };

    ghost invariant = { λ d. IsDesk d.state };
}

impl Desk {
    /// Nobody is registered, and nothing waits.
    pub fn new() -> Self
        ensures { result ≡ desk_at_start }
    {
        Desk {
            state: State::at_start(),
        }
    }

    /// The power is cut: what the desk kept is lost.
    pub fn cut(&mut self)
        ensures { self.new ≡ desk_at_start }
    {
        self.state = State::at_start();
    }

    /// Judges a command that an initiator sends, by the first rule that applies.
    pub fn arrive(&mut self, i: Initiator, cdb: &Cdb, sent: &DataOut) -> Verdict
        ensures verdict { result ≡ (judged self.old i cdb.now sent.now).verdict }
        ensures desk { self.new ≡ (judged self.old i cdb.now sent.now).desk }
        ensures kept { IsDesk self.new }
    {
        known_stay_known();
        // One of the eight, as the proof has to know.
        let _number = i.number();
        let verdict = judge(&mut self.state, i, cdb.bytes(), sent);
        keys_fit(&self.state.keys);
        verdict
    }
}

// Each key is of eight bytes, as the proof has to know of all of them.
fn keys_fit(keys: &[u64; INITIATORS])
    ensures { (k : ℕ) → k < 8 → slice_index keys.now k < 2 ^ 64 }
{
    for place in 0..INITIATORS {
        let _key = keys[place];
    }
}

// Judges a command block with what is sent, by the first rule that applies.
fn judge(state: &mut State, i: Initiator, cdb: &[u8], sent: &DataOut) -> Verdict
    requires { KnownWait state.old.waiting }
    ensures verdict { result ≡ (judged state.old i cdb.now sent.now).verdict }
    ensures desk { state.new ≡ (judged state.old i cdb.now sent.now).desk }
{
    let code = byte(cdb, 0);
    if let Some(sense) = told(state, i, code) {
        return Verdict::told(sense);
    }
    match code {
        PERSISTENT_RESERVE_IN => show(state, cdb),
        PERSISTENT_RESERVE_OUT => serve(state, i, cdb, sent),
        _ => admit(state, i, code),
    }
}

// The attention that is told in place of a command, where one waits; it is taken.
fn told(state: &mut State, i: Initiator, code: u8) -> Option<Sense>
    ensures met { result ≡ attention_met state.old i code }
    ensures desk { state.new ≡ after_attention (attention_met state.old i code) state.old i }
{
    match code {
        REQUEST_SENSE | INQUIRY | REPORT_LUNS => None,
        _ => state.waiting.take(i),
    }
}

// Answers a PERSISTENT RESERVE OUT.
fn serve(state: &mut State, i: Initiator, cdb: &[u8], sent: &DataOut) -> Verdict
    requires { KnownWait state.old.waiting }
    ensures verdict { result ≡ (judged_out (request_of cdb.now sent.now) state.old i).verdict }
    ensures desk { state.new ≡ (judged_out (request_of cdb.now sent.now) state.old i).desk }
{
    match request_of(cdb, sent) {
        Err(sense) => Verdict::refused(sense),
        Ok(request) if has_right_keys(state, i, &request) => act(state, i, &request),
        Ok(_) => Verdict::denied(Rule::DenyKey),
    }
}

// Admits any other command, or keeps it out where another holds the unit.
fn admit(state: &State, i: Initiator, code: u8) -> Verdict
    ensures { result ≡ judged_other state.now.holder state.now i code }
{
    let Some(holder) = state.holder else {
        return Verdict::Admit;
    };
    let is_registered = state.keys[place_of(i)] != 0;
    if holder.initiator == i || !conflicts(code, holder.kind, is_registered) {
        return Verdict::Admit;
    }
    Verdict::denied(Rule::DenyHolder {
        holder: holder.initiator,
        kind: holder.kind,
    })
}
