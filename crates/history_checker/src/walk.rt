//! Where turns stand along a script.
ghost use Rattle.std.specs.Prelude.{◌≡◌, ◌+◌, ◌<◌, ◌≤◌, ◌==◌, ◌++◌, ℕ, ◌&&◌, ◌||◌, not, None, Some, List, drop, find, length, slice_index, slice_range, IsTrue, MatchOption, true, false};
ghost use Rattle.std.specs.List.{list_all};
ghost use Rattle.disk_base.specs.At.{put_at};
ghost use Rattle.block_machine.specs.declared.entry.Entry.{Entry as EntryValue};
ghost use Rattle.script_text.specs.declared.script.Line.{Line as LineValue};
ghost use Rattle.script_text.specs.Standing.{is_world};
ghost use Rattle.history_checker.specs.Parts.{is_from, lines_of, parts_behind};
ghost use Rattle.history_checker.specs.Standing.{BeginsWith, Keeps, StandsFirst, begins_with, has_next, is_done_first, is_outside_first, is_phase_ahead, is_stop, lines_left, past_first};
ghost use Rattle.history_checker.specs.Walk.{Walk as WalkValue, advanced, allows, arms, came_after, comes_next, happens_next, is_arrival, is_empty, is_next, is_off, place_after, sender_of, settled, walk_at_start};

use crate::power::PowerEvent;
use crate::same::{same_world, tells};
use block_machine::{Entry, Label, Turn};
use disk_base::Initiator;
use platter_model::World;
use script_text::Line;

const INITIATORS: usize = 8;

/// A walk along the lines of a script, which each call is given again.
#[derive(Clone, Copy, Debug)]
pub(crate) struct Walk {
    /// The first line from the phase in hand on that is `go`, or a world line that hasn't come; the number of lines where there
    /// is none.
    stop: usize,
    /// Of each initiator, its next line before that one; that place where there is none.
    next: [usize; INITIATORS],
    /// Nothing is left of the script.
    is_over: bool,
    is_on: bool,
    is_armed: bool,
}

impl Walk {
    /// At the start.
    pub(crate) fn new(lines: &[Line]) -> Self
        ensures { Keeps lines.now result (walk_at_start lines.now) }
    {
        let stop = stop_from(lines, 0);
        Walk {
            stop,
            next: sought(lines, &[0; INITIATORS], stop),
            is_over: false,
            is_on: true,
            is_armed: false,
        }
    }

    /// Goes past the phases that are done, where no command is in or some are.
    pub(crate) fn settle(&mut self, lines: &[Line], idle: bool)
        requires { (w : WalkValue) × Keeps lines.now self.old w }
        ensures { (w : WalkValue) → Keeps lines.now self.old w → Keeps lines.now self.new (settled idle w) }
    {
        'phases: while self.is_phase_done(lines, idle) {
            self.leave_phase(lines);
        }
    }

    /// Whether a turn may come next, once the walk is behind the phases that are done.
    pub(crate) fn allows(&self, lines: &[Line], turn: &Turn) -> bool
        requires { (w : WalkValue) × Keeps lines.now self.now w }
        ensures { (w : WalkValue) → Keeps lines.now self.now w → result ≡ allows w turn.now }
    {
        let entries = turn.entries.as_slice();
        self.is_next(lines, &turn.label, entries)
            && PowerEvent::of(entries).is_allowed(self.is_on, self.is_armed, &turn.label)
    }

    /// Goes on behind a turn that may come next.
    pub(crate) fn advance(&mut self, lines: &[Line], turn: &Turn)
        requires { (w : WalkValue) × Keeps lines.now self.old w × IsTrue (allows w turn.now) }
        ensures { (w : WalkValue) → Keeps lines.now self.old w → IsTrue (allows w turn.now) → Keeps lines.now self.new (advanced w turn.now) }
    {
        let entries = turn.entries.as_slice();
        self.leave(lines, &turn.label, entries);
        let event = PowerEvent::of(entries);
        self.is_armed = stays_armed(self.is_armed, &turn.label, event);
        self.is_on = event.leaves_on(self.is_on);
    }

    /// Whether nothing is left of the script, once the walk is behind the phases that are done.
    pub(crate) fn is_over(&self) -> bool
        ensures { (lines : List LineValue) (w : WalkValue) → Keeps lines self.now w → result ≡ is_empty w.place.ahead }
    {
        self.is_over
    }
}

impl Walk {
    // Whether a phase is ahead that is done.
    fn is_phase_done(&self, lines: &[Line], idle: bool) -> bool
        requires { (w : WalkValue) × Keeps lines.now self.now w }
        ensures done { (w : WalkValue) → Keeps lines.now self.now w → result ≡ is_done_first idle w }
        ensures phase { IsTrue result → IsTrue (is_phase_ahead lines.now self.now) }
    {
        if !self.is_phase_ahead(lines) {
            return false;
        }
        if !self.is_on {
            return true;
        }
        if !idle {
            return false;
        }
        self.have_all_come()
    }

    fn is_phase_ahead(&self, lines: &[Line]) -> bool
        requires { self.now.stop ≤ length lines.now }
        ensures { result ≡ is_phase_ahead lines.now self.now }
    {
        !self.is_over && !is_world_at(lines, self.stop)
    }

    // Whether no initiator has a line left in the phase.
    fn have_all_come(&self) -> bool
        ensures { result ≡ list_all (λ at. at == self.now.stop) self.now.next }
    {
        let stop = self.stop;
        self.next.iter().all(|at| *at == stop)
    }

    // Goes to the place behind a turn that is the script's next of its kind.
    fn leave(&mut self, lines: &[Line], label: &Label, entries: &[Entry])
        requires { (w : WalkValue) × Keeps lines.now self.old w }
        ensures { (w : WalkValue) → Keeps lines.now self.old w → IsTrue (is_next w.place label.now entries.now)
            → Keeps lines.now self.new (record w { place = place_after w.place label.now entries.now }) }
    {
        match label {
            Label::Arrive(_) => self.take_arrival(lines, entries),
            Label::World(_) => self.leave_event(lines),
            Label::Work(_) | Label::Job(_) | Label::Scan | Label::Destage => {}
        }
    }

    // Goes behind the phase that is ahead.
    fn leave_phase(&mut self, lines: &[Line])
        requires stands { (w : WalkValue) × Keeps lines.now self.old w }
        requires phase { IsTrue (is_phase_ahead lines.now self.old) }
        ensures stands { (w : WalkValue) → Keeps lines.now self.old w → Keeps lines.now self.new (past_first w) }
        ensures less { lines_left lines.now self.new < lines_left lines.now self.old }
    {
        if self.stop == lines.len() {
            self.is_over = true;
            return;
        }
        let from = self.stop + 1;
        self.stop = stop_from(lines, from);
        self.next = sought(lines, &[from; INITIATORS], self.stop);
    }

    // Goes behind what happens from outside, where that is ahead.
    fn leave_event(&mut self, lines: &[Line])
        requires stands { (w : WalkValue) × Keeps lines.now self.old w }
        ensures { (w : WalkValue) → Keeps lines.now self.old w → IsTrue (is_outside_first w.place.ahead)
            → Keeps lines.now self.new (record w { place = record w.place { ahead = drop 1 w.place.ahead } }) }
    {
        if self.is_over || !is_world_at(lines, self.stop) {
            return;
        }
        let stop = stop_from(lines, self.stop + 1);
        self.next = sought(lines, &self.next, stop);
        self.stop = stop;
    }

    // Whether the turn is the script's next of its kind.
    fn is_next(&self, lines: &[Line], label: &Label, entries: &[Entry]) -> bool
        requires { (w : WalkValue) × Keeps lines.now self.now w }
        ensures { (w : WalkValue) → Keeps lines.now self.now w → result ≡ is_next w.place label.now entries.now }
    {
        match label {
            Label::Arrive(_) => self.comes_next(lines, entries),
            Label::World(event) => self.happens_next(lines, event),
            Label::Work(_) | Label::Job(_) | Label::Scan | Label::Destage => true,
        }
    }

    // Whether this is to happen next from outside.
    fn happens_next(&self, lines: &[Line], event: &World) -> bool
        requires { (w : WalkValue) × Keeps lines.now self.now w }
        ensures { (w : WalkValue) → Keeps lines.now self.now w → result ≡ happens_next w.place.ahead event.now }
    {
        if self.is_over {
            return false;
        }
        match &lines[self.stop..] {
            [Line::World { world }, ..] => same_world(world, event),
            _ => false,
        }
    }

    // Whether the entries' first arrival is its sender's next line in the phase that is ahead.
    fn comes_next(&self, lines: &[Line], entries: &[Entry]) -> bool
        requires { (w : WalkValue) × Keeps lines.now self.now w }
        ensures { (w : WalkValue) → Keeps lines.now self.now w → result ≡ comes_next w.place (find is_arrival entries.now) }
    {
        for entry in entries {
            if let Some(sender) = sender_of(entry) {
                return self.sends_next(lines, sender, entry);
            }
        }
        false
    }

    fn sends_next(&self, lines: &[Line], sender: Initiator, entry: &Entry) -> bool
        requires stands { (w : WalkValue) × Keeps lines.now self.now w }
        requires sender { sender ≡ sender_of entry.now }
        ensures { (w : WalkValue) → Keeps lines.now self.now w → result ≡ comes_next w.place (Some entry.now) }
    {
        if !self.is_phase_ahead(lines) {
            return false;
        }
        let at = self.next[place_of(sender)];
        at < self.stop && tells(entry, &lines[at])
    }

    // The first arrival's sender has sent one line more.
    fn take_arrival(&mut self, lines: &[Line], entries: &[Entry])
        requires { (w : WalkValue) × Keeps lines.now self.old w }
        ensures { (w : WalkValue) → Keeps lines.now self.old w → IsTrue (comes_next w.place (find is_arrival entries.now))
            → Keeps lines.now self.new (record w { place = record w.place { came = came_after w.place.came (find is_arrival entries.now) } }) }
    {
        if let Some(sender) = first_sender(entries) {
            self.take_line(lines, sender);
        }
    }

    fn take_line(&mut self, lines: &[Line], sender: Initiator)
        requires { (w : WalkValue) × Keeps lines.now self.old w }
        ensures { (w : WalkValue) → Keeps lines.now self.old w → IsTrue (has_next w.place sender)
            → Keeps lines.now self.new (record w { place = record w.place { came = put_at sender (w.place.came sender + 1) w.place.came } }) }
    {
        let place = place_of(sender);
        let at = self.next[place];
        if at < self.stop {
            self.next[place] = seek(lines, sender.number(), at + 1, self.stop);
        }
    }
}

// Whether a line is a world line.
fn is_world_at(lines: &[Line], place: usize) -> bool
    requires { place ≤ length lines.now }
    ensures { result ≡ begins_with is_world (drop place lines.now) }
{
    match &lines[place..] {
        [Line::World { .. }, ..] => true,
        _ => false,
    }
}

// The first place from one on of `go` or a world line; the number of lines where there is none.
fn stop_from(lines: &[Line], from: usize) -> usize
    requires { from ≤ length lines.now }
    ensures low { from ≤ result }
    ensures high { result ≤ length lines.now }
    ensures stops { BeginsWith is_stop (drop result lines.now) }
    ensures parts { (waiting : List LineValue) → parts_behind waiting (drop from lines.now)
        ≡ parts_behind (waiting ++ slice_range lines.now from result) (drop result lines.now) }
{
    for place in from..lines.len() {
        if is_stop(&lines[place]) {
            return place;
        }
    }
    lines.len()
}

fn is_stop(line: &Line) -> bool
    ensures { result ≡ is_stop line.now }
{
    match line {
        Line::Go | Line::World { .. } => true,
        _ => false,
    }
}

// Of each initiator, its first line from a place of its own on and before another; that other place where there is none.
fn sought(lines: &[Line], from: &[usize; INITIATORS], stop: usize) -> [usize; INITIATORS]
    requires bound { stop ≤ length lines.now }
    requires within { (k : ℕ) → k < 8 → slice_index from.now k ≤ stop }
    ensures eight { length result ≡ 8 }
    ensures each { (k : ℕ) → k < 8 → StandsFirst lines.now (k + 1) (slice_index result k) stop (lines_of (k + 1) (slice_range lines.now (slice_index from.now k) stop)) }
{
    let mut next = [stop; INITIATORS];
    let mut number = 1u8;
    for (place, at) in from.iter().enumerate() {
        next[place] = seek(lines, number, *at, stop);
        number += 1;
    }
    next
}

// The first line of the initiator of a number, from a place on and before another; that other place where there is none.
fn seek(lines: &[Line], number: u8, from: usize, stop: usize) -> usize
    requires within { from ≤ stop }
    requires bound { stop ≤ length lines.now }
    ensures { StandsFirst lines.now number result stop (lines_of number (slice_range lines.now from stop)) }
{
    for place in from..stop {
        if is_from(number, &lines[place]) {
            return place;
        }
    }
    stop
}

// Whether a line is a command or a function of the initiator of a number.
fn is_from(number: u8, line: &Line) -> bool
    ensures { result ≡ is_from number line.now }
{
    match line {
        Line::Command { initiator, .. } | Line::Function { initiator, .. } => {
            initiator.number() == number
        }
        _ => false,
    }
}

// Who sent what came by an entry, where that is an arrival.
fn sender_of(entry: &Entry) -> Option<Initiator>
    ensures { MatchOption result (is_arrival entry.now ≡ false) (λ i. (is_arrival entry.now ≡ true) × (i ≡ sender_of entry.now)) }
{
    match entry {
        Entry::Arrived { initiator, .. } | Entry::Asked { initiator, .. } => Some(*initiator),
        _ => None,
    }
}

// Who sent the first arrival among entries, where there is one.
fn first_sender(entries: &[Entry]) -> Option<Initiator>
    ensures { MatchOption result (find is_arrival entries.now ≡ None)
        (λ i. (e : EntryValue) × (find is_arrival entries.now ≡ Some e) × (i ≡ sender_of e)) }
{
    for entry in entries {
        if let Some(sender) = sender_of(entry) {
            return Some(sender);
        }
    }
    None
}

// Whether a cut is armed behind a turn with this event.
fn stays_armed(armed: bool, label: &Label, event: PowerEvent) -> bool
    ensures { result ≡ ((armed || arms label.now) && not (is_off event)) }
{
    (armed || arms(label)) && !event.is_off()
}

// Whether the turn is that of a line `cut write`.
fn arms(label: &Label) -> bool
    ensures { result ≡ arms label.now }
{
    match label {
        Label::World(World::Arm { .. }) => true,
        _ => false,
    }
}

// The place of an initiator among the eight.
fn place_of(initiator: Initiator) -> usize
    ensures value { result + 1 ≡ initiator }
    ensures within { result < 8 }
{
    usize::from(initiator.number()) - 1
}
