//! What a turn says of the power and of the time.
ghost use Rattle.std.specs.Prelude.{◌≡◌};
ghost use Rattle.history_checker.specs.Walk.{comes_back, event_after, event_of, is_minutes, is_nothing, is_off, may_go_off, on_after, outside_allows, power_allows};

use block_machine::{Entry, Label};
use platter_model::World;

/// What the entries of a turn say of the power and of the time.
#[derive(Clone, Copy, Debug, PartialEq, Eq)]
pub(crate) enum PowerEvent {
    Nothing,
    Off,
    On,
    Minutes(u16),
    /// More than one of these.
    Several,
}

impl PowerEvent {
    /// What these entries say.
    pub(crate) fn of(entries: &[Entry]) -> Self
        ensures { result ≡ event_of entries.now }
    {
        let mut event = PowerEvent::Nothing;
        for entry in entries {
            event = event.with(entry);
        }
        event
    }

    // What one more entry adds.
    fn with(self, entry: &Entry) -> Self
        ensures { result ≡ event_after self entry.now }
    {
        let said = match entry {
            Entry::Cut => PowerEvent::Off,
            Entry::PoweredOn { .. } => PowerEvent::On,
            Entry::Tick { minutes } => PowerEvent::Minutes(*minutes),
            _ => return self,
        };
        match self {
            PowerEvent::Nothing => said,
            _ => PowerEvent::Several,
        }
    }

    /// Whether a turn may say it that finds the power on, or off, and a cut armed, or none.
    pub(crate) fn is_allowed(self, on: bool, armed: bool, label: &Label) -> bool
        ensures { result ≡ power_allows on armed label.now self }
    {
        match label {
            Label::World(event) => self.is_allowed_outside(on, armed, event),
            Label::Arrive(_) | Label::Work(_) | Label::Job(_) | Label::Scan | Label::Destage => {
                if on {
                    self.may_go_off(armed)
                } else {
                    self.is_nothing()
                }
            }
        }
    }

    fn is_allowed_outside(self, on: bool, armed: bool, event: &World) -> bool
        ensures { result ≡ outside_allows on armed event.now self }
    {
        match event {
            World::Cut if on => self.is_off(),
            World::Power if !on => self.comes_back(armed),
            World::Minutes(minutes) if on => self.is_minutes(*minutes),
            _ => self.is_nothing(),
        }
    }

    fn is_nothing(self) -> bool
        ensures { result ≡ is_nothing self }
    {
        match self {
            PowerEvent::Nothing => true,
            _ => false,
        }
    }

    /// Whether the power goes off.
    pub(crate) fn is_off(self) -> bool
        ensures { result ≡ is_off self }
    {
        match self {
            PowerEvent::Off => true,
            _ => false,
        }
    }

    fn is_minutes(self, minutes: u16) -> bool
        ensures { result ≡ is_minutes minutes self }
    {
        match self {
            PowerEvent::Minutes(passed) => passed == minutes,
            _ => false,
        }
    }

    fn may_go_off(self, armed: bool) -> bool
        ensures { result ≡ may_go_off armed self }
    {
        match self {
            PowerEvent::Nothing => true,
            _ => armed && self.is_off(),
        }
    }

    fn comes_back(self, armed: bool) -> bool
        ensures { result ≡ comes_back armed self }
    {
        match self {
            PowerEvent::On => true,
            _ => armed && self.is_off(),
        }
    }

    /// Whether the power is on behind it.
    pub(crate) fn leaves_on(self, on: bool) -> bool
        ensures { result ≡ on_after on self }
    {
        match self {
            PowerEvent::Off => false,
            PowerEvent::On => true,
            _ => on,
        }
    }
}
