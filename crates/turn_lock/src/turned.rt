//! What can lie behind the lock.
ghost use Rattle.std.specs.Prelude.{◌≡◌, ◌^◌, ◌<◌, List, length, IfOk, OnErr};
ghost use Rattle.turn_lock.specs.Lists.{Follows};

use disk_base::NoMemory;

/// A value that stands for a list of turns, which a step leaves or makes longer by one, beside plain data that no step changes.
pub trait Turned {
    /// What a step is given.
    type Event;

    /// What it answers.
    type Answer;

    /// An item of the list. No value of it need ever be made.
    type Turn;

    /// The data that no step changes. No value of it need ever be made.
    type Kept;

    /// The list.
    ghost turns: { Self → List Self.Turn };

    ghost kept: { Self → Self.Kept };

    /// What a step requires of the event.
    ghost fits: { Self.Kept → Self.Event → Type 0 };

    /// What an answer tells, with the list before the step and the list after it.
    ghost tells: { Self.Kept → List Self.Turn → Self.Event → Self.Answer → List Self.Turn → Type 0 };

    /// Makes a turn, or only answers.
    fn step(&mut self, event: Self::Event) -> Result<Self::Answer, NoMemory>
        requires { fits (kept self.old) event }
        ensures kept { kept self.new ≡ kept self.old }
        ensures turns { Follows (turns self.old) (turns self.new) }
        ensures tells { IfOk result (λ a. tells (kept self.old) (turns self.old) event a (turns self.new)) }
        ensures none { OnErr result (turns self.new ≡ turns self.old) };

    /// How many turns the list has.
    fn count(&self) -> u64
        ensures count { result ≡ length (turns self.now) }
        ensures bound { length (turns self.now) < 2 ^ 62 };
}
