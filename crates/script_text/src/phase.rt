ghost use Rattle.std.specs.Prelude.{◌≡◌, not, IfOk};
ghost use Rattle.std.specs.Bool.{OnTrue};

use crate::Line;
use disk_base::{Initiator, NoMemory, Tag};
use indexmap::IndexSet;
use std::alloc::Global;
use std::marker::Model;

/// The name of a command among those of all initiators (SAM-4, I_T_L_Q nexus).
#[derive(Clone, Copy, Debug, PartialEq, Eq, Hash)]
pub struct TaskName {
    pub initiator: Initiator,
    pub tag: Tag,
}

/// The phase in hand.
#[derive(Drop)]
pub struct Phase {
    waits: bool,
    commands: IndexSet<TaskName>,
}

impl Model for Phase {
    ghost use Rattle.script_text.specs.Phase.{Waiting};

    ghost Value = { Waiting };

    ghost view = { λ p. record { something = p.waits; commands = p.commands.keys } };
}

impl Phase {
    ghost use Rattle.script_text.specs.Phase.{idle, is_taken, phase_after};

    /// Nothing waits.
    pub fn new(alloc: Global) -> Self
        ensures { result ≡ idle }
    {
        Phase {
            waits: false,
            commands: IndexSet::new(alloc),
        }
    }

    /// Whether something waits for `go`.
    pub fn waits(&self) -> bool
        ensures { result ≡ self.now.something }
    {
        self.waits
    }

    /// Takes one more line, unless it is a command of a name that a command of the phase has.
    pub fn take(&mut self, line: &Line) -> Result<bool, NoMemory>
        ensures fresh { IfOk result (λ fresh. fresh ≡ not (is_taken self.old line.now)) }
        ensures taken { IfOk result (λ fresh. OnTrue fresh (self.new ≡ phase_after self.old line.now)) }
    {
        match line {
            Line::Command { initiator, tag, .. } => {
                self.waits = true;
                Ok(
                    self.commands.insert(TaskName {
                        initiator: *initiator,
                        tag: *tag,
                    })?,
                )
            }
            Line::Function { .. } | Line::Scan { .. } | Line::Destage { .. } => {
                self.waits = true;
                Ok(true)
            }
            Line::Go => {
                self.waits = false;
                self.commands.clear();
                Ok(true)
            }
            Line::World { .. } => Ok(true),
        }
    }
}
