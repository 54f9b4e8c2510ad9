ghost use Rattle.std.specs.Prelude.{◌≡◌, ◌<◌, ◌≤◌, ◌↔◌, [], length, filter, not, All};
ghost use Rattle.task_set.specs.Members.{IsIn, IsByAge, member_of, first_forbidding, blocker_of, with_arrived, with_started, without, numbers, is_tagged, is_of, is_named, SomeCommandMayRun};

use crate::named::Named;
use crate::{Member, Task, forbids};
use arrayvec::ArrayVec;
use disk_base::{Initiator, Tag};
use std::marker::Model;

/// The most commands that are in at once.
pub const TASKS_MAX: usize = 64;

/// The numbers of ended commands, by age.
pub type Gone = ArrayVec<u32, TASKS_MAX>;

/// What became of a command that came.
#[derive(Clone, Copy, Debug, PartialEq, Eq)]
pub enum Arrive {
    Entered,
    /// As many commands are in as there may be.
    SetFull,
}

/// The commands that are in, by age (SAM-4, task set).
#[derive(Debug, Drop)]
pub struct TaskSet {
    members: ArrayVec<Member, TASKS_MAX>,
}

impl Model for TaskSet {
    ghost use Rattle.std.specs.Prelude.{List};
    ghost use Rattle.task_set.specs.declared.member.Member.{Member};
    ghost use Rattle.task_set.specs.Members.{IsByAge};

    ghost Value = { List Member };

    ghost view = { λ set. set.members.items };

    ghost invariant = { λ set. IsByAge set.members.items };
}

impl TaskSet {
    /// No command is in.
    pub fn new() -> Self
        ensures { result ≡ [] }
    {
        TaskSet {
            members: ArrayVec::new(),
        }
    }

    /// The commands that are in, by age.
    pub fn members(&self) -> &[Member]
        ensures value { result.now ≡ self.now }
        ensures fits { length result.now ≤ TASKS_MAX }
        ensures by_age { IsByAge self.now }
    {
        self.members.as_slice()
    }

    /// The command of a number, where it is in.
    pub fn member(&self, c: u32) -> Option<Member>
        ensures { result ≡ member_of self.now c }
    {
        self.members
            .as_slice()
            .iter()
            .find(|m| m.task.c == c)
            .copied()
    }

    /// A new command comes into the set, unless that is full. Its number is greater than each that is in.
    pub fn arrive(&mut self, task: Task) -> Arrive
        requires { All (λ m. m.task.c < task.c) self.old }
        ensures full { (result ≡ Arrive.SetFull) ↔ (length self.old ≡ TASKS_MAX) }
        ensures entered { result ≡ Arrive.Entered → self.new ≡ with_arrived self.old task }
        ensures refused { result ≡ Arrive.SetFull → self.new ≡ self.old }
    {
        if self.members.is_full() {
            return Arrive::SetFull;
        }
        self.members.push(Member {
            task,
            started: false,
        });
        Arrive::Entered
    }

    /// The oldest command that keeps this one from starting; none where it was started, or is free to start.
    pub fn may_run(&self, c: u32) -> Option<u32>
        requires { IsIn self.now c }
        ensures { result ≡ blocker_of self.now c }
    {
        let member = self.member(c)?;
        if member.started {
            return None;
        }
        first_forbidding(self.members.as_slice(), &member.task)
    }

    /// The command begins.
    pub fn start(&mut self, c: u32)
        requires { IsIn self.old c }
        ensures { self.new ≡ with_started self.old c }
    {
        start_in(self.members.as_mut_slice(), c);
    }

    /// The command has ended, and leaves the set.
    pub fn end(&mut self, c: u32)
        requires { IsIn self.old c }
        ensures { self.new ≡ without self.old c }
    {
        self.members.retain(|m| m.task.c != c);
    }

    /// Ends the initiator's commands of this tag (SAM-4, ABORT TASK).
    pub fn abort(&mut self, i: Initiator, tag: Tag) -> Gone
        ensures gone { result.items ≡ numbers (filter (is_tagged i tag) self.old) }
        ensures left { self.new ≡ filter (λ m. not (is_tagged i tag m)) self.old }
    {
        self.take_out(&Named::Tagged(i, tag))
    }

    /// Ends the initiator's commands (SAM-4, ABORT TASK SET).
    pub fn abort_set(&mut self, i: Initiator) -> Gone
        ensures gone { result.items ≡ numbers (filter (is_of i) self.old) }
        ensures left { self.new ≡ filter (λ m. not (is_of i m)) self.old }
    {
        self.take_out(&Named::Of(i))
    }

    /// Ends all commands (SAM-4, CLEAR TASK SET and LOGICAL UNIT RESET).
    pub fn clear(&mut self) -> Gone
        ensures gone { result.items ≡ numbers self.old }
        ensures left { self.new ≡ [] }
    {
        self.take_out(&Named::Everyone)
    }

    // Ends the commands that a function names.
    fn take_out(&mut self, named: &Named) -> Gone
        ensures gone { result.items ≡ numbers (filter (is_named named.now) self.old) }
        ensures left { self.new ≡ filter (λ m. not (is_named named.now m)) self.old }
    {
        let gone = numbers_of(self.members.as_slice(), named);
        self.members.retain(|m| !named.names(m));
        gone
    }
}

/// A law on task sets: of the commands of a set that isn't empty, one was started or is free to start.
pub fn some_command_may_run()
    ensures { SomeCommandMayRun }
{}

// The oldest command that forbids the start of a task.
fn first_forbidding(members: &[Member], task: &Task) -> Option<u32>
    ensures { result ≡ first_forbidding members.now task.now }
{
    members
        .iter()
        .find(|m| forbids(&m.task, task))
        .map(|m| m.task.c)
}

// The numbers of the commands that a function names.
fn numbers_of(members: &[Member], named: &Named) -> Gone
    requires { length members.now ≤ TASKS_MAX }
    ensures { result.items ≡ numbers (filter (is_named named.now) members.now) }
{
    let mut gone = Gone::new();
    for member in members {
        if named.names(member) {
            gone.push(member.task.c);
        }
    }
    gone
}

// Marks the command of a number as started.
fn start_in(members: &mut [Member], c: u32)
    ensures { members.new ≡ with_started members.old c }
{
    for member in members.iter_mut() {
        if member.task.c == c {
            member.started = true;
        }
    }
}
