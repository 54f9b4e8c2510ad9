//! The commands that are in, with what is under way of each.
ghost use Rattle.std.specs.Prelude.{◌≡◌, ◌≢◌, ℕ, ◌<◌, ◌==◌, IsTrue, IsSomeAnd, Some, None, filter, length, slice_get, vec_len, vec_capacity, position, MatchOption, option_copied};
ghost use Rattle.std.specs.Option.{option_map, is_some};
ghost use Rattle.task_set.specs.Members.{member_of};
ghost use Rattle.command_engine.specs.Answers.{fits, after};
ghost use Rattle.command_engine.specs.Ending.{ending_of};
ghost use Rattle.command_engine.specs.Course.{Course};
ghost use Rattle.command_engine.specs.Standing.{IsCourse};
ghost use Rattle.drive_core.specs.Accepting.{accepted_of, is_numbered, under_way, errand_of, Replaces, Drops};
ghost use Rattle.drive_core.specs.declared.accepted.Accepted.{Accepted as Command};

use command_engine::{Answer, Need, Work};
use disk_base::{Cdb, DataOut};
use mode_pages::Settings;
use sense_data::Reply;
use std::mem;
use task_set::TaskSet;

/// A command that is in, by its number.
#[derive(Debug, Drop)]
pub struct Accepted {
    pub c: u32,
    pub cdb: Cdb,
    /// The data that came with it, until it starts.
    pub sent: DataOut,
    /// Where it stands, from its start on.
    pub work: Option<Work>,
}

/// What a started command needs next, and by which settings.
#[derive(Clone, Copy, Debug)]
pub struct Errand {
    pub need: Need,
    pub settings: Settings,
    /// The values that it gets are its data.
    pub gives: bool,
}

/// Where the command of a number is.
pub fn place(commands: &[Accepted], c: u32) -> Option<usize>
    ensures { result ≡ position (is_numbered c) commands.now }
{
    commands.iter().position(|a| a.c == c)
}

/// What a command needs, where it was started.
pub fn errand_at(commands: &[Accepted], c: u32) -> Option<Errand>
    ensures { result ≡ option_map errand_of (under_way commands.now c) }
{
    match place(commands, c) {
        Some(i) => match &commands[i].work {
            Some(work) => Some(Errand {
                need: work.need(),
                settings: work.settings(),
                gives: work.gives_data(),
            }),
            None => None,
        },
        None => None,
    }
}

/// A started command goes on with an answer to what it needs: its reply, where it ends.
pub fn answer(commands: &mut Vec<Accepted>, c: u32, answer: Answer) -> Option<Reply>
    requires { IsSomeAnd (under_way commands.old.items c) (λ w. IsTrue (fits w answer)) }
    ensures reply { (w : Course) → under_way commands.old.items c ≡ Some w → result ≡ ending_of (after w answer) }
    ensures course { (w : Course) → under_way commands.old.items c ≡ Some w → IsCourse (after w answer) }
    ensures goes { (a : Command) (w : Course) → accepted_of commands.old.items c ≡ Some a → a.work ≡ Some w
        → Replaces commands.old.items commands.new.items c (record a { work = Some (after w answer) }) }
{
    match place(commands.as_slice(), c) {
        Some(i) => {
            let accepted = &mut commands[i];
            match &mut accepted.work {
                Some(work) => {
                    work.answer(answer);
                    work.stands_by_its_plan();
                    work.ending()
                }
                None => unreachable!(),
            }
        }
        None => unreachable!(),
    }
}

/// The command starts on its work.
pub fn begin(commands: &mut Vec<Accepted>, c: u32, work: Work)
    ensures { (a : Command) → accepted_of commands.old.items c ≡ Some a
        → Replaces commands.old.items commands.new.items c (record a { work = Some work }) }
{
    match place(commands.as_slice(), c) {
        Some(i) => commands[i].work = Some(work),
        None => {}
    }
}

/// Takes the data out that came with a command.
pub fn take_sent(commands: &mut Vec<Accepted>, c: u32) -> DataOut
    ensures sent { (a : Command) → accepted_of commands.old.items c ≡ Some a → result ≡ a.sent }
    ensures left { (a : Command) → accepted_of commands.old.items c ≡ Some a
        → Replaces commands.old.items commands.new.items c (record a { sent = DataOut.Nothing }) }
{
    match place(commands.as_slice(), c) {
        Some(i) => mem::replace(&mut commands[i].sent, DataOut::Nothing),
        None => DataOut::Nothing,
    }
}

/// The command has ended.
pub fn leave(commands: &mut Vec<Accepted>, c: u32)
    ensures { Drops commands.old.items commands.new.items c }
{
    commands.retain(|a| a.c != c);
}

/// The commands that aren't in the set any more leave.
pub fn leave_with_set(commands: &mut Vec<Accepted>, set: &TaskSet)
    ensures { commands.new.items ≡ filter (λ a. is_some (member_of set.now a.c)) commands.old.items }
{
    commands.retain(|a| set.member(a.c).is_some());
}
