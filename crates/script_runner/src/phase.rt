//! A phase of a script: turns of the drive, until nothing is left to do.
ghost use Rattle.std.specs.Prelude.{◌≡◌, ◌+◌, ◌≤◌, ◌<◌, ℕ, Some, None, OnOk, length};
ghost use Rattle.drive_scene.specs.Run.{scene_of};
ghost use Rattle.drive_scene.specs.Able.{refusal, pick_of, turns_at_most};
ghost use Rattle.drive_core.specs.Served.{IsServed};
ghost use Rattle.script_runner.specs.Wanted.{IsNothing, wanted_of};
ghost use Rattle.script_runner.specs.Phase.{waiting_of};
ghost use Rattle.script_runner.specs.Phasing.{AreServed, Carried, Fetches, IsAtHand, MakesTurn, TakesTurn, is_done};
ghost use Rattle.script_runner.specs.Measure.{turns_of_phase};

use crate::order::Order;
use crate::queues::Queued;
use disk_base::NoMemory;
use drive_core::{Drive, Event, Pick, TurnAnswer};
use drive_scene::destages_leave_commands;

/// Carries out what waits: all of it arrives, each command comes to its end, and destages come while a block can be destaged.
pub(crate) fn carry_phase(
    drive: &mut Drive,
    queued: &mut Queued,
    order: &mut Order,
) -> Result<(), NoMemory>
    requires served { AreServed (wanted_of queued.old).sends }
    requires room { length drive.old.turns + turns_of_phase (scene_of drive.old) (wanted_of queued.old) < turns_at_most }
    ensures carried { OnOk result (Carried drive.old order.old.x (wanted_of queued.old) drive.new order.new.x) }
    ensures emptied { OnOk result (IsNothing (wanted_of queued.new)) }
{
    while let Some(pick) = drive.pick(&queued.waiting(), order.number()) {
        take_turn(drive, queued, pick)?;
        order.advance();
    }
    queued.destages = 0;
    drive.is_good();
    drive.somebody_is_able();
    Ok(())
}

// The turn that was picked.
fn take_turn(drive: &mut Drive, queued: &mut Queued, pick: Pick) -> Result<(), NoMemory>
    requires picked { (x : ℕ) × (pick_of drive.old (waiting_of (wanted_of queued.old)) x ≡ Some pick) }
    requires served { AreServed (wanted_of queued.old).sends }
    requires room { length drive.old.turns < turns_at_most }
    ensures { OnOk result (TakesTurn drive.old (wanted_of queued.old) pick drive.new (wanted_of queued.new)) }
{
    drive.is_good();
    destages_leave_commands();
    let event = event_of(queued, pick);
    make_turn(drive, event)
}

/// The turn of an event that isn't refused.
pub(crate) fn make_turn(drive: &mut Drive, event: Event) -> Result<(), NoMemory>
    requires served { IsServed drive.old.made.size event }
    requires free { refusal drive.old event ≡ None }
    ensures { OnOk result (MakesTurn drive.old event drive.new) }
{
    drive.is_good();
    match drive.turn(event) {
        Ok(answer) => {
            if is_done(answer) {
                drive.is_good();
                Ok(())
            } else {
                unreachable!()
            }
        }
        Err(error) => Err(error),
    }
}

fn is_done(answer: TurnAnswer) -> bool
    ensures { result ≡ is_done answer }
{
    match answer {
        TurnAnswer::Done { .. } => true,
        TurnAnswer::Held { .. }
        | TurnAnswer::Dormant { .. }
        | TurnAnswer::Crowded { .. }
        | TurnAnswer::Idle { .. }
        | TurnAnswer::Off
        | TurnAnswer::Spent => false,
    }
}

// The event of a pick.
fn event_of(queued: &mut Queued, pick: Pick) -> Event
    requires at_hand { IsAtHand (wanted_of queued.old) pick }
    requires served { AreServed (wanted_of queued.old).sends }
    ensures { Fetches (wanted_of queued.old) pick result (wanted_of queued.new) }
{
    match pick {
        Pick::Arrive(initiator) => match queued.queues.take(initiator) {
            Some(arrival) => Event::Arrive(arrival),
            None => unreachable!(),
        },
        Pick::Work(c) => Event::Work(c),
        Pick::Destage => {
            queued.destages -= 1;
            Event::Destage
        }
        Pick::Job(_) | Pick::Scan => unreachable!(),
    }
}
