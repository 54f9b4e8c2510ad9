//! A script is carried out: its lines, one after another.
ghost use Rattle.std.specs.Prelude.{◌≡◌, ◌+◌, ◌<◌, ◌≤◌, [], length, All, OnOk, IfOk};
ghost use Rattle.geometry_map.specs.Size.{capacity_of};
ghost use Rattle.drive_scene.specs.Run.{scene_of};
ghost use Rattle.drive_scene.specs.Able.{turns_at_most};
ghost use Rattle.drive_core.specs.Served.{IsServed};
ghost use Rattle.drive_scene.specs.declared.event.Event.TheVariants as event;
ghost use Rattle.script_runner.specs.Wanted.{wanted_of};
ghost use Rattle.script_runner.specs.Script.{blocks_of, HasMeasures, IsServedLine, CanBeCarriedOut, IsFresh};
ghost use Rattle.script_runner.specs.Measure.{turns_of_line, turns_of_lines, turns_wanted};
ghost use Rattle.script_runner.specs.Leading.{IsAtRest, TakesLine, CarriesOut};
ghost use Rattle.script_runner.specs.Phasing.{Happens};
ghost use Rattle.script_runner.specs.Run.{IsGoodByOrder};

use crate::order::Order;
use crate::phase::{carry_phase, make_turn};
use crate::queues::Queued;
use disk_base::NoMemory;
use drive_core::{Arrival, Arriving, Drive, Event};
use geometry_map::Size;
use platter_model::World;
use report_text::Run;
use script_text::{Line, Script};
use sector_store::StoreFault;
use std::alloc::Global;

/// A run of a script: a drive from its factory on, which carries out the lines.
pub(crate) fn run_script(alloc: Global, script: Script, order: Order) -> Result<Run, NoMemory>
    requires { (size : Size) → HasMeasures script.size size → CanBeCarriedOut size script }
    ensures script { IfOk result (λ run. run.script ≡ script) }
    ensures good { IfOk result (IsGoodByOrder order.x) }
    ensures few { IfOk result (λ run. length run.turns ≤ turns_of_lines (blocks_of run.script) run.script.lines) }
{
    let mut drive = made(alloc, &script)?;
    carry_out(alloc, &mut drive, script.lines.as_slice(), order)?;
    drive.is_good();
    let factory_count = drive.factory_count();
    let (turns, ops) = drive.into_parts();
    Ok(Run {
        script,
        turns,
        ops,
        factory_count,
    })
}

// The drive of a script.
fn made(alloc: Global, script: &Script) -> Result<Drive, NoMemory>
    requires { (size : Size) → HasMeasures script.now.size size → CanBeCarriedOut size script.now }
    ensures { IfOk result (IsFresh script.now) }
{
    let size = size_of(script.size);
    match Drive::factory(alloc, size, script.primary.as_slice()) {
        Ok(drive) => Ok(drive),
        Err(StoreFault::NoMemory) => Err(NoMemory),
        Err(StoreFault::Primary) => unreachable!(),
    }
}

// The measures of the drive.
fn size_of(given: Option<Size>) -> Size
    ensures { HasMeasures given result }
{
    match given {
        Some(size) => size,
        None => Size {
            cylinders: 16,
            heads: 4,
            sectors: 16,
            reserved: 96,
        },
    }
}

// What waits when a line ends a phase, and at the end, is carried out.
fn carry_out(alloc: Global, drive: &mut Drive, lines: &[Line], order: Order) -> Result<(), NoMemory>
    requires served { All (IsServedLine drive.old.made.size) lines.now }
    requires fresh { (scene_of drive.old).hist.set ≡ [] }
    requires room { length drive.old.turns + turns_of_lines (capacity_of drive.old.made.size) lines.now < turns_at_most }
    ensures { OnOk result (CarriesOut drive.old order.x lines.now drive.new) }
{
    let mut queued = Queued::new(alloc)?;
    let mut so_far = order;
    for line in lines {
        take_line(alloc, drive, &mut queued, &mut so_far, line)?;
    }
    carry_phase(drive, &mut queued, &mut so_far)
}

fn take_line(
    alloc: Global,
    drive: &mut Drive,
    queued: &mut Queued,
    order: &mut Order,
    line: &Line,
) -> Result<(), NoMemory>
    requires served { IsServedLine drive.old.made.size line.now }
    requires at_rest { IsAtRest drive.old (wanted_of queued.old) }
    requires room { length drive.old.turns + turns_wanted (capacity_of drive.old.made.size) (wanted_of queued.old)
        + turns_of_line (capacity_of drive.old.made.size) line.now < turns_at_most }
    ensures { OnOk result
        (TakesLine drive.old order.old.x (wanted_of queued.old) line.now drive.new order.new.x (wanted_of queued.new)) }
{
    match line {
        Line::Command {
            initiator,
            tag,
            attribute,
            cdb,
            sent,
        } => {
            let arrival = Arrival::Command(Arriving {
                initiator: *initiator,
                tag: *tag,
                attribute: *attribute,
                cdb: cdb.copy(),
                sent: sent.copy(alloc)?,
            });
            queued.queues.put(*initiator, arrival)
        }
        Line::Function { initiator, what } => {
            let arrival = Arrival::Function {
                initiator: *initiator,
                what: *what,
            };
            queued.queues.put(*initiator, arrival)
        }
        Line::Destage { count } => {
            queued.destages += *count;
            Ok(())
        }
        Line::Go => carry_phase(drive, queued, order),
        Line::World { world } => happen(drive, *world),
        Line::Scan { .. } => unreachable!(),
    }
}

// Something happens to the drive from outside.
fn happen(drive: &mut Drive, world: World) -> Result<(), NoMemory>
    requires served { IsServed drive.old.made.size (event.World world) }
    requires room { length drive.old.turns < turns_at_most }
    ensures { OnOk result (Happens drive.old world drive.new) }
{
    make_turn(drive, Event::World(world))
}
