//! The points of turns.
ghost use Rattle.std.specs.Prelude.{◌≡◌, ◌++◌, ◌+◌, ◌^◌, ◌<◌, length, OnOk, IfOk};
ghost use Rattle.run_picture.specs.Points.{turn_points, points_of};

use crate::event::{Event, event_of};
use block_machine::Turn;
use disk_base::{Items, NoMemory};
use std::alloc::Global;

/// A thing that a report tells: the number of its turn, from 1; its place in the turn, 0 for the label and otherwise that of the
/// entry, from 1; and what it is.
#[derive(Clone, Copy, Debug, PartialEq, Eq)]
pub struct Point {
    pub turn: u64,
    pub place: u64,
    pub event: Event,
}

/// The points of turns, in order.
pub type Points = Items<Point>;

/// The points of turns: for each its label's, and one for each of its entries.
pub fn points_of(alloc: Global, turns: &[Turn]) -> Result<Points, NoMemory>
    ensures { IfOk result (λ points. points ≡ points_of turns.now) }
{
    let mut points = Points::new(alloc);
    for (index, turn) in turns.iter().enumerate() {
        add_turn(&mut points, index as u64 + 1, turn)?;
    }
    Ok(points)
}

// Adds the points of a turn.
fn add_turn(points: &mut Points, number: u64, turn: &Turn) -> Result<(), NoMemory>
    ensures { OnOk result (points.new ≡ points.old ++ turn_points number turn.now) }
{
    points.push(Point {
        turn: number,
        place: 0,
        event: Event::Labelled { label: turn.label },
    })?;
    for (index, entry) in turn.entries.as_slice().iter().enumerate() {
        points.push(Point {
            turn: number,
            place: index as u64 + 1,
            event: event_of(entry),
        })?;
    }
    Ok(())
}
