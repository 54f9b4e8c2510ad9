//! The marks of turns.
ghost use Rattle.std.specs.Prelude.{◌≡◌, ◌++◌, OnOk, IfOk};
ghost use Rattle.run_picture.specs.Marks.{marks_at, marks_from, marks_of};

use crate::points::{Point, points_of};
use crate::spans::{Span, span_at};
use block_machine::Turn;
use disk_base::{Items, NoMemory};
use std::alloc::Global;

/// A mark of a picture.
#[derive(Clone, Copy, Debug, PartialEq, Eq)]
pub enum Mark {
    /// A mark at a turn.
    At(Point),
    /// A mark over turns.
    Over(Span),
}

/// The marks of a picture.
pub type Marks = Items<Mark>;

/// The marks of turns: each label and each entry has a mark at its turn; each command that came, each start of one, each put and
/// each cut has one over its turns besides.
pub fn marks_of(alloc: Global, turns: &[Turn]) -> Result<Marks, NoMemory>
    ensures { IfOk result (λ marks. marks ≡ marks_of turns.now) }
{
    let points = points_of(alloc, turns)?;
    marks_from(alloc, turns.len() as u64, points.as_slice())
}

// The marks of points, where the last turn has this number.
fn marks_from(alloc: Global, last: u64, points: &[Point]) -> Result<Marks, NoMemory>
    ensures { IfOk result (λ marks. marks ≡ marks_from last points.now) }
{
    let mut marks = Marks::new(alloc);
    for (index, point) in points.iter().enumerate() {
        add_marks(&mut marks, last, point, &points[index + 1..])?;
    }
    Ok(marks)
}

// Adds the marks of a point.
fn add_marks(marks: &mut Marks, last: u64, point: &Point, later: &[Point]) -> Result<(), NoMemory>
    ensures { OnOk result (marks.new ≡ marks.old ++ marks_at last point.now later.now) }
{
    marks.push(Mark::At(*point))?;
    if let Some(span) = span_at(last, point, later) {
        marks.push(Mark::Over(span))?;
    }
    Ok(())
}
