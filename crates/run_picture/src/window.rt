//! The marks that a range of turns shows.
ghost use Rattle.std.specs.Prelude.{◌≡◌, IfOk};
ghost use Rattle.run_picture.specs.Window.{starts_within, clipped, shown, shown_of};

use crate::marks::{Mark, Marks};
use crate::spans::{Ending, Span};
use disk_base::NoMemory;
use std::alloc::Global;

/// A range of turns, from the first to the last.
#[derive(Clone, Copy, Debug, PartialEq, Eq)]
pub struct Window {
    pub from: u64,
    pub to: u64,
}

/// What a range of turns shows of marks: those at its turns, and those over some of them, cut at its edges.
pub fn shown_of(alloc: Global, window: Window, marks: &[Mark]) -> Result<Marks, NoMemory>
    ensures { IfOk result (λ list. list ≡ shown_of window marks.now) }
{
    let mut list = Marks::new(alloc);
    for mark in marks {
        if let Some(mark) = shown(window, mark) {
            list.push(mark)?;
        }
    }
    Ok(list)
}

// What a range shows of a mark, where it shows some.
fn shown(window: Window, mark: &Mark) -> Option<Mark>
    ensures { result ≡ shown window mark.now }
{
    match mark {
        Mark::At(point) => {
            if point.turn < window.from || window.to < point.turn {
                None
            } else {
                Some(Mark::At(*point))
            }
        }
        Mark::Over(span) => Some(Mark::Over(clipped(window, span)?)),
    }
}

// The part of a span within a range, where there is one. A part that ends at the edge is open.
fn clipped(window: Window, span: &Span) -> Option<Span>
    ensures { result ≡ clipped window span.now }
{
    if span.to < window.from || window.to < span.from {
        return None;
    }
    Some(Span {
        subject: span.subject,
        from: span.from.max(window.from),
        began_before: span.from < window.from,
        start: starts_within(window, span.start),
        to: span.to.min(window.to),
        ending: if window.to < span.to {
            Ending::Open
        } else {
            span.ending
        },
    })
}

// The first turn of work in a range, where there is one.
fn starts_within(window: Window, start: Option<u64>) -> Option<u64>
    ensures { result ≡ starts_within window start }
{
    let start = start?;
    if window.to < start {
        None
    } else {
        Some(start.max(window.from))
    }
}
