//! A picture of a report's turns: its marks, each of which stands at a turn or goes over turns, and their text as SVG.
#![tactic(auto)]

mod blocks;
mod drawing;
mod event;
mod frame;
mod laws;
mod marks;
mod picture;
mod points;
mod spans;
mod style;
mod tags;
mod window;
mod words;

pub use blocks::{Blocks, blocks_of};
pub use event::Event;
pub use laws::{
    columns_are_named, entries_are_harmless, entries_are_marked, labels_are_harmless,
    names_are_distinct, pictures_are_nested, spans_are_opened, words_are_the_reports,
};
pub use marks::{Mark, Marks, marks_of};
pub use picture::{DrawFault, draw};
pub use points::{Point, Points, points_of};
pub use spans::{Ending, Span, Subject};
pub use window::{Window, shown_of};
