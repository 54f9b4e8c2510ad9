//! The whole way from turns to the text of their picture.
ghost use Rattle.std.specs.Prelude.{◌≡◌, Some, None, Err, IfOk};
ghost use Rattle.run_picture.specs.Draw.{is_too_great, drawing};

use crate::drawing::put_picture;
use crate::frame::{Frame, frame_of};
use crate::marks::marks_of;
use crate::window::{Window, shown_of};
use block_machine::Turn;
use disk_base::{Bytes, NoMemory};
use std::alloc::Global;
use text_words::ToMemory;
use thiserror::Error;

// The most turns that have a column, and the most blocks that have a row.
const TURNS_MAX: usize = 2000;

const BLOCKS_MAX: usize = 200;

/// Why turns weren't drawn.
#[derive(Clone, Copy, Debug, PartialEq, Eq, Error)]
pub enum DrawFault {
    #[error("no memory")]
    NoMemory,
    /// The range has more than 2,000 turns, or more than 200 blocks.
    #[error("too many")]
    TooMany,
}

impl From<NoMemory> for DrawFault {
    ghost use Rattle.std.specs.Prelude.{◌≡◌};
    ghost use Rattle.run_picture.specs.declared.picture.DrawFault.TheVariants.{NoMemory};

    ghost from_gives = { λ _ e. e ≡ NoMemory };

    fn from(_: NoMemory) -> Self {
        DrawFault::NoMemory
    }
}

/// The picture of a range of turns, as SVG 1.1.
pub fn draw(alloc: Global, turns: &[Turn], window: Window) -> Result<Bytes, DrawFault>
    ensures ok { IfOk result (λ text. drawing turns.now window ≡ Some text) }
    ensures too_many { result ≡ Err DrawFault.TooMany → drawing turns.now window ≡ None }
{
    let marks = marks_of(alloc, turns)?;
    let shown = shown_of(alloc, window, marks.as_slice())?;
    let frame = frame_of(alloc, window, shown.as_slice())?;
    if is_too_great(&frame) {
        return Err(DrawFault::TooMany);
    }
    let mut out = ToMemory::new(alloc);
    put_picture(&mut out, &frame, shown.as_slice());
    Ok(out.finish()?)
}

fn is_too_great(frame: &Frame) -> bool
    ensures { result ≡ is_too_great frame.now }
{
    TURNS_MAX < frame.turns || BLOCKS_MAX < frame.blocks.as_slice().len()
}
