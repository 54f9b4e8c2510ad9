ghost use Rattle.std.specs.Prelude.{◌≡◌};

use crate::{ReadAnswer, Sink, SinkAnswer, Source};
use std::io::{Read, Write};

/// A source over a reader of std, which tells the bytes that the reader tells.
#[derive(Debug, Drop)]
pub struct FromRead<R> {
    inner: R,
    faults: u64,
}

impl<R: Read> FromRead<R> {
    pub fn new(inner: R) -> Self
        ensures left { ⟦<FromRead<R> as Source>⟧.left result ≡ R.remaining inner }
        ensures faults { ⟦<FromRead<R> as Source>⟧.faults result ≡ 0 }
    {
        FromRead { inner, faults: 0 }
    }
}

impl<R: Read> Source for FromRead<R> {
    ghost left = { λ s. R.remaining s.inner };

    ghost faults = { λ s. s.faults };

    /// Fails where the reader does, also where it was only interrupted. For an empty buffer the reader isn't asked.
    fn read(&mut self, into: &mut [u8]) -> ReadAnswer {
        if into.is_empty() {
            return ReadAnswer::Got(0);
        }
        match self.inner.read(into) {
            Ok(0) => ReadAnswer::End,
            Ok(count) => ReadAnswer::Got(count),
            Err(_) => {
                self.faults = self.faults.saturating_add(1);
                ReadAnswer::Failed
            }
        }
    }
}

/// A sink over a writer of std, which tells the bytes that the writer tells. It never flushes the writer.
#[derive(Debug, Drop)]
pub struct ToWrite<W> {
    inner: W,
    faults: u64,
}

impl<W: Write> ToWrite<W> {
    pub fn new(inner: W) -> Self
        ensures held { ⟦<ToWrite<W> as Sink>⟧.held result ≡ W.contents inner }
        ensures faults { ⟦<ToWrite<W> as Sink>⟧.faults result ≡ 0 }
    {
        ToWrite { inner, faults: 0 }
    }
}

impl<W: Write> Sink for ToWrite<W> {
    ghost held = { λ s. W.contents s.inner };

    ghost faults = { λ s. s.faults };

    /// Fails where the writer does, also where it was only interrupted, or takes nothing of a piece that has bytes. Of
    /// an empty piece the writer isn't told.
    fn write(&mut self, piece: &[u8]) -> SinkAnswer {
        if piece.is_empty() {
            return SinkAnswer::Took(0);
        }
        match self.inner.write(piece) {
            Ok(count) if count > 0 => SinkAnswer::Took(count),
            _ => {
                self.faults = self.faults.saturating_add(1);
                SinkAnswer::Failed
            }
        }
    }
}
