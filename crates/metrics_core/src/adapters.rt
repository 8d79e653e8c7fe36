//! The sources and sinks of the program's real edge: a reader and a writer of std, with a count of their failures.

ghost use Rattle.std.specs.Prelude.{◌≡◌, None};

use crate::{Failed, Sink, Source};
use std::io::{Read, Write};
use std::marker::Model;

/// A source over a reader. A contract sees it as its count of failures. It counts the reader's failures, and tells nothing of what it reads.
#[derive(Drop)]
pub struct Reading<R> {
    reader: R,
    faults: u64,
}

impl<R> Model for Reading<R> {
    ghost use Rattle.std.specs.Prelude.{ℕ};

    ghost Value = { ℕ };

    ghost view = { λ adapter. adapter.faults };
}

impl<R> Reading<R> {
    /// The source over a reader that has not failed yet.
    pub fn new(reader: R) -> Reading<R>
        ensures { result ≡ 0 }
    {
        Reading { reader, faults: 0 }
    }

    /// How often the reader has failed, or the last count of 64 bits.
    pub fn faults(&self) -> u64
        ensures { result ≡ self.now }
    {
        self.faults
    }
}

impl<R: Read> Source for Reading<R> {
    ghost left = { λ _. None };

    ghost faults = { λ faults. faults };

    fn read(&mut self, buf: &mut [u8]) -> Result<usize, Failed> {
        match self.reader.read(buf) {
            Ok(count) => Ok(count),
            Err(_) => {
                self.faults = self.faults.saturating_add(1);
                Err(Failed)
            }
        }
    }
}

/// A sink over a writer. A contract sees it as its count of failures. It counts the writer's failures, an answer of 0 for a piece that isn't empty included, and tells
/// nothing of what it writes.
#[derive(Drop)]
pub struct Writing<W> {
    writer: W,
    faults: u64,
}

impl<W> Model for Writing<W> {
    ghost use Rattle.std.specs.Prelude.{ℕ};

    ghost Value = { ℕ };

    ghost view = { λ adapter. adapter.faults };
}

impl<W> Writing<W> {
    /// The sink over a writer that has not failed yet.
    pub fn new(writer: W) -> Writing<W>
        ensures { result ≡ 0 }
    {
        Writing { writer, faults: 0 }
    }

    /// How often the writer has failed, or the last count of 64 bits.
    pub fn faults(&self) -> u64
        ensures { result ≡ self.now }
    {
        self.faults
    }
}

impl<W: Write> Sink for Writing<W> {
    ghost written = { λ _. None };

    ghost faults = { λ faults. faults };

    fn write(&mut self, piece: &[u8]) -> Result<usize, Failed> {
        match self.writer.write(piece) {
            Ok(count) if count > 0 || piece.is_empty() => Ok(count),
            _ => {
                self.faults = self.faults.saturating_add(1);
                Err(Failed)
            }
        }
    }
}
