//! Sources and sinks in memory, for tests and for callers that have their bytes at hand.

ghost use Rattle.std.specs.Prelude.{◌≡◌, ℕ, ◌-◌, ◌<◌, ◌≤◌, [], ◌++◌, length, take, drop, min, Option, Some, None, IfOk, IfSome, OnErr, OnOk, is_err, false};
ghost use Rattle.metrics_core.specs.Outside.{Rose, Moved, GrewBy};
ghost use Rattle.metrics_core.specs.Devices.{after_call, is_listed};

use crate::{Failed, FailingCalls, Sink, Source};
use std::alloc::Global;
use std::marker::Model;

/// Moves bytes to the front of a buffer, as many as there are, as it has room for, and as are wanted.
fn copy_prefix(from: &[u8], most: usize, into: &mut [u8]) -> usize
    ensures count { result ≡ min (min (length from.now) most) (length into.old) }
    ensures prefix { into.new ≡ take result from.now ++ drop result into.old }
{
    let count = from.len().min(most).min(into.len());
    into[..count].copy_from_slice(&from[..count]);
    count
}

/// A source that owns its bytes, gives at most so many of them a read, and fails at chosen reads.
#[derive(Drop)]
pub struct MemorySource {
    bytes: Vec<u8>,
    at: usize,
    most: usize,
    calls: FailingCalls,
}

impl Model for MemorySource {
    ghost use Rattle.std.specs.Prelude.{◌<◌, ◌≤◌, drop, length};
    ghost use Rattle.metrics_core.specs.Devices.{SourceText};

    ghost Value = { SourceText };

    ghost view = { λ source. record { left = drop source.at source.bytes.items; most = source.most; calls = source.calls } };

    ghost invariant = { λ source. (source.at ≤ length source.bytes.items) × (0 < source.most) };
}

impl MemorySource {
    /// The source of these bytes, which gives at most `most` of them a read and whose reads with the numbers in
    /// `failing`, counted from 0, fail.
    pub fn new(bytes: Vec<u8>, most: usize, failing: Vec<u64>) -> MemorySource
        requires { 0 < most }
        ensures left { result.left ≡ bytes.items }
        ensures most { result.most ≡ most }
        ensures calls { result.calls ≡ record { failing = failing.items; number = 0; faults = 0 } }
    {
        MemorySource {
            bytes,
            at: 0,
            most,
            calls: FailingCalls::new(failing),
        }
    }

    /// How many reads failed.
    pub fn faults(&self) -> u64
        ensures { result ≡ self.now.calls.faults }
    {
        self.calls.faults()
    }
}

impl Source for MemorySource {
    ghost left = { λ source. Some source.left };

    ghost faults = { λ source. source.calls.faults };

    /// Fails exactly where the number of this read is in the list. Otherwise it gives as many bytes as there are, as a
    /// read gives at most, and as the buffer has room for.
    fn read(&mut self, buf: &mut [u8]) -> Result<usize, Failed>
        ensures count { IfOk result (λ n. (n ≤ length buf.old)
            × (n ≡ min (min (length self.old.left) self.old.most) (length buf.old))) }
        ensures moved { IfOk result (Moved self.old.left (Some self.new.left) buf.old buf.new) }
        ensures kept { OnErr result (self.new.left ≡ self.old.left) }
        ensures fails { is_err result ≡ is_listed self.old.calls.failing self.old.calls.number }
        ensures after { self.new ≡ record self.old
            { left = self.new.left; calls = after_call (is_err result) self.old.calls } }
        ensures cause { OnErr result (Rose self.old.calls.faults self.new.calls.faults) }
        ensures never_falls { self.old.calls.faults ≤ self.new.calls.faults }
    {
        if self.calls.next_fails() {
            self.calls.fault();
            return Err(Failed);
        }
        let count = copy_prefix(&self.bytes[self.at..], self.most, buf);
        self.at += count;
        Ok(count)
    }
}

/// A source of bytes that are at hand. It never fails.
#[derive(Drop)]
pub struct ByteSource<'a> {
    rest: &'a [u8],
}

impl<'a> Model for ByteSource<'a> {
    ghost use Rattle.std.specs.Prelude.{ℕ, List};

    ghost Value = { List ℕ };

    ghost view = { λ source. source.rest.now };
}

impl<'a> ByteSource<'a> {
    /// The source of these bytes.
    pub fn new(bytes: &'a [u8]) -> ByteSource<'a>
        ensures { result ≡ bytes.now }
    {
        ByteSource { rest: bytes }
    }
}

impl<'a> Source for ByteSource<'a> {
    ghost left = { λ source. Some source };

    ghost faults = { λ _. 0 };

    fn read(&mut self, buf: &mut [u8]) -> Result<usize, Failed> {
        let count = copy_prefix(self.rest, self.rest.len(), buf);
        self.rest = &self.rest[count..];
        Ok(count)
    }
}

/// A sink that keeps what is written, takes at most so many bytes a write, and fails at chosen writes.
#[derive(Drop)]
pub struct MemorySink {
    bytes: Vec<u8>,
    most: usize,
    calls: FailingCalls,
}

impl Model for MemorySink {
    ghost use Rattle.std.specs.Prelude.{◌<◌};
    ghost use Rattle.metrics_core.specs.Devices.{SinkText};

    ghost Value = { SinkText };

    ghost view = { λ sink. record { written = sink.bytes.items; most = sink.most; calls = sink.calls } };

    ghost invariant = { λ sink. 0 < sink.most };
}

impl MemorySink {
    /// The sink that holds nothing yet, takes at most `most` bytes a write, and whose writes with the numbers in
    /// `failing`, counted from 0, fail.
    pub fn new(alloc: Global, most: usize, failing: Vec<u64>) -> MemorySink
        requires { 0 < most }
        ensures written { result.written ≡ [] }
        ensures most { result.most ≡ most }
        ensures calls { result.calls ≡ record { failing = failing.items; number = 0; faults = 0 } }
    {
        MemorySink {
            bytes: Vec::new(alloc),
            most,
            calls: FailingCalls::new(failing),
        }
    }

    /// What was written.
    pub fn written(&self) -> &[u8]
        ensures { result.now ≡ self.now.written }
    {
        self.bytes.as_slice()
    }

    /// How many writes failed, those that were refused memory included.
    pub fn faults(&self) -> u64
        ensures { result ≡ self.now.calls.faults }
    {
        self.calls.faults()
    }
}

impl Sink for MemorySink {
    ghost written = { λ sink. Some sink.written };

    ghost faults = { λ sink. sink.calls.faults };

    /// Fails where the number of this write is in the list, and where the room for the bytes is refused. Otherwise it
    /// takes the piece, or as many bytes of it as a write takes at most.
    fn write(&mut self, piece: &[u8]) -> Result<usize, Failed>
        ensures count { IfOk result (λ n. (n ≤ length piece.now) × (0 < length piece.now → 0 < n)
            × (n ≡ min (length piece.now) self.old.most)) }
        ensures grew { IfOk result (λ n. self.new.written ≡ self.old.written ++ take n piece.now) }
        ensures kept { OnErr result (self.new.written ≡ self.old.written) }
        ensures fails { OnOk result
            (is_listed self.old.calls.failing self.old.calls.number ≡ false) }
        ensures after { self.new ≡ record self.old
            { written = self.new.written; calls = after_call (is_err result) self.old.calls } }
        ensures cause { OnErr result (Rose self.old.calls.faults self.new.calls.faults) }
        ensures never_falls { self.old.calls.faults ≤ self.new.calls.faults }
    {
        if self.calls.next_fails() {
            self.calls.fault();
            return Err(Failed);
        }
        let count = piece.len().min(self.most);
        if self.bytes.extend_from_slice(&piece[..count]).is_err() {
            self.calls.fault();
            return Err(Failed);
        }
        Ok(count)
    }
}

/// A sink that takes all and keeps nothing. It never fails.
#[derive(Clone, Copy, Debug, Default, PartialEq, Eq)]
pub struct Discard;

impl Sink for Discard {
    ghost written = { λ _. None };

    ghost faults = { λ _. 0 };

    fn write(&mut self, piece: &[u8]) -> Result<usize, Failed> {
        Ok(piece.len())
    }
}
