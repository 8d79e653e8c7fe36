//! Sources and sinks, in memory and over std.

use metrics_core::{
    ByteSource, Discard, Failed, Memory, MemorySink, MemorySource, Reading, Sink, Source, Writing,
    write_whole,
};
use std::alloc::Global;
use std::test::Fail;

#[test]
fn a_reader_and_a_writer(rt: HostRuntime) {
    let mut buf = [0u8; 2];
    let mut source = Reading::new(b"abc".as_slice());
    let read = source.read(&mut buf);
    let mut sink = Writing::new(Vec::new(rt.alloc()));
    let written = sink.write(&buf);
    let unfailing = source.faults() == 0 && sink.faults() == 0;
    assert!(rt; unfailing && [read, written] == [Ok(2), Ok(2)] && buf == *b"ab");
}

/// Whether a source of `abc` that gives at most two bytes a read fails at the second one alone.
fn fails_at_the_second(source: &mut MemorySource) -> bool {
    let mut buf = [0u8; 4];
    let answers = [
        source.read(&mut buf),
        source.read(&mut buf),
        source.read(&mut buf),
        source.read(&mut buf),
    ];
    answers == [Ok(2), Err(Failed), Ok(1), Ok(0)] && buf == *b"cb\0\0" && source.faults() == 1
}

/// Whether a sink of at most two bytes a write that fails at the fourth one takes the bytes around it.
fn fails_at_the_fourth(sink: &mut MemorySink) -> bool {
    let answers = [write_whole(sink, b"abc"), write_whole(sink, b"def")];
    let written = sink.written() == b"abcde".as_slice();
    written && answers == [Ok(()), Err(Failed)] && sink.faults() == 1
}

/// Whether a source and a sink that give and take little fail once.
fn fail_once(alloc: Global) -> Result<[bool; 2], Memory> {
    let bytes = Vec::from_slice(alloc, b"abc")?;
    let mut source = MemorySource::new(bytes, 2, Vec::from_slice(alloc, &[1])?);
    let mut sink = MemorySink::new(alloc, 2, Vec::from_slice(alloc, &[3])?);
    Ok([
        fails_at_the_second(&mut source),
        fails_at_the_fourth(&mut sink),
    ])
}

#[test]
fn a_source_and_a_sink_fail_once(rt: HostRuntime) -> Result<(), Fail> {
    assert!(rt; fail_once(rt.alloc())? == [true, true]);
    Ok(())
}

#[test]
fn bytes_at_hand_and_bytes_away(rt: HostRuntime) {
    let mut source = ByteSource::new(b"abc");
    let mut buf = [0u8; 2];
    let reads = [
        source.read(&mut buf),
        source.read(&mut buf),
        source.read(&mut buf),
    ];
    assert!(rt; reads == [Ok(2), Ok(1), Ok(0)] && Discard.write(b"abc") == Ok(3));
}
