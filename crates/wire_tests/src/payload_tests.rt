//! Worked examples of lines and payloads: with ample memory points of each kind are written and payloads are handed out.

use dsd_writer::{PayloadWriter, Payloads};
use metrics_core::{Fixed, Key, KeyName, Label, Memory};
use std::alloc::Global;
use std::test::Fail;

/// The value 1 in billionths.
const ONE: i64 = 1_000_000_000;

/// A list of one label.
fn label(alloc: Global, key: &'static str, value: &'static str) -> Result<Vec<Label>, Memory> {
    Ok(vec![in alloc; Label::from_static_parts(key, value)]?)
}

/// The payloads that are left, each followed by a `/`.
fn shown(alloc: Global, mut payloads: Payloads<'_>) -> Result<Vec<u8>, Memory> {
    let mut shown = Vec::new(alloc);
    for _ in 0..payloads.len() {
        if let Some(payload) = payloads.next_payload() {
            shown.extend_from_slice(payload)?;
            shown.push(b'/')?;
        }
    }
    Ok(shown)
}

/// Writes a counter with a tag, a prefix and a timestamp. Here alone a key is dropped.
fn write_tagged(alloc: Global, writer: &mut PayloadWriter) -> Result<(), Memory> {
    let labels = label(alloc, "foo", "bar")?;
    let key = Key::from_parts(KeyName::from_const_str("test_counter"), labels);
    writer.write_counter(&key, 777, Some(234_567), Some("server1"))?;
    Ok(())
}

/// Writes a point of each kind that has one line.
fn write_each(alloc: Global, writer: &mut PayloadWriter) -> Result<(), Memory> {
    writer.reserve(200)?;
    write_tagged(alloc, writer)?;
    let gauge = Key::from_static_name("test_gauge");
    writer.write_gauge(&gauge, Fixed(1967 * ONE), Some(345_678), None)?;
    let histogram = Key::from_static_name("test_histogram");
    let values = [Fixed(22_220_000_000), Fixed(-33_330_000_000)];
    writer.write_histogram(&histogram, &values, Some(Fixed(ONE / 2)), None)?;
    Ok(())
}

/// Writes values of a distribution, and answers how many lines they took and how many were left out.
fn write_values(writer: &mut PayloadWriter) -> Result<(u64, u64), Memory> {
    let key = Key::from_static_name("h");
    let long = Fixed(123_456_789_123_456_789);
    let values = [Fixed(ONE), long, Fixed(2 * ONE), Fixed(3 * ONE)];
    let result = writer.write_distribution(&key, &values, None, None)?;
    Ok((result.payloads_written(), result.points_dropped()))
}

/// Whether the payloads are led by their lengths and hold a line of each kind.
fn each_kind_has_a_line(alloc: Global, writer: &mut PayloadWriter) -> Result<bool, Memory> {
    write_each(alloc, writer)?;
    let shown = shown(alloc, writer.payloads())?;
    let expected = "\
.\0\0\0server1.test_counter:777|c|#foo:bar,e|T234567
/E\0\0\0test_gauge:1967.0|g|#e|T345678
test_histogram:22.22:-33.33|h|@0.5|#e
/";
    Ok(shown.as_slice() == expected.as_bytes())
}

/// Whether values fill lines up to the limit but for the one that is too long, and no payload is handed out again.
fn values_fill_lines(alloc: Global, writer: &mut PayloadWriter) -> Result<bool, Memory> {
    let written = write_values(writer)?;
    let first = shown(alloc, writer.payloads())?;
    let second = shown(alloc, writer.payloads())?;
    Ok(
        written == (2, 1)
            && first.as_slice() == b"h:1.0:2.0|d\n/h:3.0|d\n/".as_slice()
            && second.is_empty(),
    )
}

/// Whether both hold of new writers. Here alone writers are dropped.
fn holds(alloc: Global) -> Result<bool, Memory> {
    let labels = label(alloc, "e", "")?;
    let mut on_stream = PayloadWriter::new(alloc, 70, true).with_global_labels(labels);
    let mut datagrams = PayloadWriter::new(alloc, 12, false);
    both_hold(alloc, &mut on_stream, &mut datagrams)
}

/// Whether both hold of these writers without lines.
fn both_hold(
    alloc: Global,
    on_stream: &mut PayloadWriter,
    datagrams: &mut PayloadWriter,
) -> Result<bool, Memory> {
    Ok(each_kind_has_a_line(alloc, on_stream)? && values_fill_lines(alloc, datagrams)?)
}

#[test]
fn points_become_lines_and_payloads(rt: HostRuntime) -> Result<(), Fail> {
    assert!(rt; holds(rt.alloc())?);
    Ok(())
}
