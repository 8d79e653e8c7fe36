//! Rows: a line and what it says, and a stream that comes in pieces.

use dsd_lines::{Dialect, Frames, Line, read_line};
use std::alloc::Global;
use std::test::Fail;

/// Lines of DogStatsD, and what they say: the key, the values, the rate in billionths and the timestamp.
const LINES: &[(&str, &str)] = &[
    ("page.views:1|c", "Key(page.views) Counter([1]) None None"),
    ("a:0|c", "Key(a) Counter([0]) None None"),
    (
        "a:18446744073709551615|c",
        "Key(a) Counter([18446744073709551615]) None None",
    ),
    ("a:1:2:3|c", "Key(a) Counter([1, 2, 3]) None None"),
    (
        "fuel.level:0.5|g",
        "Key(fuel.level) Gauge([Fixed(500000000)]) None None",
    ),
    ("a:-3.14|g", "Key(a) Gauge([Fixed(-3140000000)]) None None"),
    ("a:1.50|g", "Key(a) Gauge([Fixed(1500000000)]) None None"),
    ("a:-0|g", "Key(a) Gauge([Fixed(0)]) None None"),
    (
        "a:9223372036.854775807|g",
        "Key(a) Gauge([Fixed(9223372036854775807)]) None None",
    ),
    (
        "a:-9223372036.854775808|g",
        "Key(a) Gauge([Fixed(-9223372036854775808)]) None None",
    ),
    (
        "song.length:240|h|@0.5",
        "Key(song.length) Histogram([Fixed(240000000000)]) Some(500000000) None",
    ),
    (
        "t:2.0:3.0|d",
        "Key(t) Distribution([Fixed(2000000000), Fixed(3000000000)]) None None",
    ),
    (
        "t:2|d|@1",
        "Key(t) Distribution([Fixed(2000000000)]) Some(1000000000) None",
    ),
    (
        "t:2|d|@0.000001",
        "Key(t) Distribution([Fixed(2000000000)]) Some(1000) None",
    ),
    (
        "users.online:1|c|#country:china",
        "Key(users.online, [country = china]) Counter([1]) None None",
    ),
    (
        "a:1|c|#k:v,l,k:w:x",
        "Key(a, [k = v, l = , k = w:x]) Counter([1]) None None",
    ),
    (
        "page.views:15|c|#env:dev|T1656581400",
        "Key(page.views, [env = dev]) Counter([15]) None Some(1656581400)",
    ),
    ("a:1|g|T0", "Key(a) Gauge([Fixed(1000000000)]) None Some(0)"),
    (
        "a:1|h|@0.5|#k:v|T7",
        "Key(a, [k = v]) Histogram([Fixed(1000000000)]) Some(500000000) Some(7)",
    ),
    (
        "\u{e9} b:1|c|#\u{fc}:\u{20ac}",
        "Key(\u{e9} b, [\u{fc} = \u{20ac}]) Counter([1]) None None",
    ),
];

/// Lines of StatsD that say something else in DogStatsD, or nothing.
const STATSD_LINES: &[(&str, &str)] = &[
    (
        "gaugor:333|g",
        "Key(gaugor) Steps([SetTo(Fixed(333000000000))]) None None",
    ),
    (
        "gaugor:-10|g",
        "Key(gaugor) Steps([MoveBy(Fixed(-10000000000))]) None None",
    ),
    (
        "gaugor:+4|g",
        "Key(gaugor) Steps([MoveBy(Fixed(4000000000))]) None None",
    ),
    (
        "a:0:-10:+0.5|g|#k:v",
        "Key(a, [k = v]) Steps([SetTo(Fixed(0)), MoveBy(Fixed(-10000000000)), MoveBy(Fixed(500000000))]) None None",
    ),
    (
        "glork:320|ms|@0.1",
        "Key(glork) Timer([Fixed(320000000)]) Some(100000000) None",
    ),
    (
        "a:0.000001999:-0.000001999|ms",
        "Key(a) Timer([Fixed(1), Fixed(-1)]) None None",
    ),
    (
        "gorets:1|c|@0.1",
        "Key(gorets) Counter([1]) Some(100000000) None",
    ),
    ("a:-1|h", "Key(a) Histogram([Fixed(-1000000000)]) None None"),
];

/// Lines that say nothing in StatsD either.
const BAD_STATSD_LINES: &[&str] = &[
    "a:+|g",
    "a:++1|g",
    "a:+-1|g",
    "a:-+1|g",
    "a:+1|ms",
    "a:+1|h",
    "a:1|m",
    "a:|ms",
    "uniques:765|s",
];

/// Lines of DogStatsD that say nothing: each breaks one rule.
const BAD_LINES: &[&str] = &[
    "",
    "a",
    "a|c",
    ":1|c",
    "a:|c",
    "a:1",
    "a:1|",
    "a:1|x",
    "a:1|ms",
    "a:1|s",
    "a:01|c",
    "a:+1|c",
    "a:-1|c",
    "a:1.0|c",
    "a:18446744073709551616|c",
    "a:1:|c",
    "a:.5|g",
    "a:1.|g",
    "a:1.0000000001|g",
    "a:9223372036.854775808|g",
    "a:1e3|g",
    "a:1|c|",
    "a:1|c|@0",
    "a:1|c|@0.0000009",
    "a:1|c|@1.000000001",
    "a:1|c|#",
    "a:1|c|#k,",
    "a:1|c|#k:",
    "a:1|c|#:v",
    "a:1|c|T",
    "a:1|c|T-1",
    "a:1|c|T9|#k",
    "a:1|c|#k|@1",
    "a:1|c|c:container",
    "a:1|c\n",
    "a\nb:1|c",
    "_e{5,4}:title|text",
    "_sc|name|0",
];

/// What a line says, as a text.
fn said(alloc: Global, line: &Line) -> Result<String, Fail> {
    let text = format!(in alloc;
        "{} {:?} {:?} {:?}",
        line.key, line.points, line.rate, line.timestamp
    )?;
    Ok(text)
}

fn says(alloc: Global, dialect: Dialect, bytes: &[u8], expected: &str) -> Result<bool, Fail> {
    match read_line(alloc, dialect, bytes)? {
        Some(line) => Ok(said(alloc, &line)?.as_str() == expected),
        None => Ok(false),
    }
}

fn says_nothing(alloc: Global, dialect: Dialect, bytes: &[u8]) -> Result<bool, Fail> {
    Ok(read_line(alloc, dialect, bytes)?.is_none())
}

/// Takes the frames that are whole so far.
fn take_whole(alloc: Global, frames: &mut Frames, found: &mut Vec<Vec<u8>>) -> Result<(), Fail> {
    for _ in 0..4 {
        match frames.next_frame(alloc)? {
            Some(frame) => found.push(frame)?,
            None => return Ok(()),
        }
    }
    Ok(())
}

/// Whether the frames of a stream that is fed in two pieces are these.
fn cut_at(alloc: Global, stream: &[u8], cut: usize, expected: &[&[u8]]) -> Result<bool, Fail> {
    let (front, back) = stream.split_at(cut.min(stream.len()));
    let mut frames = Frames::new(alloc);
    let mut found = Vec::new(alloc);
    frames.feed(front)?;
    take_whole(alloc, &mut frames, &mut found)?;
    frames.feed(back)?;
    take_whole(alloc, &mut frames, &mut found)?;
    Ok(
        found.len() == expected.len()
            && found
                .iter()
                .zip(expected.iter())
                .all(|(frame, own)| frame.as_slice() == *own),
    )
}

#[test]
fn lines_say_what_they_say(rt: HostRuntime) -> Result<(), Fail> {
    for (line, expected) in LINES {
        assert!(rt; says(rt.alloc(), Dialect::DogStatsd, line.as_bytes(), expected)?);
    }
    for (line, expected) in STATSD_LINES {
        assert!(rt; says(rt.alloc(), Dialect::Statsd, line.as_bytes(), expected)?);
    }
    Ok(())
}

#[test]
fn bad_lines_say_nothing(rt: HostRuntime) -> Result<(), Fail> {
    for line in BAD_LINES {
        assert!(rt; says_nothing(rt.alloc(), Dialect::DogStatsd, line.as_bytes())?);
    }
    for line in BAD_STATSD_LINES {
        assert!(rt; says_nothing(rt.alloc(), Dialect::Statsd, line.as_bytes())?);
    }
    assert!(rt; says_nothing(rt.alloc(), Dialect::DogStatsd, b"\xff:1|c")?);
    Ok(())
}

#[test]
fn a_stream_is_cut_the_same_in_any_pieces(rt: HostRuntime) -> Result<(), Fail> {
    let stream = b"\x06\0\0\0a:1|c\n\0\0\0\0\x03\0\0\0b|\n\x09\0\0\0half";
    let frames: [&[u8]; 3] = [b"a:1|c\n", b"", b"b|\n"];
    for cut in 0..stream.len() + 1 {
        assert!(rt; cut_at(rt.alloc(), stream, cut, &frames)?);
    }
    Ok(())
}
