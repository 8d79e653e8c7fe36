//! The lines of many values of one series: each line takes values up to the limit, and then the next one begins.

ghost use Rattle.std.specs.Prelude.{◌≡◌, ◌+◌, ◌<◌, ◌≤◌, [], ◌++◌, IsOk, OnOk, IfOk, IfSome, IsNone, ◌↔◌, length, map, take, drop, vec_len, vec_capacity};
ghost use Rattle.metrics_core.specs.Numbers.{dogstatsd_number};
ghost use Rattle.dsd_writer.specs.Appending.{Appends};
ghost use Rattle.dsd_writer.specs.Lines.{ending_of, line_of, lines_of, spelled_values, values_text};
ghost use Rattle.dsd_writer.specs.Packing.{IsPacked, filled, noted, payloads_at, stored_length};
ghost use Rattle.dsd_writer.specs.Results.{written_of};
ghost use Rattle.dsd_writer.specs.Runs.{IsRun, short_values};

use crate::WriteResult;
use crate::items::Item;
use crate::numbers::NumberText;
use crate::packing::{make_way, note_length};
use crate::points::push_value;
use itoa::Buffer;
use metrics_core::{Fixed, Memory};
use std::snapshot::Snapshot;

/// What is left of a limit for values behind the other parts of a line.
pub(crate) fn room_for_values(limit: u64, item: &Item<'_>) -> Option<u64>
    ensures none { IsNone result ↔ (limit < length (line_of item.now [])) }
    ensures room { IfSome result (λ room. room + length (line_of item.now []) ≡ limit) }
{
    let room = item.behind_name(limit)?;
    item.behind_ending(room)
}

/// The values at the front of a list that go on one line.
#[derive(Clone, Copy)]
struct Run {
    /// How many values there are up to its end, those that are left out included.
    taken: usize,
    /// How many bytes of the line they take.
    used: u64,
    /// How many of them are left out.
    left_out: u64,
}

/// How many bytes a value takes on a line.
fn length_on_line(value: Fixed) -> u64
    ensures length { result ≡ 1 + length (dogstatsd_number value.0) }
    ensures short { result ≤ 256 }
{
    let mut whole = Buffer::new();
    let mut fraction = Buffer::new();
    1 + NumberText::of_value(&mut whole, &mut fraction, value).len()
}

/// The values at the front that go on a line with so much room for values: as many as it takes. Those are left out that no line
/// takes.
fn run_of(values: &[Fixed], room: u64) -> Run
    requires { room ≤ 4294967295 }
    ensures run { let front = spelled_values (take result.taken values.now) in
        let behind = spelled_values (drop result.taken values.now) in
        IsRun room front behind result.used result.left_out }
    ensures within { result.taken ≤ length values.now }
    ensures some { 0 < length values.now → 0 < result.taken }
{
    let mut run = Run {
        taken: 0,
        used: 0,
        left_out: 0,
    };
    for value in values {
        let length = length_on_line(*value);
        if length > room {
            run.left_out += 1;
        } else if run.used + length > room {
            return run;
        } else {
            run.used += length;
        }
        run.taken += 1;
    }
    run
}

/// Appends those of some values that a line with so much room takes, for which there is room.
fn push_values(bytes: &mut Vec<u8>, values: &[Fixed], room: u64)
    requires { vec_len bytes.old + length
        (values_text (short_values room (spelled_values values.now))) ≤ vec_capacity bytes.old }
    ensures items { bytes.new.items ≡ bytes.old.items ++ values_text
        (short_values room (spelled_values values.now)) }
    ensures capacity { vec_capacity bytes.old ≤ vec_capacity bytes.new }
{
    for value in values {
        let mut whole = Buffer::new();
        let mut fraction = Buffer::new();
        let text = NumberText::of_value(&mut whole, &mut fraction, *value);
        if text.len() < room {
            push_value(bytes, &text);
        }
    }
}

/// Appends the line of an item with those of some values that a line with so much room takes, for which there is room.
fn push_line(bytes: &mut Vec<u8>, item: &Item<'_>, values: &[Fixed], room: u64)
    requires { vec_len bytes.old + length
        (line_of item.now (short_values room (spelled_values values.now)))
        ≤ vec_capacity bytes.old }
    ensures items { bytes.new.items ≡ bytes.old.items ++ line_of item.now
        (short_values room (spelled_values values.now)) }
    ensures capacity { vec_capacity bytes.old ≤ vec_capacity bytes.new }
{
    item.push_name(bytes);
    push_values(bytes, values, room);
    item.push_ending(bytes);
}

/// Puts the lines of an item with these values into payloads. After an error some of them are there behind what was there.
fn fill(
    bytes: &mut Vec<u8>,
    starts: &mut Vec<usize>,
    lengths: &mut Vec<Snapshot<u64>>,
    limit: u64,
    on_stream: bool,
    item: &Item<'_>,
    values: &[Fixed],
) -> Result<WriteResult, Memory>
    requires { IsPacked limit on_stream bytes.old.items starts.old.items }
    ensures packed { OnOk result (IsPacked limit on_stream bytes.new.items starts.new.items) }
    ensures ok { let before = payloads_at on_stream starts.old.items bytes.old.items in
        let lines = lines_of limit item.now (spelled_values values.now) in
        OnOk result (payloads_at on_stream starts.new.items bytes.new.items ≡ filled limit before lines) }
    ensures lengths { let lines = lines_of limit item.now (spelled_values values.now) in
        OnOk result (noted lengths.new.items ≡ noted lengths.old.items ++ map length lines) }
    ensures written { IfOk result (λ written.
        written ≡ written_of limit item.now (spelled_values values.now)) }
    ensures kept { (take (length bytes.old.items) bytes.new.items ≡ bytes.old.items)
        × (take (length starts.old.items) starts.new.items ≡ starts.old.items)
        × (take (length lengths.old.items) lengths.new.items ≡ lengths.old.items) }
    ensures capacities { (vec_capacity bytes.old ≤ vec_capacity bytes.new)
        × (vec_capacity starts.old ≤ vec_capacity starts.new)
        × (vec_capacity lengths.old ≤ vec_capacity lengths.new) }
    ensures no_memory { let before = payloads_at on_stream starts.old.items bytes.old.items in
        let lines = lines_of limit item.now (spelled_values values.now) in
        stored_length on_stream (filled limit before lines) ≤ vec_capacity bytes.old
        → length (filled limit before lines) ≤ vec_capacity starts.old
        → vec_len lengths.old + length lines ≤ vec_capacity lengths.old → IsOk result }
{
    let Some(room) = room_for_values(limit, item) else {
        return Ok(WriteResult::new(0, values.len() as u64));
    };
    let mut rest = values;
    let mut lines = 0;
    let mut left_out = 0;
    while !rest.is_empty() {
        let run = run_of(rest, room);
        let (front, behind) = rest.split_at(run.taken);
        if run.used > 0 {
            let length = limit - room + run.used;
            make_way(bytes, starts, lengths, limit, on_stream, length)?;
            push_line(bytes, item, front, room);
            note_length(lengths, length);
            lines += 1;
        }
        left_out += run.left_out;
        rest = behind;
    }
    Ok(WriteResult::new(lines, left_out))
}

/// Puts the lines of an item with these values into payloads. A refused call changes nothing.
pub(crate) fn write_points(
    bytes: &mut Vec<u8>,
    starts: &mut Vec<usize>,
    lengths: &mut Vec<Snapshot<u64>>,
    limit: u64,
    on_stream: bool,
    item: &Item<'_>,
    values: &[Fixed],
) -> Result<WriteResult, Memory>
    requires { IsPacked limit on_stream bytes.old.items starts.old.items }
    ensures appends { let lines = lines_of limit item.now (spelled_values values.now) in
        Appends result limit on_stream bytes.old bytes.new starts.old starts.new lengths.old lengths.new lines }
    ensures written { IfOk result (λ written.
        written ≡ written_of limit item.now (spelled_values values.now)) }
{
    let end = bytes.len();
    let payloads = starts.len();
    let lines = lengths.len();
    let filled = fill(bytes, starts, lengths, limit, on_stream, item, values);
    if filled.is_err() {
        bytes.truncate(end);
        starts.truncate(payloads);
        lengths.truncate(lines);
    }
    filled
}
