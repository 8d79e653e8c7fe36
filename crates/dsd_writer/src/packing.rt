//! Payloads in the making: they stand one after another in a buffer, each behind room for its length on a stream.

ghost use Rattle.std.specs.Prelude.{◌≡◌, ℕ, ◌+◌, ◌<◌, ◌≤◌, ◌++◌, [], ◌∷◌, true, false, if◌then◌else◌, IsOk, OnErr, OnOk, length, take, drop, slice_index, vec_len, vec_capacity};
ghost use Rattle.std.specs.Int.{w32, to_le_bytes};
ghost use Rattle.dsd_writer.specs.Packing.{
  IsPacked,
  before_line,
  framed_payloads,
  last_takes,
  noted,
  payloads_at,
  pieces_at,
  prefix_length,
  start_of_line,
};

use metrics_core::Memory;
use std::snapshot::Snapshot;

/// Payloads one after another, each behind room for its length on a stream, and where each of them begins.
#[derive(Drop)]
pub(crate) struct PayloadBuffer {
    pub bytes: Vec<u8>,
    pub starts: Vec<usize>,
}

/// How many bytes stand before a payload.
pub(crate) fn prefix_length(on_stream: bool) -> usize
    ensures length { result ≡ prefix_length on_stream }
    ensures short { result ≤ 4 }
{
    if on_stream { 4 } else { 0 }
}

/// Drops payloads that were handed out.
pub(crate) fn begin_anew(
    bytes: &mut Vec<u8>,
    starts: &mut Vec<usize>,
    lengths: &mut Vec<Snapshot<u64>>,
    handed_out: &mut bool,
)
    ensures done { handed_out.new ≡ false }
    ensures bytes { bytes.new.items ≡ (if handed_out.old then [] else bytes.old.items) }
    ensures starts { starts.new.items ≡ (if handed_out.old then [] else starts.old.items) }
    ensures lengths { lengths.new.items ≡ (if handed_out.old then [] else lengths.old.items) }
    ensures bytes_capacity { vec_capacity bytes.new ≡ vec_capacity bytes.old }
    ensures starts_capacity { vec_capacity starts.new ≡ vec_capacity starts.old }
    ensures lengths_capacity { vec_capacity lengths.new ≡ vec_capacity lengths.old }
{
    if *handed_out {
        bytes.clear();
        starts.clear();
        lengths.clear();
        *handed_out = false;
    }
}

/// Whether the last payload takes a line of so many bytes.
fn last_takes(bytes: &[u8], starts: &[usize], limit: u64, on_stream: bool, line_length: u64) -> bool
    requires packed { IsPacked limit on_stream bytes.now starts.now }
    requires short { line_length ≤ limit }
    ensures { result ≡ last_takes limit (payloads_at on_stream starts.now bytes.now) line_length }
{
    let Some(start) = starts.last() else {
        return false;
    };
    let stored = bytes.len() - *start - prefix_length(on_stream);
    stored as u64 + line_length <= limit
}

/// Makes room for a line and for the note of its length, and begins a payload for it where the last one doesn't take it. A
/// refused call changes nothing.
pub(crate) fn make_way(
    bytes: &mut Vec<u8>,
    starts: &mut Vec<usize>,
    lengths: &mut Vec<Snapshot<u64>>,
    limit: u64,
    on_stream: bool,
    line_length: u64,
) -> Result<(), Memory>
    requires packed { IsPacked limit on_stream bytes.old.items starts.old.items }
    requires short { line_length ≤ limit }
    ensures bytes { let takes = last_takes limit
        (payloads_at on_stream starts.old.items bytes.old.items) line_length in
        OnOk result (bytes.new.items ≡ bytes.old.items ++ before_line on_stream takes) }
    ensures starts { let takes = last_takes limit
        (payloads_at on_stream starts.old.items bytes.old.items) line_length in
        OnOk result (starts.new.items ≡ starts.old.items ++ start_of_line takes bytes.old.items) }
    ensures lengths { (lengths.new.items ≡ lengths.old.items)
        × (vec_len lengths.new ≡ vec_len lengths.old) }
    ensures refused { OnErr result ((bytes.new.items ≡ bytes.old.items)
        × (starts.new.items ≡ starts.old.items)) }
    ensures room { OnOk result ((vec_len lengths.new < vec_capacity lengths.new)
        × (vec_len bytes.new + line_length ≤ vec_capacity bytes.new)) }
    ensures capacities { (vec_capacity bytes.old ≤ vec_capacity bytes.new)
        × (vec_capacity starts.old ≤ vec_capacity starts.new)
        × (vec_capacity lengths.old ≤ vec_capacity lengths.new) }
    ensures no_memory { let takes = last_takes limit
        (payloads_at on_stream starts.old.items bytes.old.items) line_length in
        vec_len bytes.old + length (before_line on_stream takes) + line_length ≤ vec_capacity bytes.old
        → vec_len starts.old + length (start_of_line takes bytes.old.items) ≤ vec_capacity starts.old
        → vec_len lengths.old < vec_capacity lengths.old → IsOk result }
{
    lengths.reserve(1)?;
    if last_takes(
        bytes.as_slice(),
        starts.as_slice(),
        limit,
        on_stream,
        line_length,
    ) {
        bytes.reserve(line_length as usize)?;
        return Ok(());
    }
    starts.reserve(1)?;
    bytes.reserve(prefix_length(on_stream) + line_length as usize)?;
    let _ = starts.push(bytes.len());
    if on_stream {
        let _ = bytes.extend_from_slice(&[0; 4]);
    }
    Ok(())
}

/// Notes the length of a line, for which there is room.
pub(crate) fn note_length(lengths: &mut Vec<Snapshot<u64>>, line_length: u64)
    requires { vec_len lengths.old < vec_capacity lengths.old }
    ensures noted { noted lengths.new.items ≡ noted lengths.old.items ++ line_length ∷ [] }
    ensures kept { take (length lengths.old.items) lengths.new.items ≡ lengths.old.items }
    ensures len { vec_len lengths.new ≡ vec_len lengths.old + 1 }
    ensures capacity { vec_capacity lengths.old ≤ vec_capacity lengths.new }
{
    let _ = lengths.push(Snapshot::of(&line_length));
}

/// Makes payloads ready to be handed over: on a stream each is led by its length.
pub(crate) fn seal(bytes: &mut Vec<u8>, starts: &[usize], on_stream: bool)
    requires { (limit : ℕ) × IsPacked limit on_stream bytes.old.items starts.now }
    ensures pieces { let payloads = payloads_at on_stream starts.now bytes.old.items in
        pieces_at starts.now bytes.new.items ≡ framed_payloads on_stream payloads }
    ensures len { vec_len bytes.new ≡ vec_len bytes.old }
    ensures capacity { vec_capacity bytes.new ≡ vec_capacity bytes.old }
{
    if on_stream {
        set_lengths(bytes, starts);
    }
}

/// Sets the length before each payload: four bytes, little-endian.
fn set_lengths(bytes: &mut Vec<u8>, starts: &[usize])
    requires { (limit : ℕ) × IsPacked limit true bytes.old.items starts.now }
    ensures pieces { let payloads = payloads_at true starts.now bytes.old.items in
        pieces_at starts.now bytes.new.items ≡ framed_payloads true payloads }
    ensures len { vec_len bytes.new ≡ vec_len bytes.old }
    ensures capacity { vec_capacity bytes.new ≡ vec_capacity bytes.old }
{
    for (place, start) in starts.iter().enumerate() {
        let end = end_of(starts, place, bytes.len());
        let payload_length = (end - *start - 4) as u32;
        set_length(bytes.as_mut_slice(), *start, payload_length);
    }
}

/// Where the payload at a place ends: where the next one begins, or at the end.
pub(crate) fn end_of(starts: &[usize], place: usize, end: usize) -> usize
    requires { place < length starts.now }
    ensures next { place + 1 < length starts.now → result ≡ slice_index starts.now (place + 1) }
    ensures last { length starts.now ≤ place + 1 → result ≡ end }
{
    match starts.get(place + 1) {
        Some(next) => *next,
        None => end,
    }
}

/// Writes a length into four bytes from a place on, little-endian.
fn set_length(bytes: &mut [u8], start: usize, count: u32)
    requires { start + 4 ≤ length bytes.old }
    ensures bytes { bytes.new ≡ take start bytes.old ++
        (to_le_bytes w32 count ++ drop 4 (drop start bytes.old)) }
    ensures len { length bytes.new ≡ length bytes.old }
{
    bytes[start..start + 4].copy_from_slice(&count.to_le_bytes());
}
