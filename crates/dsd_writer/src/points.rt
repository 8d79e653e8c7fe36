//! The line of one point.

ghost use Rattle.std.specs.Prelude.{◌≡◌, ℕ, ◌+◌, ◌<◌, ◌≤◌, List, [], ◌∷◌, ◌++◌, IfOk, OnOk, length, vec_len, vec_capacity};
ghost use Rattle.dsd_writer.specs.Appending.{Appends};
ghost use Rattle.dsd_writer.specs.Lines.{ItemText, line_of, lines_of};
ghost use Rattle.dsd_writer.specs.Packing.{IsPacked};
ghost use Rattle.dsd_writer.specs.Results.{written_of};
ghost use Rattle.dsd_writer.specs.Rooms.{Leaves};

use crate::WriteResult;
use crate::items::Item;
use crate::numbers::NumberText;
use crate::packing::{make_way, note_length};
use crate::room::{push_byte, push_bytes};
use metrics_core::Memory;
use std::snapshot::Snapshot;

/// Appends the text of a value behind a colon, for which there is room.
pub(crate) fn push_value(bytes: &mut Vec<u8>, text: &NumberText<'_>)
    requires { vec_len bytes.old + 1 + length text.now ≤ vec_capacity bytes.old }
    ensures items { bytes.new.items ≡ bytes.old.items ++ 58 ∷ text.now }
    ensures len { vec_len bytes.new ≡ vec_len bytes.old + 1 + length text.now }
    ensures capacity { vec_capacity bytes.old ≤ vec_capacity bytes.new }
{
    push_byte(bytes, b':');
    text.push_to(bytes);
}

/// What is left of a limit behind the line of one value.
fn behind_line(limit: u64, item: &Item<'_>, text: &NumberText<'_>) -> Option<u64>
    ensures left { Leaves result limit (length (line_of item.now (text.now ∷ []))) }
    ensures some { 0 < length text.now }
{
    let taken = 1 + text.len();
    let room = item.behind_name(limit)?.checked_sub(taken)?;
    item.behind_ending(room)
}

/// Appends the line of one value, for which there is room.
fn push_line(bytes: &mut Vec<u8>, item: &Item<'_>, text: &NumberText<'_>)
    requires { vec_len bytes.old + length
        (line_of item.now (text.now ∷ [])) ≤ vec_capacity bytes.old }
    ensures items { bytes.new.items ≡ bytes.old.items ++ line_of item.now (text.now ∷ []) }
    ensures len { vec_len bytes.new ≡ vec_len bytes.old + length
        (line_of item.now (text.now ∷ [])) }
    ensures capacity { vec_capacity bytes.old ≤ vec_capacity bytes.new }
{
    item.push_name(bytes);
    push_value(bytes, text);
    item.push_ending(bytes);
}

/// Puts the line of an item with one value into payloads, or leaves the value out. A refused call changes nothing.
pub(crate) fn write_point(
    bytes: &mut Vec<u8>,
    starts: &mut Vec<usize>,
    lengths: &mut Vec<Snapshot<u64>>,
    limit: u64,
    on_stream: bool,
    item: &Item<'_>,
    text: &NumberText<'_>,
) -> Result<WriteResult, Memory>
    requires { IsPacked limit on_stream bytes.old.items starts.old.items }
    ensures appends { let lines = lines_of limit item.now (text.now ∷ []) in
        Appends result limit on_stream bytes.old bytes.new starts.old starts.new lengths.old lengths.new lines }
    ensures written { IfOk result (λ written. written ≡ written_of limit item.now (text.now ∷ [])) }
    ensures some { 0 < length text.now }
{
    let Some(left) = behind_line(limit, item, text) else {
        return Ok(WriteResult::new(0, 1));
    };
    make_way(bytes, starts, lengths, limit, on_stream, limit - left)?;
    push_line(bytes, item, text);
    note_length(lengths, limit - left);
    Ok(WriteResult::new(1, 0))
}

/// Makes the line of an item with one value, in place of what stood there.
pub(crate) fn make_line(
    line: &mut Vec<u8>,
    item: &Item<'_>,
    text: &NumberText<'_>,
) -> Result<(), Memory>
    ensures { OnOk result (line.new.items ≡ line_of item.now (text.now ∷ [])) }
{
    line.clear();
    let Some(left) = behind_line(u64::MAX, item, text) else {
        return Err(Memory);
    };
    line.reserve((u64::MAX - left) as usize)?;
    push_line(line, item, text);
    Ok(())
}

/// Puts a line that was made before into payloads, or leaves its value out. A refused call changes nothing.
pub(crate) fn write_made(
    bytes: &mut Vec<u8>,
    starts: &mut Vec<usize>,
    lengths: &mut Vec<Snapshot<u64>>,
    limit: u64,
    on_stream: bool,
    line: &[u8],
) -> Result<WriteResult, Memory>
    requires { IsPacked limit on_stream bytes.old.items starts.old.items }
    ensures appends { (item : ItemText) (text : List ℕ) → line.now ≡ line_of item (text ∷ [])
        → let lines = lines_of limit item (text ∷ []) in
        Appends result limit on_stream bytes.old bytes.new starts.old starts.new lengths.old lengths.new lines }
    ensures written { (item : ItemText) (text : List ℕ) → line.now ≡ line_of item (text ∷ [])
        → IfOk result (λ written. written ≡ written_of limit item (text ∷ [])) }
{
    let length = line.len() as u64;
    if length > limit {
        let left_out = WriteResult::new(0, 1);
        return Ok(left_out);
    }
    make_way(bytes, starts, lengths, limit, on_stream, length)?;
    push_bytes(bytes, line);
    note_length(lengths, length);
    Ok(WriteResult::new(1, 0))
}
