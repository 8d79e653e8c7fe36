//! The parts of a line that not every line has: the sample rate, tags and the timestamp. Of each there is how it uses up
//! a room, and how it is appended where there is room.

ghost use Rattle.std.specs.Prelude.{◌≡◌, ◌+◌, ◌≤◌, [], ◌∷◌, ◌++◌, codes, length, if◌then◌else◌, ◌==◌, vec_len, vec_capacity};
ghost use Rattle.std.specs.Option.{option_map};
ghost use Rattle.dsd_writer.specs.Lines.{before_next, rate_text, tag_text, tags_behind, tags_text, timestamp_text};
ghost use Rattle.dsd_writer.specs.Rooms.{Leaves};

use crate::kept_keys::KeptKey;
use crate::numbers::NumberText;
use crate::room::{behind, behind_bytes, push, push_byte, push_bytes};
use itoa::Buffer;
use metrics_core::{Fixed, Label};

/// What is left of a room after a sample rate.
pub(crate) fn behind_rate(room: u64, rate: Option<Fixed>) -> Option<u64>
    ensures { Leaves result room (length (rate_text (option_map (λ rate. rate.0) rate))) }
{
    let Some(rate) = rate else {
        return Some(room);
    };
    let mut whole = Buffer::new();
    let mut fraction = Buffer::new();
    let text = NumberText::of_value(&mut whole, &mut fraction, rate);
    behind(room, "|@")?.checked_sub(text.len())
}

/// Appends a sample rate, for which there is room.
pub(crate) fn push_rate(bytes: &mut Vec<u8>, rate: Option<Fixed>)
    requires { vec_len bytes.old + length
        (rate_text (option_map (λ rate. rate.0) rate)) ≤ vec_capacity bytes.old }
    ensures items { bytes.new.items ≡ bytes.old.items ++ rate_text
        (option_map (λ rate. rate.0) rate) }
    ensures len { vec_len bytes.new ≡ vec_len bytes.old + length
        (rate_text (option_map (λ rate. rate.0) rate)) }
    ensures capacity { vec_capacity bytes.old ≤ vec_capacity bytes.new }
{
    if let Some(rate) = rate {
        let mut whole = Buffer::new();
        let mut fraction = Buffer::new();
        push(bytes, "|@");
        NumberText::of_value(&mut whole, &mut fraction, rate).push_to(bytes);
    }
}

/// What is left of a room after a timestamp.
pub(crate) fn behind_timestamp(room: u64, timestamp: Option<u64>) -> Option<u64>
    ensures { Leaves result room (length (timestamp_text timestamp)) }
{
    let Some(seconds) = timestamp else {
        return Some(room);
    };
    behind(behind(room, "|T")?, Buffer::new().format(seconds))
}

/// Appends a timestamp, for which there is room.
pub(crate) fn push_timestamp(bytes: &mut Vec<u8>, timestamp: Option<u64>)
    requires { vec_len bytes.old + length (timestamp_text timestamp) ≤ vec_capacity bytes.old }
    ensures items { bytes.new.items ≡ bytes.old.items ++ timestamp_text timestamp }
    ensures len { vec_len bytes.new ≡ vec_len bytes.old + length (timestamp_text timestamp) }
    ensures capacity { vec_capacity bytes.old ≤ vec_capacity bytes.new }
{
    if let Some(seconds) = timestamp {
        push(bytes, "|T");
        push(bytes, Buffer::new().format(seconds));
    }
}

/// What is left of a room after a tag.
fn behind_tag(room: u64, tag: &Label) -> Option<u64>
    ensures { Leaves result room (length (tag_text tag.now)) }
{
    let room = behind(room, tag.key())?;
    if tag.value().is_empty() {
        return Some(room);
    }
    behind(behind(room, ":")?, tag.value())
}

/// Appends a tag, for which there is room.
fn push_tag(bytes: &mut Vec<u8>, tag: &Label)
    requires { vec_len bytes.old + length (tag_text tag.now) ≤ vec_capacity bytes.old }
    ensures items { bytes.new.items ≡ bytes.old.items ++ tag_text tag.now }
    ensures len { vec_len bytes.new ≡ vec_len bytes.old + length (tag_text tag.now) }
    ensures capacity { vec_capacity bytes.old ≤ vec_capacity bytes.new }
{
    push(bytes, tag.key());
    if !tag.value().is_empty() {
        push_byte(bytes, b':');
        push(bytes, tag.value());
    }
}

/// What stands before the next tag, behind these ones.
fn before_next(first: &'static str, tags: &[Label]) -> &'static str
    ensures { result.now ≡ before_next first.now tags.now }
{
    if tags.is_empty() { first } else { "," }
}

/// What is left of a room after tags, the first one with this before it.
pub(crate) fn behind_tags(room: u64, first: &'static str, tags: &[Label]) -> Option<u64>
    ensures { Leaves result room (length (tags_behind first.now tags.now)) }
{
    let mut left = room;
    let mut before = first;
    for tag in tags {
        left = behind_tag(behind(left, before)?, tag)?;
        before = ",";
    }
    Some(left)
}

/// Appends tags, for which there is room, the first one with this before it.
pub(crate) fn push_tags(bytes: &mut Vec<u8>, first: &'static str, tags: &[Label])
    requires { vec_len bytes.old + length
        (tags_behind first.now tags.now) ≤ vec_capacity bytes.old }
    ensures items { bytes.new.items ≡ bytes.old.items ++ tags_behind first.now tags.now }
    ensures len { vec_len bytes.new ≡ vec_len bytes.old + length (tags_behind first.now tags.now) }
    ensures capacity { vec_capacity bytes.old ≤ vec_capacity bytes.new }
{
    let mut before = first;
    for tag in tags {
        push(bytes, before);
        push_tag(bytes, tag);
        before = ",";
    }
}

/// What is left of a room after the tags of a series and then the global ones.
#[tactic(auto, using(crate::proofs::Tags::length_tags))]
pub(crate) fn behind_all_tags(room: u64, tags: &[Label], global_tags: &[Label]) -> Option<u64>
    ensures { Leaves result room (length (tags_text (tags.now ++ global_tags.now))) }
{
    let room = behind_tags(room, "|#", tags)?;
    behind_tags(room, before_next("|#", tags), global_tags)
}

/// Appends the tags of a series and then the global ones, for which there is room.
#[tactic(auto, using(crate::proofs::Tags::written_tags))]
pub(crate) fn push_all_tags(bytes: &mut Vec<u8>, tags: &[Label], global_tags: &[Label])
    requires { vec_len bytes.old + length
        (tags_text (tags.now ++ global_tags.now)) ≤ vec_capacity bytes.old }
    ensures items { bytes.new.items ≡ bytes.old.items ++ tags_text (tags.now ++ global_tags.now) }
    ensures len { vec_len bytes.new ≡ vec_len bytes.old + length
        (tags_text (tags.now ++ global_tags.now)) }
    ensures capacity { vec_capacity bytes.old ≤ vec_capacity bytes.new }
{
    push_tags(bytes, "|#", tags);
    push_tags(bytes, before_next("|#", tags), global_tags);
}

/// What is left of a room after the tags of a series whose key is kept, and then the global ones.
pub(crate) fn behind_kept_tags(room: u64, key: &KeptKey<'_>, global_tags: &[Label]) -> Option<u64>
    ensures { Leaves result room (length (tags_text (key.now.labels ++ global_tags.now))) }
{
    let left = behind_bytes(room, key.tags())?;
    behind_tags(left, key.before_next(), global_tags)
}

/// Appends the tags of a series whose key is kept, and then the global ones, for which there is room.
pub(crate) fn push_kept_tags(bytes: &mut Vec<u8>, key: &KeptKey<'_>, global_tags: &[Label])
    requires { vec_len bytes.old + length
        (tags_text (key.now.labels ++ global_tags.now)) ≤ vec_capacity bytes.old }
    ensures items { bytes.new.items ≡ bytes.old.items ++ tags_text
        (key.now.labels ++ global_tags.now) }
    ensures len { vec_len bytes.new ≡ vec_len bytes.old + length
        (tags_text (key.now.labels ++ global_tags.now)) }
    ensures capacity { vec_capacity bytes.old ≤ vec_capacity bytes.new }
{
    push_bytes(bytes, key.tags());
    push_tags(bytes, key.before_next(), global_tags);
}
