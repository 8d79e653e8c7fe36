//! What the lines of one series say beside their values.

ghost use Rattle.std.specs.Prelude.{◌≡◌, ◌+◌, ◌≤◌, [], ◌∷◌, ◌++◌, length, vec_len, vec_capacity, option_copied};
ghost use Rattle.dsd_writer.specs.Items.{type_text};
ghost use Rattle.dsd_writer.specs.Lines.{ending_of};
ghost use Rattle.dsd_writer.specs.Rooms.{Leaves};
ghost use Rattle.dsd_writer.specs.Writers.{item_of, sampled, timed};

use crate::kept_keys::KeptKey;
use crate::parts::{
    behind_all_tags, behind_kept_tags, behind_rate, behind_timestamp, push_all_tags,
    push_kept_tags, push_rate, push_timestamp,
};
use crate::room::{behind, behind_bytes, push, push_byte, push_bytes};
use metrics_core::{Fixed, Key, Label};
use std::marker::Model;

/// The type of a line.
#[derive(Clone, Copy, Debug, PartialEq, Eq)]
pub(crate) enum LineType {
    Counter,
    Gauge,
    Histogram,
    Distribution,
}

impl LineType {
    /// The letter that stands on the line.
    fn letter(self) -> u8
        ensures { type_text self ≡ result ∷ [] }
    {
        match self {
            LineType::Counter => b'c',
            LineType::Gauge => b'g',
            LineType::Histogram => b'h',
            LineType::Distribution => b'd',
        }
    }
}

/// The key of a series.
#[derive(Clone, Copy)]
pub(crate) enum SeriesKey<'a> {
    /// With its labels.
    Live(&'a Key),
    /// With its tags as text.
    Kept(&'a KeptKey<'a>),
}

impl<'a> SeriesKey<'a> {
    ghost use Rattle.dsd_writer.specs.Items.{key_text};
    ghost use Rattle.dsd_writer.specs.Lines.{tags_text};

    /// The name of the series.
    fn name(self) -> &'a [u8]
        ensures { result.now ≡ (key_text self.entry).name }
    {
        match self {
            SeriesKey::Live(key) => key.name().as_bytes(),
            SeriesKey::Kept(key) => key.name(),
        }
    }

    /// What is left of a room after the tags of the series and then the global ones.
    fn behind_tags(self, room: u64, global_tags: &[Label]) -> Option<u64>
        ensures { Leaves result room
            (length (tags_text ((key_text self.entry).labels ++ global_tags.now))) }
    {
        match self {
            SeriesKey::Live(key) => behind_all_tags(room, key.labels().as_slice(), global_tags),
            SeriesKey::Kept(key) => behind_kept_tags(room, key, global_tags),
        }
    }

    /// Appends the tags of the series and then the global ones, for which there is room.
    fn push_tags(self, bytes: &mut Vec<u8>, global_tags: &[Label])
        requires { vec_len bytes.old + length
            (tags_text ((key_text self).labels ++ global_tags.now)) ≤ vec_capacity bytes.old }
        ensures items { bytes.new.items ≡ bytes.old.items ++ tags_text
            ((key_text self.entry).labels ++ global_tags.now) }
        ensures len { vec_len bytes.new ≡ vec_len bytes.old + length
            (tags_text ((key_text self.entry).labels ++ global_tags.now)) }
        ensures capacity { vec_capacity bytes.old ≤ vec_capacity bytes.new }
    {
        match self {
            SeriesKey::Live(key) => push_all_tags(bytes, key.labels().as_slice(), global_tags),
            SeriesKey::Kept(key) => push_kept_tags(bytes, key, global_tags),
        }
    }
}

/// What the lines of one series say beside their values. The tags of the series stand before the global ones.
#[derive(Drop)]
pub(crate) struct Item<'a> {
    prefix: Option<&'a str>,
    key: SeriesKey<'a>,
    line_type: LineType,
    rate: Option<Fixed>,
    global_tags: &'a [Label],
    timestamp: Option<u64>,
}

impl<'a> Model for Item<'a> {
    ghost use Rattle.std.specs.Prelude.{option_copied, option_map, ◌++◌};
    ghost use Rattle.dsd_writer.specs.Items.{key_text, type_text};
    ghost use Rattle.dsd_writer.specs.Lines.{ItemText, prefixed};

    ghost Value = { ItemText };

    ghost view = { λ item. record {
      name = prefixed (option_copied item.prefix) (key_text item.key).name;
      type = type_text item.line_type;
      rate = option_map (λ rate. rate.0) item.rate;
      tags = (key_text item.key).labels ++ item.global_tags.now;
      timestamp = item.timestamp;
    } };
}

impl<'a> Item<'a> {
    ghost use Rattle.dsd_writer.specs.Items.{key_text};

    /// What lines of a series say, without sample rate and timestamp.
    pub(crate) fn new(
        line_type: LineType,
        prefix: Option<&'a str>,
        key: SeriesKey<'a>,
        global_tags: &'a [Label],
    ) -> Item<'a>
        ensures { result ≡ item_of (type_text line_type) (option_copied prefix.entry)
            (key_text key.entry) global_tags.now }
    {
        Item {
            prefix,
            key,
            line_type,
            rate: None,
            global_tags,
            timestamp: None,
        }
    }

    /// The same with a timestamp in seconds, where there is one.
    pub(crate) fn at(self, timestamp: Option<u64>) -> Item<'a>
        ensures { result ≡ timed timestamp self.entry }
    {
        Item { timestamp, ..self }
    }

    /// The same with a sample rate, where there is one.
    pub(crate) fn sampled(self, rate: Option<Fixed>) -> Item<'a>
        ensures { result ≡ sampled rate self.entry }
    {
        Item { rate, ..self }
    }

    /// What is left of a room after the name.
    pub(crate) fn behind_name(&self, room: u64) -> Option<u64>
        ensures { Leaves result room (length self.now.name) }
    {
        let room = behind_bytes(room, self.key.name())?;
        match self.prefix {
            Some(prefix) => behind(behind(room, prefix)?, "."),
            None => Some(room),
        }
    }

    /// Appends the name, for which there is room.
    pub(crate) fn push_name(&self, bytes: &mut Vec<u8>)
        requires { vec_len bytes.old + length self.now.name ≤ vec_capacity bytes.old }
        ensures items { bytes.new.items ≡ bytes.old.items ++ self.now.name }
        ensures len { vec_len bytes.new ≡ vec_len bytes.old + length self.now.name }
        ensures capacity { vec_capacity bytes.old ≤ vec_capacity bytes.new }
    {
        if let Some(prefix) = self.prefix {
            push(bytes, prefix);
            push_byte(bytes, b'.');
        }
        push_bytes(bytes, self.key.name());
    }

    /// What is left of a room after what stands behind the values.
    pub(crate) fn behind_ending(&self, room: u64) -> Option<u64>
        ensures { Leaves result room (length (ending_of self.now)) }
    {
        let room = behind(room, "|")?;
        let room = room.checked_sub(1)?;
        let room = behind_rate(room, self.rate)?;
        let room = self.key.behind_tags(room, self.global_tags)?;
        let room = behind_timestamp(room, self.timestamp)?;
        behind(room, "\n")
    }

    /// Appends what stands behind the values, for which there is room.
    pub(crate) fn push_ending(&self, bytes: &mut Vec<u8>)
        requires { vec_len bytes.old + length (ending_of self.now) ≤ vec_capacity bytes.old }
        ensures items { bytes.new.items ≡ bytes.old.items ++ ending_of self.now }
        ensures len { vec_len bytes.new ≡ vec_len bytes.old + length (ending_of self.now) }
        ensures capacity { vec_capacity bytes.old ≤ vec_capacity bytes.new }
    {
        push_byte(bytes, b'|');
        push_byte(bytes, self.line_type.letter());
        push_rate(bytes, self.rate);
        self.key.push_tags(bytes, self.global_tags);
        push_timestamp(bytes, self.timestamp);
        push_byte(bytes, b'\n');
    }
}
