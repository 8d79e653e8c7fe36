//! The writer of payloads: points become lines, which are packed into payloads as they come.

ghost use Rattle.std.specs.Prelude.{◌≡◌, ℕ, ℤ, ◌^◌, ◌<◌, ◌≤◌, List, [], ◌∷◌, length, codes, decimal, FitsSigned, IsOk, OnOk, option_copied};
ghost use Rattle.std.specs.Int.{w64};
ghost use Rattle.metrics_core.specs.Numbers.{dogstatsd_number};
ghost use Rattle.dsd_writer.specs.Items.{key_text, type_text};
ghost use Rattle.dsd_writer.specs.Lines.{IsBestLines, ItemText, line_of, lines_of, spelled_values};
ghost use Rattle.dsd_writer.specs.Writers.{HasRoomFor, IsGaugeLine, SameSettings, Writes, item_in, sampled, timed};

use crate::WriteResult;
use crate::items::{Item, LineType, SeriesKey};
use crate::kept_keys::KeptKey;
use crate::many::write_points;
use crate::numbers::NumberText;
use crate::packing::{PayloadBuffer, begin_anew};
use crate::points::{make_line, write_made, write_point};
use crate::room_ahead::most_of_a_line;
use itoa::Buffer;
use metrics_core::{Fixed, Key, Label, Memory};
use std::alloc::Global;
use std::marker::Model;
use std::snapshot::Snapshot;

/// Makes lines of points, and packs them into payloads. A contract sees its settings and the lines so far.
#[derive(Drop)]
pub struct PayloadWriter {
    pub(crate) limit: u64,
    pub(crate) on_stream: bool,
    pub(crate) global_tags: Vec<Label>,
    /// The payloads so far.
    pub(crate) buffer: PayloadBuffer,
    /// The lengths of their lines. Proofs alone see them, and they have no bytes.
    pub(crate) lengths: Vec<Snapshot<u64>>,
    /// Whether the payloads were handed out: then the next write begins anew.
    pub(crate) handed_out: bool,
}

impl Model for PayloadWriter {
    ghost use Rattle.dsd_writer.specs.Packing.{noted};
    ghost use Rattle.dsd_writer.specs.Writers.{IsKept, WriterText, lines_kept, room_in};

    ghost Value = { WriterText };

    ghost view = { λ writer. record {
      limit = writer.limit;
      on_stream = writer.on_stream;
      global_tags = writer.global_tags.items;
      lines = lines_kept writer.handed_out writer.on_stream writer.buffer.bytes.items writer.buffer.starts.items (noted writer.lengths.items);
      spare = room_in writer.handed_out writer.buffer.bytes writer.buffer.starts writer.lengths;
    } };

    ghost invariant = { λ writer. IsKept writer.limit writer.on_stream writer.handed_out
        writer.buffer.bytes.items writer.buffer.starts.items (noted writer.lengths.items) };
}

impl PayloadWriter {
    /// A writer without lines. A payload has at most `max_payload_len` bytes; on a stream (`with_length_prefix`) it is led by
    /// its length in four bytes, little-endian, which doesn't count. It takes no memory.
    pub fn new(alloc: Global, max_payload_len: u64, with_length_prefix: bool) -> PayloadWriter
        requires least { 6 ≤ max_payload_len }
        requires most { max_payload_len ≤ 4294967295 }
        ensures limit { result.limit ≡ max_payload_len }
        ensures on_stream { result.on_stream ≡ with_length_prefix }
        ensures tags { result.global_tags ≡ [] }
        ensures lines { result.lines ≡ [] }
    {
        PayloadWriter {
            limit: max_payload_len,
            on_stream: with_length_prefix,
            global_tags: Vec::new(alloc),
            buffer: PayloadBuffer {
                bytes: Vec::new(alloc),
                starts: Vec::new(alloc),
            },
            lengths: Vec::new(alloc),
            handed_out: false,
        }
    }

    /// The writer with these labels as tags of every line to come, behind those of the series.
    pub fn with_global_labels(self, labels: Vec<Label>) -> PayloadWriter
        ensures tags { result ≡ record self { global_tags = labels.items } }
    {
        PayloadWriter {
            global_tags: labels,
            ..self
        }
    }

    /// The labels that every line has as tags, behind those of its series.
    pub fn global_tags(&self) -> &[Label]
        ensures { result.now ≡ self.now.global_tags }
    {
        self.global_tags.as_slice()
    }

    /// Makes room, so that the next writes that add no more than so many bytes, those before payloads included, take no memory.
    pub fn reserve(&mut self, bytes: usize) -> Result<(), Memory>
        ensures settings { SameSettings self.old self.new }
        ensures lines { self.new.lines ≡ self.old.lines }
        ensures spare { OnOk result (bytes ≤ self.new.spare) }
        ensures enough { bytes ≤ self.old.spare → IsOk result }
        ensures kept { self.old.spare ≤ self.new.spare }
    {
        begin_anew(
            &mut self.buffer.bytes,
            &mut self.buffer.starts,
            &mut self.lengths,
            &mut self.handed_out,
        );
        let lines = bytes.div_ceil(5);
        self.buffer.bytes.reserve(bytes)?;
        self.buffer.starts.reserve(lines)?;
        self.lengths.reserve(lines)?;
        Ok(())
    }

    /// Makes room for the line of a counter, whatever its value: a write of it, with this timestamp and prefix, takes no memory
    /// then.
    pub fn reserve_counter(
        &mut self,
        key: &Key,
        timestamp: Option<u64>,
        prefix: Option<&str>,
    ) -> Result<(), Memory>
        ensures settings { SameSettings self.old self.new }
        ensures lines { self.new.lines ≡ self.old.lines }
        ensures room { let item = timed timestamp
            (item_in self.old (codes "c") (option_copied prefix.entry) key.now) in
            OnOk result ((value : ℕ) → value < 2 ^ 64 → HasRoomFor self.new (lines_of self.old.limit item (decimal value ∷ []))) }
        ensures kept { self.old.spare ≤ self.new.spare }
    {
        self.reserve_one(LineType::Counter, SeriesKey::Live(key), timestamp, prefix)
    }

    /// Makes room for the line of a gauge, as [`PayloadWriter::reserve_counter`] does for that of a counter.
    pub fn reserve_gauge(
        &mut self,
        key: &Key,
        timestamp: Option<u64>,
        prefix: Option<&str>,
    ) -> Result<(), Memory>
        ensures settings { SameSettings self.old self.new }
        ensures lines { self.new.lines ≡ self.old.lines }
        ensures room { let item = timed timestamp
            (item_in self.old (codes "g") (option_copied prefix.entry) key.now) in
            OnOk result ((value : ℤ) → FitsSigned w64 value → HasRoomFor self.new (lines_of self.old.limit item (dogstatsd_number value ∷ []))) }
        ensures kept { self.old.spare ≤ self.new.spare }
    {
        self.reserve_one(LineType::Gauge, SeriesKey::Live(key), timestamp, prefix)
    }

    /// Makes room for the line of a gauge whose key is kept, as [`PayloadWriter::reserve_gauge`] does.
    pub fn reserve_kept_gauge(
        &mut self,
        key: &KeptKey<'_>,
        timestamp: Option<u64>,
        prefix: Option<&str>,
    ) -> Result<(), Memory>
        ensures settings { SameSettings self.old self.new }
        ensures lines { self.new.lines ≡ self.old.lines }
        ensures room { let item = timed timestamp
            (item_in self.old (codes "g") (option_copied prefix.entry) key.now) in
            OnOk result ((value : ℤ) → FitsSigned w64 value → HasRoomFor self.new (lines_of self.old.limit item (dogstatsd_number value ∷ []))) }
        ensures kept { self.old.spare ≤ self.new.spare }
    {
        self.reserve_one(LineType::Gauge, SeriesKey::Kept(key), timestamp, prefix)
    }

    /// Makes room for the line of one number.
    fn reserve_one(
        &mut self,
        line_type: LineType,
        key: SeriesKey<'_>,
        timestamp: Option<u64>,
        prefix: Option<&str>,
    ) -> Result<(), Memory>
        ensures settings { SameSettings self.old self.new }
        ensures lines { self.new.lines ≡ self.old.lines }
        ensures room { let item = timed timestamp
            (item_in self.old (type_text line_type) (option_copied prefix.entry)
            (key_text key.entry)) in
            OnOk result ((text : List ℕ) → length text ≤ 255 → HasRoomFor self.new (lines_of self.old.limit item (text ∷ []))) }
        ensures kept { self.old.spare ≤ self.new.spare }
    {
        let item = Item::new(line_type, prefix, key, self.global_tags.as_slice()).at(timestamp);
        let most = most_of_a_line(self.limit, &item);
        self.reserve(most)
    }

    /// Writes the value of a counter, with a timestamp in seconds where there is one, under the name behind the prefix and a
    /// point, where there is one. It is one line, or left out where the line passes the limit. A refused call leaves the
    /// lines as they were.
    pub fn write_counter(
        &mut self,
        key: &Key,
        value: u64,
        timestamp: Option<u64>,
        prefix: Option<&str>,
    ) -> Result<WriteResult, Memory>
        ensures writes { let item = item_in self.old (codes "c")
            (option_copied prefix.entry) key.now in
            Writes result self.old self.new (timed timestamp item) (decimal value ∷ []) }
    {
        let mut digits = Buffer::new();
        let text = NumberText::of_count(&mut digits, value);
        self.write_one(
            LineType::Counter,
            SeriesKey::Live(key),
            timestamp,
            prefix,
            &text,
        )
    }

    /// Writes the value of a gauge, as [`PayloadWriter::write_counter`] does that of a counter.
    pub fn write_gauge(
        &mut self,
        key: &Key,
        value: Fixed,
        timestamp: Option<u64>,
        prefix: Option<&str>,
    ) -> Result<WriteResult, Memory>
        ensures writes { let item = item_in self.old (codes "g")
            (option_copied prefix.entry) key.now in
            Writes result self.old self.new (timed timestamp item) (dogstatsd_number value.0 ∷ []) }
    {
        let mut whole = Buffer::new();
        let mut fraction = Buffer::new();
        let text = NumberText::of_value(&mut whole, &mut fraction, value);
        self.write_one(
            LineType::Gauge,
            SeriesKey::Live(key),
            timestamp,
            prefix,
            &text,
        )
    }

    /// Writes the value of a gauge whose key is kept, as [`PayloadWriter::write_gauge`] does.
    pub fn write_kept_gauge(
        &mut self,
        key: &KeptKey<'_>,
        value: Fixed,
        timestamp: Option<u64>,
        prefix: Option<&str>,
    ) -> Result<WriteResult, Memory>
        ensures writes { let item = item_in self.old (codes "g")
            (option_copied prefix.entry) key.now in
            Writes result self.old self.new (timed timestamp item) (dogstatsd_number value.0 ∷ []) }
    {
        let mut whole = Buffer::new();
        let mut fraction = Buffer::new();
        let text = NumberText::of_value(&mut whole, &mut fraction, value);
        self.write_one(
            LineType::Gauge,
            SeriesKey::Kept(key),
            timestamp,
            prefix,
            &text,
        )
    }

    /// Makes the line of a gauge whose key is kept, as this writer would write it without a timestamp, in place of what stood in `line`.
    pub fn make_gauge_line(
        &self,
        line: &mut Vec<u8>,
        key: &KeptKey<'_>,
        value: Fixed,
        prefix: Option<&str>,
    ) -> Result<(), Memory>
        ensures { OnOk result (line.new.items ≡ line_of
            (item_in self.now (codes "g") (option_copied prefix.entry) key.now)
            (dogstatsd_number value.0 ∷ [])) }
    {
        let mut whole = Buffer::new();
        let mut fraction = Buffer::new();
        let text = NumberText::of_value(&mut whole, &mut fraction, value);
        let item = Item::new(
            LineType::Gauge,
            prefix,
            SeriesKey::Kept(key),
            self.global_tags.as_slice(),
        );
        make_line(line, &item, &text)
    }

    /// Writes the line of a gauge that was made before. It is left out where it passes the limit. A refused call leaves the lines as
    /// they were.
    pub fn write_gauge_line(&mut self, line: &[u8]) -> Result<WriteResult, Memory>
        requires { IsGaugeLine line.now }
        ensures { (item : ItemText) (value : ℤ) → item.type ≡ codes "g"
            → line.now ≡ line_of item (dogstatsd_number value ∷ [])
            → Writes result self.old self.new item (dogstatsd_number value ∷ []) }
    {
        begin_anew(
            &mut self.buffer.bytes,
            &mut self.buffer.starts,
            &mut self.lengths,
            &mut self.handed_out,
        );
        write_made(
            &mut self.buffer.bytes,
            &mut self.buffer.starts,
            &mut self.lengths,
            self.limit,
            self.on_stream,
            line,
        )
    }

    /// Writes the values of a histogram, in order and in the fewest lines within the limit, each with the sample rate where
    /// there is one. A value is left out where a line with this value alone passes the limit. A refused call leaves the
    /// lines as they were.
    #[tactic(auto, using(crate::proofs::Best::best_lines))]
    pub fn write_histogram(
        &mut self,
        key: &Key,
        values: &[Fixed],
        maybe_sample_rate: Option<Fixed>,
        prefix: Option<&str>,
    ) -> Result<WriteResult, Memory>
        ensures writes { let item = item_in self.old (codes "h")
            (option_copied prefix.entry) key.now in
            Writes result self.old self.new (sampled maybe_sample_rate item) (spelled_values values.now) }
        ensures best { let item = item_in self.old (codes "h")
            (option_copied prefix.entry) key.now in
            IsBestLines self.old.limit (sampled maybe_sample_rate item) (spelled_values values.now) }
    {
        self.write_many(
            LineType::Histogram,
            SeriesKey::Live(key),
            values,
            maybe_sample_rate,
            prefix,
        )
    }

    /// Writes the values of a distribution, as [`PayloadWriter::write_histogram`] does those of a histogram.
    #[tactic(auto, using(crate::proofs::Best::best_lines))]
    pub fn write_distribution(
        &mut self,
        key: &Key,
        values: &[Fixed],
        maybe_sample_rate: Option<Fixed>,
        prefix: Option<&str>,
    ) -> Result<WriteResult, Memory>
        ensures writes { let item = item_in self.old (codes "d")
            (option_copied prefix.entry) key.now in
            Writes result self.old self.new (sampled maybe_sample_rate item) (spelled_values values.now) }
        ensures best { let item = item_in self.old (codes "d")
            (option_copied prefix.entry) key.now in
            IsBestLines self.old.limit (sampled maybe_sample_rate item) (spelled_values values.now) }
    {
        self.write_many(
            LineType::Distribution,
            SeriesKey::Live(key),
            values,
            maybe_sample_rate,
            prefix,
        )
    }

    /// Writes one number.
    fn write_one(
        &mut self,
        line_type: LineType,
        key: SeriesKey<'_>,
        timestamp: Option<u64>,
        prefix: Option<&str>,
        text: &NumberText<'_>,
    ) -> Result<WriteResult, Memory>
        ensures writes { let item = item_in self.old (type_text line_type)
            (option_copied prefix.entry) (key_text key.entry) in
            Writes result self.old self.new (timed timestamp item) (text.now ∷ []) }
    {
        let item = Item::new(line_type, prefix, key, self.global_tags.as_slice()).at(timestamp);
        begin_anew(
            &mut self.buffer.bytes,
            &mut self.buffer.starts,
            &mut self.lengths,
            &mut self.handed_out,
        );
        write_point(
            &mut self.buffer.bytes,
            &mut self.buffer.starts,
            &mut self.lengths,
            self.limit,
            self.on_stream,
            &item,
            text,
        )
    }

    /// Writes many values.
    fn write_many(
        &mut self,
        line_type: LineType,
        key: SeriesKey<'_>,
        values: &[Fixed],
        rate: Option<Fixed>,
        prefix: Option<&str>,
    ) -> Result<WriteResult, Memory>
        ensures writes { let item = item_in self.old (type_text line_type)
            (option_copied prefix.entry) (key_text key.entry) in
            Writes result self.old self.new (sampled rate item) (spelled_values values.now) }
    {
        let item = Item::new(line_type, prefix, key, self.global_tags.as_slice()).sampled(rate);
        begin_anew(
            &mut self.buffer.bytes,
            &mut self.buffer.starts,
            &mut self.lengths,
            &mut self.handed_out,
        );
        write_points(
            &mut self.buffer.bytes,
            &mut self.buffer.starts,
            &mut self.lengths,
            self.limit,
            self.on_stream,
            &item,
            values,
        )
    }
}
