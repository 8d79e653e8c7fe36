//! Header lines: what each says, and in which order they stand.

ghost use Rattle.std.specs.Prelude.{◌≡◌, Option, Some, None, IfOk, MatchOption, OnOk, option_map, string_bytes};
ghost use Rattle.std.specs.Int.NonZero.{non_zero_u32_get};
ghost use Rattle.prom_format.specs.MatcherTexts.{matcher_text};
ghost use Rattle.drive_script.specs.Script as text;
ghost use Rattle.drive_script.specs.Script.{IsLine};
ghost use Rattle.drive_script.specs.Growth.{place, may_repeat, least_behind, with_header};
ghost use Rattle.drive_script.specs.Reading.{
  quantiles_at,
  buckets_at,
  buckets_for_at,
  native_for_at,
  summary_at,
  idle_at,
  label_line_at,
  series_limit_at,
  limit_at,
  prefix_at,
  switch_at,
  payload_line_at,
};
ghost use Rattle.drive_script.specs.Texts.{header_of, label_of, native_of, settings_of, values_of};

use crate::Settings;
use crate::cursor::{Cursor, is_same};
use metrics_core::{Fixed, Memory};
use metrics_registry::MetricKindMask;
use prom_format::Matcher;
use std::alloc::Global;
use std::num::NonZeroU32;

/// What one header line says.
#[derive(Drop)]
pub(crate) enum HeaderLine {
    /// The quantiles of summaries.
    Quantiles(Vec<Fixed>),
    /// The bounds of histograms.
    Buckets(Vec<Fixed>),
    /// The bounds of histograms with a name that matches.
    BucketsFor(Matcher, Vec<Fixed>),
    /// The factor, the greatest number of buckets and the threshold of native histograms with a name that matches.
    NativeFor(Matcher, Fixed, u32, Fixed),
    /// How many buckets a summary's window has, and the nanoseconds of each.
    Summary(NonZeroU32, u64),
    /// The kinds that fall idle, and after how many nanoseconds.
    Idle(MetricKindMask, u64),
    /// Names follow the conventions of Prometheus.
    Naming,
    /// Names end with their units.
    Units,
    /// The key and the value of a global label.
    Global(String, String),
    /// How many series of one kind and metric name there may be.
    SeriesLimit(NonZeroU32),
    /// How many bytes a payload may have.
    Limit(u64),
    /// Whether values are aggregated as far as they can be.
    Mode(bool),
    /// What all names in payloads begin with.
    NamePrefix(String),
    /// The key and the value of a tag of all lines in payloads.
    GlobalTag(String, String),
    /// Whether the lines of histograms are of the kind `h`, and not `d`.
    HistogramKind(bool),
}

/// How a matcher takes its text.
#[derive(Clone, Copy)]
pub(crate) enum MatcherForm {
    Full,
    Prefix,
    Suffix,
}

/// What a header line says, if it is of some form.
pub(crate) fn header_line(alloc: Global, line: &[u8]) -> Result<Option<HeaderLine>, Memory>
    ensures { IfOk result (λ read.
        MatchOption read ((says : text.HeaderLine) → ¬ IsLine line.now (text.Header says))
        (λ says. IsLine line.now (text.Header (header_of says)))) }
{
    if let Some((key, value)) = label_line(alloc, line, b"global ")? {
        return Ok(Some(HeaderLine::Global(key, value)));
    }
    if let Some((matcher, bounds)) = buckets_for_line(alloc, line)? {
        return Ok(Some(HeaderLine::BucketsFor(matcher, bounds)));
    }
    if let Some(bounds) = buckets_line(alloc, line)? {
        return Ok(Some(HeaderLine::Buckets(bounds)));
    }
    if let Some(quantiles) = quantiles_line(alloc, line)? {
        return Ok(Some(HeaderLine::Quantiles(quantiles)));
    }
    if let Some((count, duration)) = summary_line(line) {
        return Ok(Some(HeaderLine::Summary(count, duration)));
    }
    if let Some((mask, timeout)) = idle_line(line) {
        return Ok(Some(HeaderLine::Idle(mask, timeout)));
    }
    if let Some(limit) = series_limit_line(line) {
        return Ok(Some(HeaderLine::SeriesLimit(limit)));
    }
    if let Some((matcher, factor, max_buckets, threshold)) = native_for_line(alloc, line)? {
        return Ok(Some(HeaderLine::NativeFor(matcher, factor, max_buckets, threshold)));
    }
    match switch_line(line) {
        Some(switch) => Ok(Some(switch)),
        None => payload_line(alloc, line),
    }
}

/// A header line whose bytes are always the same.
fn switch_line(line: &[u8]) -> Option<HeaderLine>
    ensures { option_map header_of result ≡ switch_at line.now }
{
    if is_same(line, b"naming on") {
        Some(HeaderLine::Naming)
    } else if is_same(line, b"units on") {
        Some(HeaderLine::Units)
    } else if is_same(line, b"dsd-mode conservative") {
        Some(HeaderLine::Mode(false))
    } else if is_same(line, b"dsd-mode aggressive") {
        Some(HeaderLine::Mode(true))
    } else if is_same(line, b"dsd-kind h") {
        Some(HeaderLine::HistogramKind(true))
    } else if is_same(line, b"dsd-kind d") {
        Some(HeaderLine::HistogramKind(false))
    } else {
        None
    }
}

/// A header line of payloads that is not always the same.
fn payload_line(alloc: Global, line: &[u8]) -> Result<Option<HeaderLine>, Memory>
    ensures { IfOk result (λ read. option_map header_of read ≡ payload_line_at line.now) }
{
    if let Some((key, value)) = label_line(alloc, line, b"dsd-global ")? {
        return Ok(Some(HeaderLine::GlobalTag(key, value)));
    }
    if let Some(limit) = limit_line(line) {
        return Ok(Some(HeaderLine::Limit(limit)));
    }
    match prefix_line(alloc, line)? {
        Some(prefix) => Ok(Some(HeaderLine::NamePrefix(prefix))),
        None => Ok(None),
    }
}

/// The values of a quantiles line.
#[tactic(auto, unfolding(crate::specs::Reading::quantiles_at))]
fn quantiles_line(alloc: Global, line: &[u8]) -> Result<Option<Vec<Fixed>>, Memory>
    ensures { IfOk result (λ read.
        option_map (λ values. values_of values.items) read ≡ quantiles_at line.now) }
{
    let mut cursor = Cursor::new(line);
    match cursor.literal(b"quantiles") {
        Some(()) => cursor.values(alloc),
        None => Ok(None),
    }
}

/// The values of a buckets line.
#[tactic(auto, unfolding(crate::specs::Reading::buckets_at))]
fn buckets_line(alloc: Global, line: &[u8]) -> Result<Option<Vec<Fixed>>, Memory>
    ensures { IfOk result (λ read.
        option_map (λ values. values_of values.items) read ≡ buckets_at line.now) }
{
    let mut cursor = Cursor::new(line);
    match cursor.literal(b"buckets") {
        Some(()) => cursor.values(alloc),
        None => Ok(None),
    }
}

/// The matcher and the values of a buckets-for line.
#[tactic(auto, unfolding(crate::specs::Reading::buckets_for_at))]
fn buckets_for_line(alloc: Global, line: &[u8]) -> Result<Option<(Matcher, Vec<Fixed>)>, Memory>
    ensures { IfOk result (λ read.
        option_map (λ rule. (matcher_text rule.0, values_of rule.1.items)) read ≡ buckets_for_at line.now) }
{
    let mut cursor = Cursor::new(line);
    let Some(()) = cursor.literal(b"buckets-for ") else {
        return Ok(None);
    };
    let Some(matcher) = cursor.matcher(alloc)? else {
        return Ok(None);
    };
    let Some(bounds) = cursor.values(alloc)? else {
        return Ok(None);
    };
    Ok(Some((matcher, bounds)))
}

/// The bucket count and the bucket duration of a summary line.
#[tactic(auto, unfolding(crate::specs::Reading::summary_at))]
fn summary_line(line: &[u8]) -> Option<(NonZeroU32, u64)>
    ensures { option_map (λ summary. (non_zero_u32_get summary.0, summary.1)) result
        ≡ summary_at line.now }
{
    let mut cursor = Cursor::new(line);
    cursor.literal(b"summary ")?;
    let count = cursor.positive(u32::MAX)?;
    cursor.literal(b" ")?;
    let duration = cursor.number(u64::MAX)?;
    cursor.end()?;
    Some((count, duration))
}

/// The kinds and the timeout of an idle line.
#[tactic(auto, unfolding(crate::specs::Reading::idle_at))]
fn idle_line(line: &[u8]) -> Option<(MetricKindMask, u64)>
    ensures { result ≡ idle_at line.now }
{
    let mut cursor = Cursor::new(line);
    cursor.literal(b"idle ")?;
    let mask = cursor.mask()?;
    cursor.literal(b" ")?;
    let timeout = cursor.number(u64::MAX)?;
    cursor.end()?;
    Some((mask, timeout))
}

/// The matcher and the three numbers of a native-for line.
#[tactic(auto, unfolding(crate::specs::Reading::native_for_at))]
fn native_for_line(
    alloc: Global,
    line: &[u8],
) -> Result<Option<(Matcher, Fixed, u32, Fixed)>, Memory>
    ensures { IfOk result (λ read. option_map native_of read ≡ native_for_at line.now) }
{
    let mut cursor = Cursor::new(line);
    let Some(()) = cursor.literal(b"native-for ") else {
        return Ok(None);
    };
    let Some(matcher) = cursor.matcher(alloc)? else {
        return Ok(None);
    };
    match cursor.native_numbers() {
        Some((factor, max_buckets, threshold)) => {
            Ok(Some((matcher, factor, max_buckets, threshold)))
        }
        None => Ok(None),
    }
}

/// The key and the value of a line with a first word, as `global `.
#[tactic(auto, unfolding(crate::specs::Reading::label_line_at))]
fn label_line(alloc: Global, line: &[u8], word: &[u8]) -> Result<Option<(String, String)>, Memory>
    ensures { IfOk result (λ read. option_map label_of read ≡ label_line_at word.now line.now) }
{
    let mut cursor = Cursor::new(line);
    let Some(()) = cursor.literal(word) else {
        return Ok(None);
    };
    let Some(key) = cursor.text(alloc)? else {
        return Ok(None);
    };
    let Some(value) = cursor.spaced_text(alloc)? else {
        return Ok(None);
    };
    match cursor.end() {
        Some(()) => Ok(Some((key.into_owned(alloc)?, value.into_owned(alloc)?))),
        None => Ok(None),
    }
}

/// The limit of a series-limit line.
#[tactic(auto, unfolding(crate::specs::Reading::series_limit_at))]
fn series_limit_line(line: &[u8]) -> Option<NonZeroU32>
    ensures { option_map non_zero_u32_get result ≡ series_limit_at line.now }
{
    let mut cursor = Cursor::new(line);
    cursor.literal(b"series-limit ")?;
    let limit = cursor.positive(u32::MAX)?;
    cursor.end()?;
    Some(limit)
}

/// The limit of a dsd-limit line.
#[tactic(auto, unfolding(crate::specs::Reading::limit_at))]
fn limit_line(line: &[u8]) -> Option<u64>
    ensures { result ≡ limit_at line.now }
{
    let mut cursor = Cursor::new(line);
    cursor.literal(b"dsd-limit ")?;
    let limit = cursor.number(u64::MAX)?;
    cursor.end()?;
    Some(limit)
}

/// The prefix of a dsd-prefix line.
#[tactic(auto, unfolding(crate::specs::Reading::prefix_at))]
fn prefix_line(alloc: Global, line: &[u8]) -> Result<Option<String>, Memory>
    ensures { IfOk result (λ read.
        option_map (λ prefix. string_bytes prefix) read ≡ prefix_at line.now) }
{
    let mut cursor = Cursor::new(line);
    let Some(()) = cursor.literal(b"dsd-prefix ") else {
        return Ok(None);
    };
    let Some(prefix) = cursor.text(alloc)? else {
        return Ok(None);
    };
    match cursor.end() {
        Some(()) => Ok(Some(prefix.into_owned(alloc)?)),
        None => Ok(None),
    }
}

impl HeaderLine {
    /// The place of its form in the order of header lines.
    pub(crate) fn place(&self) -> u32
        ensures { result ≡ place (header_of self.now) }
    {
        match self {
            HeaderLine::Quantiles(_) => 0,
            HeaderLine::Buckets(_) => 1,
            HeaderLine::BucketsFor(..) => 2,
            HeaderLine::NativeFor(..) => 3,
            HeaderLine::Summary(..) => 4,
            HeaderLine::Idle(..) => 5,
            HeaderLine::Naming => 6,
            HeaderLine::Units => 7,
            HeaderLine::Global(..) => 8,
            HeaderLine::SeriesLimit(_) => 9,
            HeaderLine::Limit(_) => 10,
            HeaderLine::Mode(_) => 11,
            HeaderLine::NamePrefix(_) => 12,
            HeaderLine::GlobalTag(..) => 13,
            HeaderLine::HistogramKind(_) => 14,
        }
    }

    /// Whether lines of its form may come again.
    fn may_repeat(&self) -> bool
        ensures { result ≡ may_repeat (header_of self.now) }
    {
        matches!(
            self,
            HeaderLine::BucketsFor(..)
                | HeaderLine::NativeFor(..)
                | HeaderLine::Global(..)
                | HeaderLine::GlobalTag(..)
        )
    }

    /// The least place of a header line behind it.
    pub(crate) fn least_behind(&self) -> u32
        ensures { result ≡ least_behind (header_of self.now) }
    {
        if self.may_repeat() {
            self.place()
        } else {
            self.place() + 1
        }
    }
}

impl Settings {
    /// Adds what one more header line says.
    pub(crate) fn add(&mut self, line: HeaderLine) -> Result<(), Memory>
        ensures { OnOk result (settings_of self.new ≡ with_header (settings_of self.old)
            (header_of line)) }
    {
        match line {
            HeaderLine::Quantiles(quantiles) => self.quantiles = Some(quantiles),
            HeaderLine::Buckets(bounds) => self.buckets = Some(bounds),
            HeaderLine::BucketsFor(matcher, bounds) => self.buckets_for.push((matcher, bounds))?,
            HeaderLine::NativeFor(matcher, factor, max_buckets, threshold) => {
                self.native_for
                    .push((matcher, factor, max_buckets, threshold))?;
            }
            HeaderLine::Summary(count, duration) => self.summary = Some((count, duration)),
            HeaderLine::Idle(mask, timeout) => self.idle = Some((mask, timeout)),
            HeaderLine::Naming => self.naming = true,
            HeaderLine::Units => self.units = true,
            HeaderLine::Global(key, value) => self.globals.push((key, value))?,
            HeaderLine::SeriesLimit(limit) => self.series_limit = Some(limit),
            HeaderLine::Limit(limit) => self.dsd_limit = Some(limit),
            HeaderLine::Mode(aggressive) => self.dsd_aggressive = aggressive,
            HeaderLine::NamePrefix(prefix) => self.dsd_prefix = Some(prefix),
            HeaderLine::GlobalTag(key, value) => self.dsd_globals.push((key, value))?,
            HeaderLine::HistogramKind(histograms) => self.dsd_histograms = histograms,
        }
        Ok(())
    }
}
