//! Lines: what they are made of, and their reader.

ghost use Rattle.std.specs.Prelude.{◌≡◌, IfOk, MatchOption, option_map, string_bytes};
ghost use Rattle.metrics_core.specs.Characters.{colon};
ghost use Rattle.dsd_lines.specs.Grammar.{IsLineIn, bar};
ghost use Rattle.dsd_lines.specs.Reading.{line_at, line_behind, line_of_head, pieces};
ghost use Rattle.dsd_lines.specs.Texts.{IsNoLineIn, line_text, pieces_left, points_text};

use crate::Dialect;
use crate::line_parts::{read_points, take_rate, take_tags, take_timestamp};
use crate::pieces::Pieces;
use crate::tags::read_plain;
use metrics_core::{Fixed, Key, KeyName, Memory};
use std::alloc::Global;

/// What a value of StatsD does to its gauge.
#[derive(Clone, Copy, Debug, Drop)]
pub enum GaugeStep {
    /// The gauge is set to it.
    SetTo(Fixed),
    /// The gauge moves by it.
    MoveBy(Fixed),
}

/// The values of a line, one at least.
#[derive(Debug, Drop)]
pub enum Points {
    /// Increments of a counter.
    Counter(Vec<u64>),
    /// Values of a gauge.
    Gauge(Vec<Fixed>),
    /// Steps of a gauge of StatsD.
    Steps(Vec<GaugeStep>),
    /// Samples of a histogram.
    Histogram(Vec<Fixed>),
    /// Samples of a distribution.
    Distribution(Vec<Fixed>),
    /// Samples of a timer of StatsD, in seconds. They are spelled in milliseconds, and rounded toward zero to billionths of a second.
    Timer(Vec<Fixed>),
}

/// What a line says.
#[derive(Debug, Drop)]
pub struct Line {
    /// The name, and the tags as labels. A tag without value has the empty one.
    pub key: Key,
    pub points: Points,
    /// The sample rate in billionths, from 1,000 to 1,000,000,000, where the line has one.
    pub rate: Option<u32>,
    /// The timestamp in seconds, where the line has one.
    pub timestamp: Option<u64>,
}

/// Reads a line of a dialect, which stands without its newline. Answers what it says, or nothing where the bytes are no line.
pub fn read_line(alloc: Global, dialect: Dialect, bytes: &[u8]) -> Result<Option<Line>, Memory>
    ensures { IfOk result (λ line. MatchOption line (IsNoLineIn dialect bytes.now)
        (λ line. IsLineIn dialect bytes.now (line_text line))) }
{
    read_parts(alloc, dialect, bytes)
}

/// Reads the parts of a line.
#[tactic(auto, unfolding(crate::specs::Reading::line_at))]
fn read_parts(alloc: Global, dialect: Dialect, bytes: &[u8]) -> Result<Option<Line>, Memory>
    ensures { IfOk result (λ line. option_map line_text line ≡ line_at dialect bytes.now) }
{
    let mut parts = Pieces::new(bytes, b'|');
    let Some(head) = parts.next() else {
        return Ok(None);
    };
    let Some(line_type) = parts.next() else {
        return Ok(None);
    };
    read_head(alloc, dialect, Pieces::new(head, b':'), line_type, parts)
}

/// Reads name and values, and the parts behind the type.
#[tactic(auto, unfolding(crate::specs::Reading::line_of_head))]
fn read_head(
    alloc: Global,
    dialect: Dialect,
    head: Pieces<'_>,
    line_type: &[u8],
    parts: Pieces<'_>,
) -> Result<Option<Line>, Memory>
    ensures { IfOk result (λ line.
        option_map line_text line ≡ line_of_head dialect (pieces_left head.entry) line_type.now
        (pieces_left parts.entry)) }
{
    let mut head = head;
    let Some(name) = head.next() else {
        return Ok(None);
    };
    let Some(name) = read_plain(alloc, name)? else {
        return Ok(None);
    };
    let Some(points) = read_points(alloc, dialect, line_type, head)? else {
        return Ok(None);
    };
    read_behind(alloc, name, points, parts)
}

/// Reads the parts behind the type.
#[tactic(auto, unfolding(crate::specs::Reading::line_behind))]
fn read_behind(
    alloc: Global,
    name: String,
    points: Points,
    parts: Pieces<'_>,
) -> Result<Option<Line>, Memory>
    ensures { IfOk result (λ line.
        option_map line_text line ≡ line_behind (string_bytes name) (points_text points)
        (pieces_left parts.entry)) }
{
    let mut parts = parts;
    let Some(rate) = take_rate(&mut parts) else {
        return Ok(None);
    };
    let Some(tags) = take_tags(alloc, &mut parts)? else {
        return Ok(None);
    };
    let Some(timestamp) = take_timestamp(&mut parts) else {
        return Ok(None);
    };
    if parts.next().is_some() {
        return Ok(None);
    }
    Ok(Some(Line {
        key: Key::from_parts(KeyName::from(name), tags),
        points,
        rate,
        timestamp,
    }))
}
