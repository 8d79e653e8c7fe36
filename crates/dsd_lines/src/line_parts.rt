//! The parts of a line behind its name: values, rate, tags and timestamp.

ghost use Rattle.std.specs.Prelude.{◌≡◌, IfOk, MatchOption, None, Some, option_map};
ghost use Rattle.dsd_lines.specs.Reading.{decimal_of, millis_of, number_of, optional, others_of, points_of, rate_of, some_of, step_of, tags_at, typed, typed_values};
ghost use Rattle.dsd_lines.specs.Texts.{numbers_of, pieces_left, points_text, steps_of};

use crate::numbers::{read_decimal, read_number, read_rate, read_seconds, read_step};
use crate::pieces::Pieces;
use crate::tags::read_tags;
use crate::{Dialect, GaugeStep, Points};
use metrics_core::{Fixed, Label, Memory};
use std::alloc::Global;

/// The values of a line, by its type.
#[tactic(auto, unfolding(crate::specs::Reading::points_of))]
pub(crate) fn read_points(
    alloc: Global,
    dialect: Dialect,
    line_type: &[u8],
    values: Pieces<'_>,
) -> Result<Option<Points>, Memory>
    ensures { IfOk result (λ points.
        option_map points_text points ≡ points_of dialect line_type.now (pieces_left values.entry)) }
{
    if line_type == b"c".as_slice() {
        return match read_counts(alloc, values)? {
            Some(counts) => Ok(Some(Points::Counter(counts))),
            None => Ok(None),
        };
    }
    read_others(alloc, dialect, line_type, values)
}

/// The values of a line that is no counter's, by its type.
#[tactic(auto, unfolding(crate::specs::Reading::others_of))]
fn read_others(
    alloc: Global,
    dialect: Dialect,
    line_type: &[u8],
    values: Pieces<'_>,
) -> Result<Option<Points>, Memory>
    ensures { IfOk result (λ points.
        option_map points_text points ≡ others_of dialect line_type.now (pieces_left values.entry)) }
{
    match dialect {
        Dialect::DogStatsd => read_typed(alloc, line_type, values),
        Dialect::Statsd => {
            if line_type == b"g".as_slice() {
                return match read_steps(alloc, values)? {
                    Some(steps) => Ok(Some(Points::Steps(steps))),
                    None => Ok(None),
                };
            }
            if line_type == b"ms".as_slice() {
                return match read_millis(alloc, values)? {
                    Some(values) => Ok(Some(Points::Timer(values))),
                    None => Ok(None),
                };
            }
            read_typed(alloc, line_type, values)
        }
    }
}

/// The values of a line in billionths, by its type.
fn read_typed(alloc: Global, line_type: &[u8], values: Pieces<'_>) -> Result<Option<Points>, Memory>
    ensures { IfOk result (λ points.
        option_map points_text points ≡ typed_values line_type.now (pieces_left values.entry)) }
{
    match read_values(alloc, values)? {
        Some(values) => Ok(typed(line_type, values)),
        None => Ok(None),
    }
}

/// Values in billionths, by the type of their line.
#[tactic(auto, unfolding(crate::specs::Reading::typed))]
fn typed(line_type: &[u8], values: Vec<Fixed>) -> Option<Points>
    ensures { option_map points_text result ≡ typed line_type.now (numbers_of values.items) }
{
    if line_type == b"g".as_slice() {
        Some(Points::Gauge(values))
    } else if line_type == b"h".as_slice() {
        Some(Points::Histogram(values))
    } else if line_type == b"d".as_slice() {
        Some(Points::Distribution(values))
    } else {
        None
    }
}

/// The values of a counter, of which there is one at least.
fn read_counts(alloc: Global, texts: Pieces<'_>) -> Result<Option<Vec<u64>>, Memory>
    ensures { IfOk result (λ counts.
        option_map (λ counts. counts.items) counts ≡ some_of number_of (pieces_left texts.entry)) }
{
    let mut texts = texts;
    let mut counts = Vec::new(alloc);
    while let Some(text) = texts.next() {
        let Some(count) = read_number(text) else {
            return Ok(None);
        };
        counts.push(count)?;
    }
    if counts.is_empty() {
        return Ok(None);
    }
    Ok(Some(counts))
}

/// Values in billionths, of which there is one at least.
fn read_values(alloc: Global, texts: Pieces<'_>) -> Result<Option<Vec<Fixed>>, Memory>
    ensures { IfOk result (λ values.
        option_map (λ values. numbers_of values.items) values ≡ some_of decimal_of
        (pieces_left texts.entry)) }
{
    let mut texts = texts;
    let mut values = Vec::new(alloc);
    while let Some(text) = texts.next() {
        let Some(value) = read_decimal(text) else {
            return Ok(None);
        };
        values.push(value)?;
    }
    if values.is_empty() {
        return Ok(None);
    }
    Ok(Some(values))
}

/// The steps of a gauge, of which there is one at least.
fn read_steps(alloc: Global, texts: Pieces<'_>) -> Result<Option<Vec<GaugeStep>>, Memory>
    ensures { IfOk result (λ steps.
        option_map (λ steps. steps_of steps.items) steps ≡ some_of step_of (pieces_left texts.entry)) }
{
    let mut texts = texts;
    let mut steps = Vec::new(alloc);
    while let Some(text) = texts.next() {
        let Some(step) = read_step(text) else {
            return Ok(None);
        };
        steps.push(step)?;
    }
    if steps.is_empty() {
        return Ok(None);
    }
    Ok(Some(steps))
}

/// Values in milliseconds, of which there is one at least, in seconds.
fn read_millis(alloc: Global, texts: Pieces<'_>) -> Result<Option<Vec<Fixed>>, Memory>
    ensures { IfOk result (λ values.
        option_map (λ values. numbers_of values.items) values ≡ some_of millis_of
        (pieces_left texts.entry)) }
{
    let mut texts = texts;
    let mut values = Vec::new(alloc);
    while let Some(text) = texts.next() {
        let Some(value) = read_seconds(text) else {
            return Ok(None);
        };
        values.push(value)?;
    }
    if values.is_empty() {
        return Ok(None);
    }
    Ok(Some(values))
}

/// Takes the rate, if there is one.
pub(crate) fn take_rate(parts: &mut Pieces<'_>) -> Option<Option<u32>>
    ensures { MatchOption result (optional 64 rate_of (pieces_left parts.old) ≡ None)
        (λ rate. optional 64 rate_of (pieces_left parts.old) ≡ Some (rate, pieces_left parts.new)) }
{
    match parts.next_led(b'@') {
        Some(text) => Some(Some(read_rate(text)?)),
        None => Some(None),
    }
}

/// Takes the tags, if there are any.
pub(crate) fn take_tags(alloc: Global, parts: &mut Pieces<'_>) -> Result<Option<Vec<Label>>, Memory>
    ensures { IfOk result (λ tags. MatchOption tags (tags_at (pieces_left parts.old) ≡ None)
        (λ tags. tags_at (pieces_left parts.old) ≡ Some (tags.items, pieces_left parts.new))) }
{
    match parts.next_led(b'#') {
        Some(text) => read_tags(alloc, text),
        None => Ok(Some(Vec::new(alloc))),
    }
}

/// Takes the timestamp, if there is one.
pub(crate) fn take_timestamp(parts: &mut Pieces<'_>) -> Option<Option<u64>>
    ensures { MatchOption result (optional 84 number_of (pieces_left parts.old) ≡ None)
        (λ seconds. optional 84 number_of (pieces_left parts.old) ≡ Some (seconds, pieces_left parts.new)) }
{
    match parts.next_led(b'T') {
        Some(text) => Some(Some(read_number(text)?)),
        None => Some(None),
    }
}
