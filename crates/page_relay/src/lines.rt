//! What a line of a page says: one function for each form of line. Lines stand without their newlines.

ghost use Rattle.std.specs.Prelude.{◌≡◌, ◌≤◌, ◌==◌, ◌+◌, List, ℕ, drop, length, IfOk, MatchOption, string_bytes};
ghost use Rattle.std.specs.List.{position_or_len};
ghost use Rattle.prom_format.specs.Pages.{Row};
ghost use Rattle.page_relay.specs.Reading.{all_places, IsHelpLine, IsRowLine, IsTypeOf, IsValueOf};
ghost use Rattle.page_relay.specs.Values.{row_of};

use crate::cursor::Cursor;
use crate::{PageRow, Shape};
use metrics_core::Memory;
use prom_format::push_fixed;
use std::alloc::Global;

/// How many places billionths have behind the point.
const PLACES: usize = 9;

/// The name and the text of a help line.
pub(crate) fn read_help_line(alloc: Global, line: &[u8]) -> Result<Option<(String, String)>, Memory>
    ensures { IfOk result (λ read.
        MatchOption read ((name text : List ℕ) → ¬ IsHelpLine line.now name text)
        (λ read. IsHelpLine line.now (string_bytes read.0) (string_bytes read.1))) }
{
    let mut cursor = Cursor::new(line);
    if cursor.literal(b"# HELP ").is_none() {
        return Ok(None);
    }
    let Some(name) = cursor.name(alloc, true)? else {
        return Ok(None);
    };
    if cursor.literal(b" ").is_none() {
        return Ok(None);
    }
    let Some(text) = cursor.text(alloc, false)? else {
        return Ok(None);
    };
    Ok(Some((name, text)))
}

/// The name and the type of a type line.
pub(crate) fn read_type_line(alloc: Global, line: &[u8]) -> Result<Option<(String, Shape)>, Memory>
    ensures { IfOk result (IsTypeOf line.now) }
{
    let mut cursor = Cursor::new(line);
    if cursor.literal(b"# TYPE ").is_none() {
        return Ok(None);
    }
    let Some(name) = cursor.name(alloc, true)? else {
        return Ok(None);
    };
    if cursor.literal(b" ").is_none() {
        return Ok(None);
    }
    let Some(shape) = cursor.shape() else {
        return Ok(None);
    };
    Ok(Some((name, shape)))
}

/// The row of a line.
pub(crate) fn read_row(alloc: Global, line: &[u8]) -> Result<Option<PageRow>, Memory>
    ensures { IfOk result (λ read. MatchOption read ((row : Row) → ¬ IsRowLine line.now row)
        (λ row. IsRowLine line.now (row_of row))) }
{
    let mut cursor = Cursor::new(line);
    let Some(name) = cursor.name(alloc, true)? else {
        return Ok(None);
    };
    let Some(labels) = cursor.label_set(alloc)? else {
        return Ok(None);
    };
    let Some(value) = read_value(alloc, cursor.rest)? else {
        return Ok(None);
    };
    Ok(Some(PageRow {
        name,
        labels,
        value,
    }))
}

/// The value that this text is the one spelling of. The value is read with as many places behind the point as
/// billionths have; any other spelling of it is refused.
fn read_value(alloc: Global, text: &[u8]) -> Result<Option<i128>, Memory>
    ensures { IfOk result (IsValueOf text.now) }
{
    let digits = read_digits(alloc, text)?;
    let Ok(digits) = str::from_utf8(digits.as_slice()) else {
        return Ok(None);
    };
    let Ok(value) = digits.parse::<i128>() else {
        return Ok(None);
    };
    let mut spelled = String::new(alloc);
    push_fixed(&mut spelled, value)?;
    if spelled.as_bytes() != text {
        return Ok(None);
    }
    Ok(Some(value))
}

/// The digits of a number without its point, with zeros behind them up to all places.
fn read_digits(alloc: Global, text: &[u8]) -> Result<Vec<u8>, Memory>
    ensures { IfOk result (λ digits. digits.items ≡ all_places text.now) }
{
    let point = count_before(text, b'.');
    let fraction = bytes_behind(text, point);
    let mut digits = Vec::new(alloc);
    digits.extend_from_slice(&text[..point])?;
    digits.extend_from_slice(fraction)?;
    let mut places = fraction.len();
    while places < PLACES {
        digits.push(b'0')?;
        places += 1;
    }
    Ok(digits)
}

/// The bytes behind the one at a place, or none where that is the end.
fn bytes_behind(bytes: &[u8], place: usize) -> &[u8]
    requires { place ≤ length bytes.now }
    ensures { result.now ≡ drop (place + 1) bytes.now }
{
    if place == bytes.len() {
        return &[];
    }
    &bytes[place + 1..]
}

/// How many bytes stand before the first `stop`, or how many there are.
pub(crate) fn count_before(bytes: &[u8], stop: u8) -> usize
    ensures count { result ≡ position_or_len (λ b. b == stop) bytes.now }
    ensures within { result ≤ length bytes.now }
{
    bytes
        .iter()
        .position(|byte| *byte == stop)
        .unwrap_or(bytes.len())
}
