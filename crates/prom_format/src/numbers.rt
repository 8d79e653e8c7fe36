//! Numbers as a page spells them (Prometheus text exposition format, "Comments, help text, and type information").

ghost use Rattle.std.specs.Prelude.{◌≡◌, ◌<◌, ◌≤◌, ◌/◌, ◌%◌, [], ◌++◌, OnErr, OnOk, decimal, string_bytes};
ghost use Rattle.metrics_core.specs.Numbers.{page_number, fraction_text, whole};
ghost use Rattle.prom_format.specs.Texts.{Begins};

use crate::undo::undo_refused;
use itoa::Buffer;
use metrics_core::{BILLIONTHS, Memory};

const ONE: u64 = BILLIONTHS as u64;

/// Appends the spelling of a value of billionths: `42`, `-3.14`. A refused call leaves the text as it was.
pub fn push_fixed(buffer: &mut String, billionths: i128) -> Result<(), Memory>
    ensures ok { OnOk result (string_bytes buffer.new
        ≡ string_bytes buffer.old ++ page_number billionths) }
    ensures err { OnErr result (string_bytes buffer.new ≡ string_bytes buffer.old) }
{
    let length = buffer.len();
    let outcome = push_parts(buffer, billionths);
    undo_refused(buffer, length, outcome)
}

/// Appends the sign, the whole part and the fraction of a value of billionths. After a refused call some may be missing.
fn push_parts(buffer: &mut String, billionths: i128) -> Result<(), Memory>
    ensures ok { OnOk result (string_bytes buffer.new
        ≡ string_bytes buffer.old ++ page_number billionths) }
    ensures kept { Begins (string_bytes buffer.old) (string_bytes buffer.new) }
{
    if billionths < 0 {
        buffer.push_str("-")?;
    }
    push_magnitude(buffer, billionths.unsigned_abs())
}

/// Appends the whole part and the fraction of so many billionths. After a refused call some may be missing. Those of 64 bits, as
/// nearly all are, are divided by one multiplication, the others by a long division.
fn push_magnitude(buffer: &mut String, magnitude: u128) -> Result<(), Memory>
    ensures ok { OnOk result (string_bytes buffer.new
        ≡ string_bytes buffer.old ++ decimal (magnitude / 1000000000) ++ fraction_text [] (magnitude % 1000000000)) }
    ensures kept { Begins (string_bytes buffer.old) (string_bytes buffer.new) }
{
    if magnitude <= u128::from(u64::MAX) {
        return push_short(buffer, magnitude as u64);
    }
    let one = u128::from(ONE);
    buffer.push_str(Buffer::new().format(magnitude / one))?;
    push_fraction(buffer, (magnitude % one) as u64)
}

/// Appends the whole part and the fraction of so many billionths of 64 bits, as `push_magnitude` does.
fn push_short(buffer: &mut String, magnitude: u64) -> Result<(), Memory>
    ensures ok { OnOk result (string_bytes buffer.new
        ≡ string_bytes buffer.old ++ decimal (magnitude / 1000000000) ++ fraction_text [] (magnitude % 1000000000)) }
    ensures kept { Begins (string_bytes buffer.old) (string_bytes buffer.new) }
{
    buffer.push_str(Buffer::new().format(magnitude / ONE))?;
    push_fraction(buffer, magnitude % ONE)
}

/// Appends a point and the digits of a fraction of billionths, and nothing where the fraction is zero. After a refused
/// call the point may stand alone.
fn push_fraction(text: &mut String, fraction: u64) -> Result<(), Memory>
    requires { fraction < 1000000000 }
    ensures ok { OnOk result (string_bytes text.new
        ≡ string_bytes text.old ++ fraction_text [] fraction) }
    ensures kept { Begins (string_bytes text.old) (string_bytes text.new) }
{
    if fraction == 0 {
        return Ok(());
    }
    let mut digits = Buffer::new();
    // The one before them keeps their zeros.
    let padded = &digits.format(ONE + fraction)[1..];
    text.push('.')?;
    text.push_str(padded.trim_end_matches('0'))?;
    Ok(())
}

/// Appends a count in decimal, which is the spelling of its value. A refused call leaves the text as it was.
pub fn push_count(buffer: &mut String, count: u64) -> Result<(), Memory>
    ensures ok { OnOk result (string_bytes buffer.new ≡ string_bytes buffer.old ++ decimal count) }
    ensures number { page_number (whole count) ≡ decimal count }
    ensures err { OnErr result (string_bytes buffer.new ≡ string_bytes buffer.old) }
{
    buffer.push_str(Buffer::new().format(count))?;
    Ok(())
}
