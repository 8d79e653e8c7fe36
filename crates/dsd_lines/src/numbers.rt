//! The numbers of a line.

ghost use Rattle.std.specs.Prelude.{◌≡◌, ◌≢◌, ◌<◌, ◌≤◌, ◌^◌, length, slice_index, MatchBool, option_copied, option_map, IfSome, SomeIff};
ghost use Rattle.std.specs.Char.{is_ascii_digit};
ghost use Rattle.std.specs.List.{list_all};
ghost use Rattle.std.specs.Str.Parse.{AllDigits, digits_value};
ghost use Rattle.dsd_lines.specs.Reading.{decimal_of, fraction_behind, fraction_of, millis_of, number_of, rate_of, signed_of, step_of, value_of};
ghost use Rattle.dsd_lines.specs.Texts.{step_text};

use crate::GaugeStep;
use crate::pieces::cut;
use metrics_core::{BILLIONTHS, Fixed};

const ONE: u64 = BILLIONTHS as u64;

/// How many places billionths have behind the point.
const PLACES: usize = 9;

/// The greatest whole part of a value.
const MOST_WHOLE: u64 = 9_223_372_036;

/// How many milliseconds a second has.
const MILLIS: i64 = 1_000;

/// The least rate, in billionths.
const LEAST_RATE: i64 = 1_000;

/// The number that the text is the decimal form of.
pub(crate) fn read_number(text: &[u8]) -> Option<u64>
    ensures { result ≡ number_of text.now }
{
    if !are_digits(text) {
        return None;
    }
    if has_zero_in_front(text) {
        return None;
    }
    digits_value(text)
}

/// Whether a zero stands in front of others.
fn has_zero_in_front(text: &[u8]) -> bool
    ensures { MatchBool result ((1 < length text.now) × (slice_index text.now 0 ≡ 48))
        (1 < length text.now → slice_index text.now 0 ≢ 48) }
{
    text.len() > 1 && text[0] == b'0'
}

/// The value that the text is a spelling of.
pub(crate) fn read_decimal(text: &[u8]) -> Option<Fixed>
    ensures { option_map (λ value. value.0) result ≡ decimal_of text.now }
{
    let (first, behind) = text.split_first()?;
    if *first == b'-' {
        read_signed(true, behind)
    } else {
        read_signed(false, text)
    }
}

/// The step of a gauge that the text is a spelling of: with a sign it moves, without one it sets.
pub(crate) fn read_step(text: &[u8]) -> Option<GaugeStep>
    ensures { option_map step_text result ≡ step_of text.now }
{
    let (first, behind) = text.split_first()?;
    if *first == b'-' {
        Some(GaugeStep::MoveBy(read_signed(true, behind)?))
    } else if *first == b'+' {
        Some(GaugeStep::MoveBy(read_signed(false, behind)?))
    } else {
        Some(GaugeStep::SetTo(read_signed(false, text)?))
    }
}

/// The value in seconds of which the text is a spelling in milliseconds.
pub(crate) fn read_seconds(text: &[u8]) -> Option<Fixed>
    ensures { option_map (λ value. value.0) result ≡ millis_of text.now }
{
    let Fixed(millis) = read_decimal(text)?;
    Some(Fixed(millis / MILLIS))
}

/// The rate in billionths that the text is a spelling of.
#[tactic(auto, unfolding(crate::specs::Reading::rate_of))]
pub(crate) fn read_rate(text: &[u8]) -> Option<u32>
    ensures { result ≡ rate_of text.now }
{
    let Fixed(rate) = read_decimal(text)?;
    if (LEAST_RATE..=i64::from(BILLIONTHS)).contains(&rate) {
        Some(rate as u32)
    } else {
        None
    }
}

/// The value of this sign whose whole part, point and fraction the text is.
#[tactic(auto, unfolding(crate::specs::Reading::signed_of))]
fn read_signed(negative: bool, text: &[u8]) -> Option<Fixed>
    ensures { option_map (λ value. value.0) result ≡ signed_of negative text.now }
{
    let (whole, behind) = cut(text, b'.');
    let whole = read_number(whole)?;
    let fraction = read_fraction(behind)?;
    if whole > MOST_WHOLE {
        return None;
    }
    Some(Fixed(value_of(negative, whole * ONE + fraction)?))
}

/// How many billionths the digits behind a point are, or none where there is no point.
fn read_fraction(behind: Option<&[u8]>) -> Option<u64>
    ensures value { result ≡ fraction_behind (option_copied behind.entry) }
    ensures below { IfSome result (λ n. n < 10 ^ 9) }
{
    match behind {
        Some(digits) => fraction_of(digits),
        None => Some(0),
    }
}

/// How many billionths one to nine digits behind a point are.
fn fraction_of(digits: &[u8]) -> Option<u64>
    ensures value { result ≡ fraction_of digits.now }
    ensures below { IfSome result (λ n. n < 10 ^ 9) }
{
    if !are_digits(digits) {
        return None;
    }
    if digits.len() > PLACES {
        return None;
    }
    Some(digits_value(digits)? * 10_u64.pow((PLACES - digits.len()) as u32))
}

/// The value of a sign and so many billionths, if it fits.
fn value_of(negative: bool, billionths: u64) -> Option<i64>
    ensures { result ≡ value_of negative billionths }
{
    if negative {
        0_i64.checked_sub_unsigned(billionths)
    } else {
        0_i64.checked_add_unsigned(billionths)
    }
}

/// Whether all of these are digits.
fn are_digits(text: &[u8]) -> bool
    ensures { result ≡ list_all is_ascii_digit text.now }
{
    text.iter().all(|byte| byte.is_ascii_digit())
}

/// The value of digits, where there is one at least and it has room.
fn digits_value(digits: &[u8]) -> Option<u64>
    requires { AllDigits 10 digits.now }
    ensures { SomeIff result ((0 < length digits.now) × (digits_value 10 digits.now < 2 ^ 64))
        (digits_value 10 digits.now) }
{
    str::from_utf8(digits).ok()?.parse().ok()
}
