//! Numbers as DogStatsD spells them.

ghost use Rattle.std.specs.Prelude.{◌≡◌, ◌+◌, ◌<◌, ◌≤◌, [], ◌∷◌, ◌++◌, length, decimal, vec_len, vec_capacity};
ghost use Rattle.metrics_core.specs.Numbers.{dogstatsd_number, fraction_text};

use crate::room::push;
use itoa::Buffer;
use metrics_core::{BILLIONTHS, Fixed};
use std::marker::Model;

const ONE: u64 = BILLIONTHS as u64;

/// The text of a number, in four parts. A contract sees it whole.
#[derive(Drop)]
pub(crate) struct NumberText<'a> {
    sign: &'a str,
    whole: &'a str,
    point: &'a str,
    fraction: &'a str,
}

impl<'a> Model for NumberText<'a> {
    ghost use Rattle.std.specs.Prelude.{ℕ, ◌<◌, ◌≤◌, List, ◌++◌, length};

    ghost Value = { List ℕ };

    ghost view = { λ text. text.sign.now ++ text.whole.now ++ text.point.now ++ text.fraction.now };

    ghost invariant = { λ text. (0 < length (text.sign.now ++ text.whole.now ++ text.point.now ++ text.fraction.now))
        × (length (text.sign.now ++ text.whole.now ++ text.point.now ++ text.fraction.now) ≤ 255) };
}

impl<'a> NumberText<'a> {
    /// The text of a count: plain decimal.
    pub(crate) fn of_count(digits: &'a mut Buffer, count: u64) -> NumberText<'a>
        ensures { result ≡ decimal count }
    {
        NumberText {
            sign: "",
            whole: digits.format(count),
            point: "",
            fraction: "",
        }
    }

    /// The text of a value: the fraction has at least one digit.
    pub(crate) fn of_value(
        whole: &'a mut Buffer,
        fraction: &'a mut Buffer,
        value: Fixed,
    ) -> NumberText<'a>
        ensures { result ≡ dogstatsd_number value.0 }
    {
        let magnitude = value.0.unsigned_abs();
        NumberText {
            sign: if value.0 < 0 { "-" } else { "" },
            whole: whole.format(magnitude / ONE),
            point: ".",
            fraction: fraction_digits(fraction, magnitude % ONE),
        }
    }

    /// How many bytes the text takes.
    pub(crate) fn len(&self) -> u64
        ensures len { result ≡ length self.now }
        ensures some { 0 < length self.now }
        ensures short { result ≤ 255 }
    {
        (self.sign.len() + self.whole.len() + self.point.len() + self.fraction.len()) as u64
    }

    /// Appends the text, for which there is room.
    pub(crate) fn push_to(&self, bytes: &mut Vec<u8>)
        requires { vec_len bytes.old + length self.now ≤ vec_capacity bytes.old }
        ensures items { bytes.new.items ≡ bytes.old.items ++ self.now }
        ensures len { vec_len bytes.new ≡ vec_len bytes.old + length self.now }
        ensures capacity { vec_capacity bytes.old ≤ vec_capacity bytes.new }
    {
        push(bytes, self.sign);
        push(bytes, self.whole);
        push(bytes, self.point);
        push(bytes, self.fraction);
    }
}

/// The digits of a fraction of billionths, without zeros at the end but for a single one.
fn fraction_digits(buffer: &mut Buffer, fraction: u64) -> &str
    requires { fraction < 1000000000 }
    ensures text { 46 ∷ result.now ≡ fraction_text (46 ∷ 48 ∷ []) fraction }
    ensures short { length result.now ≤ 40 }
{
    if fraction == 0 {
        return "0";
    }
    // The one before them keeps their zeros.
    let padded = &buffer.format(ONE + fraction)[1..];
    padded.trim_end_matches('0')
}
