//! What is done to the value of a gauge.

use crate::Fixed;

/// A change of the value of a gauge.
#[derive(Clone, Copy, Debug, PartialEq, Eq)]
pub enum GaugeValue {
    /// The value becomes this one.
    Absolute(Fixed),
    /// This is added to the value.
    Increment(Fixed),
    /// This is taken off the value.
    Decrement(Fixed),
}

impl GaugeValue {
    ghost use Rattle.std.specs.Prelude.{◌≡◌};
    ghost use Rattle.metrics_core.specs.Fixed.{updated};

    /// The value of a gauge after this change of `input`. Sums are taken modulo 2^64 billionths.
    pub fn update_value(&self, input: Fixed) -> Fixed
        ensures { result ≡ updated self.now input }
    {
        match self {
            GaugeValue::Absolute(value) => *value,
            GaugeValue::Increment(value) => Fixed(input.0.wrapping_add(value.0)),
            GaugeValue::Decrement(value) => Fixed(input.0.wrapping_sub(value.0)),
        }
    }
}
