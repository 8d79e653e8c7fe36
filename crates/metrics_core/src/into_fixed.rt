//! What stands for a value of a gauge or a histogram.

ghost use Rattle.std.specs.Prelude.{◌≡◌, Some, pos};
ghost use Rattle.std.specs.Duration.{as_nanos};
ghost use Rattle.metrics_core.specs.Fixed.{fixed_of_whole, fixed_of_billionths};

use crate::{BILLIONTHS, Fixed};
use std::time::Duration;

/// A number or a span of time that stands for a value.
pub trait IntoFixed {
    ghost use Rattle.std.specs.Prelude.{Option};
    ghost use Rattle.metrics_core.specs.declared.numbers.Fixed.{Fixed as FixedOf};

    /// The value that it stands for, or `None` where that is out of range.
    ghost fixed: { Self → Option FixedOf };

    /// That value.
    fn into_fixed(self) -> Option<Fixed>
        ensures { result ≡ fixed self };
}

const ONE: i64 = BILLIONTHS as i64;

impl IntoFixed for Fixed {
    ghost fixed = { Some };

    fn into_fixed(self) -> Option<Fixed> {
        Some(self)
    }
}

impl IntoFixed for i8 {
    ghost fixed = { fixed_of_whole };

    fn into_fixed(self) -> Option<Fixed> {
        Some(Fixed(i64::from(self) * ONE))
    }
}

impl IntoFixed for u8 {
    ghost fixed = { λ n. fixed_of_whole (pos n) };

    fn into_fixed(self) -> Option<Fixed> {
        Some(Fixed(i64::from(self) * ONE))
    }
}

impl IntoFixed for i16 {
    ghost fixed = { fixed_of_whole };

    fn into_fixed(self) -> Option<Fixed> {
        Some(Fixed(i64::from(self) * ONE))
    }
}

impl IntoFixed for u16 {
    ghost fixed = { λ n. fixed_of_whole (pos n) };

    fn into_fixed(self) -> Option<Fixed> {
        Some(Fixed(i64::from(self) * ONE))
    }
}

impl IntoFixed for i32 {
    ghost fixed = { fixed_of_whole };

    fn into_fixed(self) -> Option<Fixed> {
        Some(Fixed(i64::from(self) * ONE))
    }
}

impl IntoFixed for u32 {
    ghost fixed = { λ n. fixed_of_whole (pos n) };

    fn into_fixed(self) -> Option<Fixed> {
        Some(Fixed(i64::from(self) * ONE))
    }
}

/// A span of time stands for its length in seconds.
impl IntoFixed for Duration {
    ghost fixed = { λ span. fixed_of_billionths (as_nanos span) };

    fn into_fixed(self) -> Option<Fixed> {
        match i64::try_from(self.as_nanos()) {
            Ok(billionths) => Some(Fixed(billionths)),
            Err(_) => None,
        }
    }
}
