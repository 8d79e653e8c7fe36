//! Values from numbers of which not all are in range, such as a count of bytes or a share between 0 and 1.
//!
//!     let value = Fixed::try_from(0.25)?;

ghost use Rattle.std.specs.Prelude.{◌≡◌, pos};
ghost use Rattle.metrics_core.specs.FromNumbers.{IsWholeValue, float_value};

use crate::{BILLIONTHS, Fixed};
use std::num::saturating_f64_to_i64;
use thiserror::Error;

const ONE: i64 = BILLIONTHS as i64;

/// Why a number stands for no value.
#[derive(Clone, Copy, Debug, PartialEq, Eq, Error)]
pub enum ValueFault {
    #[error("number above 9223372036.854775807")]
    TooLarge,
    #[error("number below -9223372036.854775808")]
    TooSmall,
    #[error("not a number")]
    NotANumber,
}

/// A whole number stands for itself. From 9,223,372,037 on it is refused.
impl TryFrom<i64> for Fixed {
    type Error = ValueFault;

    ghost try_from_gives = { IsWholeValue };

    fn try_from(number: i64) -> Result<Fixed, ValueFault> {
        match number.checked_mul(ONE) {
            Some(billionths) => Ok(Fixed(billionths)),
            None if number < 0 => Err(ValueFault::TooSmall),
            None => Err(ValueFault::TooLarge),
        }
    }
}

/// A whole number stands for itself. From 9,223,372,037 on it is refused.
impl TryFrom<u64> for Fixed {
    type Error = ValueFault;

    ghost try_from_gives = { λ n r. IsWholeValue (pos n) r };

    fn try_from(number: u64) -> Result<Fixed, ValueFault> {
        match number.checked_mul(ONE as u64) {
            Some(billionths) if billionths <= i64::MAX as u64 => Ok(Fixed(billionths as i64)),
            _ => Err(ValueFault::TooLarge),
        }
    }
}

/// A whole number stands for itself. From 9,223,372,037 on it is refused.
impl TryFrom<usize> for Fixed {
    type Error = ValueFault;

    ghost try_from_gives = { λ n r. IsWholeValue (pos n) r };

    fn try_from(number: usize) -> Result<Fixed, ValueFault> {
        Fixed::try_from(number as u64)
    }
}

/// A float stands for its nearest billionth, a tie away from zero, behind a product with a billion that is rounded as floats are.
impl TryFrom<f64> for Fixed {
    type Error = ValueFault;

    ghost try_from_gives = { λ x r. r ≡ float_value x };

    fn try_from(number: f64) -> Result<Fixed, ValueFault> {
        let billionths = (number * 1_000_000_000.0).round();
        if number.is_nan() {
            Err(ValueFault::NotANumber)
        } else if 9_223_372_036_854_775_808.0 <= billionths {
            Err(ValueFault::TooLarge)
        } else if billionths < -9_223_372_036_854_775_808.0 {
            Err(ValueFault::TooSmall)
        } else {
            Ok(Fixed(saturating_f64_to_i64(billionths)))
        }
    }
}
