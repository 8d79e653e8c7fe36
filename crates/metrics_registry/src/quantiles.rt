//! Quantiles, as numbers from 0 to 1.

ghost use Rattle.std.specs.Prelude.{◌≡◌, ◌≤◌, pos, map, IfOk};
ghost use Rattle.metrics_core.specs.Numbers.{one};
ghost use Rattle.metrics_core.specs.Fixed.{of_billionths};
ghost use Rattle.metrics_registry.specs.Quantiles.{clamped};

use metrics_core::{BILLIONTHS, Fixed, Memory};
use std::alloc::Global;
use std::marker::Model;

/// A quantile from 0 to 1. A contract sees it as its number of billionths.
#[derive(Clone, Copy, Debug, PartialEq, Eq)]
pub struct Quantile {
    billionths: u32,
}

impl Model for Quantile {
    ghost use Rattle.std.specs.Prelude.{ℕ, ◌≤◌};
    ghost use Rattle.metrics_core.specs.Numbers.{one};

    ghost Value = { ℕ };

    ghost view = { λ quantile. quantile.billionths };

    ghost invariant = { λ quantile. quantile.billionths ≤ one };

    ghost inverse = { λ billionths. record { billionths = billionths } };
}

impl Quantile {
    /// The quantile of a value: 0 below 0, and 1 above 1.
    pub fn new(value: Fixed) -> Quantile
        ensures { result ≡ clamped value.0 }
    {
        let billionths = if value.0 <= 0 {
            0
        } else if value.0 >= i64::from(BILLIONTHS) {
            BILLIONTHS
        } else {
            value.0 as u32
        };
        Quantile { billionths }
    }

    /// The quantile as a value.
    pub fn value(&self) -> Fixed
        ensures { result ≡ of_billionths (pos self.now) }
    {
        Fixed(i64::from(self.billionths))
    }

    /// Its number of billionths.
    pub(crate) fn billionths(&self) -> u32
        ensures billionths { result ≡ self.now }
        ensures at_most_one { result ≤ one }
    {
        self.billionths
    }
}

/// The quantiles of values, in their order.
pub fn parse_quantiles(alloc: Global, values: &[Fixed]) -> Result<Vec<Quantile>, Memory>
    ensures { IfOk result (λ quantiles. quantiles.items ≡ map (λ value. clamped value.0) values.now) }
{
    Ok(
        values
            .iter()
            .map(|value| Quantile::new(*value))
            .collect(alloc)?,
    )
}
