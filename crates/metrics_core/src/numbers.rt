//! Values of gauges and histograms.

/// How many billionths one is.
pub const BILLIONTHS: u32 = 1_000_000_000;

/// A value, as a whole number of billionths: 2.5 is `Fixed(2_500_000_000)`. The range is from about -9.2 to about 9.2
/// thousand million.
#[derive(Clone, Copy, Debug, Default, PartialEq, Eq, PartialOrd, Ord, Hash)]
pub struct Fixed(pub i64);
