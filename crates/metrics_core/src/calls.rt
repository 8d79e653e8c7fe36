//! The calls that change a series.

use crate::Fixed;

/// One call on a series. Values of counters are plain counts, those of gauges and histograms are in billionths.
#[derive(Clone, Copy, Debug, PartialEq, Eq)]
pub enum SeriesCall {
    /// Adds to a counter, modulo 2^64.
    Increment(u64),
    /// Raises a counter to a total, where that is greater.
    Absolute(u64),
    /// Adds to a gauge; the sum wraps in 64 bits.
    Add(Fixed),
    /// Subtracts from a gauge; the difference wraps in 64 bits.
    Subtract(Fixed),
    /// Sets a gauge.
    Set(Fixed),
    /// Records a value of a histogram so many times; no time is no call.
    Record {
        /// The value.
        value: Fixed,
        /// When it was recorded, in nanoseconds.
        moment: u64,
        /// How often.
        count: u32,
    },
}
