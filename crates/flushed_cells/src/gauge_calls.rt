//! The calls on a gauge that is flushed.

use metrics_core::{Fixed, GaugeValue};

/// A call in the history of a gauge, with its answer.
pub enum GaugeCall {
    /// A change of the value.
    Update(GaugeValue),
    /// A flush, which answered this value and this number of updates.
    Flush(Fixed, u64),
}

/// What is asked of a gauge.
#[derive(Clone, Copy, Debug, PartialEq, Eq, Drop)]
pub enum GaugeChange {
    /// To change the value.
    Update(GaugeValue),
    /// To hand out the value and the updates, and count the updates anew.
    Flush,
}
