//! The calls on a counter that is flushed.

/// A call in the history of a counter, with its answer.
pub enum CounterCall {
    /// An increment by this much.
    Increment(u64),
    /// An absolute value.
    Absolute(u64),
    /// A flush, which answered this delta and this number of updates.
    Flush(u64, u64),
}

/// What is asked of a counter.
#[derive(Clone, Copy, Debug, PartialEq, Eq, Drop)]
pub enum CounterChange {
    /// To add this much.
    Increment(u64),
    /// To count to this value.
    Absolute(u64),
    /// To hand out the delta and the updates, and begin anew.
    Flush,
}
