//! Laws of counters and gauges of one thread, and so of every history.

ghost use Rattle.flushed_cells.specs.Laws.{OneCounter, OneGauge, PendingInTotal, CounterUpdatesOnce, IncrementsOnce, GaugeUpdatesOnce};

/// The calls of a history determine what a counter holds after them.
pub fn one_counter_after_calls()
    ensures { OneCounter }
{}

/// The calls of a history determine what a gauge holds after them.
pub fn one_gauge_after_calls()
    ensures { OneGauge }
{}

/// After an absolute value, what is pending is at most the total: no rise of it wraps.
pub fn pending_is_in_the_total()
    ensures { PendingInTotal }
{}

/// Each update of a counter is in the answer of one flush, or pending.
pub fn counter_updates_are_flushed_once()
    ensures { CounterUpdatesOnce }
{}

/// Where no call is absolute, each increment is in the answer of one flush, or pending.
pub fn increments_are_flushed_once()
    ensures { IncrementsOnce }
{}

/// Each update of a gauge is in the answer of one flush, or pending.
pub fn gauge_updates_are_flushed_once()
    ensures { GaugeUpdatesOnce }
{}
