//! Laws of exporters at rest, each the contract of a function that does nothing: a round of lanes begins and ends with one, and
//! whatever else is done to an exporter leaves it at rest.

ghost use Rattle.metrics_core.specs.Keys.{KeyText};
ghost use Rattle.dsd_exporter.specs.Exporter.{Exporter};
ghost use Rattle.dsd_exporter.specs.Resting.{RestsForLanes, BeginsAtRest, NewSeriesRest, FlushRests};

/// An exporter at rest is what a round of lanes begins with, and what it ends with.
pub fn lanes_begin_and_end_at_rest()
    ensures { (exporter : Exporter) → RestsForLanes exporter }
{}

/// An exporter without series is at rest.
pub fn an_exporter_begins_at_rest()
    ensures { (exporter : Exporter) → BeginsAtRest exporter }
{}

/// A new series leaves an exporter at rest.
pub fn a_new_series_leaves_rest()
    ensures { (key : KeyText) (old new : Exporter) → NewSeriesRest key old new }
{}

/// A flush leaves an exporter at rest, also one that was refused memory.
pub fn a_flush_leaves_rest()
    ensures { (old new : Exporter) → FlushRests old new }
{}
