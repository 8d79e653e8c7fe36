//! Laws of the series of an exporter under their indices, and of rounds of lanes over them, each the contract of a function that does nothing.

ghost use Rattle.std.specs.Prelude.{List};
ghost use Rattle.cell_lanes.specs.Lines.{LaneText};
ghost use Rattle.metrics_core.specs.declared.calls.SeriesCall.{SeriesCall};
ghost use Rattle.prom_exporter.specs.Exporter.{Exporter};
ghost use Rattle.metrics_registry.specs.Live.{IsNumbered};
ghost use Rattle.prom_exporter.specs.LaneIndices.{HaveIndices, IsOfOneKind, HaveOneIndex};
ghost use Rattle.prom_exporter.specs.LaneRounds.{IsRound, LeavesValues, LeavesRecords};

/// Each series has the index of its place: counters first, then gauges, then histograms.
pub fn series_have_their_indices()
    ensures { (exporter : Exporter) → HaveIndices exporter }
{}

/// What has an index is a counter, a gauge or a histogram, at the place that the index tells.
pub fn an_index_is_of_one_kind()
    ensures { (exporter : Exporter) → IsOfOneKind exporter }
{}

/// No id has two indices.
pub fn an_id_has_one_index()
    ensures { (exporter : Exporter) → IsNumbered exporter.series → HaveOneIndex exporter }
{}

/// After a round the history of each counter and of each gauge has grown by the calls of all lanes on it, in one order in which
/// each lane's calls stand as the lane has them.
pub fn a_round_leaves_the_calls_of_a_value()
    ensures { (lanes : List (LaneText SeriesCall)) (old new : Exporter) → IsRound lanes old new
        → LeavesValues lanes old new }
{}

/// After a round all calls that the exporter knows of a histogram have grown by the records of all lanes on it, in one order in
/// which each lane's records stand as the lane has them. A record of no sample is none.
pub fn a_round_leaves_the_pushes_of_a_histogram()
    ensures { (lanes : List (LaneText SeriesCall)) (old new : Exporter) → IsRound lanes old new
        → LeavesRecords lanes old new }
{}
