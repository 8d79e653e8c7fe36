//! Laws of the series of an exporter under their indices, and of rounds of lanes over them, each the contract of a function that does nothing.

ghost use Rattle.std.specs.Prelude.{List};
ghost use Rattle.cell_lanes.specs.Lines.{LaneText};
ghost use Rattle.metrics_core.specs.declared.calls.SeriesCall.{SeriesCall};
ghost use Rattle.metrics_registry.specs.Live.{IsNumbered};
ghost use Rattle.dsd_exporter.specs.Exporter.{Exporter};
ghost use Rattle.dsd_exporter.specs.LaneIndices.{HaveIndices, IsOfOneKind, HaveOneIndex};
ghost use Rattle.dsd_exporter.specs.LaneRounds.{IsRound, LeavesCounters, LeavesGauges, LeavesHistograms};

/// Each series has the index of its place: counters first, then gauges, then histograms.
pub fn series_have_their_indices()
    ensures { (exporter : Exporter) → HaveIndices exporter }
{}

/// What has an index is a counter, a gauge or a histogram, at the place that the index tells.
pub fn an_index_is_of_one_kind()
    ensures { (exporter : Exporter) → IsOfOneKind exporter }
{}

/// No id has two indices.
pub fn an_id_has_one_index()
    ensures { (exporter : Exporter) → IsNumbered exporter.series → HaveOneIndex exporter }
{}

/// After a round each counter of the sequential state is what it was after the calls of all lanes on it, in one order in which
/// each lane's calls stand as the lane has them.
pub fn a_round_leaves_the_state_of_counters()
    ensures { (lanes : List (LaneText SeriesCall)) (old new : Exporter) → IsRound lanes old new
        → LeavesCounters lanes old new }
{}

/// The same of each gauge.
pub fn a_round_leaves_the_state_of_gauges()
    ensures { (lanes : List (LaneText SeriesCall)) (old new : Exporter) → IsRound lanes old new
        → LeavesGauges lanes old new }
{}

/// The same of each histogram, whose samples are those that wait to be sent. A record of no sample is none.
pub fn a_round_leaves_the_state_of_histograms()
    ensures { (lanes : List (LaneText SeriesCall)) (old new : Exporter) → IsRound lanes old new
        → LeavesHistograms lanes old new }
{}
