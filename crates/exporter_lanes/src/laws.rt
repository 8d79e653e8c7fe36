//! Laws of both exporters as lanes see them, each the contract of a function that does nothing.

ghost use Rattle.std.specs.Prelude.{List};
ghost use Rattle.cell_lanes.specs.Lines.{LaneText};
ghost use Rattle.exporter_lanes.specs.declared.exporters.Exporters.{Exporters};
ghost use Rattle.exporter_lanes.specs.declared.exporters.ExporterCall.{ExporterCall};
ghost use Rattle.exporter_lanes.specs.ExporterLanes.{RestTogether};
ghost use Rattle.exporter_lanes.specs.BothRounds.{IsRound, IsRoundOverEach};

/// After a round over both exporters each series of either has grown by the calls of all lanes on it, in one order in which each
/// lane's calls stand as the lane has them. Each of these calls is one that the series takes, and nothing else of either exporter
/// changed.
pub fn a_round_over_both_is_one_over_each()
    ensures { (lanes : List (LaneText ExporterCall)) (old new : Exporters) → IsRound lanes old new
        → IsRoundOverEach lanes old new }
{}

/// Both exporters together are at rest exactly where each of them is.
pub fn both_rest()
    ensures { (exporters : Exporters) → RestTogether exporters }
{}
