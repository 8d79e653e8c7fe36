//! What follows from the clauses of the crates of cells, each proved by these clauses alone.

ghost use Rattle.std.specs.Prelude.{◌≡◌, ℕ, List};
ghost use mathlib.Core.Option.{some};
ghost use lib.ListN.{get_elem?};
ghost use Rattle.legal_history.specs.History.{calls};
ghost use Rattle.cell_lanes.specs.Lines.{LaneText};
ghost use Rattle.cell_lanes.specs.Lanes.{Finished, all_calls_on, none_later};
ghost use Rattle.cell_lanes.specs.Things.{Thing, root_of};
ghost use Rattle.metrics_core.specs.declared.calls.SeriesCall.{SeriesCall};
ghost use Rattle.series_cells.specs.declared.counter.PromCounter.{PromCounter};
ghost use Rattle.series_cells.specs.declared.gauge.PromGauge.{PromGauge};
ghost use Rattle.series_cells.specs.Series.{StandsAsCounter, StandsAsGauge, PlayedByCounter, PlayedByGauge, counted, gauged};

/// After a round that finished each counter holds what it held before, and then, in one order of lanes, all that they asked of it.
pub fn a_finished_round_is_counted()
    ensures { (lanes : List (LaneText SeriesCall)) (cs ds : List (Thing SeriesCall PromCounter))
        → Finished root_of StandsAsCounter lanes none_later cs ds
        → (j : ℕ) (c d : Thing SeriesCall PromCounter)
        → get_elem? cs j ≡ some c → get_elem? ds j ≡ some d
        → PlayedByCounter (all_calls_on j lanes) c.root (counted (calls d.root.seen)) }
{}

/// The same of each gauge.
pub fn a_finished_round_is_gauged()
    ensures { (lanes : List (LaneText SeriesCall)) (cs ds : List (Thing SeriesCall PromGauge))
        → Finished root_of StandsAsGauge lanes none_later cs ds
        → (j : ℕ) (c d : Thing SeriesCall PromGauge)
        → get_elem? cs j ≡ some c → get_elem? ds j ≡ some d
        → PlayedByGauge (all_calls_on j lanes) c.root (gauged (calls d.root.seen)) }
{}
