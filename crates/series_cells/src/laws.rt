//! Laws of the calls on counters and gauges.

ghost use Rattle.std.specs.Prelude.{◌<◌, ◌≤◌, ℕ};
ghost use Rattle.legal_history.specs.declared.history.View.{View};
ghost use Rattle.metrics_core.specs.Calls.{Call};
ghost use Rattle.metrics_core.specs.declared.calls.SeriesCall.{SeriesCall};
ghost use Rattle.series_cells.specs.declared.pass.CellPass.{CellPass};
ghost use Rattle.series_cells.specs.Pass.{view_of, known_of, Follows, ReadsUpdates};

/// A call that was made through the facade counts in what `updates` reads with the same pass afterwards.
pub fn calls_are_counted()
    ensures { (p q : CellPass) (call : Call) (n now : ℕ) (w : View SeriesCall) → Follows p call q
        → ReadsUpdates (view_of q) (known_of q) n w now → known_of p < now }
{}
