//! From what was lent to a handle that carries its pass.

ghost use Rattle.std.specs.Prelude.{◌≡◌};

use crate::lent::{LentCounter, LentGauge, LentHistogram};
use metric_handles::{CounterHandle, GaugeHandle, HistogramHandle};
use metrics_core::Fixed;
use prom_exporter::Lent;
use sample_queue::{PromHistogram, SamplePass};
use series_cells::{CellPass, PromCounter, PromGauge};

/// What was lent of a series, and becomes a handle that carries its pass.
pub trait IntoHandle {
    /// The handle with its pass.
    type Handle;

    /// The pass is one of the handle's cell, as of all that a recorder hands out.
    ghost fits: { Self → Type 0 };

    /// The handle has the cell and the pass of what was lent.
    ghost carries: { Self → Self.Handle → Type 0 };

    /// The handle with its pass. What was lent can't be given back then.
    fn into_handle(self) -> Self::Handle
        requires { fits self }
        ensures { carries self result };
}

impl IntoHandle for Lent<metrics_facade::Counter<PromCounter>, CellPass> {
    type Handle = CounterHandle<PromCounter, CellPass>;

    ghost use Rattle.metrics_facade.specs.Handles.{Fits};
    ghost use Rattle.series_cells.specs.Pass.{IsCounterPass};

    ghost fits = { λ lent. Fits IsCounterPass lent.handle lent.pass };

    ghost carries = { λ lent handle. handle ≡ record { cell = lent.handle; pass = lent.pass } };

    fn into_handle(self) -> CounterHandle<PromCounter, CellPass> {
        let Lent {
            handle,
            pass,
            id: _,
        } = self;
        CounterHandle::new(handle, pass)
    }
}

impl IntoHandle for Lent<metrics_facade::Gauge<PromGauge>, CellPass> {
    type Handle = GaugeHandle<PromGauge, CellPass>;

    ghost use Rattle.metrics_facade.specs.Handles.{Fits};
    ghost use Rattle.series_cells.specs.Pass.{IsGaugePass};

    ghost fits = { λ lent. Fits IsGaugePass lent.handle lent.pass };

    ghost carries = { λ lent handle. handle ≡ record { cell = lent.handle; pass = lent.pass } };

    fn into_handle(self) -> GaugeHandle<PromGauge, CellPass> {
        let Lent {
            handle,
            pass,
            id: _,
        } = self;
        GaugeHandle::new(handle, pass)
    }
}

impl IntoHandle for Lent<metrics_facade::Histogram<PromHistogram>, SamplePass<(Fixed, u64)>> {
    type Handle = HistogramHandle<PromHistogram, SamplePass<(Fixed, u64)>>;

    ghost use Rattle.metrics_facade.specs.Handles.{Fits};
    ghost use Rattle.sample_queue.specs.Passes.{IsSamplePass};

    ghost fits = { λ lent. Fits IsSamplePass lent.handle lent.pass };

    ghost carries = { λ lent handle. handle ≡ record { cell = lent.handle; pass = lent.pass } };

    fn into_handle(self) -> HistogramHandle<PromHistogram, SamplePass<(Fixed, u64)>> {
        let Lent {
            handle,
            pass,
            id: _,
        } = self;
        HistogramHandle::new(handle, pass)
    }
}
