//! What a value of a line does to its gauge.

ghost use Rattle.dsd_receiver.specs.Passes.{IsGaugeHeld};
ghost use Rattle.series_cells.specs.Pass.{Follows};

use dsd_lines::GaugeStep;
use metrics_core::Fixed;
use metrics_facade as facade;
use series_cells::{CellPass, PromGauge};

/// A change of a gauge.
pub(crate) trait GaugeChange {
    ghost use Rattle.metrics_core.specs.Calls.{Call};

    /// The call that it is.
    ghost call: { Self → Call };

    /// Makes the change.
    fn make(&self, gauge: &facade::Gauge<PromGauge>, pass: &mut CellPass)
        requires held { IsGaugeHeld gauge.now pass.old }
        ensures held { IsGaugeHeld gauge.now pass.new }
        ensures made { Follows pass.old (call self.now) pass.new };
}

/// A value of DogStatsD sets the gauge.
impl GaugeChange for Fixed {
    ghost use Rattle.metrics_core.specs.Calls.{Set};

    ghost call = { λ value. Set value.0 };

    fn make(&self, gauge: &facade::Gauge<PromGauge>, pass: &mut CellPass) {
        let _set = gauge.set(pass, *self);
    }
}

/// A value of StatsD sets the gauge, or moves it.
impl GaugeChange for GaugeStep {
    ghost use Rattle.dsd_receiver.specs.Received.{call_of_step};
    ghost use Rattle.dsd_lines.specs.Texts.{step_text};

    ghost call = { λ step. call_of_step (step_text step) };

    fn make(&self, gauge: &facade::Gauge<PromGauge>, pass: &mut CellPass) {
        match *self {
            GaugeStep::SetTo(value) => {
                let _set = gauge.set(pass, value);
            }
            GaugeStep::MoveBy(value) => {
                let _moved = gauge.increment(pass, value);
            }
        }
    }
}
