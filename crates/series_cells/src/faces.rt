//! A counter and a gauge as those who make calls through handles see them.

use crate::counter::PromCounter;
use crate::gauge::PromGauge;
use crate::pass::CellPass;
use metrics_core::Fixed;
use metrics_facade::{CounterFn, GaugeFn};

impl CounterFn for PromCounter {
    type Pass = CellPass;

    ghost use Rattle.series_cells.specs.Pass.{IsCounterPass, Follows};

    ghost is_pass = { IsCounterPass };

    ghost may_follow = { λ _ before call after. Follows before call after };

    fn increment(&self, pass: &mut CellPass, value: u64) {
        PromCounter::increment(self, pass, value);
    }

    fn absolute(&self, pass: &mut CellPass, value: u64) {
        PromCounter::absolute(self, pass, value);
    }
}

impl GaugeFn for PromGauge {
    type Pass = CellPass;

    ghost use Rattle.series_cells.specs.Pass.{IsGaugePass, Follows};

    ghost is_pass = { IsGaugePass };

    ghost may_follow = { λ _ before call after. Follows before call after };

    fn increment(&self, pass: &mut CellPass, value: Fixed) {
        PromGauge::increment(self, pass, value);
    }

    fn decrement(&self, pass: &mut CellPass, value: Fixed) {
        PromGauge::decrement(self, pass, value);
    }

    fn set(&self, pass: &mut CellPass, value: Fixed) {
        PromGauge::set(self, pass, value);
    }
}
