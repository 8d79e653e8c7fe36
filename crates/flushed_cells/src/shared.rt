//! A counter and a gauge that are flushed, as those who keep and lend them see them.

use crate::counter::{CounterPass, DsdCounter};
use crate::counter_calls::{CounterCall, CounterChange};
use crate::gauge::{DsdGauge, GaugePass};
use crate::gauge_calls::{GaugeCall, GaugeChange};
use cell_lanes::{OwnedCell, SharedCell, StillCell};
use metrics_core::{Fixed, Memory};
use std::alloc::Global;
use std::sync::Wait;

impl SharedCell for DsdCounter {
    ghost use Rattle.flushed_cells.specs.Cells.{IsCounterPass, one_counter_pass};
    ghost use Rattle.flushed_cells.specs.Passes.{view_of};
    ghost use Rattle.flushed_cells.specs.Counters.{CounterStep, counter_start, counter_flush, answered};
    ghost use Rattle.flushed_cells.specs.Series.{StandsAs, only, Flushes, flush_found};

    type Pass = CounterPass;

    type Call = CounterChange;

    type Entry = CounterCall;

    type Reading = (u64, u64);

    ghost is_pass = { IsCounterPass };

    ghost is_one_fact = { one_counter_pass };

    ghost view = { view_of };

    ghost stands_as = { StandsAs answered };

    ghost read_as = { only counter_flush };

    ghost reads = { Flushes CounterStep counter_start counter_flush };

    ghost readings_stand = { flush_found CounterStep counter_start counter_flush };

    fn make<R: Wait>(
        &self,
        rt: &R,
        _alloc: Global,
        pass: &mut CounterPass,
        call: &CounterChange,
    ) -> Result<(), Memory> {
        self.turn(rt, &mut pass.seat, *call);
        Ok(())
    }

    fn read<R: Wait>(&self, rt: &R, pass: &mut CounterPass) -> (u64, u64) {
        self.flush(rt, pass)
    }

    fn split(&self, alloc: Global, pass: &mut CounterPass) -> Result<CounterPass, Memory> {
        DsdCounter::split(self, alloc, pass)
    }

    fn join(&self, pass: &mut CounterPass, child: CounterPass) {
        DsdCounter::join(self, pass, child);
    }

    fn settle<R: Wait>(&self, rt: &R, pass: &mut CounterPass) {
        DsdCounter::settle(self, rt, pass);
    }
}

impl StillCell for DsdCounter {
    ghost use Rattle.std.specs.Prelude.{◌≡◌};

    ghost is_still = { λ reading. reading ≡ (0, 0) };

    fn read_still<R: Wait>(&self, rt: &R, pass: &mut CounterPass) -> Option<(u64, u64)> {
        if self.flush_still(rt, pass) {
            Some((0, 0))
        } else {
            None
        }
    }
}

impl DsdCounter {
    ghost use Rattle.std.specs.Prelude.{◌≡◌, IfOk};
    ghost use Rattle.legal_history.specs.History.{Settled, first};

    /// A new counter as a state keeps it, with no calls.
    pub fn owned(alloc: Global) -> Result<OwnedCell<DsdCounter>, Memory>
        ensures { IfOk result (λ made. (made.root ≡ first) × Settled made.root) }
    {
        let (counter, root) = DsdCounter::new(alloc)?;
        OwnedCell::unlent(alloc, counter, root)
    }
}

impl SharedCell for DsdGauge {
    ghost use Rattle.flushed_cells.specs.Cells.{IsGaugePass, one_gauge_pass};
    ghost use Rattle.flushed_cells.specs.Passes.{view_of};
    ghost use Rattle.flushed_cells.specs.Gauges.{GaugeStep, gauge_start, gauge_flush, answered};
    ghost use Rattle.flushed_cells.specs.Series.{StandsAs, only, Flushes, flush_found};

    type Pass = GaugePass;

    type Call = GaugeChange;

    type Entry = GaugeCall;

    type Reading = (Fixed, u64);

    ghost is_pass = { IsGaugePass };

    ghost is_one_fact = { one_gauge_pass };

    ghost view = { view_of };

    ghost stands_as = { StandsAs answered };

    ghost read_as = { only gauge_flush };

    ghost reads = { Flushes GaugeStep gauge_start gauge_flush };

    ghost readings_stand = { flush_found GaugeStep gauge_start gauge_flush };

    fn make<R: Wait>(
        &self,
        rt: &R,
        _alloc: Global,
        pass: &mut GaugePass,
        call: &GaugeChange,
    ) -> Result<(), Memory> {
        self.turn(rt, &mut pass.seat, *call);
        Ok(())
    }

    fn read<R: Wait>(&self, rt: &R, pass: &mut GaugePass) -> (Fixed, u64) {
        self.flush(rt, pass)
    }

    fn split(&self, alloc: Global, pass: &mut GaugePass) -> Result<GaugePass, Memory> {
        DsdGauge::split(self, alloc, pass)
    }

    fn join(&self, pass: &mut GaugePass, child: GaugePass) {
        DsdGauge::join(self, pass, child);
    }

    fn settle<R: Wait>(&self, rt: &R, pass: &mut GaugePass) {
        DsdGauge::settle(self, rt, pass);
    }
}

impl DsdGauge {
    ghost use Rattle.std.specs.Prelude.{◌≡◌, IfOk};
    ghost use Rattle.legal_history.specs.History.{Settled, first};

    /// A new gauge as a state keeps it, with no calls.
    pub fn owned(alloc: Global) -> Result<OwnedCell<DsdGauge>, Memory>
        ensures { IfOk result (λ made. (made.root ≡ first) × Settled made.root) }
    {
        let (gauge, root) = DsdGauge::new(alloc)?;
        OwnedCell::unlent(alloc, gauge, root)
    }
}
