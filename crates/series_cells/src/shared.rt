//! A counter and a gauge as those who keep and lend them see them.

use crate::counter::PromCounter;
use crate::gauge::PromGauge;
use crate::pass::CellPass;
use cell_lanes::{CountedCell, OwnedCell, SharedCell, ValueCell};
use metrics_core::{Fixed, Memory, SeriesCall};
use std::alloc::Global;
use std::sync::Wait;

impl SharedCell for PromCounter {
    ghost use Rattle.cell_lanes.specs.Calls.{Shows};
    ghost use Rattle.series_cells.specs.Pass.{IsCounterPass, one_counter_pass, view_of};
    ghost use Rattle.series_cells.specs.Series.{StandsAsCounter, no_call, counted};
    ghost use Rattle.cell_lanes.proofs.Played.{shown_found};

    type Pass = CellPass;

    type Call = SeriesCall;

    type Entry = SeriesCall;

    type Reading = u64;

    ghost is_pass = { IsCounterPass };

    ghost is_one_fact = { one_counter_pass };

    ghost view = { view_of };

    ghost stands_as = { StandsAsCounter };

    ghost read_as = { no_call };

    ghost reads = { Shows counted };

    ghost readings_stand = { shown_found counted };

    fn make<R: Wait>(
        &self,
        _rt: &R,
        _alloc: Global,
        pass: &mut CellPass,
        call: &SeriesCall,
    ) -> Result<(), Memory> {
        match *call {
            SeriesCall::Increment(value) => self.increment(pass, value),
            SeriesCall::Absolute(value) => self.absolute(pass, value),
            SeriesCall::Add(_)
            | SeriesCall::Subtract(_)
            | SeriesCall::Set(_)
            | SeriesCall::Record { .. } => self.look(pass),
        }
        Ok(())
    }

    fn read<R: Wait>(&self, _rt: &R, pass: &mut CellPass) -> u64 {
        self.load(pass)
    }

    fn split(&self, alloc: Global, pass: &mut CellPass) -> Result<CellPass, Memory> {
        PromCounter::split(self, alloc, pass)
    }

    fn join(&self, pass: &mut CellPass, child: CellPass) {
        PromCounter::join(self, pass, child);
    }

    fn settle<R: Wait>(&self, _rt: &R, pass: &mut CellPass) {
        let _value = self.load(pass);
    }
}

impl ValueCell for PromCounter {
    ghost use Rattle.series_cells.specs.Series.{counted};

    ghost value_of = { counted };

    fn value(&self, pass: &mut CellPass) -> u64 {
        self.load(pass)
    }
}

impl CountedCell for PromCounter {
    fn updates(&self, pass: &mut CellPass) -> u64 {
        PromCounter::updates(self, pass)
    }
}

impl PromCounter {
    ghost use Rattle.std.specs.Prelude.{◌≡◌, [], IfOk};
    ghost use Rattle.legal_history.specs.History.{Settled, first};
    ghost use Rattle.cell_lanes.specs.Calls.{Made};
    ghost use Rattle.series_cells.specs.Pass.{IsCounterPass, view_of};

    /// Makes no call, and looks.
    fn look(&self, pass: &mut CellPass)
        requires { IsCounterPass self.now pass.old }
        ensures pass { IsCounterPass self.now pass.new }
        ensures none { Made (λ made. made ≡ []) (view_of pass.old) (view_of pass.new) }
    {
        let _value = self.load(pass);
    }

    /// A new counter as a state keeps it, at 0 with no calls.
    pub fn owned(alloc: Global) -> Result<OwnedCell<PromCounter>, Memory>
        ensures { IfOk result (λ made. (made.root ≡ first) × Settled made.root) }
    {
        let (counter, root) = PromCounter::new(alloc)?;
        OwnedCell::unlent(alloc, counter, root)
    }
}

impl SharedCell for PromGauge {
    ghost use Rattle.cell_lanes.specs.Calls.{Shows};
    ghost use Rattle.series_cells.specs.Pass.{IsGaugePass, one_gauge_pass, view_of};
    ghost use Rattle.series_cells.specs.Series.{StandsAsGauge, no_call, gauged};
    ghost use Rattle.cell_lanes.proofs.Played.{shown_found};

    type Pass = CellPass;

    type Call = SeriesCall;

    type Entry = SeriesCall;

    type Reading = Fixed;

    ghost is_pass = { IsGaugePass };

    ghost is_one_fact = { one_gauge_pass };

    ghost view = { view_of };

    ghost stands_as = { StandsAsGauge };

    ghost read_as = { no_call };

    ghost reads = { Shows gauged };

    ghost readings_stand = { shown_found gauged };

    fn make<R: Wait>(
        &self,
        _rt: &R,
        _alloc: Global,
        pass: &mut CellPass,
        call: &SeriesCall,
    ) -> Result<(), Memory> {
        match *call {
            SeriesCall::Add(value) => self.increment(pass, value),
            SeriesCall::Subtract(value) => self.decrement(pass, value),
            SeriesCall::Set(value) => self.set(pass, value),
            SeriesCall::Increment(_) | SeriesCall::Absolute(_) | SeriesCall::Record { .. } => {
                self.look(pass);
            }
        }
        Ok(())
    }

    fn read<R: Wait>(&self, _rt: &R, pass: &mut CellPass) -> Fixed {
        self.load(pass)
    }

    fn split(&self, alloc: Global, pass: &mut CellPass) -> Result<CellPass, Memory> {
        PromGauge::split(self, alloc, pass)
    }

    fn join(&self, pass: &mut CellPass, child: CellPass) {
        PromGauge::join(self, pass, child);
    }

    fn settle<R: Wait>(&self, _rt: &R, pass: &mut CellPass) {
        let _value = self.load(pass);
    }
}

impl ValueCell for PromGauge {
    ghost use Rattle.series_cells.specs.Series.{gauged};

    ghost value_of = { gauged };

    fn value(&self, pass: &mut CellPass) -> Fixed {
        self.load(pass)
    }
}

impl CountedCell for PromGauge {
    fn updates(&self, pass: &mut CellPass) -> u64 {
        PromGauge::updates(self, pass)
    }
}

impl PromGauge {
    ghost use Rattle.std.specs.Prelude.{◌≡◌, [], IfOk};
    ghost use Rattle.legal_history.specs.History.{Settled, first};
    ghost use Rattle.cell_lanes.specs.Calls.{Made};
    ghost use Rattle.series_cells.specs.Pass.{IsGaugePass, view_of};

    /// Makes no call, and looks.
    fn look(&self, pass: &mut CellPass)
        requires { IsGaugePass self.now pass.old }
        ensures pass { IsGaugePass self.now pass.new }
        ensures none { Made (λ made. made ≡ []) (view_of pass.old) (view_of pass.new) }
    {
        let _value = self.load(pass);
    }

    /// A new gauge as a state keeps it, at 0 with no calls.
    pub fn owned(alloc: Global) -> Result<OwnedCell<PromGauge>, Memory>
        ensures { IfOk result (λ made. (made.root ≡ first) × Settled made.root) }
    {
        let (gauge, root) = PromGauge::new(alloc)?;
        OwnedCell::unlent(alloc, gauge, root)
    }
}
