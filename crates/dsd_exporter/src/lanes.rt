//! The state as lanes see it: its counters, then its gauges, then its histograms, each in order of registration and each
//! lending passes.

ghost use Rattle.std.specs.Prelude.{◌≡◌, ◌∷◌, [], OnOk, OnErr};
ghost use Rattle.flushed_cells.specs.declared.counter_state.CounterState.{CounterState};
ghost use Rattle.flushed_cells.specs.declared.gauge_state.GaugeState.{GaugeState};
ghost use Rattle.flushed_cells.specs.Counters as counters;
ghost use Rattle.flushed_cells.specs.Gauges as gauges;
ghost use Rattle.sample_queue.specs.Series.{pushes};
ghost use Rattle.dsd_exporter.specs.CallSteps.{IsCounterCall, IsGaugeCall, IsRecord};
ghost use Rattle.dsd_exporter.specs.LanePasses.{counter_calls, gauge_calls, queue_calls};

use crate::state::State;
use cell_lanes::{Lenders, LentCell};
use flushed_cells::{CounterCall, CounterChange, DsdCounter, DsdGauge, GaugeCall, GaugeChange};
use metrics_core::{Fixed, GaugeValue, Memory, SeriesCall};
use sample_queue::{DsdHistogram, QueueCall, Sample};
use std::alloc::Global;
use std::sync::Wait;

/// A series that a lane has, with a pass of it.
#[derive(Drop)]
pub enum LanePass {
    /// A counter.
    Counter(LentCell<DsdCounter>),
    /// A gauge.
    Gauge(LentCell<DsdGauge>),
    /// A histogram.
    Histogram(LentCell<DsdHistogram>),
}

/// The cell of a series, of any kind. Contracts speak of it, and no value of it is made.
pub enum SeriesCell {
    /// A counter, once it was lent.
    Counter(Option<DsdCounter>),
    /// A gauge, once it was lent.
    Gauge(Option<DsdGauge>),
    /// A histogram.
    Histogram(DsdHistogram),
}

/// A call in the history of a series, of any kind. Contracts speak of it, and no value of it is made.
pub enum SeriesEntry {
    /// A call on a counter.
    Counter(CounterCall),
    /// A call on a gauge.
    Gauge(GaugeCall),
    /// A call on the queue of a histogram.
    Histogram(QueueCall<Fixed>),
}

/// What a call asks of a counter.
fn counter_change(call: &SeriesCall) -> CounterChange
    requires { IsCounterCall call.now }
    ensures { (state : CounterState)
        → counters.answered result state ∷ [] ≡ counter_calls call.now }
{
    match *call {
        SeriesCall::Increment(count) => CounterChange::Increment(count),
        SeriesCall::Absolute(total) => CounterChange::Absolute(total),
        SeriesCall::Add(_)
        | SeriesCall::Subtract(_)
        | SeriesCall::Set(_)
        | SeriesCall::Record { .. } => unreachable!(),
    }
}

/// What a call asks of a gauge.
fn gauge_change(call: &SeriesCall) -> GaugeChange
    requires { IsGaugeCall call.now }
    ensures { (state : GaugeState) → gauges.answered result state ∷ [] ≡ gauge_calls call.now }
{
    match *call {
        SeriesCall::Add(value) => GaugeChange::Update(GaugeValue::Increment(value)),
        SeriesCall::Subtract(value) => GaugeChange::Update(GaugeValue::Decrement(value)),
        SeriesCall::Set(value) => GaugeChange::Update(GaugeValue::Absolute(value)),
        SeriesCall::Increment(_) | SeriesCall::Absolute(_) | SeriesCall::Record { .. } => {
            unreachable!()
        }
    }
}

/// What a record pushes on the queue of a histogram: its value, as often as it says. Its moment is not kept.
fn sample(call: &SeriesCall) -> Sample<Fixed>
    requires { IsRecord call.now }
    ensures { pushes result ≡ queue_calls call.now }
{
    match *call {
        SeriesCall::Record {
            value,
            moment: _,
            count,
        } => Sample { item: value, count },
        SeriesCall::Increment(_)
        | SeriesCall::Absolute(_)
        | SeriesCall::Add(_)
        | SeriesCall::Subtract(_)
        | SeriesCall::Set(_) => unreachable!(),
    }
}

impl LanePass {
    ghost use Rattle.cell_lanes.specs.Calls.{Made};
    ghost use Rattle.dsd_exporter.specs.LanePasses.{pass_known, TakesCall, IsPassOf, StandsAsEntries};
    ghost use Rattle.dsd_exporter.specs.declared.lanes.SeriesCell.{SeriesCell};

    /// Makes a call of the series' kind.
    fn make<R: Wait>(&mut self, rt: &R, alloc: Global, call: &SeriesCall) -> Result<(), Memory>
        requires { (cell : SeriesCell) × IsPassOf cell self.old × TakesCall cell call.now }
        ensures made { OnOk result (Made (StandsAsEntries call.now) (pass_known self.old)
            (pass_known self.new)) }
        ensures refused { OnErr result (pass_known self.new ≡ pass_known self.old) }
        ensures cell { (cell : SeriesCell) → IsPassOf cell self.old → IsPassOf cell self.new }
    {
        match self {
            LanePass::Counter(counter) => counter.make(rt, alloc, &counter_change(call)),
            LanePass::Gauge(gauge) => gauge.make(rt, alloc, &gauge_change(call)),
            LanePass::Histogram(histogram) => histogram.make(rt, alloc, &sample(call)),
        }
    }
}

impl Lenders for State {
    ghost use Rattle.dsd_exporter.specs.LanePasses.{things_of, frame_of, pass_known, IsPassOf, Lasts, TakesCall, StandsAsEntries, lasts_on, lasts_then, owns_on, takes_on};

    type Frame = State;

    ghost things = { things_of };

    ghost frame = { frame_of };

    type Lent = LanePass;

    ghost knows = { pass_known };

    type Lasting = SeriesCell;

    ghost owns = { IsPassOf };

    type Call = SeriesCall;

    ghost takes = { TakesCall };

    ghost lasts = { Lasts };

    ghost lasts_on = { lasts_on };

    ghost lasts_then = { lasts_then };

    ghost owns_on = { owns_on };

    ghost takes_on = { takes_on };

    type Entry = SeriesEntry;

    ghost stands_as = { StandsAsEntries };

    fn lend(&mut self, alloc: Global, index: usize) -> Result<LanePass, Memory> {
        self.lend_to_lane(alloc, index)
    }

    fn make<R: Wait>(
        rt: &R,
        alloc: Global,
        lent: &mut LanePass,
        call: &SeriesCall,
    ) -> Result<(), Memory> {
        lent.make(rt, alloc, call)
    }

    fn take_back(&mut self, index: usize, lent: LanePass) {
        self.take_from_lane(index, lent);
    }

    fn settle<R: Wait>(&mut self, rt: &R, index: usize) {
        self.settle_one(rt, index);
    }
}
