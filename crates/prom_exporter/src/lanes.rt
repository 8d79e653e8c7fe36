//! The exporter as lanes see it: its counters, then its gauges, then its histograms, each in order of registration and each
//! lending passes.

ghost use Rattle.std.specs.Prelude.{◌≡◌, OnOk, OnErr};

use crate::state::PrometheusState;
use cell_lanes::{Lenders, LentCell};
use metrics_core::{Fixed, Memory, SeriesCall};
use sample_queue::{PromHistogram, QueueCall, Sample};
use series_cells::{PromCounter, PromGauge};
use std::alloc::Global;
use std::sync::Wait;

/// A series that a lane has, with a pass of it.
#[derive(Drop)]
pub enum LanePass {
    /// A counter.
    Counter(LentCell<PromCounter>),
    /// A gauge.
    Gauge(LentCell<PromGauge>),
    /// A histogram.
    Histogram(LentCell<PromHistogram>),
}

/// The cell of a series, of any kind. Contracts speak of it, and no value of it is made.
pub enum SeriesCell {
    /// A counter, once it was lent.
    Counter(Option<PromCounter>),
    /// A gauge, once it was lent.
    Gauge(Option<PromGauge>),
    /// A histogram.
    Histogram(PromHistogram),
}

/// A call in the history of a series, of any kind. Contracts speak of it, and no value of it is made.
pub enum SeriesEntry {
    /// A call on a counter or a gauge.
    Value(SeriesCall),
    /// A call on the queue of a histogram.
    Queue(QueueCall<(Fixed, u64)>),
}

impl LanePass {
    ghost use Rattle.prom_exporter.specs.LanePasses.{pass_known, TakesCall, IsPassOf, StandsAsEntries};
    ghost use Rattle.cell_lanes.specs.Calls.{Made};
    ghost use Rattle.prom_exporter.specs.declared.lanes.SeriesCell.{SeriesCell};

    /// Makes a call of the series' kind.
    fn make<R: Wait>(&mut self, rt: &R, alloc: Global, call: &SeriesCall) -> Result<(), Memory>
        requires { (cell : SeriesCell) × IsPassOf cell self.old × TakesCall cell call.now }
        ensures made { OnOk result (Made (StandsAsEntries call.now) (pass_known self.old)
            (pass_known self.new)) }
        ensures refused { OnErr result (pass_known self.new ≡ pass_known self.old) }
        ensures cell { (cell : SeriesCell) → IsPassOf cell self.old → IsPassOf cell self.new }
    {
        match self {
            LanePass::Counter(counter) => counter.make(rt, alloc, call),
            LanePass::Gauge(gauge) => gauge.make(rt, alloc, call),
            LanePass::Histogram(histogram) => histogram.make(rt, alloc, &Sample::of_call(call)),
        }
    }
}

impl Lenders for PrometheusState {
    ghost use Rattle.prom_exporter.specs.LanePasses.{things_of, frame_of, pass_known, IsPassOf, Lasts, TakesCall, StandsAsEntries, lasts_on, lasts_then, owns_on, takes_on};

    type Frame = PrometheusState;

    ghost things = { things_of };

    ghost frame = { frame_of };

    type Lent = LanePass;

    ghost knows = { pass_known };

    type Lasting = SeriesCell;

    ghost owns = { IsPassOf };

    type Call = SeriesCall;

    ghost takes = { TakesCall };

    ghost lasts = { Lasts };

    ghost lasts_on = { lasts_on };

    ghost lasts_then = { lasts_then };

    ghost owns_on = { owns_on };

    ghost takes_on = { takes_on };

    type Entry = SeriesEntry;

    ghost stands_as = { StandsAsEntries };

    fn lend(&mut self, alloc: Global, index: usize) -> Result<LanePass, Memory> {
        self.lend_to_lane(alloc, index)
    }

    fn make<R: Wait>(
        rt: &R,
        alloc: Global,
        lent: &mut LanePass,
        call: &SeriesCall,
    ) -> Result<(), Memory> {
        lent.make(rt, alloc, call)
    }

    fn take_back(&mut self, index: usize, lent: LanePass) {
        self.take_from_lane(index, lent);
    }

    fn settle<R: Wait>(&mut self, rt: &R, index: usize) {
        self.read_one(rt, index);
    }
}
