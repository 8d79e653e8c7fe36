//! Both exporters, and what lanes have of them.

use cell_lanes::Lenders;
use dsd_exporter::State;
use metrics_core::{Memory, SeriesCall};
use prom_exporter::PrometheusState;
use std::alloc::Global;
use std::sync::Wait;

/// Both exporters. They can't be let go together: take them apart, and end the Prometheus exporter by its `end`.
pub struct Exporters {
    /// The Prometheus exporter.
    pub prometheus: PrometheusState,
    /// The DogStatsD exporter.
    pub dogstatsd: State,
}

/// What a lane asks for: a call on a series of one of the exporters.
#[derive(Clone, Copy, Debug, PartialEq, Eq)]
pub enum ExporterCall {
    /// A call on a series of the Prometheus exporter.
    Prometheus(SeriesCall),
    /// A call on a series of the DogStatsD exporter.
    DogStatsD(SeriesCall),
}

/// A series of one of the exporters that a lane has, with a pass of it.
#[derive(Drop)]
pub enum ExporterPass {
    /// A series of the Prometheus exporter.
    Prometheus(prom_exporter::LanePass),
    /// A series of the DogStatsD exporter.
    DogStatsD(dsd_exporter::LanePass),
}

/// The cell of a series of one of the exporters. Contracts speak of it, and no value of it is made.
pub enum ExporterCell {
    /// Of the Prometheus exporter.
    Prometheus(prom_exporter::SeriesCell),
    /// Of the DogStatsD exporter.
    DogStatsD(dsd_exporter::SeriesCell),
}

/// A call in the history of a series of one of the exporters. Contracts speak of it, and no value of it is made.
pub enum ExporterEntry {
    /// Of the Prometheus exporter.
    Prometheus(prom_exporter::SeriesEntry),
    /// Of the DogStatsD exporter.
    DogStatsD(dsd_exporter::SeriesEntry),
}

impl Lenders for Exporters {
    ghost use Rattle.exporter_lanes.specs.ExporterLanes.{things_of, frame_of, pass_known, IsPassOf, Lasts, TakesCall, StandsAsEntries, lasts_on, lasts_then, owns_on, takes_on};

    type Frame = Exporters;

    ghost things = { things_of };

    ghost frame = { frame_of };

    type Lent = ExporterPass;

    ghost knows = { pass_known };

    type Lasting = ExporterCell;

    ghost owns = { IsPassOf };

    type Call = ExporterCall;

    ghost takes = { TakesCall };

    ghost lasts = { Lasts };

    ghost lasts_on = { lasts_on };

    ghost lasts_then = { lasts_then };

    ghost owns_on = { owns_on };

    ghost takes_on = { takes_on };

    type Entry = ExporterEntry;

    ghost stands_as = { StandsAsEntries };

    fn lend(&mut self, alloc: Global, index: usize) -> Result<ExporterPass, Memory> {
        let first = self.dogstatsd.series_count();
        if index < first {
            let lent = self.dogstatsd.lend(alloc, index)?;
            Ok(ExporterPass::DogStatsD(lent))
        } else {
            let lent = self.prometheus.lend(alloc, index - first)?;
            Ok(ExporterPass::Prometheus(lent))
        }
    }

    fn make<R: Wait>(
        rt: &R,
        alloc: Global,
        lent: &mut ExporterPass,
        call: &ExporterCall,
    ) -> Result<(), Memory> {
        match lent {
            ExporterPass::Prometheus(lent) => match call {
                ExporterCall::Prometheus(call) => PrometheusState::make(rt, alloc, lent, call),
                ExporterCall::DogStatsD(_) => unreachable!(),
            },
            ExporterPass::DogStatsD(lent) => match call {
                ExporterCall::DogStatsD(call) => State::make(rt, alloc, lent, call),
                ExporterCall::Prometheus(_) => unreachable!(),
            },
        }
    }

    fn take_back(&mut self, index: usize, lent: ExporterPass) {
        match lent {
            ExporterPass::Prometheus(lent) => {
                let first = self.dogstatsd.series_count();
                self.prometheus.take_back(index - first, lent);
            }
            ExporterPass::DogStatsD(lent) => self.dogstatsd.take_back(index, lent),
        }
    }

    fn settle<R: Wait>(&mut self, rt: &R, index: usize) {
        let first = self.dogstatsd.series_count();
        if index < first {
            self.dogstatsd.settle(rt, index);
        } else {
            self.prometheus.settle(rt, index - first);
        }
    }
}
