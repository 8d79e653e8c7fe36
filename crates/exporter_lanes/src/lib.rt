//! Both exporters as one thing that lends passes of its series to lanes: the series of the DogStatsD exporter come first, each
//! under the index that it has there, and those of the Prometheus exporter behind them.
//!
//! A round of lanes over both, whose calls are each for one of them:
//!
//!     let mut exporters = Exporters { prometheus, dogstatsd };
//!     let call = ExporterCall::DogStatsD(SeriesCall::Increment(3));
//!     run_lanes(rt, alloc, &NoHook, &mut exporters, &lanes)?;
//!     let Exporters { prometheus, dogstatsd } = exporters;
#![tactic(auto)]

mod exporters;
mod laws;

pub use exporters::{ExporterCall, ExporterCell, ExporterEntry, ExporterPass, Exporters};
pub use laws::{a_round_over_both_is_one_over_each, both_rest};
