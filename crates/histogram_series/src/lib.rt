//! Histogram series as an exporter keeps them: the queue that takes samples from many threads, and the distribution that the
//! samples are drained into.
//!
//! A series, a pass for a caller, and a drain:
//!
//!     let mut series = HistogramSeries::new(alloc, distribution)?;
//!     let (queue, pass) = series.lend(alloc)?;
//!     series.drain(rt, alloc)?;
#![tactic(auto)]

pub mod laws;
mod series;

pub use series::HistogramSeries;
