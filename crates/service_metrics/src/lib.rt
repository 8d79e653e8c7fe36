//! The metrics of a service as its author calls them: one value that has the runtime, the allocator and the recorders of both exporters, and
//! handles of which each exporter hears every call. Moments and spans of time come from the system's clock.
//!
//! A counter and a histogram, in the middle of a service:
//!
//!     let metrics = Metrics::new(rt, alloc, Some(&recorder), Some(&sender));
//!     let mut requests = metrics.counter("requests_total", &[("path", "/")])?;
//!     let mut seconds = metrics.histogram("request_seconds", &[])?;
//!     let started = seconds.start()?;
//!     requests.increment(1);
//!     seconds.stop(started)?;
#![tactic(auto)]

mod counter;
mod faults;
mod gauge;
mod histogram;
mod metrics;

pub use counter::ServiceCounter;
pub use faults::RecordError;
pub use gauge::ServiceGauge;
pub use histogram::ServiceHistogram;
pub use metrics::Metrics;
