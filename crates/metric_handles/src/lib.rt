//! Handles that carry their pass: what the author of a service holds of a metric and calls, with no second argument for whose call it is.
//!
//! A recorder hands out a handle of a cell with a pass of that cell. The two together are one value here, which always fits:
//!
//!     let mut requests = CounterHandle::new(handle, pass);
//!     requests.increment(1);
#![tactic(auto)]

mod counter;
mod gauge;
mod histogram;

pub use counter::CounterHandle;
pub use gauge::GaugeHandle;
pub use histogram::HistogramHandle;
