//! A receiver of payloads of DogStatsD and StatsD: their lines become series and calls of a Prometheus exporter, whose pages show them.
//!
//! A receiver, and a payload of two lines:
//!
//!     let mut receiver = Receiver::new(alloc, PrometheusBuilder::new(alloc)?.build_state(alloc)?);
//!     let applied = receiver.apply_payload(rt, alloc, Dialect::DogStatsd, b"hits:1|c\nload:0.5|g\n", moment)?;
#![tactic(auto)]

mod calls;
mod gauge_changes;
mod lines;
mod payloads;
mod receiver;
mod streams;

pub use lines::Stop;
pub use receiver::{Applied, ReceiveFault, Receiver};
pub use streams::{Received, StreamFault, receive};
