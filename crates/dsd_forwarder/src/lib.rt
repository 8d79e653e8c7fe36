//! What a service sends its metrics to a DogStatsD agent with: a recorder, which threads register series at and count through,
//! and a forwarder, which sends what was counted. Both are of one exporter's state, which they share in turns.
//!
//! A recorder of the whole program, a counter of it, and a flush that is sent:
//!
//!     let mut forwarder = DogStatsDBuilder::new(alloc)?.install(alloc, &cell, &mut note)?;
//!     let mut requests = HeldCounter::new(recorder.register_counter(rt, alloc, &key, &metadata)?);
//!     requests.increment(rt, 1);
//!     let report = forwarder.run_once(rt, alloc, moment, &mut words, &mut link)?;
//!
//! `DogStatsDRecorder` is the recorder, `Forwarder` the forwarder, `BuildForwarder` makes both of a builder's settings, `HeldCounter`,
//! `HeldGauge` and `HeldHistogram` are what a thread counts with, and `Telemetry` is what the exporter counts of its own work.
#![tactic(auto)]

mod building;
mod configuration;
mod forwarder;
mod held;
mod held_pass;
mod own_counters;
mod recorder;
mod registering;
mod telemetry;

pub use building::BuildForwarder;
pub use configuration::ForwarderConfiguration;
pub use forwarder::Forwarder;
pub use held::{HeldCounter, HeldGauge, HeldHistogram};
pub use own_counters::{OWN_COUNTERS, OwnCounter};
pub use recorder::DogStatsDRecorder;
pub use telemetry::{OwnCount, Telemetry};
