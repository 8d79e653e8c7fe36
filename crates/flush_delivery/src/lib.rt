//! What one exporter flushes, the other takes: a flush of DogStatsD payloads is applied to a receiver.
//!
//! A flush that is delivered:
//!
//!     let applied = deliver(rt, alloc, &mut state, &mut marks, &mut writer, &mut update, moment, &mut words, &mut receiver)?;
#![tactic(auto)]

mod delivery;

pub use delivery::deliver;
