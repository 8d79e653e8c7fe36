//! The state of a DogStatsD exporter, shared by threads that take turns. The registrations of all threads stand in one legal
//! history, and what a flush writes is that of the state that they made.
//!
//! A state and its root pass, a pass for another thread, a registration, and a flush:
//!
//!     let (state, mut root) = SharedState::new(alloc, HashStart::drawn(rt), configuration)?;
//!     let mut pass = state.split(&mut root);
//!     let id = state.register(rt, alloc, &mut pass, MetricKind::Counter, &key)?;
//!     state.write_flush(rt, alloc, &mut root, &mut flush_state, &mut writer, &mut telemetry, moment, &mut words)?;
//!
//! `SharedState` is the state, `StatePass` a caller's token for it, and the laws say what stands in each flush.
#![tactic(auto)]

mod entries;
mod laws;
mod state;

pub use entries::{BuiltWith, StateEntry};
pub use laws::{numbers_are_keys, series_are_registrations, settings_stay};
pub use state::{SharedState, StatePass};
