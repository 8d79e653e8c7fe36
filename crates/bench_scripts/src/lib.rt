//! The generated script, for runs that are measured: its settings, and its rounds, which are made one at a time.
//!
//! The first round:
//!
//!     let mut rounds = BenchRounds::new();
//!     let round = rounds.next_round(alloc)?;
#![tactic(auto)]

mod calls;
mod facts;
mod rounds;
mod settings;
mod setup;

pub use facts::{first_call, script_is_valid, settings_are_allowed};
pub use rounds::BenchRounds;
pub use settings::bench_settings;
