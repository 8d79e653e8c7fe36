//! Counters and gauges that threads share and that are flushed.
//!
//! A cell holds its whole state, and each call is one exchange of it: an update, or a flush, which answers what is pending and
//! how many updates there were, both of one point. A call may try again where another came between, so it takes the
//! runtime. A caller has a pass of the cell. The calls of all passes, flushes with their answers, stand in one history
//! (`legal_history`), in which each flush answers what a cell of one thread answers there (`specs/Counters.antt`,
//! `specs/Gauges.antt`). A state keeps a cell, and lends it, as an `OwnedCell` of `cell_lanes`.
//!
//! A counter, a call, and what is then to be sent:
//!
//!     let (requests, mut pass) = DsdCounter::new(alloc)?;
//!     requests.increment(rt, &mut pass, 1);
//!     let (delta, updates) = requests.flush(rt, &mut pass);
#![tactic(auto)]

mod counter;
mod counter_calls;
mod counter_state;
mod gauge;
mod gauge_calls;
mod gauge_state;
pub mod laws;
mod pass;
mod rounds;
mod rule;
mod shared;

pub use counter::{CounterPass, DsdCounter};
pub use counter_calls::{CounterCall, CounterChange};
pub use counter_state::{CounterMode, CounterState};
pub use gauge::{DsdGauge, GaugePass};
pub use gauge_calls::{GaugeCall, GaugeChange};
pub use gauge_state::GaugeState;
pub use pass::DsdPass;
pub use rounds::{run_counters, run_gauges};
