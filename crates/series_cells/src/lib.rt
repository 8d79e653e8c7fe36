//! Counters and gauges that threads share, each with one legal history.
//!
//! A cell has two words in memory: its value, and the number of its updates. A caller has a pass of the cell, and an
//! update is two atomic steps, one on each word. So no call waits, and none but `new` and `split` takes memory. The calls of
//! all passes stand in one history (`legal_history`), and a read gives the value after a beginning of it that has all that the
//! pass had seen. A state keeps a cell, and lends it, as an `OwnedCell` of `cell_lanes`.
//!
//! A counter, and a call with its root pass:
//!
//!     let (requests, mut pass) = PromCounter::new(alloc)?;
//!     requests.increment(&mut pass, 1);
//!     let total = requests.load(&mut pass);
#![tactic(auto)]

mod counter;
mod faces;
mod gauge;
pub mod laws;
mod pass;
mod rounds;
mod rules;
mod shared;
mod views;

pub use counter::PromCounter;
pub use gauge::PromGauge;
pub use pass::CellPass;
pub use rounds::{run_counters, run_gauges};
