//! Loops that run beside the work of a service, and end with it.
//!
//! A closure of the service, with loops in threads of their own until it has ended:
//!
//!     let stop = Stop::new();
//!     let (lanes, out) = run_beside(rt, &stop, Lanes { pool, upkeep, flushes }, || serve_requests(rt));
#![tactic(auto)]

mod beside;
mod jobs;
mod lanes;
mod stop;
mod until;

pub use beside::{Lanes, run_beside};
pub use jobs::{Job, run_until};
pub use lanes::{Lane, Looped};
pub use stop::Stop;
pub use until::{Every, Times, Until, UntilStop};
