//! Jobs that threads do beside each other with a thing that they share.
//!
//! What a thread needs of its own, such as a pass, stands in the job; what all threads read is borrowed by each:
//!
//!     let (one, other) = both_beside(rt, &recorder, first, second);
//!     let answers = all_beside(rt, &recorder, jobs)?;
#![tactic(auto)]

mod beside;
mod job;

pub use beside::{all_beside, both_beside};
pub use job::Job;
