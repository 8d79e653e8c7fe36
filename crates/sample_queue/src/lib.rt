//! Queues of samples that threads share, and the histograms over them.
//!
//! A queue gives its entries first in first out. A caller has a pass of the queue, and the pushes and pops of all passes stand
//! in one history (`legal_history`), in which each pop answers what a queue of one thread answers there. So what was given out,
//! over all passes, is a beginning of what was pushed, each entry once (`laws::first_in_first_out`). A state keeps a queue, and
//! lends it, as an `OwnedCell` of `cell_lanes`.
//!
//! A queue, a sample that stands twice, and the entry in front:
//!
//!     let (queue, mut pass) = SampleQueue::new(alloc)?;
//!     queue.push(rt, alloc, &mut pass, sample, 2)?;
//!     let entry = queue.next(rt, &mut pass);
#![tactic(auto)]

mod calls;
mod histograms;
pub mod laws;
mod pass;
mod queue;
mod rounds;
mod rule;
mod series;

pub use calls::{QueueCall, SampleEntry};
pub use histograms::{DsdHistogram, PromHistogram, Recorded};
pub use pass::SamplePass;
pub use queue::SampleQueue;
pub use rounds::run_queues;
pub use series::Sample;
