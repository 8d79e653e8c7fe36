//! Rolling summaries: the values of a sliding window of time, kept in buckets of a width.
//!
//! The values of the last minute, in three buckets of twenty seconds:
//!
//!     let mut summary = RollingSummary::with_defaults(alloc);
//!     summary.add(alloc, value, now, 1)?;
//!     let values = summary.snapshot(alloc, now)?;
#![tactic(auto)]

mod buckets;
mod laws;
mod summary;

pub use buckets::Bucket;
pub use laws::same_in_any_cuts;
pub use summary::RollingSummary;
