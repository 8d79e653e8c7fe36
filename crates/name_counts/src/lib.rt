//! How often something happened, by a kind of series and a name, in the order in which the pairs first happened.
//!
//! A name that is counted twice:
//!
//!     let mut counts = NameCounts::new(alloc, start);
//!     counts.add(MetricKind::Counter, "requests")?;
//!     counts.add(MetricKind::Counter, "requests")?;
#![tactic(auto)]

mod name_counts;
mod names;

pub use name_counts::NameCounts;
