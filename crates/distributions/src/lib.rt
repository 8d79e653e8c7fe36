//! What a histogram series can be: a cumulative histogram, a rolling summary or a native histogram, and how a name gets its
//! kind.
//!
//! What a name's histogram is, and a sample with its moment:
//!
//!     let mut latencies = builder.get_distribution(alloc, "latency")?;
//!     latencies.record_samples(alloc, &[(value, now)])?;
#![tactic(auto)]

mod builder;
mod distribution;
mod rules;

pub use builder::DistributionBuilder;
pub use distribution::{Distribution, RecordSamplesFault};
