//! Native histograms: buckets whose bounds are powers of a factor, merged two by two where there would be too many.
//!
//! A histogram of factor 2 with at most 160 buckets, and one value seen twice:
//!
//!     let mut sizes = NativeHistogram::new(alloc, config);
//!     sizes.observe(alloc, value, 2)?;
#![tactic(auto)]

mod buckets;
mod config;
mod histogram;
mod laws;

pub use config::NativeHistogramConfig;
pub use histogram::NativeHistogram;
pub use laws::same_in_any_cuts;
