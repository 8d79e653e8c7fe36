//! Work for each element of a slice, side by side, in threads that the caller starts itself.
//!
//! A call for each of four jobs, the last of them in this thread:
//!
//!     for_each_beside(rt, jobs, &|place, job| job.run(place));
#![tactic(auto)]

mod each;

pub use each::for_each_beside;
