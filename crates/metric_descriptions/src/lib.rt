//! What is said of metrics: for each metric name a text and a unit, which readers in other threads see without a lock.
//!
//! A metric name that is described, and what is said of it once that is published:
//!
//!     let mut descriptions = Descriptions::new();
//!     descriptions.describe(rt, alloc, name, Some(Unit::Bytes), SharedString::const_str("bytes that came in"))?;
//!     descriptions.publish(rt)?;
//!     let said = descriptions.of(&name);
//!     descriptions.end(rt);
#![tactic(auto)]

mod descriptions;

pub use descriptions::{Described, DescriptionReader, Descriptions};
