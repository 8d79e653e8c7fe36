//! Registrations that threads make beside each other at a shared recorder.
//!
//! Two keys, each registered in a thread of its own by a pass that the root lends and takes back:
//!
//!     let (first, second) = register_beside(rt, alloc, &recorder, &mut root, kind, one, other)?;
#![tactic(auto)]

mod register;
mod registration;

pub use register::register_beside;
pub use registration::{KeyRegistration, Registered};
