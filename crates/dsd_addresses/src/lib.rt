//! Where DogStatsD payloads are sent, which limits of bytes a payload may have there, and why an exporter is not built.
//!
//! An address, and whether it allows a limit:
//!
//!     let agent = RemoteAddr::from_text(alloc, "127.0.0.1:8125")?;
//!     let fault = limit_fault(65_528, &agent);
#![tactic(auto)]

mod faults;
mod limits;
mod remote_addr;

pub use faults::{BuildError, LimitFault};
pub use limits::limit_fault;
pub use remote_addr::{RemoteAddr, remote_texts_have_one_reading};
