//! A service run: its work in the thread that calls, and beside it scrapes that are answered, upkeep and flushes, each on a timer, until
//! the work has ended. A last flush comes behind all others.
//!
//! A closure of the service, with pages that four threads show and a flush each three seconds:
//!
//!     let scraped = Some(Scraped { listener: &listener, allowed: None, pages });
//!     let service = Service { scraped, upkeep: None, upkeep_step: step, flushes: Some(flush), flush_step: step };
//!     let ended = run_service(rt, alloc, service, || work(rt))?;
#![tactic(auto)]

mod errors;
mod run;
mod service;

pub use errors::ServiceError;
pub use run::run_service;
pub use service::{Ended, Flush, Report, Scraped, Service};
