//! A service with the exporters of its metrics: a closure of the service runs while eight threads answer scrapes from the recorder, one
//! drains its queues, and one flushes to the agent. When the closure has ended so have they, behind a last flush.
//!
//! Both exporters, each from its builder, and the service's own work:
//!
//!     let (recorder, pages) = open_pages(rt, alloc, builder)?;
//!     let link = SocketLink::new(rt).with_write_timeout(agent_builder.get_write_timeout());
//!     let (sender, flushes) = open_flushes(alloc, agent_builder, link)?;
//!     let ended = run_exporters(rt, alloc, Some(pages), Some(flushes), || work(rt, &recorder))?;
#![tactic(auto)]

mod errors;
mod flushes;
mod opening;
mod pages;
mod run;
mod upkeep;

pub use errors::OpenError;
pub use flushes::{FlushTally, ForwarderFlushes};
pub use opening::{FlushExporter, PageExporter, open_flushes, open_pages};
pub use pages::RecorderPages;
pub use run::run_exporters;
pub use upkeep::RecorderUpkeep;
