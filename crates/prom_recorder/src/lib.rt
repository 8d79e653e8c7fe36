//! The recorder of a Prometheus exporter: what a service registers and counts with, from any thread, and the handle by which its
//! pages are read. Recorder and handles stand on one shared recorder, at which calls take turns.
//!
//! A recorder that counts for the whole program, a counter, and a page:
//!
//!     let handle = PrometheusBuilder::new(alloc)?.install_recorder(alloc, &cell, &mut note)?;
//!     let mut requests = recorder.register_counter(rt, alloc, &key, &metadata)?.into_handle();
//!     requests.increment(1);
//!     let page = handle.render(rt, alloc, moment)?;
//!
//! Registering with a pass, whose clauses say what the history of the recorder has, and a page that shows it:
//!
//!     let (recorder, mut root) = PrometheusBuilder::new(alloc)?.build_recorder_seen(alloc)?;
//!     let mut pass = recorder.shared().split(&mut root);
//!     let mut requests = recorder.register_counter_seen(rt, alloc, &mut pass, &key)?.into_handle();
//!     let page = recorder.handle()?.shared().render(rt, alloc, &mut pass, moment)?;
//!     recorder.shared().join(&mut root, pass);
#![tactic(auto)]

mod build;
mod errors;
mod handing;
mod handle;
mod into_handle;
mod laws;
mod lent;
mod own_pass;
mod recorder;
mod shared;

pub use build::BuildRecorder;
pub use errors::InstallError;
pub use handle::PrometheusHandle;
pub use into_handle::IntoHandle;
pub use laws::equal_keys_are_one_series;
pub use lent::{LentCounter, LentGauge, LentHistogram};
pub use recorder::PrometheusRecorder;
