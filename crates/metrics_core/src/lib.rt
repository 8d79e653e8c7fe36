//! The base of every crate of the project: what meets the outside (sources of bytes and sinks for them), the keys,
//! kinds and numbers of series, the calls that change them, and units.
//!
//! A key, as it names a series:
//!
//!     let name = KeyName::from_const_str("requests");
//!     let key = Key::from_parts(name, labels);
#![tactic(auto)]

mod adapters;
mod calls;
mod devices;
mod failing_calls;
mod from_numbers;
mod gauge_values;
mod hashes;
mod into_fixed;
mod into_labels;
mod key_hasher;
mod keys;
mod kinds;
mod labels;
mod levels;
mod memory;
mod metadata;
mod numbers;
mod printed_keys;
mod sinks;
mod slices;
mod sources;
mod texts;
mod units;
mod words;

pub use adapters::{Reading, Writing};
pub use calls::SeriesCall;
pub use devices::{ByteSource, Discard, MemorySink, MemorySource};
pub use failing_calls::FailingCalls;
pub use from_numbers::ValueFault;
pub use gauge_values::GaugeValue;
pub use into_fixed::IntoFixed;
pub use into_labels::IntoLabels;
pub use key_hasher::KeyHasher;
pub use keys::{Key, KeyName};
pub use kinds::{MetricKind, SeriesId};
pub use labels::Label;
pub use levels::{Level, LevelFault};
pub use memory::Memory;
pub use metadata::Metadata;
pub use net_addresses::{Network, read_ip, read_socket};
pub use numbers::{BILLIONTHS, Fixed};
pub use sinks::{Sink, write_whole};
pub use slices::CowSlice;
pub use sources::{Failed, Source};
pub use texts::{CowStr, SharedString};
pub use units::Unit;
pub use words::{Lcg, Words};
