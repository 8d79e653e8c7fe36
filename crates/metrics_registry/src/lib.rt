//! What both exporters keep of series and of distributions: the live series of a state, when they fall idle, and bags,
//! cumulative histograms and quantiles of values.
//!
//! The id of a live series, and the middle of a bag of values:
//!
//!     let id = registry.find_counter(&key);
//!     let middle = bag.quantile(&half);
#![tactic(auto)]

mod bag;
mod chunks;
mod columns;
mod cumulative;
mod key_list;
mod key_runs;
mod laws;
mod numbered_keys;
mod quantiles;
mod recency;
mod registry;
mod reservoir;

pub use bag::Bag;
pub use columns::SeriesIter;
pub use cumulative::CumulativeHistogram;
pub use laws::same_in_any_cuts;
pub use quantiles::{Quantile, parse_quantiles};
pub use recency::{MetricKindMask, Recency};
pub use registry::Registry;
pub use reservoir::Reservoir;
