//! The Prometheus exporter: its builder and its state, which registers series, takes calls and writes pages.
//!
//! An exporter, a series, and a page:
//!
//!     let mut exporter = PrometheusBuilder::new(alloc)?.build_state(alloc)?;
//!     let id = exporter.register_counter(alloc, &key)?;
//!     exporter.render_to_write(rt, alloc, moment, &mut sink)?;
#![tactic(auto)]

mod allowed;
mod body;
mod builder;
mod cells;
mod descriptions;
mod destination;
mod distribution_pages;
mod errors;
mod histograms;
mod indices;
mod label_sets;
mod lane_laws;
mod lanes;
mod laws;
mod lent;
mod naming;
mod natives;
mod overflow;
mod pages;
mod printed;
mod redirections;
mod rows;
mod sampled;
mod settings;
mod state;

pub use builder::PrometheusBuilder;
pub use destination::ListenDestination;
pub use errors::BuildError;
pub use lane_laws::{
    a_round_leaves_the_calls_of_a_value, a_round_leaves_the_pushes_of_a_histogram,
    an_id_has_one_index, an_index_is_of_one_kind, series_have_their_indices,
};
pub use lanes::{LanePass, SeriesCell, SeriesEntry};
pub use laws::{
    basic_page, given_back_is_seen, looking_forgets_nothing, no_limit_redirects_nothing,
    pages_are_read,
};
pub use lent::Lent;
pub use state::PrometheusState;
