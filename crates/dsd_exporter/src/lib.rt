//! The DogStatsD exporter: its state, which registers series, lends passes of their cells, also to lanes that run side by side,
//! and flushes them; the links that its payloads are handed to; and what settings it refuses.
//!
//! A state, a series, a flush, and where payloads go:
//!
//!     let mut state = State::new(alloc, configuration)?;
//!     let id = state.register_counter(alloc, &key)?;
//!     state.flush(rt, alloc, &mut flush_state, &mut writer, &mut telemetry, moment, &mut words)?;
//!     let agent = RemoteAddr::from_text(alloc, "127.0.0.1:8125")?;
#![tactic(auto)]

mod builder;
mod configuration;
mod flush_state;
mod flushing;
mod gauge_texts;
mod histogram_flushing;
mod indices;
mod kept_cells;
mod lane_laws;
mod lanes;
mod lent;
mod link;
mod queued;
mod rest_laws;
mod sending;
mod socket_link;
mod state;
mod update;

pub use builder::{BuilderParts, DogStatsDBuilder};
pub use configuration::{AggregationMode, StateConfiguration};
pub use dsd_addresses::{
    BuildError, LimitFault, RemoteAddr, limit_fault, remote_texts_have_one_reading,
};
pub use flush_state::FlushState;
pub use lane_laws::{
    a_round_leaves_the_state_of_counters, a_round_leaves_the_state_of_gauges,
    a_round_leaves_the_state_of_histograms, an_id_has_one_index, an_index_is_of_one_kind,
    series_have_their_indices,
};
pub use lanes::{LanePass, SeriesCell, SeriesEntry};
pub use lent::Lent;
pub use link::{DiscardLink, Link, MemoryLink, SentPayload};
pub use rest_laws::{
    a_flush_leaves_rest, a_new_series_leaves_rest, an_exporter_begins_at_rest,
    lanes_begin_and_end_at_rest,
};
pub use sending::{FlushReport, send_flush, send_written, write_flush};
pub use socket_link::SocketLink;
pub use state::State;
pub use update::TelemetryUpdate;
