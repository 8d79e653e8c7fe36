//! Datagrams of DogStatsD (protocol 1.3) and of StatsD as a receiver reads them: the lines of a payload are read by a grammar with one
//! reading in each dialect, and a stream is cut into its payloads.
//!
//! What a line says, or that it is none:
//!
//!     let line = read_line(alloc, Dialect::DogStatsd, b"requests:1|c|#path:/")?;
#![tactic(auto)]

mod dialects;
mod frames;
mod laws;
mod line_parts;
mod lines;
mod numbers;
mod payloads;
mod pieces;
mod tags;

pub use dialects::Dialect;
pub use frames::Frames;
pub use laws::{
    one_list_of_frames, one_reading, payloads_are_their_lines, written_lines_are_read_back,
};
pub use lines::{GaugeStep, Line, Points, read_line};
pub use payloads::split_line;
