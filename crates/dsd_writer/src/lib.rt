//! DogStatsD lines and payloads (DogStatsD datagrams, protocol 1.3): the lines of series, packed within a limit of bytes
//! into the fewest lines and payloads that keep their order.
//!
//! A counter's line, and the payloads that are then to be sent:
//!
//!     let mut writer = PayloadWriter::new(alloc, 1432, false);
//!     writer.write_counter(&key, 1, None, None)?;
//!     let payloads = writer.payloads();
#![tactic(auto)]

mod items;
mod kept_keys;
mod laws;
mod many;
mod numbers;
mod packing;
mod parts;
mod payloads;
mod points;
mod results;
mod room;
mod room_ahead;
mod writer;

pub use kept_keys::{KeptKey, KeptKeys};
pub use laws::{
    full_cuts_have_the_fewest_runs, lines_add_their_bytes, lines_are_within_and_fewest,
    payloads_are_whole_and_fewest,
};
pub use payloads::Payloads;
pub use results::WriteResult;
pub use writer::PayloadWriter;
