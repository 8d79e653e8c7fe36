//! Numeric addresses, sockets and networks, read from texts. Nothing here takes memory.
//!
//! An address, and whether a network holds it:
//!
//!     let peer = read_ip("10.1.2.3")?;
//!     let office = Network::from_text("10.0.0.0/8")?;
//!     let allowed = office.holds(&peer);
#![tactic(auto)]

mod ips;
mod networks;
mod numbers;
mod parts;
mod sockets;

pub use ips::{ip_texts_have_one_reading, read_ip};
pub use networks::{Network, network_texts_have_one_reading};
pub use sockets::{read_socket, socket_texts_have_one_reading};
