//! Answers to those who fetch a page over HTTP, and the connections and listeners over which they are given. Nothing here knows what
//! makes the page.
//!
//! The answer to a request whose peer is allowed:
//!
//!     let answer = respond(alloc, true, b"GET /metrics HTTP/1.1\r\n\r\n", page)?;
#![tactic(auto)]

mod allowing;
mod answers;
mod conns;
mod devices;
mod heads;
mod listeners;
mod paths;
mod readings;
mod sockets;

pub use allowing::is_allowed;
pub use answers::{Asked, answer_of, answers_are_determined, asked_by, respond};
pub use conns::{Conn, write_whole};
pub use devices::{Exchange, MemoryConn, MemoryListener};
pub use listeners::Listener;
pub use readings::HeadRoom;
pub use sockets::{SocketConn, SocketListener};
