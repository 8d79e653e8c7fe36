//! The page of an exporter's state, served over HTTP to those who fetch it.
//!
//! So many connections of a listener are answered:
//!
//!     let served = serve(rt, alloc, None, &mut state, moment, &mut listener, count)?;
#![tactic(auto)]

mod errors;
mod serving;

pub use errors::ServeError;
pub use page_answers::{
    Conn, Exchange, Listener, MemoryConn, MemoryListener, SocketConn, SocketListener,
    answers_are_determined, respond,
};
pub use serving::{Served, serve};
