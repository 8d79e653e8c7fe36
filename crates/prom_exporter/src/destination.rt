//! Where pages are to be served.

use std::net::SocketAddr;

/// Where the pages of an exporter are to be served.
#[derive(Debug, Drop, PartialEq, Eq)]
pub enum ListenDestination {
    /// At a TCP socket.
    Tcp(SocketAddr),
    /// At a Unix socket with this path.
    Uds(String),
}
