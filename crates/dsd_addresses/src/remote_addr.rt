//! Where lines are sent.

ghost use Rattle.std.specs.Prelude.{◌≡◌, ◌↔◌, IsTrue, string_bytes, MatchOption, IfOk, IfErr, IsOk, Some};
ghost use Rattle.std.specs.declared.net.socket_addr.SocketAddr.{SocketAddr};
ghost use Rattle.net_addresses.specs.Addresses.{IsSocket};
ghost use Rattle.net_addresses.specs.Readings.{HasOneReading};
ghost use Rattle.dsd_addresses.specs.Remotes.{RemoteText, remote_text, remote_output, transport_of, default_limit, IsSchemeSplit, HasNoScheme, IsBehind, IsRefusalBehind, IsRemote, IsRefusal, RefusedAs, no_socket_text};

use crate::BuildError;
use metrics_core::{Memory, read_socket};
use std::alloc::{AllocError, Global};
use std::fmt;
use std::net::SocketAddr;

/// Where lines are sent: to a UDP socket, or to a Unix socket by its path.
#[derive(Debug, Drop, PartialEq, Eq)]
pub enum RemoteAddr {
    /// A UDP socket.
    Udp(SocketAddr),
    /// A Unix stream socket.
    Unix(String),
    /// A Unix datagram socket.
    Unixgram(String),
}

/// What stands before and behind the first `://` of a text.
fn scheme_of(text: &str) -> Option<(&str, &str)>
    ensures { MatchOption result (HasNoScheme text.now)
        (λ parts. IsSchemeSplit text.now parts.0.now parts.1.now) }
{
    text.split_once("://")
}

/// Whether two texts are the same.
fn is_same(one: &str, other: &str) -> bool
    ensures { IsTrue result ↔ (one.now ≡ other.now) }
{
    one == other
}

/// The refusal of an address for this reason.
fn refused(reason: Result<String, AllocError>) -> BuildError
    ensures { (text : _) → IfOk reason (λ said. string_bytes said ≡ text) → RefusedAs text result }
{
    match reason {
        Ok(reason) => BuildError::InvalidRemoteAddress { reason },
        Err(_) => BuildError::Memory,
    }
}

/// The UDP address of a numeric socket.
fn read_udp(alloc: Global, text: &str) -> Result<RemoteAddr, BuildError>
    ensures read { IfOk result (λ remote.
        (a : SocketAddr) × IsSocket text.now a × (remote_text remote ≡ RemoteText.Udp a)) }
    ensures refused { IfErr result (λ fault.
        ((a : SocketAddr) → ¬ (IsSocket text.now a)) × RefusedAs (no_socket_text text.now) fault) }
{
    match read_socket(text) {
        Some(socket) => Ok(RemoteAddr::Udp(socket)),
        None => Err(refused(format!(in alloc; "not a numeric address and port: '{text}'"))),
    }
}

/// The address behind a scheme.
fn read_behind(alloc: Global, scheme: &str, rest: &str) -> Result<RemoteAddr, BuildError>
    ensures read { IfOk result (λ remote. IsBehind scheme.now rest.now (remote_text remote)) }
    ensures refused { IfErr result (IsRefusalBehind scheme.now rest.now) }
{
    if is_same(scheme, "udp") {
        return read_udp(alloc, rest);
    }
    if is_same(scheme, "unix") {
        return Ok(RemoteAddr::Unix(String::from_str(alloc, rest)?));
    }
    if is_same(scheme, "unixgram") {
        return Ok(RemoteAddr::Unixgram(String::from_str(alloc, rest)?));
    }
    Err(refused(format!(in alloc;
        "invalid scheme '{scheme}' (expected 'udp', 'unix', or 'unixgram')"
    )))
}

impl RemoteAddr {
    /// The address that a text writes: `unix://PATH`, `unixgram://PATH`, `udp://SOCKET` or a numeric socket alone. Where it
    /// writes none it is refused with the reason, or for want of memory for the reason. A UDP socket takes no memory.
    pub fn from_text(alloc: Global, addr: &str) -> Result<RemoteAddr, BuildError>
        ensures read { IfOk result (λ remote. IsRemote addr.now (remote_text remote)) }
        ensures refused { IfErr result (IsRefusal addr.now) }
    {
        match scheme_of(addr) {
            Some((scheme, rest)) => read_behind(alloc, scheme, rest),
            None => read_udp(alloc, addr),
        }
    }

    /// The same address.
    pub fn clone(&self, alloc: Global) -> Result<RemoteAddr, Memory>
        ensures same { IfOk result (λ copy. remote_text copy ≡ remote_text self.now) }
        ensures no_memory { (a : SocketAddr) → remote_text self.now ≡ RemoteText.Udp a
            → IsOk result }
    {
        match self {
            RemoteAddr::Udp(socket) => Ok(RemoteAddr::Udp(*socket)),
            RemoteAddr::Unix(path) => Ok(RemoteAddr::Unix(String::from_str(alloc, path.as_str())?)),
            RemoteAddr::Unixgram(path) => Ok(RemoteAddr::Unixgram(String::from_str(
                alloc,
                path.as_str(),
            )?)),
        }
    }

    /// The name of the transport in the exporter's own counters.
    pub fn transport_id(&self) -> &'static str
        ensures { result.now ≡ transport_of (remote_text self.now) }
    {
        match self {
            RemoteAddr::Udp(_) => "udp",
            RemoteAddr::Unix(_) => "uds-stream",
            RemoteAddr::Unixgram(_) => "uds",
        }
    }

    /// The payload limit, in bytes, where none is set.
    pub fn default_max_payload_len(&self) -> u64
        ensures { result ≡ default_limit (remote_text self.now) }
    {
        match self {
            RemoteAddr::Udp(_) => 1432,
            RemoteAddr::Unix(_) | RemoteAddr::Unixgram(_) => 8192,
        }
    }
}

impl fmt::Display for RemoteAddr {
    ghost output = { λ remote. Some (remote_output (remote_text remote)) };

    fn fmt<W: fmt::Write>(&self, f: &mut fmt::Formatter<W>) -> fmt::Result {
        match self {
            RemoteAddr::Udp(socket) => write!(f, "udp://{socket}"),
            RemoteAddr::Unix(path) => write!(f, "unix://{path}"),
            RemoteAddr::Unixgram(path) => write!(f, "unixgram://{path}"),
        }
    }
}

/// A law: no text writes two addresses.
pub fn remote_texts_have_one_reading()
    ensures { HasOneReading IsRemote }
{}
