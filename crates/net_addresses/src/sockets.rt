//! Sockets: an address and a port.

ghost use Rattle.net_addresses.specs.Readings.{Reads, HasOneReading};
ghost use Rattle.net_addresses.specs.Addresses.{IsSocket, IsPortBehind, IsSocketV4, IsSocketV6Behind};

use crate::numbers::read_number;
use crate::parts::{part_behind, parts_round};
use std::net::{Ipv4Addr, Ipv6Addr, SocketAddr, SocketAddrV4, SocketAddrV6};

/// The IPv4 address and the port that a text writes.
fn read_socket_v4(text: &str) -> Option<SocketAddrV4>
    ensures { Reads IsSocketV4 text.now result }
{
    let Some((ip, port)) = parts_round(text, ':') else {
        return None;
    };
    let Ok(ip) = ip.parse::<Ipv4Addr>() else {
        return None;
    };
    match read_number(port, u16::MAX) {
        Some(port) => Some(SocketAddrV4::new(ip, port)),
        None => None,
    }
}

/// The port that stands in a text behind a colon.
fn read_port_behind(text: &str) -> Option<u16>
    ensures { Reads IsPortBehind text.now result }
{
    match part_behind(text, ':') {
        Some(port) => read_number(port, u16::MAX),
        None => None,
    }
}

/// The IPv6 address and the port that a text writes, whose opening bracket was taken already.
fn read_socket_v6_behind(text: &str) -> Option<SocketAddrV6>
    ensures { Reads IsSocketV6Behind text.now result }
{
    let Some((ip, behind)) = parts_round(text, ']') else {
        return None;
    };
    let Ok(ip) = ip.parse::<Ipv6Addr>() else {
        return None;
    };
    match read_port_behind(behind) {
        Some(port) => Some(SocketAddrV6::new(ip, port, 0, 0)),
        None => None,
    }
}

/// The address and the port that a text writes, or none where it writes none: `IPv4:PORT` or `[IPv6]:PORT`, with a port
/// from 0 to 65535 without zeros in front.
pub fn read_socket(text: &str) -> Option<SocketAddr>
    ensures { Reads IsSocket text.now result }
{
    match part_behind(text, '[') {
        Some(behind) => match read_socket_v6_behind(behind) {
            Some(socket) => Some(SocketAddr::V6(socket)),
            None => None,
        },
        None => match read_socket_v4(text) {
            Some(socket) => Some(SocketAddr::V4(socket)),
            None => None,
        },
    }
}

/// A law: no text writes two sockets.
pub fn socket_texts_have_one_reading()
    ensures { HasOneReading IsSocket }
{}
