//! IP addresses of both families.

ghost use Rattle.std.specs.Net.Grammar.{IsIpText};
ghost use Rattle.net_addresses.specs.Readings.{Reads, HasOneReading};

use std::net::IpAddr;

/// The address that a text writes, or none where it writes none: IPv4 as four numbers from 0 to 255 joined by points, and
/// IPv6 as eight groups of hexadecimal digits joined by colons, of which `::` may stand for groups of zero (RFC 4291,
/// section 2.2).
pub fn read_ip(text: &str) -> Option<IpAddr>
    ensures { Reads IsIpText text.now result }
{
    text.parse().ok()
}

/// A law: no text writes two addresses.
pub fn ip_texts_have_one_reading()
    ensures { HasOneReading IsIpText }
{}
