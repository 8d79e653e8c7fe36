//! Where payloads go.

ghost use Rattle.std.specs.Prelude.{◌≡◌};
ghost use Rattle.dsd_addresses.specs.Remotes.{remote_text};
ghost use Rattle.script_player.specs.Agent.{default_agent};

use dsd_addresses::RemoteAddr;
use std::net::{Ipv4Addr, SocketAddr, SocketAddrV4};

/// The address that payloads go to where none is given: 127.0.0.1:8125 over UDP.
pub fn default_agent() -> RemoteAddr
    ensures { remote_text result ≡ default_agent }
{
    RemoteAddr::Udp(SocketAddr::V4(SocketAddrV4::new(Ipv4Addr::LOCALHOST, 8125)))
}
