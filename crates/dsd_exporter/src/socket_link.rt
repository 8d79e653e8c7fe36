//! The link of the program's real edge: UDP and Unix stream sockets, with a count of their failures. It tells nothing of what is
//! sent.

ghost use Rattle.std.specs.Prelude.{◌≡◌, None};

use crate::link::Link;
use dsd_addresses::RemoteAddr;
use metrics_core::{Failed, Memory};
use std::alloc::Global;
use std::io::{ErrorKind, Write};
use std::marker::Model;
use std::net::{IpAddr, Ipv4Addr, Ipv6Addr, Net, SocketAddr, UdpSocket};
use std::os::unix::net::UnixStream;
use std::time::{Clock, Duration};
use std::{io, thread};

/// A socket that is open to the address that a link is aimed at.
#[derive(Drop)]
enum Open {
    /// One that sends datagrams. It is bound to whatever port is free.
    Udp(UdpSocket),
    /// One that is connected to a Unix stream socket.
    Unix(UnixStream),
}

/// A link over the sockets of the system, chosen by the address that it is aimed at: UDP, or a Unix stream. Sending to a Unix
/// datagram socket is a fault. A socket is opened by the send that finds none open, and let go by a send that fails and where
/// another address is aimed at. A contract sees the link as its address and its count of failures.
#[derive(Drop)]
pub struct SocketLink<'a, R: Net> {
    runtime: &'a R,
    aimed: Option<RemoteAddr>,
    open: Option<Open>,
    patience: Option<Duration>,
    pause: Duration,
    faults: u64,
}

impl<'a, R: Net> Model for SocketLink<'a, R> {
    ghost use Rattle.std.specs.Prelude.{option_map};
    ghost use Rattle.dsd_addresses.specs.Remotes.{remote_text};
    ghost use Rattle.dsd_exporter.specs.Links.{SocketText};

    ghost Value = { SocketText };

    ghost view = { λ link. record { aimed = option_map remote_text link.aimed; faults = link.faults } };
}

/// The socket that anything may be sent from to an address of the same family: any address of this host, and any free port.
fn any_source(to: &SocketAddr) -> SocketAddr {
    let source = match to.ip() {
        IpAddr::V4(_) => IpAddr::V4(Ipv4Addr::UNSPECIFIED),
        IpAddr::V6(_) => IpAddr::V6(Ipv6Addr::UNSPECIFIED),
    };
    SocketAddr::new(source, 0)
}

/// A stream to the socket at a path, of which a write waits so long.
fn connected<R: Net>(rt: &R, path: &str, patience: Option<Duration>) -> io::Result<UnixStream> {
    let stream = UnixStream::connect(rt, path)?;
    stream.set_write_timeout(patience)?;
    Ok(stream)
}

/// A socket that sends to an address.
fn opened<R: Net>(rt: &R, to: &RemoteAddr, patience: Option<Duration>) -> io::Result<Open> {
    match to {
        RemoteAddr::Udp(socket) => Ok(Open::Udp(UdpSocket::bind(rt, any_source(socket))?)),
        RemoteAddr::Unix(path) => Ok(Open::Unix(connected(rt, path.as_str(), patience)?)),
        RemoteAddr::Unixgram(_) => Err(io::Error::from(ErrorKind::Unsupported)),
    }
}

/// Sends a payload as one datagram. One that the system takes in part alone is a failure.
fn send_datagram(socket: &UdpSocket, to: &SocketAddr, payload: &[u8]) -> io::Result<()> {
    let sent = socket.send_to(payload, *to)?;
    if sent == payload.len() {
        Ok(())
    } else {
        Err(io::Error::from(ErrorKind::WriteZero))
    }
}

/// Sends a payload whole by an open socket.
fn send_by(open: &mut Open, to: &RemoteAddr, payload: &[u8]) -> io::Result<()> {
    match (open, to) {
        (Open::Udp(socket), RemoteAddr::Udp(to)) => send_datagram(socket, to, payload),
        (Open::Unix(stream), RemoteAddr::Unix(_)) => stream.write_all(payload),
        _ => Err(io::Error::from(ErrorKind::NotConnected)),
    }
}

/// Sends a payload whole to an address, by the socket that is open to it, or by a new one where there is none. Answers the
/// socket, which stays open.
fn send_whole<R: Net>(
    rt: &R,
    open: Option<Open>,
    to: &Option<RemoteAddr>,
    patience: Option<Duration>,
    payload: &[u8],
) -> io::Result<Open> {
    let Some(to) = to else {
        return Err(io::Error::from(ErrorKind::NotConnected));
    };
    let mut open = match open {
        Some(open) => open,
        None => opened(rt, to, patience)?,
    };
    send_by(&mut open, to, payload)?;
    Ok(open)
}

/// Rests so long, where it is any time.
fn rest<R: Clock>(rt: &R, pause: Duration) {
    if !pause.is_zero() {
        thread::sleep(rt, pause);
    }
}

impl<'a, R: Net> SocketLink<'a, R> {
    /// The link that isn't aimed yet, and has not failed. It opens its sockets with this runtime.
    pub fn new(rt: &'a R) -> SocketLink<'a, R>
        ensures { result ≡ record { aimed = None; faults = 0 } }
    {
        SocketLink {
            runtime: rt,
            aimed: None,
            open: None,
            patience: None,
            pause: Duration::ZERO,
            faults: 0,
        }
    }

    /// Sets how long a write to a stream may wait, in nanoseconds; 0 sets no limit, as none is at first. A send that would wait
    /// longer fails, and lets its socket go.
    pub fn with_write_timeout(self, timeout: u64) -> SocketLink<'a, R>
        ensures { result ≡ self.entry }
    {
        let patience = match timeout {
            0 => None,
            timeout => Some(Duration::from_nanos(timeout)),
        };
        SocketLink { patience, ..self }
    }

    /// Sets how long the link rests behind each payload that it sent, in nanoseconds; 0 at first. With a rest a flush of many payloads
    /// isn't one burst, which an agent over UDP may lose.
    pub fn with_pause(self, pause: u64) -> SocketLink<'a, R>
        ensures { result ≡ self.entry }
    {
        SocketLink {
            pause: Duration::from_nanos(pause),
            ..self
        }
    }

    /// How many sends failed; past 2^64 - 1 it is no longer counted.
    pub fn faults(&self) -> u64
        ensures { result ≡ self.now.faults }
    {
        self.faults
    }

    /// Whether the link is aimed at this address.
    fn is_aimed_at(&self, to: &RemoteAddr) -> bool {
        match &self.aimed {
            Some(aimed) => aimed == to,
            None => false,
        }
    }
}

impl<'a, R: Net + Clock> Link for SocketLink<'a, R> {
    ghost aimed = { λ link. link.aimed };

    ghost sent = { λ _. None };

    ghost faults = { λ link. link.faults };

    fn aim(&mut self, alloc: Global, to: &RemoteAddr) -> Result<(), Memory> {
        let aimed = to.clone(alloc)?;
        if !self.is_aimed_at(to) {
            self.open = None;
        }
        self.aimed = Some(aimed);
        Ok(())
    }

    fn send(&mut self, payload: &[u8]) -> Result<(), Failed> {
        let open = self.open.take();
        match send_whole(self.runtime, open, &self.aimed, self.patience, payload) {
            Ok(open) => {
                self.open = Some(open);
                rest(self.runtime, self.pause);
                Ok(())
            }
            Err(_) => {
                self.faults = self.faults.saturating_add(1);
                Err(Failed)
            }
        }
    }
}
