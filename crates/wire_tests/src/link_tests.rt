//! Worked examples of a link over sockets: a datagram arrives whole at the address that is aimed at, and each send that can't
//! be made is a fault.

use dsd_exporter::{Link, RemoteAddr, SocketLink};
use metrics_core::{Failed, Memory};
use std::alloc::Global;
use std::net::{Net, UdpSocket};
use std::test::Fail;
use std::time::Clock;

/// Aims a link at a Unix socket that isn't there, and sends.
fn sends_nowhere<R: Net + Clock>(
    alloc: Global,
    link: &mut SocketLink<'_, R>,
    to: &str,
) -> Result<bool, Memory> {
    let path = String::from_str(alloc, to)?;
    link.aim(alloc, &RemoteAddr::Unix(path))?;
    Ok(link.send(b"m:1|c\n").is_ok())
}

/// Aims a link at a Unix datagram socket, and sends.
fn sends_datagram<R: Net + Clock>(
    alloc: Global,
    link: &mut SocketLink<'_, R>,
    to: &str,
) -> Result<bool, Memory> {
    let path = String::from_str(alloc, to)?;
    link.aim(alloc, &RemoteAddr::Unixgram(path))?;
    Ok(link.send(b"m:1|c\n").is_ok())
}

/// Sends two payloads by the same socket.
fn sends_two<R: Net + Clock>(link: &mut SocketLink<'_, R>) -> Result<(), Failed> {
    link.send(b"m:1|c\n")?;
    link.send(b"m:22|c\n")
}

/// Whether a socket was sent this datagram.
fn receives(socket: &UdpSocket, datagram: &[u8]) -> Result<bool, Fail> {
    let mut buffer = [0; 16];
    let (count, _from) = socket.recv_from(&mut buffer)?;
    Ok(&buffer[..count] == datagram)
}

#[test]
fn datagrams_arrive_whole(rt: HostRuntime) -> Result<(), Fail> {
    let socket = UdpSocket::bind(&rt, "127.0.0.1:0")?;
    let mut link = SocketLink::new(&rt).with_pause(1_000);
    link.aim(rt.alloc(), &RemoteAddr::Udp(socket.local_addr()?))?;
    assert!(rt; sends_two(&mut link).is_ok());
    assert!(rt; receives(&socket, b"m:1|c\n")? && receives(&socket, b"m:22|c\n")?);
    assert_eq!(rt; link.faults(), 0);
    Ok(())
}

#[test]
fn sends_that_fail_are_faults(rt: HostRuntime) -> Result<(), Fail> {
    let mut link = SocketLink::new(&rt);
    assert!(rt; link.send(b"m:1|c\n").is_err());
    assert!(rt; !sends_nowhere(rt.alloc(), &mut link, "/nowhere/dsd.socket")?);
    assert!(rt; !sends_datagram(rt.alloc(), &mut link, "/nowhere/dsd.socket")?);
    assert_eq!(rt; link.faults(), 3);
    Ok(())
}
