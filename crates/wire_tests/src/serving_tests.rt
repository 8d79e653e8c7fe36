//! Connections in memory that are served one after another, with ample memory.

ghost use Rattle.std.specs.Prelude.{IfOk};
ghost use Rattle.prom_serve.specs.Devices.{IsUnused};

use metrics_core::MemorySink;
use net_addresses::Network;
use prom_exporter::PrometheusBuilder;
use prom_serve::{Exchange, MemoryConn, MemoryListener, ServeError, Served, serve};
use std::alloc::Global;
use std::net::{IpAddr, Ipv4Addr, Net, TcpListener, TcpStream};
use std::sync::Wait;
use std::test::Fail;

const HEALTH: &[u8] = b"GET /health HTTP/1.1\r\n\r\n";

const HEALTHY: &[u8] =
    b"HTTP/1.1 200 OK\r\ncontent-type: text/plain\r\ncontent-length: 2\r\nconnection: close\r\n\r\nOK";

const FORBIDDEN: &[u8] =
    b"HTTP/1.1 403 Forbidden\r\ncontent-length: 0\r\nconnection: close\r\n\r\n";

/// A connection to a peer that asks something, gives seven bytes a read and takes 16 a write. The reads with these numbers fail.
fn conn(alloc: Global, peer: Ipv4Addr, asked: &[u8], failing: &[u64]) -> Result<MemoryConn, Fail>
    ensures { IfOk result IsUnused }
{
    let sink = MemorySink::new(alloc, 16, Vec::new(alloc));
    let peer = Some(IpAddr::V4(peer));
    let exchange = Exchange::new(peer, asked.to_vec(alloc)?, 7, failing.to_vec(alloc)?, sink);
    Ok(MemoryConn::new(alloc, exchange)?)
}

/// What serving so many connections to the peers of one network, on an exporter without series, answers.
fn answer_all<R: Net<Listener = TcpListener, Stream = TcpStream> + Wait>(
    rt: &R,
    alloc: Global,
    listener: &mut MemoryListener,
    count: u32,
) -> Result<Result<Served, ServeError>, Fail> {
    let mut state = PrometheusBuilder::new(alloc)?.build_state(alloc)?;
    let served = match Network::from_text("127.0.0.0/8") {
        Some(network) => serve(rt, alloc, Some(&[network]), &mut state, 0, listener, count),
        None => Err(ServeError::Memory),
    };
    state.end(rt);
    Ok(served)
}

/// Whether the connection that was given back last took this and was answered so.
fn ended_so(listener: &mut MemoryListener, taken: &[u8], written: &[u8]) -> bool {
    match listener.take_finished() {
        Some(exchange) => exchange.taken() == taken && exchange.written() == written,
        None => false,
    }
}

#[test]
fn connections_are_served(rt: HostRuntime) -> Result<(), Fail> {
    let alloc = rt.alloc();
    let home = Ipv4Addr::new(127, 0, 0, 1);
    let mut listener = MemoryListener::new(alloc, Vec::new(alloc));
    listener.add(conn(alloc, home, HEALTH, &[1])?)?;
    listener.add(conn(alloc, home, HEALTH, &[])?)?;
    listener.add(conn(alloc, Ipv4Addr::new(10, 0, 0, 1), HEALTH, &[])?)?;
    let answered = answer_all(&rt, alloc, &mut listener, 3)?;
    let wanted = Served {
        served: 2,
        failed: 1,
    };
    assert!(rt; answered == Ok(wanted));
    assert!(rt; ended_so(&mut listener, HEALTH, FORBIDDEN));
    assert!(rt; ended_so(&mut listener, HEALTH, HEALTHY));
    assert!(rt; ended_so(&mut listener, b"GET /he", b""));
    Ok(())
}

#[test]
fn a_listener_that_fails(rt: HostRuntime) -> Result<(), Fail> {
    let alloc = rt.alloc();
    let mut listener = MemoryListener::new(alloc, [0].to_vec(alloc)?);
    listener.add(conn(alloc, Ipv4Addr::new(127, 0, 0, 1), HEALTH, &[])?)?;
    let answered = answer_all(&rt, alloc, &mut listener, 1)?;
    assert!(rt; answered == Err(ServeError::FailedToCreateHTTPListener));
    Ok(())
}
