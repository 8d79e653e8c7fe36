//! Peers over real sockets: one that sends its head a byte at a time, and one behind it.

use prom_exporter::PrometheusBuilder;
use prom_serve::{Served, SocketListener, serve};
use std::alloc::Global;
use std::io;
use std::io::{Read, Write};
use std::net::{Net, SocketAddr, TcpListener, TcpStream};
use std::sync::Wait;
use std::test::Fail;
use std::thread::{Threads, join, sleep};
use std::time::{Clock, Duration};

/// Sends a byte each nine tenths of a second, until the connection is closed, for thirty-six seconds at most.
fn send_slowly<R: Net<Listener = TcpListener, Stream = TcpStream> + Clock>(
    rt: &R,
    to: SocketAddr,
) -> io::Result<()> {
    let mut stream = TcpStream::connect(rt, to)?;
    for _ in 0..40 {
        stream.write_all(b"G")?;
        sleep(rt, Duration::from_millis(900));
    }
    Ok(())
}

/// Whether a peer that asks at once is told that all is well.
fn is_answered<R: Net<Listener = TcpListener, Stream = TcpStream>>(
    rt: &R,
    to: SocketAddr,
) -> io::Result<bool> {
    let mut stream = TcpStream::connect(rt, to)?;
    stream.write_all(b"GET /health HTTP/1.1\r\n\r\n")?;
    let mut answer = [0; 15];
    stream.read_exact(&mut answer)?;
    Ok(&answer == b"HTTP/1.1 200 OK")
}

/// What the second of two peers is told, of which the first sends its head slowly.
fn ask_twice<R: Net<Listener = TcpListener, Stream = TcpStream> + Clock>(
    rt: &R,
    to: SocketAddr,
) -> bool {
    send_slowly(rt, to).is_err() && is_answered(rt, to).unwrap_or(false)
}

/// What serving two peers comes to, over an exporter without series.
fn answer_two<R: Net<Listener = TcpListener, Stream = TcpStream> + Clock + Wait>(
    rt: &R,
    alloc: Global,
    bound: TcpListener,
) -> Option<Served> {
    let mut listener = SocketListener::over(rt, bound).ok()?;
    let mut state = PrometheusBuilder::new(alloc).ok()?.build_state(alloc).ok()?;
    let served = serve(rt, alloc, None, &mut state, 0, &mut listener, 2).ok();
    state.end(rt);
    served
}

/// Serves two peers in one thread, and is both in another.
fn meet<R: Net<Listener = TcpListener, Stream = TcpStream> + Clock + Wait + Threads + Sync>(
    rt: &R,
    alloc: Global,
    bound: TcpListener,
    to: SocketAddr,
) -> (Option<Served>, bool) {
    join(
        rt,
        move || answer_two(rt, alloc, bound),
        || ask_twice(rt, to),
    )
}

#[test]
fn a_slow_head_fails_and_the_next_peer_is_answered(rt: HostRuntime) -> Result<(), Fail> {
    let bound = TcpListener::bind(&rt, "127.0.0.1:0")?;
    let to = bound.local_addr()?;
    let (served, answered) = meet(&rt, rt.alloc(), bound, to);
    let wanted = Served {
        served: 1,
        failed: 1,
    };
    assert!(rt; served == Some(wanted));
    assert!(rt; answered);
    Ok(())
}
