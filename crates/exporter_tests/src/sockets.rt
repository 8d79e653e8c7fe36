//! The program over the sockets of the system: its payloads arrive.

use metrics_core::{Discard, MemorySource};
use program_words::answer_over_sockets;
use std::alloc::Global;
use std::io;
use std::net::{Net, SocketAddr, TcpListener, TcpStream, UdpSocket};
use std::random::RandomSource;
use std::sync::Wait;
use std::test::Fail;
use std::thread::Threads;
use std::time::Clock;

/// Two rounds, each of which counts.
const TWO_ROUNDS: &[u8] = b"round 0\nregister counter \"c\"\n0 inc 0 42\nround 1\n0 inc 0 7\n";

/// Plays the script with its payloads to an address, and answers the status.
fn drives_to<
    R: Net<Listener = TcpListener, Stream = TcpStream>
        + RandomSource
        + Threads
        + Clock
        + Wait
        + Sync,
>(rt: &R, alloc: Global, to: &SocketAddr) -> io::Result<u8> {
    let address = format!(in alloc; "{to}")?;
    let words = ["drive", address.as_str()];
    let mut source = MemorySource::new(TWO_ROUNDS.to_vec(alloc)?, 65536, Vec::new(alloc));
    let mut err = Discard;
    Ok(answer_over_sockets(rt, alloc, &words, &mut source, &mut Discard, &mut err))
}

/// Whether a socket was sent this datagram.
fn receives(socket: &UdpSocket, datagram: &[u8]) -> io::Result<bool> {
    let mut buffer = [0; 16];
    let (count, _from) = socket.recv_from(&mut buffer)?;
    Ok(&buffer[..count] == datagram)
}

#[test]
fn payloads_of_a_run_arrive(rt: HostRuntime) -> Result<(), Fail> {
    let socket = UdpSocket::bind(&rt, "127.0.0.1:0")?;
    assert_eq!(rt; drives_to(&rt, rt.alloc(), &socket.local_addr()?)?, 0);
    assert!(rt; receives(&socket, b"c:42|c\n")? && receives(&socket, b"c:7|c\n")?);
    Ok(())
}
