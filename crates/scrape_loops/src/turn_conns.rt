//! Connections that are read and written in turns, so that a peer has ten seconds in all, and that fail soon after the word was given.

ghost use Rattle.std.specs.Prelude.{◌≡◌, ◌<◌, ◌≤◌, ◌↔◌, length, Some, None, IfOk, IfSome, IsTrue};

use metrics_core::Failed;
use page_answers::Conn;
use service_loops::Stop;
use std::io;
use std::io::{Read, Write};
use std::marker::Model;
use std::net::{IpAddr, TcpListener, TcpStream};
use std::time::Duration;

/// How long one turn is at most, in milliseconds.
const TURN: u64 = 250;

/// How many turns a connection has in all, for its reads and its writes together: ten seconds.
const TURNS: u32 = 40;

/// A TCP connection that has so many turns to be read and written in, and fails without another once a word is given. A
/// contract sees it as its peer and its count of failures.
#[derive(Drop)]
pub struct TurnConn<'a> {
    stream: TcpStream,
    peer: IpAddr,
    faults: u64,
    turns: u32,
    stop: &'a Stop,
}

impl<'a> Model for TurnConn<'a> {
    ghost use Rattle.page_answers.specs.Sockets.{SocketText};

    ghost Value = { SocketText };

    ghost view = { λ conn. record { peer = conn.peer; faults = conn.faults } };
}

impl<'a> TurnConn<'a> {
    /// Whether a read or a write has failed.
    pub(crate) fn has_failed(&self) -> bool
        ensures { IsTrue result ↔ (0 < self.now.faults) }
    {
        self.faults > 0
    }
}

/// Takes a turn, where there is one left and the word is not given.
fn take_turn(turns: &mut u32, stop: &Stop) -> bool {
    if *turns == 0 || stop.has_ended() {
        return false;
    }
    *turns -= 1;
    true
}

/// Whether a turn passed with nothing.
fn is_over(fault: &io::Error) -> bool {
    fault.kind() == io::ErrorKind::WouldBlock
}

/// Reads in as many turns as it takes until something comes.
fn read_in_turns(
    stream: &mut TcpStream,
    turns: &mut u32,
    stop: &Stop,
    buf: &mut [u8],
) -> Option<usize>
    ensures { IfSome result (λ n. n ≤ length buf.old) }
{
    for _ in 0..TURNS {
        if !take_turn(turns, stop) {
            return None;
        }
        match stream.read(buf) {
            Ok(count) => return Some(count),
            Err(fault) if is_over(&fault) => {}
            Err(_) => return None,
        }
    }
    None
}

/// Writes in as many turns as it takes until something is taken.
fn write_in_turns(
    stream: &mut TcpStream,
    turns: &mut u32,
    stop: &Stop,
    piece: &[u8],
) -> Option<usize>
    ensures { IfSome result (λ n. n ≤ length piece.now) }
{
    for _ in 0..TURNS {
        if !take_turn(turns, stop) {
            return None;
        }
        match stream.write(piece) {
            Ok(count) => return Some(count),
            Err(fault) if is_over(&fault) => {}
            Err(_) => return None,
        }
    }
    None
}

impl<'a> Conn for TurnConn<'a> {
    ghost who = { λ conn. Some conn.peer };

    ghost told = { λ _. None };

    ghost faults = { λ conn. conn.faults };

    fn peer(&self) -> Option<IpAddr> {
        Some(self.peer)
    }

    fn read(&mut self, buf: &mut [u8]) -> Result<usize, Failed> {
        match read_in_turns(&mut self.stream, &mut self.turns, self.stop, buf) {
            Some(count) => Ok(count),
            None => {
                self.faults = self.faults.saturating_add(1);
                Err(Failed)
            }
        }
    }

    fn write(&mut self, piece: &[u8]) -> Result<usize, Failed> {
        match write_in_turns(&mut self.stream, &mut self.turns, self.stop, piece) {
            Some(count) if count > 0 || piece.is_empty() => Ok(count),
            _ => {
                self.faults = self.faults.saturating_add(1);
                Err(Failed)
            }
        }
    }
}

/// The next connection of a listener.
pub(crate) fn next_conn<'a>(listener: &TcpListener, stop: &'a Stop) -> io::Result<TurnConn<'a>>
    ensures { IfOk result (λ conn. conn.faults ≡ 0) }
{
    let (stream, peer) = listener.accept()?;
    let turn = Some(Duration::from_millis(TURN));
    stream.set_read_timeout(turn)?;
    stream.set_write_timeout(turn)?;
    Ok(TurnConn {
        stream,
        peer: peer.ip(),
        faults: 0,
        turns: TURNS,
        stop,
    })
}
