//! The listener and the connections of the program's real edge: TCP, with counts of their failures, and with limits on how long a
//! peer may take. They tell nothing of what is read and written.

ghost use Rattle.std.specs.Prelude.{◌≡◌, ◌≤◌, length, Some, None, IsSome, IfOk, OnErr, OnOk};
ghost use Rattle.metrics_core.specs.Outside.{Rose};
ghost use Rattle.page_answers.specs.Connections.{CountedOn, CountsGiven, IsNew, losses};
ghost use Rattle.page_answers.specs.Sockets.{StaysBound};

use crate::{Conn, Listener};
use metrics_core::Failed;
use std::io;
use std::io::{ErrorKind, Read, Write};
use std::marker::Model;
use std::net::{IpAddr, Net, SocketAddr, TcpListener, TcpStream};
use std::time::{Clock, Duration, Instant};

/// How many seconds a peer may send nothing, or take nothing, before its connection fails.
const PATIENCE: u64 = 5;

/// How many seconds after a connection was accepted its peer may still be sending.
const SECONDS_FOR_HEAD: u64 = 10;

/// How many seconds after a connection was accepted its peer may still be taking its answer.
const SECONDS_IN_ALL: u64 = 60;

/// A TCP connection, with a clock. A contract sees it as its peer and its count of failures.
#[derive(Drop)]
pub struct SocketConn<'a, R: Clock> {
    clock: &'a R,
    stream: TcpStream,
    peer: IpAddr,
    accepted: Instant,
    faults: u64,
}

impl<'a, R: Clock> Model for SocketConn<'a, R> {
    ghost use Rattle.page_answers.specs.Sockets.{SocketText};

    ghost Value = { SocketText };

    ghost view = { λ conn. record { peer = conn.peer; faults = conn.faults } };
}

impl<'a, R: Clock> SocketConn<'a, R> {
    /// A connection that was accepted just now and has not failed yet.
    fn new(clock: &'a R, stream: TcpStream, peer: IpAddr) -> io::Result<SocketConn<'a, R>>
        ensures { IfOk result (λ conn. conn ≡ record { peer = peer; faults = 0 }) }
    {
        Ok(SocketConn {
            clock,
            stream,
            peer,
            accepted: Instant::now(clock)?,
            faults: 0,
        })
    }

    /// How long the peer may take now, where so many seconds after it was accepted are the end: what is left until then, and five
    /// seconds at most.
    fn patience(&self, end: u64) -> io::Result<Duration> {
        let spent = self.accepted.elapsed(self.clock)?;
        let left = Duration::from_secs(end).saturating_sub(spent);
        if left.is_zero() {
            return Err(io::Error::from(ErrorKind::TimedOut));
        }
        Ok(left.min(Duration::from_secs(PATIENCE)))
    }

    /// Reads what the peer sends in time.
    fn read_in_time(&mut self, buf: &mut [u8]) -> io::Result<usize>
        ensures bound { IfOk result (λ n. n ≤ length buf.old) }
        ensures same { self.new ≡ self.old }
    {
        let patience = self.patience(SECONDS_FOR_HEAD)?;
        self.stream.set_read_timeout(Some(patience))?;
        self.stream.read(buf)
    }

    /// Writes what the peer takes in time.
    fn write_in_time(&mut self, piece: &[u8]) -> io::Result<usize>
        ensures bound { IfOk result (λ n. n ≤ length piece.now) }
        ensures same { self.new ≡ self.old }
    {
        let patience = self.patience(SECONDS_IN_ALL)?;
        self.stream.set_write_timeout(Some(patience))?;
        self.stream.write(piece)
    }
}

impl<'a, R: Clock> Conn for SocketConn<'a, R> {
    ghost who = { λ conn. Some conn.peer };

    ghost told = { λ _. None };

    ghost faults = { λ conn. conn.faults };

    fn peer(&self) -> Option<IpAddr> {
        Some(self.peer)
    }

    fn read(&mut self, buf: &mut [u8]) -> Result<usize, Failed> {
        match self.read_in_time(buf) {
            Ok(count) => Ok(count),
            Err(_) => {
                self.faults = self.faults.saturating_add(1);
                Err(Failed)
            }
        }
    }

    fn write(&mut self, piece: &[u8]) -> Result<usize, Failed> {
        match self.write_in_time(piece) {
            Ok(count) if count > 0 || piece.is_empty() => Ok(count),
            _ => {
                self.faults = self.faults.saturating_add(1);
                Err(Failed)
            }
        }
    }
}

/// A TCP listener, which binds its address at its first `accept`. A peer of its connections that sends or takes nothing for five
/// seconds fails, as does one whose head takes ten seconds in all, or whose connection takes a minute. A contract sees it as
/// its counts and the system's listener that it holds.
#[derive(Drop)]
pub struct SocketListener<'a, R: Clock> {
    clock: &'a R,
    address: SocketAddr,
    bound: Option<TcpListener>,
    faults: u64,
    given: u64,
    lost: u64,
}

impl<'a, R: Clock> Model for SocketListener<'a, R> {
    ghost use Rattle.page_answers.specs.Sockets.{PortText};

    ghost Value = { PortText };

    ghost view = { λ listener. record {
      bound = listener.bound;
      faults = listener.faults;
      given = listener.given;
      lost = listener.lost;
    } };
}

/// The next connection to an address, which is bound first where that was not done yet.
fn next_stream<R: Net<Listener = TcpListener, Stream = TcpStream>>(
    rt: &R,
    address: SocketAddr,
    bound: &mut Option<TcpListener>,
) -> io::Result<(TcpStream, SocketAddr)>
    ensures stays { StaysBound bound.old bound.new }
    ensures is_bound { OnOk result (IsSome bound.new) }
{
    let listener = match bound.take() {
        Some(listener) => listener,
        None => TcpListener::bind(rt, address)?,
    };
    let accepted = accept_one(&listener);
    *bound = Some(listener);
    accepted
}

/// The next connection of a listener. A peer that is gone before its connection is accepted is passed over.
fn accept_one(listener: &TcpListener) -> io::Result<(TcpStream, SocketAddr)> {
    for _ in 0..u64::MAX {
        match listener.accept() {
            Err(fault) if fault.kind() == io::ErrorKind::ConnectionAborted => {}
            accepted => return accepted,
        }
    }
    Err(io::Error::from(io::ErrorKind::ConnectionAborted))
}

impl<'a, R: Clock> SocketListener<'a, R> {
    /// The listener at this address, which is not bound yet.
    pub fn new(clock: &'a R, address: SocketAddr) -> SocketListener<'a, R>
        ensures { result ≡ record { bound = None; faults = 0; given = 0; lost = 0 } }
    {
        SocketListener {
            clock,
            address,
            bound: None,
            faults: 0,
            given: 0,
            lost: 0,
        }
    }

    /// The listener that is bound to this address now: port 0 stands for any free one. An address that can't be bound is refused
    /// with its cause, as `AddrInUse` where another listens there.
    pub fn bind<N: Net<Listener = TcpListener, Stream = TcpStream>>(
        rt: &N,
        clock: &'a R,
        address: SocketAddr,
    ) -> io::Result<SocketListener<'a, R>>
        ensures bound { IfOk result (λ listener. IsSome listener.bound) }
        ensures counts { IfOk result (λ listener. listener
            ≡ record { bound = listener.bound; faults = 0; given = 0; lost = 0 }) }
    {
        SocketListener::over(clock, TcpListener::bind(rt, address)?)
    }

    /// Where it listens; before it is bound, where it is to listen.
    pub fn address(&self) -> SocketAddr {
        self.address
    }

    /// The listener over one of the system's that is bound already.
    pub fn over(clock: &'a R, bound: TcpListener) -> io::Result<SocketListener<'a, R>>
        ensures { IfOk result (λ listener. listener
            ≡ record { bound = Some bound; faults = 0; given = 0; lost = 0 }) }
    {
        Ok(SocketListener {
            clock,
            address: bound.local_addr()?,
            bound: Some(bound),
            faults: 0,
            given: 0,
            lost: 0,
        })
    }

    /// The next connection.
    fn next_conn<N: Net<Listener = TcpListener, Stream = TcpStream>>(
        &mut self,
        rt: &N,
    ) -> io::Result<SocketConn<'a, R>>
        ensures fresh { IfOk result (λ conn. conn.faults ≡ 0) }
        ensures stays { StaysBound self.old.bound self.new.bound }
        ensures is_bound { OnOk result (IsSome self.new.bound) }
        ensures same { self.new ≡ record self.old { bound = self.new.bound } }
    {
        let (stream, peer) = next_stream(rt, self.address, &mut self.bound)?;
        SocketConn::new(self.clock, stream, peer.ip())
    }
}

impl<'a, R: Clock> Listener for SocketListener<'a, R> {
    type Conn = SocketConn<'a, R>;

    ghost faults = { λ listener. listener.faults };

    ghost given = { λ listener. listener.given };

    ghost lost = { λ listener. listener.lost };

    ghost finished = { λ _. None };

    /// Binds the address where that was not done yet. What is bound stays bound, and a connection comes only of what is bound.
    fn accept<N: Net<Listener = TcpListener, Stream = TcpStream>>(
        &mut self,
        rt: &N,
    ) -> Result<SocketConn<'a, R>, Failed>
        ensures fresh { IfOk result (λ conn. IsNew None None conn.faults) }
        ensures given { CountsGiven result self.old.given self.new.given }
        ensures lost { self.new.lost ≡ self.old.lost }
        ensures cause { OnErr result (Rose self.old.faults self.new.faults) }
        ensures never_falls { self.old.faults ≤ self.new.faults }
        ensures stays { StaysBound self.old.bound self.new.bound }
        ensures is_bound { OnOk result (IsSome self.new.bound) }
    {
        match self.next_conn(rt) {
            Ok(conn) => {
                self.given = self.given.wrapping_add(1);
                Ok(conn)
            }
            Err(_) => {
                self.faults = self.faults.saturating_add(1);
                Err(Failed)
            }
        }
    }

    fn done(&mut self, conn: SocketConn<'a, R>)
        ensures lost { CountedOn self.old.lost self.new.lost (losses conn.entry.faults) }
        ensures others { self.new ≡ record self.old { lost = self.new.lost } }
    {
        if conn.faults > 0 {
            self.lost = self.lost.wrapping_add(1);
        }
    }
}
