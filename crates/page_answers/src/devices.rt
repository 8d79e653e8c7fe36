//! Connections and a listener in memory, for tests.

ghost use Rattle.std.specs.Prelude.{◌≡◌, ℕ, ◌<◌, ◌≤◌, [], ◌∷◌, ◌++◌, length, map, take, drop, min, Some, IfOk, OnErr, OnOk, IsTrue, ◌↔◌, MatchOption};
ghost use Rattle.metrics_core.specs.Outside.{Rose};
ghost use Rattle.page_answers.specs.Connections.{Took, with_written, CountsFaults, CountsGiven, IsNew};
ghost use Rattle.page_answers.specs.Devices.{conn_faults, ended, IsUnused, Reads, Writes, Accepts};

use crate::{Conn, Listener};
use metrics_core::{Failed, FailingCalls, Memory, MemorySink, Sink};
use std::alloc::Global;
use std::collections::VecDeque;
use std::marker::Model;
use std::mem;
use std::net::{IpAddr, Net, TcpListener, TcpStream};

/// What a peer in memory sends, and what was sent to it. It gives at most so many bytes a read, takes at most so many a
/// write, and fails at chosen reads and writes.
#[derive(Drop)]
pub struct Exchange {
    peer: Option<IpAddr>,
    bytes: Vec<u8>,
    earlier: usize,
    at: usize,
    most: usize,
    reads: FailingCalls,
    sink: MemorySink,
}

impl Model for Exchange {
    ghost use Rattle.std.specs.Prelude.{◌<◌, ◌≤◌, take, drop, length};
    ghost use Rattle.page_answers.specs.Devices.{ConnText};

    ghost Value = { ConnText };

    ghost view = { λ exchange. record {
      who = exchange.peer;
      told = record {
        earlier = take exchange.earlier exchange.bytes.items;
        taken = take exchange.at exchange.bytes.items;
        left = drop exchange.at exchange.bytes.items;
        written = exchange.sink.written;
      };
      most_read = exchange.most;
      most_written = exchange.sink.most;
      reads = exchange.reads;
      writes = exchange.sink.calls;
    } };

    ghost invariant = { λ exchange. (exchange.at ≤ length exchange.bytes.items)
        × (0 < exchange.most) };
}

impl Exchange {
    /// The peer at this address that sends these bytes, `most` of them a read at most, and to which nothing was sent. The
    /// reads with the numbers in `failing`, counted from 0, fail. Writes are those of the sink, which is to be new.
    pub fn new(
        peer: Option<IpAddr>,
        bytes: Vec<u8>,
        most: usize,
        failing: Vec<u64>,
        sink: MemorySink,
    ) -> Exchange
        requires { 0 < most }
        ensures who { result.who ≡ peer }
        ensures told { result.told ≡ record {
          earlier = [];
          taken = [];
          left = bytes.items;
          written = sink.written;
        } }
        ensures most_read { result.most_read ≡ most }
        ensures most_written { result.most_written ≡ sink.most }
        ensures reads { result.reads ≡ record { failing = failing.items; number = 0; faults = 0 } }
        ensures writes { result.writes ≡ sink.calls }
    {
        Exchange {
            peer,
            bytes,
            earlier: 0,
            at: 0,
            most,
            reads: FailingCalls::new(failing),
            sink,
        }
    }

    /// The bytes that were read so far.
    pub fn taken(&self) -> &[u8]
        ensures { result.now ≡ self.now.told.taken }
    {
        &self.bytes[..self.at]
    }

    /// The bytes that were written so far.
    pub fn written(&self) -> &[u8]
        ensures { result.now ≡ self.now.told.written }
    {
        self.sink.written()
    }

    /// Whether a read or a write has failed.
    pub fn has_failed(&self) -> bool
        ensures { IsTrue result ↔ (0 < conn_faults self.now) }
    {
        self.reads.faults() > 0 || self.sink.faults() > 0
    }
}

/// Moves bytes to the front of a buffer, as many as there are, as it has room for, and as are wanted.
fn copy_prefix(from: &[u8], most: usize, into: &mut [u8]) -> usize
    ensures count { result ≡ min (min (length from.now) most) (length into.old) }
    ensures prefix { into.new ≡ take result from.now ++ drop result into.old }
{
    let count = from.len().min(most).min(into.len());
    into[..count].copy_from_slice(&from[..count]);
    count
}

impl Conn for Exchange {
    ghost who = { λ exchange. exchange.who };

    ghost told = { λ exchange. Some exchange.told };

    ghost faults = { conn_faults };

    fn peer(&self) -> Option<IpAddr> {
        self.peer
    }

    /// Fails exactly where the number of this read is in the list. Otherwise it gives as many bytes as there are, as a
    /// read gives at most, and as the buffer has room for.
    fn read(&mut self, buf: &mut [u8]) -> Result<usize, Failed>
        ensures bound { IfOk result (λ n. n ≤ length buf.old) }
        ensures took { IfOk result (Took self.old.told (Some self.new.told) buf.old buf.new) }
        ensures kept { OnErr result (self.new.told ≡ self.old.told) }
        ensures who { self.new.who ≡ self.old.who }
        ensures faults { CountsFaults result (conn_faults self.old) (conn_faults self.new) }
        ensures call { Reads result self.old self.new (length buf.old) }
    {
        if self.reads.next_fails() {
            self.reads.fault();
            return Err(Failed);
        }
        let count = copy_prefix(&self.bytes[self.at..], self.most, buf);
        self.earlier = self.at;
        self.at += count;
        Ok(count)
    }

    /// Fails where the number of this write is in the list, and where the room for the bytes is refused. Otherwise it
    /// takes the piece, or as many bytes of it as a write takes at most.
    fn write(&mut self, piece: &[u8]) -> Result<usize, Failed>
        ensures bound { IfOk result (λ n. n ≤ length piece.now) }
        ensures some { IfOk result (λ n. 0 < length piece.now → 0 < n) }
        ensures wrote { IfOk result (λ n. self.new.told ≡ with_written self.old.told
            (take n piece.now)) }
        ensures kept { OnErr result (self.new.told ≡ self.old.told) }
        ensures who { self.new.who ≡ self.old.who }
        ensures faults { CountsFaults result (conn_faults self.old) (conn_faults self.new) }
        ensures call { Writes result self.old self.new piece.now }
    {
        self.sink.write(piece)
    }
}

/// The connections that were given back, the last one first.
#[derive(Drop)]
enum Returned {
    Nothing,
    Last(Exchange, Box<Returned>),
}

/// A connection to a peer in memory. It brings the room in which its listener keeps it once it is given back.
#[derive(Drop)]
pub struct MemoryConn {
    exchange: Exchange,
    room: Box<Returned>,
}

impl Model for MemoryConn {
    ghost use Rattle.page_answers.specs.Devices.{ConnText};

    ghost Value = { ConnText };

    ghost view = { λ conn. conn.exchange };
}

impl MemoryConn {
    /// The connection to a peer.
    pub fn new(alloc: Global, exchange: Exchange) -> Result<MemoryConn, Memory>
        ensures { IfOk result (λ conn. conn ≡ exchange) }
    {
        let room = Box::new(alloc, Returned::Nothing)?;
        Ok(MemoryConn { exchange, room })
    }
}

impl Conn for MemoryConn {
    ghost who = { λ conn. conn.who };

    ghost told = { λ conn. Some conn.told };

    ghost faults = { conn_faults };

    fn peer(&self) -> Option<IpAddr> {
        self.exchange.peer()
    }

    /// Fails, and gives bytes, as a read of the exchange does.
    fn read(&mut self, buf: &mut [u8]) -> Result<usize, Failed>
        ensures bound { IfOk result (λ n. n ≤ length buf.old) }
        ensures took { IfOk result (Took self.old.told (Some self.new.told) buf.old buf.new) }
        ensures kept { OnErr result (self.new.told ≡ self.old.told) }
        ensures who { self.new.who ≡ self.old.who }
        ensures faults { CountsFaults result (conn_faults self.old) (conn_faults self.new) }
        ensures call { Reads result self.old self.new (length buf.old) }
    {
        self.exchange.read(buf)
    }

    /// Fails, and takes bytes, as a write of the exchange does.
    fn write(&mut self, piece: &[u8]) -> Result<usize, Failed>
        ensures bound { IfOk result (λ n. n ≤ length piece.now) }
        ensures some { IfOk result (λ n. 0 < length piece.now → 0 < n) }
        ensures wrote { IfOk result (λ n. self.new.told ≡ with_written self.old.told
            (take n piece.now)) }
        ensures kept { OnErr result (self.new.told ≡ self.old.told) }
        ensures who { self.new.who ≡ self.old.who }
        ensures faults { CountsFaults result (conn_faults self.old) (conn_faults self.new) }
        ensures call { Writes result self.old self.new piece.now }
    {
        self.exchange.write(piece)
    }
}

/// A listener in memory: it gives the connections that wait, in order, keeps those that are given back, and fails at chosen
/// accepts and where no connection waits.
#[derive(Drop)]
pub struct MemoryListener {
    waiting: VecDeque<MemoryConn>,
    accepts: FailingCalls,
    given: u64,
    lost: u64,
    returned: Returned,
}

impl Model for MemoryListener {
    ghost use Rattle.std.specs.Prelude.{All};
    ghost use Rattle.page_answers.specs.Devices.{ListenerText, IsUnused};

    ghost Value = { ListenerText };

    ghost use Rattle.page_answers.specs.Returned.{given_back};

    ghost view = { λ listener. record {
      waiting = listener.waiting.items;
      accepts = listener.accepts;
      given = listener.given;
      lost = listener.lost;
      finished = given_back listener.returned;
    } };

    ghost invariant = { λ listener. All IsUnused listener.waiting.items };
}

impl MemoryListener {
    /// The listener for which no connection waits yet, and whose accepts with the numbers in `failing`, counted from 0,
    /// fail.
    pub fn new(alloc: Global, failing: Vec<u64>) -> MemoryListener
        ensures { result ≡ record {
          waiting = [];
          accepts = record { failing = failing.items; number = 0; faults = 0 };
          given = 0;
          lost = 0;
          finished = [];
        } }
    {
        MemoryListener {
            waiting: VecDeque::new(alloc),
            accepts: FailingCalls::new(failing),
            given: 0,
            lost: 0,
            returned: Returned::Nothing,
        }
    }

    /// Lets a connection that nobody has used wait behind the others.
    pub fn add(&mut self, conn: MemoryConn) -> Result<(), Memory>
        requires { IsUnused conn }
        ensures added { OnOk result (self.new ≡ record self.old
            { waiting = self.old.waiting ++ conn ∷ [] }) }
        ensures refused { OnErr result (self.new ≡ self.old) }
    {
        match self.waiting.push_back(conn) {
            Ok(()) => Ok(()),
            Err(_) => Err(Memory),
        }
    }

    /// Takes the connection that was given back last off the list of those that were given back.
    pub fn take_finished(&mut self) -> Option<Exchange>
        ensures { MatchOption result ((self.old.finished ≡ []) × (self.new ≡ self.old))
            (λ last. self.old ≡ record self.new { finished = self.new.finished ++ last ∷ [] }) }
    {
        match mem::replace(&mut self.returned, Returned::Nothing) {
            Returned::Nothing => None,
            Returned::Last(last, before) => {
                self.returned = Box::into_inner(before);
                Some(last)
            }
        }
    }
}

impl Listener for MemoryListener {
    type Conn = MemoryConn;

    ghost faults = { λ listener. listener.accepts.faults };

    ghost given = { λ listener. listener.given };

    ghost lost = { λ listener. listener.lost };

    ghost finished = { λ listener. Some (map ended listener.finished) };

    /// Fails exactly where the number of this accept is in the list, and where no connection waits. Otherwise it gives the one that
    /// waits first.
    fn accept<R: Net<Listener = TcpListener, Stream = TcpStream>>(
        &mut self,
        _rt: &R,
    ) -> Result<MemoryConn, Failed>
        ensures fresh { IfOk result (λ conn. IsNew (Some (map ended self.old.finished))
            (Some conn.told) (conn_faults conn)) }
        ensures given { CountsGiven result self.old.given self.new.given }
        ensures lost { self.new.lost ≡ self.old.lost }
        ensures finished { self.new.finished ≡ self.old.finished }
        ensures cause { OnErr result (Rose self.old.accepts.faults self.new.accepts.faults) }
        ensures never_falls { self.old.accepts.faults ≤ self.new.accepts.faults }
        ensures call { Accepts result self.old self.new }
    {
        if !self.accepts.next_fails() {
            if let Some(conn) = self.waiting.pop_front() {
                self.given = self.given.wrapping_add(1);
                return Ok(conn);
            }
        }
        self.accepts.fault();
        Err(Failed)
    }

    fn done(&mut self, conn: MemoryConn) {
        let MemoryConn { exchange, mut room } = conn;
        if exchange.has_failed() {
            self.lost = self.lost.wrapping_add(1);
        }
        *room = mem::replace(&mut self.returned, Returned::Nothing);
        self.returned = Returned::Last(exchange, room);
    }
}
