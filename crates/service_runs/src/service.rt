//! What runs beside a service's work, and what is left of it.

use net_addresses::Network;
use service_loops::Job;
use std::net::{Net, TcpListener, TcpStream};
use std::sync::Wait;
use std::time::{Clock, Duration};

/// What is flushed each so long, and a last time when the work has ended.
pub trait Flush: Job {
    /// What the last flush does.
    ghost ends: { Self → Self → Type 0 };

    /// The last flush.
    fn run_last<R: Wait + Clock + Net<Listener = TcpListener, Stream = TcpStream>>(
        &mut self,
        rt: &R,
    )
        ensures { ends self.old self.new };
}

/// Pages that are shown to those who ask at a listener: each by a thread of its own.
#[derive(Drop)]
pub struct Scraped<'a, P> {
    /// Where they ask. It is bound already.
    pub listener: &'a TcpListener,
    /// The networks whose peers may have pages; none where every peer may.
    pub allowed: Option<&'a [Network]>,
    /// What shows the pages, for each thread.
    pub pages: Vec<P>,
}

/// What runs beside the work of a service. Each part may be left out.
#[derive(Drop)]
pub struct Service<'a, P, K, F> {
    /// The pages.
    pub scraped: Option<Scraped<'a, P>>,
    /// The upkeep.
    pub upkeep: Option<K>,
    /// How long it is from one upkeep to the next.
    pub upkeep_step: Duration,
    /// The flushes.
    pub flushes: Option<F>,
    /// How long it is from one flush to the next.
    pub flush_step: Duration,
}

/// How many scrapes were answered, and how many connections failed.
#[derive(Clone, Copy, Debug, PartialEq, Eq)]
pub struct Report {
    pub served: u64,
    pub failed: u64,
}

/// What is left of a service that has ended: all its threads are joined.
#[derive(Drop)]
pub struct Ended<P, K, F, T> {
    pub report: Report,
    /// What showed the pages.
    pub pages: Vec<P>,
    /// What did the upkeep.
    pub upkeep: Option<K>,
    /// What flushed, behind its last flush.
    pub flushes: Option<F>,
    /// What the work gave.
    pub out: T,
}
