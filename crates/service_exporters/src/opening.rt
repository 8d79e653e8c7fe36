//! Exporters of a service, from their builders.

use crate::OpenError;
use crate::flushes::ForwarderFlushes;
use crate::pages::{RecorderPages, lend_pages};
use crate::upkeep::RecorderUpkeep;
use dsd_addresses::BuildError;
use dsd_exporter::{DogStatsDBuilder, Link};
use dsd_forwarder::{BuildForwarder, DogStatsDRecorder};
use metrics_core::Memory;
use net_addresses::Network;
use prom_exporter::{ListenDestination, PrometheusBuilder};
use prom_recorder::{BuildRecorder, PrometheusRecorder};
use std::alloc::Global;
use std::io;
use std::net::{Net, SocketAddr, TcpListener, TcpStream};
use std::time::Duration;

/// How many threads answer scrapes.
const LANES: u32 = 8;

/// The exporter that is scraped: its address is bound already.
#[derive(Drop)]
pub struct PageExporter {
    pub(crate) listener: TcpListener,
    pub(crate) networks: Option<Vec<Network>>,
    pub(crate) pages: Vec<RecorderPages>,
    pub(crate) upkeep: RecorderUpkeep,
    pub(crate) upkeep_step: Duration,
}

impl PageExporter {
    /// Where it listens: with port 0 set, the port that was given.
    pub fn address(&self) -> io::Result<SocketAddr> {
        self.listener.local_addr()
    }
}

/// The exporter that flushes.
#[derive(Drop)]
pub struct FlushExporter<L> {
    pub(crate) flushes: ForwarderFlushes<L>,
    pub(crate) step: Duration,
}

/// Binds the address where pages are to be served.
fn bind<R: Net<Listener = TcpListener, Stream = TcpStream>>(
    rt: &R,
    to: &ListenDestination,
) -> Result<TcpListener, OpenError> {
    match to {
        ListenDestination::Tcp(address) => match TcpListener::bind(rt, *address) {
            Ok(listener) => Ok(listener),
            Err(reason) => Err(OpenError::FailedToCreateHTTPListener(reason)),
        },
        ListenDestination::Uds(_) => Err(OpenError::UnixSocket),
    }
}

/// A copy of the networks whose peers may have pages.
fn copied(alloc: Global, networks: Option<&[Network]>) -> Result<Option<Vec<Network>>, Memory> {
    match networks {
        Some(networks) => Ok(Some(networks.to_vec(alloc)?)),
        None => Ok(None),
    }
}

/// A recorder, and the exporter that shows its pages at the address and to the networks that the builder was given, and drains its queues
/// as often as the builder says. An address that can't be bound, as one that is taken, is refused with its cause.
pub fn open_pages<R: Net<Listener = TcpListener, Stream = TcpStream>>(
    rt: &R,
    alloc: Global,
    builder: PrometheusBuilder,
) -> Result<(PrometheusRecorder, PageExporter), OpenError> {
    let listener = bind(rt, builder.destination())?;
    let networks = copied(alloc, builder.allowed())?;
    let upkeep_step = Duration::from_nanos(builder.get_upkeep_timeout());
    let (recorder, mut root) = builder.build_recorder_seen(alloc)?;
    let pages = lend_pages(alloc, &recorder, &mut root, LANES)?;
    let upkeep = RecorderUpkeep::new(alloc, &recorder, root)?;
    let exporter = PageExporter {
        listener,
        networks,
        pages,
        upkeep,
        upkeep_step,
    };
    Ok((recorder, exporter))
}

/// A recorder, and the exporter that flushes it by a link, on the interval of the builder.
pub fn open_flushes<L: Link + Drop>(
    alloc: Global,
    builder: DogStatsDBuilder,
    link: L,
) -> Result<(DogStatsDRecorder, FlushExporter<L>), BuildError> {
    let step = Duration::from_nanos(builder.get_flush_interval());
    let (recorder, forwarder) = builder.build(alloc)?;
    let flushes = ForwarderFlushes::new(alloc, forwarder, link);
    Ok((recorder, FlushExporter { flushes, step }))
}
