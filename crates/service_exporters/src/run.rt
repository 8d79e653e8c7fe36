//! The run of a service with its exporters.

ghost use Rattle.std.specs.Prelude.{◌≡◌, IfOk, option_map};
ghost use Rattle.service_runs.specs.Ending.{RanTimes, FlushedLast};

use crate::flushes::ForwarderFlushes;
use crate::opening::{FlushExporter, PageExporter};
use crate::pages::RecorderPages;
use crate::upkeep::RecorderUpkeep;
use dsd_exporter::Link;
use service_loops::Job;
use service_runs::{Ended, Flush, Scraped, Service, ServiceError, run_service};
use std::alloc::Global;
use std::net::{Net, TcpListener, TcpStream};
use std::sync::Wait;
use std::thread::Threads;
use std::time::{Clock, Duration};

/// What is left of a service with its exporters.
pub type ExportersEnded<L, T> = Ended<RecorderPages, RecorderUpkeep, ForwarderFlushes<L>, T>;

/// The flushes, where there are any, and how long it is from one to the next.
fn flushes_of<L: Drop>(
    exporter: Option<FlushExporter<L>>,
) -> (Option<ForwarderFlushes<L>>, Duration)
    ensures { result.0 ≡ option_map (λ exporter. exporter.flushes) exporter }
{
    match exporter {
        Some(FlushExporter { flushes, step }) => (Some(flushes), step),
        None => (None, Duration::MAX),
    }
}

/// Does the work in this thread, beside the exporters that there are. When it is done no page is shown any more, a last flush is made, and
/// all threads are joined.
pub fn run_exporters<
    R: Threads + Wait + Clock + Net<Listener = TcpListener, Stream = TcpStream> + Sync,
    L: Link + Send + Drop,
    W: FnOnce() -> T + Drop,
    T: Drop,
>(
    rt: &R,
    alloc: Global,
    pages: Option<PageExporter>,
    flushes: Option<FlushExporter<L>>,
    work: W,
) -> Result<ExportersEnded<L, T>, ServiceError>
    requires { W.pre work }
    ensures work { IfOk result (λ ended. W.post work ended.out) }
    ensures upkeep { IfOk result (λ ended. RanTimes ⟦<RecorderUpkeep as Job>⟧.does
        (option_map (λ exporter. exporter.upkeep) pages) ended.upkeep) }
    ensures flushes { IfOk result (λ ended. FlushedLast ⟦<ForwarderFlushes<L> as Job>⟧.does
        ⟦<ForwarderFlushes<L> as Flush>⟧.ends
        (option_map (λ exporter. exporter.flushes) flushes) ended.flushes) }
{
    let (flushes, flush_step) = flushes_of(flushes);
    let Some(pages) = pages else {
        let service = Service {
            scraped: None,
            upkeep: None,
            upkeep_step: Duration::MAX,
            flushes,
            flush_step,
        };
        return run_service(rt, alloc, service, work);
    };
    let PageExporter {
        listener,
        networks,
        pages,
        upkeep,
        upkeep_step,
    } = pages;
    let allowed = match &networks {
        Some(networks) => Some(networks.as_slice()),
        None => None,
    };
    let scraped = Scraped {
        listener: &listener,
        allowed,
        pages,
    };
    let service = Service {
        scraped: Some(scraped),
        upkeep: Some(upkeep),
        upkeep_step,
        flushes,
        flush_step,
    };
    run_service(rt, alloc, service, work)
}
