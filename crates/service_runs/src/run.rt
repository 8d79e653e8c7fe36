//! The run.

ghost use Rattle.std.specs.Prelude.{◌≡◌, ℕ, IfOk, option_map};
ghost use Rattle.service_runs.specs.Ending.{RanTimes, FlushedLast, EndsIfAny};

use crate::{Ended, Flush, Report, Scraped, Service, ServiceError};
use metrics_core::Memory;
use page_answers::HeadRoom;
use scrape_loops::{Pages, Serving, SharedListener, SystemMoments};
use service_loops::{Every, Job, Lanes, Looped, Stop, UntilStop, run_beside};
use std::alloc::Global;
use std::net::{Net, TcpListener, TcpStream};
use std::sync::Wait;
use std::thread::Threads;
use std::time::{Clock, Duration};

type ScrapeLane<'a, P> = Looped<UntilStop<'a>, Serving<'a, SharedListener<'a>, P, SystemMoments>>;

/// The lane of each thread that shows pages.
fn lanes_of<'a, P: Pages + Drop>(
    alloc: Global,
    stop: &'a Stop,
    scraped: Option<Scraped<'a, P>>,
) -> Result<Vec<ScrapeLane<'a, P>>, Memory> {
    let mut lanes = Vec::new(alloc);
    let Some(scraped) = scraped else {
        return Ok(lanes);
    };
    let Scraped {
        listener,
        allowed,
        pages,
    } = scraped;
    for pages in pages {
        let job = Serving {
            alloc,
            allowed,
            stop,
            listener: SharedListener::new(listener, stop),
            pages,
            moments: SystemMoments::new(),
            room: HeadRoom::new(alloc)?,
            served: 0,
            failed: 0,
        };
        let until = UntilStop { stop };
        lanes.push(Looped { until, job })?;
    }
    Ok(lanes)
}

/// The lane of a job that is done each so long, where there is one.
fn timer_of<'a, J: Drop>(
    stop: &'a Stop,
    step: Duration,
    job: Option<J>,
) -> Option<Looped<Every<'a>, J>>
    ensures { option_map (λ lane. lane.job) result ≡ job }
{
    let job = job?;
    Some(Looped {
        until: Every::new(stop, step),
        job,
    })
}

/// The job of a lane that has ended.
fn job_of<'a, J: Drop>(lane: Option<Looped<Every<'a>, J>>) -> Option<J>
    ensures { result ≡ option_map (λ lane. lane.job) lane.entry }
{
    let Looped { until: _, job } = lane?;
    Some(job)
}

/// The word that ends the loops: where pages are shown it shuts their listener too.
fn stop_of<'a, P>(scraped: &Option<Scraped<'a, P>>) -> Result<Stop, ServiceError> {
    match scraped {
        Some(scraped) => match Stop::shutting(scraped.listener) {
            Ok(stop) => Ok(stop),
            Err(reason) => Err(ServiceError::FailedToCreateHTTPListener(reason)),
        },
        None => Ok(Stop::new()),
    }
}

/// What lanes did, with what showed their pages, which is moved to where there is room for it.
fn report_of<'a, P: Drop>(lanes: Vec<ScrapeLane<'a, P>>, pages: &mut Vec<P>) -> Report {
    let mut report = Report {
        served: 0,
        failed: 0,
    };
    for lane in lanes {
        let Looped { until: _, job } = lane;
        let Serving {
            pages: shown,
            served,
            failed,
            ..
        } = job;
        report.served = report.served.wrapping_add(served);
        report.failed = report.failed.wrapping_add(failed);
        // There is room for it.
        let _ = pages.push(shown);
    }
    report
}

/// Room for what shows pages.
fn room_for<'a, P>(alloc: Global, scraped: &Option<Scraped<'a, P>>) -> Result<Vec<P>, Memory> {
    match scraped {
        Some(scraped) => Ok(Vec::with_capacity(alloc, scraped.pages.len())?),
        None => Ok(Vec::new(alloc)),
    }
}

/// The last flush, where there is what flushes.
fn flush_last<R: Wait + Clock + Net<Listener = TcpListener, Stream = TcpStream>, F: Flush>(
    rt: &R,
    flushes: Option<F>,
) -> Option<F>
    ensures { EndsIfAny F.ends flushes result }
{
    let mut flushes = flushes?;
    flushes.run_last(rt);
    Some(flushes)
}

/// Does the work in this thread. Beside it each of the pages is shown to those who ask at the listener, and upkeep and flushes are made
/// each so long. When the work is done no page is shown any more, all threads are joined, and a last flush is made behind all others.
pub fn run_service<
    R: Threads + Wait + Clock + Net<Listener = TcpListener, Stream = TcpStream> + Sync,
    P: Pages + Send + Drop,
    K: Job + Send + Drop,
    F: Flush + Send + Drop,
    W: FnOnce() -> T + Drop,
    T: Drop,
>(
    rt: &R,
    alloc: Global,
    service: Service<'_, P, K, F>,
    work: W,
) -> Result<Ended<P, K, F, T>, ServiceError>
    requires { W.pre work }
    ensures work { IfOk result (λ ended. W.post work ended.out) }
    ensures upkeep { IfOk result (λ ended. RanTimes K.does service.entry.upkeep ended.upkeep) }
    ensures flushes { IfOk result (λ ended. FlushedLast F.does F.ends service.entry.flushes
        ended.flushes) }
{
    let Service {
        scraped,
        upkeep,
        upkeep_step,
        flushes,
        flush_step,
    } = service;
    let stop = stop_of(&scraped)?;
    let mut pages = room_for(alloc, &scraped)?;
    let lanes = Lanes {
        pool: lanes_of(alloc, &stop, scraped)?,
        first: timer_of(&stop, upkeep_step, upkeep),
        second: timer_of(&stop, flush_step, flushes),
    };
    let (lanes, out) = run_beside(rt, &stop, lanes, work);
    let Lanes {
        pool,
        first,
        second,
    } = lanes;
    let flushes = flush_last(rt, job_of(second));
    Ok(Ended {
        report: report_of(pool, &mut pages),
        pages,
        upkeep: job_of(first),
        flushes,
        out,
    })
}
