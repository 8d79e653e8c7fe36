//! A service with its metrics: eight workers answer requests side by side, while the page is served over HTTP and counts go to an agent.
//! It takes how many requests each worker is to answer, and the address of its page.
#![tactic(auto)]

use anyhow::Result;
use dsd_exporter::{DogStatsDBuilder, SocketLink};
use prom_exporter::PrometheusBuilder;
use service_exporters::{open_flushes, open_pages, run_exporters};
use service_metrics::Metrics;
use std::alloc::AllocError;
use std::net::SocketAddr;
use std::rt::Env;
use std::sync::Wait;
use std::time::{Clock, Duration};
use std::{env, thread};

/// Answers so many requests, each in a millisecond or more, and counts them.
fn work<R: Wait + Clock>(metrics: &Metrics<'_, R>, count: u64) -> Result<()> {
    let mut requests = metrics.counter("requests_total", &[("path", "/")])?;
    let mut seconds = metrics.histogram("request_seconds", &[])?;
    for _request in 0..count {
        let started = seconds.start()?;
        thread::sleep(metrics.runtime(), Duration::from_millis(1));
        seconds.stop(started)?;
        requests.increment(1);
    }
    Ok(())
}

/// How many requests there are for each worker, and where the page is: 100, and any free port, where no words say it.
fn words_of<R: Env + AllocGlobal>(rt: &R) -> Result<(u64, SocketAddr)> {
    let mut words = env::args(rt)?.skip(1);
    let count = words.next().as_deref().unwrap_or("100").parse()?;
    let address = words.next().as_deref().unwrap_or("127.0.0.1:0").parse()?;
    Ok((count, address))
}

/// Whether all workers came to their end.
fn all_of(outcomes: Result<Vec<Result<()>>, AllocError>) -> Result<()> {
    for outcome in outcomes? {
        outcome?;
    }
    Ok(())
}

fn main(rt: HostRuntime) -> Result<()> {
    let alloc = rt.alloc();
    let (count, address) = words_of(&rt)?;
    let builder = PrometheusBuilder::new(alloc)?.with_http_listener(address);
    let (recorder, pages) = open_pages(&rt, alloc, builder)?;
    let agent = DogStatsDBuilder::new(alloc)?;
    let link = SocketLink::new(&rt).with_pause(1_000_000);
    let (sender, flushes) = open_flushes(alloc, agent, link)?;
    let metrics = Metrics::new(&rt, alloc, Some(&recorder), Some(&sender));
    let ended = run_exporters(&rt, alloc, Some(pages), Some(flushes), move || {
        thread::map_indices(metrics.runtime(), alloc, 8, &|_| work(&metrics, count))
    })?;
    all_of(ended.out)
}
