//! Counts in eight threads at once, each over counters of its own, while the page is served over HTTP, and prints how often it counted:
//!
//!     scrape_bench 10 127.0.0.1:9184 1250
//!
//! The words are how many seconds it is to count, the address of the page, and how many counters each thread has.
#![tactic(auto)]

use anyhow::{Result, bail};
use dsd_exporter::MemoryLink;
use metrics_core::{Key, KeyName, Label, Memory, SharedString};
use prom_exporter::PrometheusBuilder;
use service_exporters::{FlushExporter, open_pages, run_exporters};
use service_metrics::{Metrics, ServiceCounter};
use std::alloc::{AllocError, Global};
use std::rt::Env;
use std::sync::Wait;
use std::time::{Clock, Duration, Instant};
use std::{env, thread};

/// The key of a counter of a thread.
fn counter_key(alloc: Global, thread: usize, number: u64) -> Result<Key, Memory> {
    let path = format!(in alloc; "/{thread}/{number}")?;
    let label = Label::new(
        SharedString::const_str("path"),
        SharedString::from_owned(path),
    );
    let mut labels = Vec::with_capacity(alloc, 1)?;
    labels.push_reserved(label);
    Ok(Key::from_parts(KeyName::from_const_str("counted_total"), labels))
}

/// The counters of a thread.
fn counters_of<'a, R: Wait>(
    alloc: Global,
    metrics: &Metrics<'a, R>,
    thread: usize,
    count: u64,
) -> Result<Vec<ServiceCounter<'a, R>>, Memory> {
    let mut counters = Vec::new(alloc);
    for number in 0..count {
        let key = counter_key(alloc, thread, number)?;
        counters.push(metrics.counter_of(&key)?)?;
    }
    Ok(counters)
}

/// Counts once with each counter.
fn count_each<'a, R: Wait>(counters: &mut [ServiceCounter<'a, R>]) {
    for counter in counters.iter_mut() {
        counter.increment(1);
    }
}

/// Counts over and over for so long, and answers how often with each counter.
fn count<R: Wait + Clock>(
    alloc: Global,
    metrics: &Metrics<'_, R>,
    thread: usize,
    counters: u64,
    length: Duration,
) -> Result<u64> {
    let mut counters = counters_of(alloc, metrics, thread, counters)?;
    let begun = Instant::now(metrics.runtime())?;
    for counted in 0..u64::MAX {
        if begun.elapsed(metrics.runtime())? >= length {
            return Ok(counted);
        }
        count_each(&mut counters);
    }
    Ok(u64::MAX)
}

/// What the program is to do.
struct Words {
    length: Duration,
    builder: PrometheusBuilder,
    counters: u64,
}

/// The next word.
fn word(words: Option<String>) -> Result<String> {
    match words {
        Some(word) => Ok(word),
        None => bail!("a word is missing"),
    }
}

/// What the words say.
fn words_of<R: Env + AllocGlobal>(rt: &R) -> Result<Words> {
    let mut words = env::args(rt)?.skip(1);
    let length = Duration::from_secs(word(words.next())?.parse()?);
    let address = word(words.next())?.parse()?;
    let counters = word(words.next())?.parse()?;
    let builder = PrometheusBuilder::new(rt.alloc())?.with_http_listener(address);
    Ok(Words {
        length,
        builder,
        counters,
    })
}

/// Prints how often each thread counted.
fn say<R: Print>(rt: &R, counted: Result<Vec<Result<u64>>, AllocError>) -> Result<()> {
    for counted in counted? {
        print!(rt; "counted {} times\n", counted?)?;
    }
    Ok(())
}

fn main(rt: HostRuntime) -> Result<()> {
    let alloc = rt.alloc();
    let Words {
        length,
        builder,
        counters,
    } = words_of(&rt)?;
    let (recorder, pages) = open_pages(&rt, alloc, builder)?;
    let metrics = Metrics::new(&rt, alloc, Some(&recorder), None);
    let no_flushes: Option<FlushExporter<MemoryLink>> = None;
    let ended = run_exporters(&rt, alloc, Some(pages), no_flushes, move || {
        thread::map_indices(
            metrics.runtime(),
            alloc,
            8,
            &|thread| { count(alloc, &metrics, thread, counters, length) },
        )
    })?;
    say(&rt, ended.out)
}
