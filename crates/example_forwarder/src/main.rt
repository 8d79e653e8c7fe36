//! A service that counts its work in two threads and sends it to a DogStatsD agent: to the address in its first argument, or
//! into memory, and then it prints what was sent.
#![tactic(auto)]

use anyhow::Result;
use dsd_exporter::{DogStatsDBuilder, MemoryLink, SocketLink};
use dsd_forwarder::*;
use metrics_core::{Key, Lcg, Level, Metadata};
use metrics_facade::{Recorder, RecorderOnceCell};
use std::alloc::Global;
use std::sync::Wait;
use std::thread::join;
use std::{env, str};

/// Serves some requests, each of 512 bytes.
fn serve<R: Wait>(rt: &R, alloc: Global, recorder: &DogStatsDRecorder, count: u32) -> Result<()> {
    let metadata = Metadata::new("service", Level::INFO, None);
    let key = Key::from_static_name("requests");
    let mut requests = HeldCounter::new(recorder.register_counter(rt, alloc, &key, &metadata)?);
    let key = Key::from_static_name("bytes");
    let mut bytes = HeldHistogram::new(recorder.register_histogram(rt, alloc, &key, &metadata)?);
    for _ in 0..count {
        requests.increment(rt, 1);
        bytes.record(rt, alloc, 512u16)?;
    }
    Ok(())
}

/// Sends what was counted into memory, and prints it.
fn send<R: Wait + Print>(rt: &R, alloc: Global, forwarder: &mut Forwarder) -> Result<()> {
    let mut link = MemoryLink::new(alloc, Vec::new(alloc));
    forwarder.run_once(rt, alloc, 0, &mut Lcg::new(0), &mut link)?;
    for payload in link.sent() {
        print!(rt; "{}", str::from_utf8(payload.bytes())?)?;
    }
    Ok(())
}

/// The builder for an agent at this address.
fn builder_for(alloc: Global, address: &Option<String>) -> Result<DogStatsDBuilder> {
    let builder = DogStatsDBuilder::new(alloc)?;
    match address {
        Some(address) => Ok(builder.with_remote_address(alloc, address)?),
        None => Ok(builder),
    }
}

fn main(rt: HostRuntime) -> Result<()> {
    let alloc = rt.alloc();
    let address = env::args(&rt)?.nth(1);
    let builder = builder_for(alloc, &address)?;
    let cell = RecorderOnceCell::new(alloc);
    let mut note = cell.note();
    let mut forwarder = builder.install(alloc, &cell, &mut note)?;
    if let Some(recorder) = cell.try_load(&mut note) {
        let more = || serve(&rt, alloc, recorder, 4);
        let (first, second) = join(&rt, || serve(&rt, alloc, recorder, 3), more);
        first.and(second)?;
    }
    if address.is_none() {
        return send(&rt, alloc, &mut forwarder);
    }
    forwarder.run_once(&rt, alloc, 0, &mut Lcg::new(0), &mut SocketLink::new(&rt))?;
    Ok(())
}
