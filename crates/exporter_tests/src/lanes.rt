//! Lanes that run side by side, seen through gates, on the page and in the payload.

use dsd_exporter::MemoryLink;
use metrics_core::{MemorySink, MemorySource};
use program_words::run;
use prom_serve::MemoryListener;
use script_player::Gate;
use std::alloc::Global;
use std::net::{Net, TcpListener, TcpStream};
use std::random::RandomSource;
use std::sync::Wait;
use std::sync::atomic::{AtomicBool, Ordering};
use std::test::Fail;
use std::thread::{Threads, yield_now};

/// Two lanes on a counter, a gauge and a histogram.
const TWO_LANES: &[u8] =
    b"quantiles 0 1\nround 0\nregister counter \"c\"\nregister gauge \"g\"\nregister histogram \"h\"\n0 inc 0 1\n0 set 1 1\n0 rec 2 1\n1 abs 0 10\n1 set 1 2\n1 rec 2 2\n";

/// How often a gate looks at a flag at most.
const TURNS: u32 = 10_000_000;

/// Whether the flag is raised in time.
fn is_raised_in_time(flag: &AtomicBool) -> bool {
    for _ in 0..TURNS {
        if flag.load(Ordering::SeqCst) {
            return true;
        }
        yield_now();
    }
    false
}

/// A gate at which lanes 0 and 1 meet: before its first call each raises its flag and waits for the other's.
#[derive(Drop)]
struct Meeting {
    first: AtomicBool,
    second: AtomicBool,
    late: AtomicBool,
}

impl Gate for Meeting {
    fn before<R: Wait>(&self, _rt: &R, lane: u8, call: u32) {
        if call > 0 {
            return;
        }
        let (own, other) = if lane == 0 {
            (&self.first, &self.second)
        } else {
            (&self.second, &self.first)
        };
        own.store(true, Ordering::SeqCst);
        if !is_raised_in_time(other) {
            self.late.store(true, Ordering::SeqCst);
        }
    }

    fn after<R: Wait>(&self, _rt: &R, _lane: u8, _call: u32) {}
}

/// A gate that holds one lane back until the other has made its third call.
#[derive(Drop)]
struct Turns {
    held: u8,
    open: AtomicBool,
    late: AtomicBool,
}

impl Gate for Turns {
    fn before<R: Wait>(&self, _rt: &R, lane: u8, call: u32) {
        if lane == self.held && call == 0 && !is_raised_in_time(&self.open) {
            self.late.store(true, Ordering::SeqCst);
        }
    }

    fn after<R: Wait>(&self, _rt: &R, lane: u8, call: u32) {
        if lane != self.held && call == 2 {
            self.open.store(true, Ordering::SeqCst);
        }
    }
}

/// What a run wrote and sent.
#[derive(Drop)]
struct Output {
    pages: Vec<u8>,
    payloads: Vec<u8>,
}

/// Drives a script at a gate, with no connections to be served.
fn drive<
    R: Net<Listener = TcpListener, Stream = TcpStream> + RandomSource + Threads + Wait + Sync,
    G: Gate + Sync,
>(
    rt: &R,
    alloc: Global,
    source: &mut MemorySource,
    out: &mut MemorySink,
    link: &mut MemoryLink,
    gate: &G,
) {
    let mut err = MemorySink::new(alloc, 65536, Vec::new(alloc));
    let mut listener = MemoryListener::new(alloc, Vec::new(alloc));
    let words = ["drive"];
    let _status = run(
        rt,
        alloc,
        &words,
        source,
        out,
        &mut err,
        link,
        gate,
        &mut listener,
    );
}

/// What the two lanes write and send at a gate.
fn told<
    R: Net<Listener = TcpListener, Stream = TcpStream> + RandomSource + Threads + Wait + Sync,
    G: Gate + Sync,
>(rt: &R, alloc: Global, gate: &G) -> Result<Output, Fail> {
    let script = TWO_LANES.to_vec(alloc)?;
    let mut source = MemorySource::new(script, 65536, Vec::new(alloc));
    let mut out = MemorySink::new(alloc, 65536, Vec::new(alloc));
    let mut link = MemoryLink::new(alloc, Vec::new(alloc));
    drive(rt, alloc, &mut source, &mut out, &mut link, gate);
    let mut payloads = Vec::new(alloc);
    for payload in link.sent() {
        payloads.extend_from_slice(payload.bytes())?;
    }
    Ok(Output {
        pages: out.written().to_vec(alloc)?,
        payloads,
    })
}

/// Whether the lanes meet in time, and the page is written.
fn meet<R: Net<Listener = TcpListener, Stream = TcpStream> + RandomSource + Threads + Wait + Sync>(
    rt: &R,
    alloc: Global,
) -> Result<bool, Fail> {
    let gate = Meeting {
        first: AtomicBool::new(false),
        second: AtomicBool::new(false),
        late: AtomicBool::new(false),
    };
    let told = told(rt, alloc, &gate)?;
    Ok(told.pages.ends_with(b"# EOF\n") && !gate.late.load(Ordering::SeqCst))
}

/// Whether the page and the payload are these where the lane `held` waits for the other one.
fn shows<R: Net<Listener = TcpListener, Stream = TcpStream> + RandomSource + Threads + Wait + Sync>(
    rt: &R,
    alloc: Global,
    held: u8,
    page: &[u8],
    payload: &[u8],
) -> Result<bool, Fail> {
    let gate = Turns {
        held,
        open: AtomicBool::new(false),
        late: AtomicBool::new(false),
    };
    let told = told(rt, alloc, &gate)?;
    let in_time = !gate.late.load(Ordering::SeqCst);
    Ok(told.pages.as_slice() == page && told.payloads.as_slice() == payload && in_time)
}

#[test]
fn lanes_meet_at_the_gate(rt: HostRuntime) -> Result<(), Fail> {
    assert!(rt; meet(&rt, rt.alloc())?);
    Ok(())
}

#[test]
fn the_gate_orders_the_lanes(rt: HostRuntime) -> Result<(), Fail> {
    let first =
        b"# TYPE c counter\nc 10\n\n# TYPE g gauge\ng 2\n\n# TYPE h summary\nh{quantile=\"0\"} 1\nh{quantile=\"1\"} 2\nh_sum 3\nh_count 2\n\n# EOF\n".as_slice();
    let second =
        b"# TYPE c counter\nc 11\n\n# TYPE g gauge\ng 1\n\n# TYPE h summary\nh{quantile=\"0\"} 1\nh{quantile=\"1\"} 2\nh_sum 3\nh_count 2\n\n# EOF\n".as_slice();
    let first_lines = b"c:0|c\ng:2.0|g\nh:1.0:2.0|d\n".as_slice();
    let second_lines = b"c:1|c\ng:1.0|g\nh:2.0:1.0|d\n".as_slice();
    assert!(rt; shows(&rt, rt.alloc(), 1, first, first_lines)?);
    assert!(rt; shows(&rt, rt.alloc(), 0, second, second_lines)?);
    Ok(())
}
