//! Work with lanes beside it.

ghost use Rattle.service_loops.specs.Loops.{RanEach, RanIfAny};

use crate::lanes::{run_each, run_if_any};
use crate::{Lane, Stop};
use std::net::{Net, TcpListener, TcpStream};
use std::sync::Wait;
use std::thread::{Threads, join};
use std::time::Clock;

/// What runs beside the work: a pool of lanes of one kind, and two lanes that may be left out.
#[derive(Drop)]
pub struct Lanes<A, B, C> {
    pub pool: Vec<A>,
    pub first: Option<B>,
    pub second: Option<C>,
}

/// Runs lanes side by side, and hands them back.
fn run_lanes<
    R: Threads + Wait + Clock + Net<Listener = TcpListener, Stream = TcpStream> + Sync,
    A: Lane + Send + Drop,
    B: Lane + Send + Drop,
    C: Lane + Send + Drop,
>(rt: &R, pool: Vec<A>, first: Option<B>, second: Option<C>) -> (Vec<A>, (Option<B>, Option<C>))
    ensures pool { RanEach A.ran pool.items result.0.items }
    ensures first { RanIfAny B.ran first result.1.0 }
    ensures second { RanIfAny C.ran second result.1.1 }
{
    join(
        rt,
        move || -> Vec<A>
            ensures { RanEach A.ran pool.items result.items }
        { run_each(rt, pool) },
        move || -> (Option<B>, Option<C>)
            ensures { RanIfAny B.ran first result.0 × RanIfAny C.ran second result.1 }
        { run_two(rt, first, second) },
    )
}

/// Runs the lanes that there are of two, side by side, and hands them back.
fn run_two<
    R: Threads + Wait + Clock + Net<Listener = TcpListener, Stream = TcpStream> + Sync,
    B: Lane + Send + Drop,
    C: Lane + Send + Drop,
>(rt: &R, first: Option<B>, second: Option<C>) -> (Option<B>, Option<C>)
    ensures first { RanIfAny B.ran first result.0 }
    ensures second { RanIfAny C.ran second result.1 }
{
    join(
        rt,
        move || -> Option<B>
            ensures { RanIfAny B.ran first result }
        { run_if_any(rt, first) },
        move || -> Option<C>
            ensures { RanIfAny C.ran second result }
        { run_if_any(rt, second) },
    )
}

/// Does the work in this thread, and gives the word.
fn work_and_end<R: Wait, W: FnOnce() -> T, T>(rt: &R, stop: &Stop, work: W) -> T
    requires { W.pre work }
    ensures { W.post work result }
{
    let out = work();
    stop.end(rt);
    out
}

/// Does the work in this thread while lanes run in others, and gives the word once it is done. The lanes come back when all of them
/// have ended. Where no thread can be made the work is done first, and the lanes then find the word given.
pub fn run_beside<
    R: Threads + Wait + Clock + Net<Listener = TcpListener, Stream = TcpStream> + Sync,
    A: Lane + Send + Drop,
    B: Lane + Send + Drop,
    C: Lane + Send + Drop,
    W: FnOnce() -> T + Drop,
    T,
>(rt: &R, stop: &Stop, lanes: Lanes<A, B, C>, work: W) -> (Lanes<A, B, C>, T)
    requires { W.pre work }
    ensures pool { RanEach A.ran lanes.pool.items result.0.pool.items }
    ensures first { RanIfAny B.ran lanes.first result.0.first }
    ensures second { RanIfAny C.ran lanes.second result.0.second }
    ensures work { W.post work result.1 }
{
    let Lanes {
        pool,
        first,
        second,
    } = lanes;
    let ((pool, (first, second)), out) = join(
        rt,
        move || -> (Vec<A>, (Option<B>, Option<C>))
            ensures { RanEach A.ran pool.items result.0.items × RanIfAny B.ran first result.1.0
                × RanIfAny C.ran second result.1.1 }
        { run_lanes(rt, pool, first, second) },
        move || -> T
            requires { W.pre work }
            ensures { W.post work result }
        { work_and_end(rt, stop, work) },
    );
    let lanes = Lanes {
        pool,
        first,
        second,
    };
    (lanes, out)
}
