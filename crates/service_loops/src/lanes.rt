//! Lanes: loops that run side by side.

ghost use Rattle.std.specs.Prelude.{◌≡◌, ℕ, Option};
ghost use Rattle.std.specs.Fork.{ChangesEach};
ghost use Rattle.service_loops.specs.Loops.{RunsUntil, RanEach, RanIfAny};

use crate::{Job, Until, run_until};
use side_by_side::for_each_beside;
use std::net::{Net, TcpListener, TcpStream};
use std::sync::Wait;
use std::thread::Threads;
use std::time::Clock;

/// A loop with all that it runs on.
pub trait Lane {
    /// What the loop makes of what it runs on.
    ghost ran: { Self → Self → Type 0 };

    /// Runs the loop to its end.
    fn run_out<R: Wait + Clock + Net<Listener = TcpListener, Stream = TcpStream>>(&mut self, rt: &R)
        ensures { ran self.old self.new };
}

/// A job, and until when it is done over and over.
#[derive(Drop)]
pub struct Looped<U, J> {
    pub until: U,
    pub job: J,
}

impl<U: Until, J: Job> Lane for Looped<U, J> {
    ghost ran = { λ old new. RunsUntil J.does (U.left old.until) old.job new.job };

    fn run_out<R: Wait + Clock + Net<Listener = TcpListener, Stream = TcpStream>>(
        &mut self,
        rt: &R,
    ) {
        run_until(rt, &mut self.until, &mut self.job);
    }
}

/// Runs lanes of one kind side by side, each in a thread of its own but the last.
fn run_slice<
    R: Threads + Wait + Clock + Net<Listener = TcpListener, Stream = TcpStream> + Sync,
    L: Lane + Send,
>(rt: &R, lanes: &mut [L])
    ensures { RanEach L.ran lanes.old lanes.new }
{
    for_each_beside(
        rt,
        lanes,
        &|_: usize, lane: &mut L|
            ensures { L.ran lane.entry.now lane.exit.now }
        { lane.run_out(rt) },
    );
}

/// Runs lanes that are handed over, and hands them back.
pub(crate) fn run_each<
    R: Threads + Wait + Clock + Net<Listener = TcpListener, Stream = TcpStream> + Sync,
    L: Lane + Send + Drop,
>(rt: &R, lanes: Vec<L>) -> Vec<L>
    ensures { RanEach L.ran lanes.items result.items }
{
    let mut lanes = lanes;
    run_slice(rt, lanes.as_mut_slice());
    lanes
}

/// Runs a lane to its end, where there is one, and hands it back.
pub(crate) fn run_if_any<
    R: Wait + Clock + Net<Listener = TcpListener, Stream = TcpStream>,
    L: Lane,
>(rt: &R, lane: Option<L>) -> Option<L>
    ensures { RanIfAny L.ran lane result }
{
    let mut lane = lane?;
    lane.run_out(rt);
    Some(lane)
}
