//! Two threads that count at a shared recorder beside each other, and the flush behind them.

ghost use Rattle.std.specs.Prelude.{◌≡◌};
ghost use Rattle.std.specs.Arc.{arc_value};

use dsd_exporter::{DogStatsDBuilder, MemoryLink};
use dsd_forwarder::*;
use metrics_core::{Key, Lcg, Memory};
use shared_flushes::StatePass;
use std::alloc::Global;
use std::sync::Wait;
use std::test::Fail;
use std::thread::Threads;
use thread_jobs::{Job, both_beside};

/// What a thread is to count, by a pass of its own.
#[derive(Drop)]
struct Count {
    alloc: Global,
    pass: StatePass,
    key: Key,
}

/// The pass that came back, and whether the thread has counted.
#[derive(Drop)]
struct Counted {
    pass: StatePass,
    done: bool,
}

impl Job for Count {
    ghost use Rattle.std.specs.Prelude.{◌≡◌};
    ghost use Rattle.std.specs.Arc.{arc_value as value_of};
    ghost use Rattle.shared_turns.specs.Passes.{view_of};
    ghost use Rattle.shared_flushes.specs.Passes.{IsPass};

    type Shared = DogStatsDRecorder;

    type Answer = Counted;

    ghost ready = { λ recorder job. IsPass (value_of recorder.state) job.pass };

    ghost gives = { λ recorder job answer. IsPass (value_of recorder.state) answer.pass
        × ((view_of answer.pass).number ≡ (view_of job.pass).number) };

    fn run<R: Wait>(self, rt: &R, shared: &DogStatsDRecorder) -> Counted {
        let Count {
            alloc,
            mut pass,
            key,
        } = self;
        match shared.register_counter_seen(rt, alloc, &mut pass, &key) {
            Ok(lent) => {
                HeldCounter::new(lent).increment(rt, 1);
                Counted { pass, done: true }
            }
            Err(Memory) => Counted { pass, done: false },
        }
    }
}

/// Counts under two names beside each other, and answers whether both threads could.
fn count_beside<R: Threads + Wait + Sync>(
    rt: &R,
    alloc: Global,
    recorder: &DogStatsDRecorder,
    forwarder: &mut Forwarder,
) -> Result<bool, Memory>
    requires { arc_value recorder.now.state ≡ forwarder.old.state }
{
    let pass = forwarder.lend_pass()?;
    let key = Key::from_static_name("one");
    let one = Count { alloc, pass, key };
    let pass = forwarder.lend_pass()?;
    let key = Key::from_static_name("other");
    let other = Count { alloc, pass, key };
    let (one, other) = both_beside(rt, recorder, one, other);
    let both = one.done && other.done;
    forwarder.take_back(one.pass);
    forwarder.take_back(other.pass);
    Ok(both)
}

/// Whether a payload has the two lines, whichever comes first.
fn has_both(payload: &[u8]) -> bool {
    let (one, other) = (
        b"one:1|c\nother:1|c\n".as_slice(),
        b"other:1|c\none:1|c\n".as_slice(),
    );
    payload == one || payload == other
}

/// Whether the flush behind two threads sends what each of them counted, once.
fn both_are_sent<R: Threads + Wait + Sync>(rt: &R, alloc: Global) -> Result<bool, Fail> {
    let (recorder, mut forwarder) = DogStatsDBuilder::new(alloc)?.build(alloc)?;
    let both = count_beside(rt, alloc, &recorder, &mut forwarder)?;
    let mut link = MemoryLink::new(alloc, Vec::new(alloc));
    forwarder.run_once(rt, alloc, 0, &mut Lcg::new(0), &mut link)?;
    Ok(both && link.sent().len() == 1 && has_both(link.sent()[0].bytes()))
}

#[test]
fn what_two_threads_counted_is_sent_once(rt: HostRuntime) -> Result<(), Fail> {
    assert!(rt; both_are_sent(&rt, rt.alloc())?);
    Ok(())
}
