//! Each thread by a pass of its own.

ghost use Rattle.std.specs.Prelude.{◌≡◌, All, IfOk};
ghost use Rattle.shared_turns.specs.Passes.{view_of};
ghost use Rattle.shared_recorder.specs.Recorder.{IsPass, Stays};
ghost use Rattle.shared_beside.specs.Beside.{IsLent};

use crate::task::{Task, counter_key, counters_on, task_of};
use anyhow::{Result, bail};
use metrics_core::Memory;
use prom_exporter::PrometheusBuilder;
use prom_recorder::{BuildRecorder, PrometheusRecorder};
use shared_recorder::SharedPass;
use std::alloc::Global;
use std::sync::Wait;
use std::thread::Threads;
use thread_jobs::{Job, all_beside};

/// Registers counters.
fn register<R: Wait>(
    rt: &R,
    alloc: Global,
    recorder: &PrometheusRecorder,
    pass: &mut SharedPass,
    from: u64,
    count: u64,
) -> Result<(), Memory>
    requires { IsPass recorder.now pass.old }
    ensures { Stays recorder.now pass.old pass.new }
{
    for place in 0..count {
        let key = counter_key(alloc, from.wrapping_add(place))?;
        recorder.register_counter_seen(rt, alloc, pass, &key)?;
    }
    Ok(())
}

/// Renders pages.
fn render<R: Wait>(
    rt: &R,
    alloc: Global,
    recorder: &PrometheusRecorder,
    pass: &mut SharedPass,
    pages: u64,
) -> Result<(), Memory>
    requires { IsPass recorder.now pass.old }
    ensures { Stays recorder.now pass.old pass.new }
{
    for _ in 0..pages {
        recorder.shared().render(rt, alloc, pass, 0)?;
    }
    Ok(())
}

/// A task as the job of a thread, with its pass.
#[derive(Drop)]
struct Turning {
    alloc: Global,
    pass: SharedPass,
    task: Task,
}

/// The pass that came back, and whether all was done.
#[derive(Drop)]
struct Turned {
    pass: SharedPass,
    done: bool,
}

impl Job for Turning {
    ghost use Rattle.shared_beside.specs.Beside.{IsLent};

    type Shared = PrometheusRecorder;

    type Answer = Turned;

    ghost ready = { λ recorder job. IsLent recorder job.pass };

    ghost gives = { λ recorder _ answer. IsLent recorder answer.pass };

    fn run<R: Wait>(self, rt: &R, shared: &PrometheusRecorder) -> Turned {
        let Turning {
            alloc,
            mut pass,
            task,
        } = self;
        let done = match task {
            Task::Register(from, count) => register(rt, alloc, shared, &mut pass, from, count),
            Task::Render(pages) => render(rt, alloc, shared, &mut pass, pages),
        };
        Turned {
            pass,
            done: done.is_ok(),
        }
    }
}

/// A job for each thread, with a pass that the root lent.
fn lend_all(
    alloc: Global,
    recorder: &PrometheusRecorder,
    root: &mut SharedPass,
    before: u64,
    each: u64,
    pages: u64,
) -> Result<Vec<Turning>, Memory>
    requires pass { IsPass recorder.now root.old }
    requires root { (view_of root.old).number ≡ 0 }
    requires few { root.old.splits ≡ 1 }
    ensures pass { IsPass recorder.now root.new }
    ensures root { (view_of root.new).number ≡ 0 }
    ensures lent { IfOk result (λ jobs. All (λ job. IsLent recorder.now job.pass) jobs.items) }
{
    let mut jobs = Vec::new(alloc);
    for thread in 0..9 {
        let pass = recorder.shared().split(root);
        let task = task_of(thread, before, each, pages);
        jobs.push(Turning { alloc, pass, task })?;
    }
    Ok(jobs)
}

/// Takes all passes back, and answers whether all was done.
fn take_all(recorder: &PrometheusRecorder, root: &mut SharedPass, mut turned: Vec<Turned>) -> bool
    requires pass { IsPass recorder.now root.old }
    requires root { (view_of root.old).number ≡ 0 }
    requires lent { All (λ one. IsLent recorder.now one.pass) turned.items }
    ensures { IsPass recorder.now root.new }
{
    let mut all = true;
    while let Some(one) = turned.pop() {
        let Turned { pass, done } = one;
        recorder.shared().join(root, pass);
        all = all && done;
    }
    all
}

/// Runs the tasks on a recorder, and answers how many counters there are then.
fn run_on<R: Threads + Wait + Sync>(
    rt: &R,
    alloc: Global,
    recorder: &PrometheusRecorder,
    root: &mut SharedPass,
    before: u64,
    each: u64,
    pages: u64,
) -> Result<usize>
    requires pass { IsPass recorder.now root.old }
    requires root { (view_of root.old).number ≡ 0 }
    requires few { root.old.splits ≡ 1 }
{
    register(rt, alloc, recorder, root, 0, before)?;
    let jobs = lend_all(alloc, recorder, root, before, each, pages)?;
    let turned = all_beside(rt, recorder, jobs)?;
    if !take_all(recorder, root, turned) {
        bail!("no memory");
    }
    let page = recorder.shared().render(rt, alloc, root, 0)?;
    Ok(counters_on(page.as_str()))
}

/// Runs the tasks on a new recorder. Here alone a recorder is dropped.
pub fn run<R: Threads + Wait + Sync>(
    rt: &R,
    alloc: Global,
    before: u64,
    each: u64,
    pages: u64,
) -> Result<usize> {
    let (recorder, mut root) = PrometheusBuilder::new(alloc)?.build_recorder_seen(alloc)?;
    run_on(rt, alloc, &recorder, &mut root, before, each, pages)
}
