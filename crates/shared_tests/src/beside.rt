//! A shared recorder in eight threads beside each other.

ghost use Rattle.std.specs.Prelude.{◌≡◌, All, IfOk};
ghost use Rattle.shared_turns.specs.Passes.{view_of};
ghost use Rattle.shared_recorder.specs.Recorder.{IsPass, Stays};
ghost use Rattle.shared_beside.specs.Beside.{IsLent};

use metrics_core::{Key, KeyName, SharedString};
use prom_exporter::PrometheusBuilder;
use shared_recorder::{SharedPass, SharedRecorder};
use std::alloc::Global;
use std::sync::Wait;
use std::test::Fail;
use std::thread::Threads;
use thread_jobs::{Job, all_beside};

/// The names of the counters of which each thread has one.
const OWN: [&'static str; 8] = ["a", "b", "c", "d", "e", "f", "g", "h"];

/// The lines of these counters on a page.
const LINES: [&'static str; 8] = ["a 0", "b 0", "c 0", "d 0", "e 0", "f 0", "g 0", "h 0"];

/// Registers the counter `all` and one of the thread's own, describes the former, and makes a page. Answers the number of `all`.
fn make_entries<R: Wait>(
    rt: &R,
    alloc: Global,
    recorder: &SharedRecorder,
    pass: &mut SharedPass,
    own: &Key,
) -> Option<u64>
    requires { IsPass recorder.now pass.old }
    ensures { Stays recorder.now pass.old pass.new }
{
    let all = Key::from_static_name("all");
    let id = recorder.register_counter(rt, alloc, pass, &all).ok()?;
    recorder.register_counter(rt, alloc, pass, own).ok()?;
    let name = KeyName::from_const_str("all");
    let text = SharedString::const_str("Told once.");
    recorder
        .describe_counter(rt, alloc, pass, name, None, text)
        .ok()?;
    recorder.render(rt, alloc, pass, 0).ok()?;
    Some(id.number)
}

/// The work of a thread, by a pass of its own.
#[derive(Drop)]
struct Work {
    alloc: Global,
    pass: SharedPass,
    own: Key,
}

/// What came of it: the pass, and the number of the counter `all`.
#[derive(Drop)]
struct Worked {
    pass: SharedPass,
    number: Option<u64>,
}

impl Job for Work {
    ghost use Rattle.shared_beside.specs.Beside.{IsLent};

    type Shared = SharedRecorder;

    type Answer = Worked;

    ghost ready = { λ recorder job. IsLent recorder job.pass };

    ghost gives = { λ recorder _ answer. IsLent recorder answer.pass };

    fn run<R: Wait>(self, rt: &R, shared: &SharedRecorder) -> Worked {
        let Work {
            alloc,
            mut pass,
            own,
        } = self;
        let number = make_entries(rt, alloc, shared, &mut pass, &own);
        Worked { pass, number }
    }
}

/// A job for each thread, with a pass that the root lent.
fn lend_all(
    alloc: Global,
    recorder: &SharedRecorder,
    root: &mut SharedPass,
) -> Result<Vec<Work>, Fail>
    requires pass { IsPass recorder.now root.old }
    requires root { (view_of root.old).number ≡ 0 }
    requires few { root.old.splits ≡ 0 }
    ensures pass { IsPass recorder.now root.new }
    ensures root { (view_of root.new).number ≡ 0 }
    ensures lent { IfOk result (λ jobs. All (λ job. IsLent recorder.now job.pass) jobs.items) }
{
    let mut jobs = Vec::new(alloc);
    for name in &OWN {
        let pass = recorder.split(root);
        let own = Key::from_static_name(*name);
        jobs.push(Work { alloc, pass, own })?;
    }
    Ok(jobs)
}

/// Takes all passes back, and answers whether each thread was given the number 0 for `all`.
fn take_all(recorder: &SharedRecorder, root: &mut SharedPass, mut answers: Vec<Worked>) -> bool
    requires pass { IsPass recorder.now root.old }
    requires root { (view_of root.old).number ≡ 0 }
    requires lent { All (λ answer. IsLent recorder.now answer.pass) answers.items }
    ensures pass { IsPass recorder.now root.new }
{
    let mut agree = true;
    while let Some(answer) = answers.pop() {
        let Worked { pass, number } = answer;
        recorder.join(root, pass);
        agree = agree && number == Some(0);
    }
    agree
}

/// Whether a page has a line.
fn has_line(page: &str, line: &str) -> bool {
    page.lines().any(|it| it == line)
}

/// Whether a page shows the counter `all` with its one description, and behind it that of each thread, in any order.
fn shows_all(page: &str) -> bool {
    for line in LINES {
        if !has_line(page, line) {
            return false;
        }
    }
    page.len() == 224 && page.starts_with("# HELP all Told once.\n# TYPE all counter\nall 0\n\n")
}

/// Whether the threads agree on what they registered, no entry is lost, and the page has all of it.
fn threads_agree<R: Threads + Wait + Sync>(
    rt: &R,
    alloc: Global,
    recorder: &SharedRecorder,
    root: &mut SharedPass,
) -> Result<bool, Fail>
    requires pass { IsPass recorder.now root.old }
    requires root { (view_of root.old).number ≡ 0 }
    requires few { root.old.splits ≡ 0 }
    ensures { IsPass recorder.now root.new }
{
    let jobs = lend_all(alloc, recorder, root)?;
    let answers = all_beside(rt, recorder, jobs)?;
    let agree = take_all(recorder, root, answers);
    let page = recorder.render(rt, alloc, root, 0)?;
    Ok(agree && root.calls() == 33 && shows_all(page.as_str()))
}

#[test]
fn eight_threads_agree(rt: HostRuntime) -> Result<(), Fail> {
    let alloc = rt.alloc();
    let state = PrometheusBuilder::new(alloc)?.build_state(alloc)?;
    let (recorder, mut root) = SharedRecorder::new(alloc, state)?;
    let agree = threads_agree(&rt, alloc, &recorder, &mut root);
    recorder.end(&rt, root);
    assert!(rt; agree?);
    Ok(())
}
