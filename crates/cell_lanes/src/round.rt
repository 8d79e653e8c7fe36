//! Rounds of lanes that run side by side.
ghost use Rattle.std.specs.Prelude.{◌≡◌, ◌<◌, ◌≤◌, ℕ, [], take, length, vec_len, vec_capacity, OnOk, OnErr};
ghost use mathlib.Core.Option.{some};
ghost use lib.ListN.{get_elem?};
ghost use Rattle.legal_history.specs.Order.{times};
ghost use Rattle.cell_lanes.specs.declared.lane.Line.{Line};
ghost use Rattle.cell_lanes.specs.Lines.{AreDone, LaneText};
ghost use Rattle.cell_lanes.specs.declared.lane.Job.{Job};
ghost use Rattle.cell_lanes.specs.Things.{root_of, fixed_of};
ghost use Rattle.cell_lanes.specs.Lanes.{Each, Roots, Stays, Owns, Home, SettledAt, AtRest, Lends, Takes, Same, Grew, AllFit, Named, AllDone, SomeLeft, Unfinished, SlotsFit, SlotsKept, Fresh, SlotsMade, LineMade, NoneMade, HasSlot, LineFit, LineTaken, LinesTaken, AllTaken, LaneReady, LaneRan, cells_of, given, JobsFit, JobsFresh, JobsRan, lent_on, all_given, done_of};

use crate::hook::LaneHook;
use crate::lane::{Job, Lane, LaneLines, Line, Slot};
use crate::lenders::Lenders;
use metrics_core::Memory;
use side_by_side::for_each_beside;
use std::alloc::Global;
use std::sync::Wait;
use std::thread::Threads;

/// Lends a pass of each thing that a lane names, until one is refused.
fn lend_lane<S: Lenders>(
    alloc: Global,
    shared: &mut S,
    named: &[usize],
    slots: &mut Vec<Slot<S::Lent>>,
) -> Result<(), Memory>
    requires roots { Roots root_of (S.things shared.old) }
    requires named { (s j : ℕ) → get_elem? named.now s ≡ some j → j < length (S.things shared.old) }
    requires room { (slots.old.items ≡ []) × (vec_len slots.old ≡ 0)
        × (length named.now ≤ vec_capacity slots.old) }
    ensures many { length (S.things shared.new) ≡ length (S.things shared.old) }
    ensures frame { S.frame shared.new ≡ S.frame shared.old }
    ensures lends { Each (λ j. Lends root_of (Stays S.lasts fixed_of)
        (times j (cells_of slots.new.items))) (S.things shared.old) (S.things shared.new) }
    ensures some_cells { cells_of slots.new.items ≡ take (length slots.new.items) named.now }
    ensures slots { SlotsFit (Owns fixed_of S.owns) (S.things shared.new) slots.new.items
        × Fresh S.knows slots.new.items }
    ensures ok { OnOk result (cells_of slots.new.items ≡ named.now) }
{
    for cell in named {
        match shared.lend(alloc, *cell) {
            Ok(lent) => slots.push_reserved(Slot { cell: *cell, lent }),
            Err(refused) => return Err(refused),
        }
    }
    Ok(())
}

/// Lends all lanes their passes, until one is refused.
fn lend_all<S: Lenders, L: LaneLines<Call = S::Call> + Sync>(
    alloc: Global,
    shared: &mut S,
    lanes: &[Lane<L>],
    jobs: &mut Vec<Job<S::Lent>>,
) -> Result<(), Memory>
    requires roots { Roots root_of (S.things shared.old) }
    requires fit { AllFit (length (S.things shared.old)) lanes.now }
    requires room { (jobs.old.items ≡ []) × (vec_len jobs.old ≡ 0)
        × (length lanes.now ≤ vec_capacity jobs.old) }
    ensures many { length (S.things shared.new) ≡ length (S.things shared.old) }
    ensures frame { S.frame shared.new ≡ S.frame shared.old }
    ensures lends { Each (λ j. Lends root_of (Stays S.lasts fixed_of) (lent_on j jobs.new.items))
        (S.things shared.old) (S.things shared.new) }
    ensures fit { JobsFit (Owns fixed_of S.owns) (S.things shared.new) jobs.new.items }
    ensures fresh { JobsFresh S.knows lanes.now jobs.new.items
        × (length jobs.new.items ≤ length lanes.now) }
    ensures ok { OnOk result ((length jobs.new.items ≡ length lanes.now)
        × ((l : ℕ) (a : LaneText S.Call) (x : Job S.Lent) → get_elem? lanes.now l ≡ some a
        → get_elem? jobs.new.items l ≡ some x → cells_of x.slots.items ≡ a.cells)) }
{
    for lane in lanes {
        let mut slots = Vec::with_capacity(alloc, lane.cells().len())?;
        let lent = lend_lane(alloc, shared, lane.cells(), &mut slots);
        jobs.push_reserved(Job {
            slots,
            done: 0,
            is_done: false,
        });
        match lent {
            Ok(()) => {}
            Err(refused) => return Err(refused),
        }
    }
    Ok(())
}

/// Makes the call of a line with the pass that it goes through. A line on no thing changes nothing.
fn make_line<R: Wait, S: Lenders>(
    rt: &R,
    alloc: Global,
    slots: &mut [Slot<S::Lent>],
    line: &Line<S::Call>,
) -> Result<(), Memory>
    requires slot { HasSlot (length slots.old) line.now }
    requires taken { LineTaken S.owns S.takes slots.old line.now }
    ensures kept { SlotsKept S.owns slots.old slots.new }
    ensures made { OnOk result (LineMade S.knows S.stands_as line.now slots.old slots.new) }
    ensures refused { OnErr result (NoneMade S.knows S.stands_as slots.old slots.new) }
{
    let Some(index) = line.slot else {
        return Ok(());
    };
    let slot = &mut slots[index];
    S::make(rt, alloc, &mut slot.lent, &line.call)
}

/// Makes the calls of a lane, until one is refused, and answers how many of its lines it has done, and whether these are all.
fn run_slots<R: Wait, H: LaneHook, S: Lenders, L: LaneLines<Call = S::Call> + Sync>(
    rt: &R,
    alloc: Global,
    hook: &H,
    lane: &Lane<L>,
    slots: &mut [Slot<S::Lent>],
) -> (usize, bool)
    requires fresh { Fresh S.knows slots.old }
    requires lines { LineFit (length slots.old) lane.now.lines }
    requires taken { LinesTaken S.owns S.takes slots.old lane.now.lines }
    ensures kept { SlotsKept S.owns slots.old slots.new }
    ensures made { SlotsMade S.knows S.stands_as (take result.0 lane.now.lines) slots.new }
    ensures done { AreDone lane.now.lines result.0 result.1 }
{
    let number = lane.number();
    let lines = lane.lines();
    let mut walk = lines.walk();
    let mut done = 0;
    while let Some(line) = lines.next(&mut walk) {
        hook.before(rt, number, done);
        let outcome = make_line::<R, S>(rt, alloc, slots, &line);
        hook.after(rt, number, done);
        match outcome {
            Ok(()) => {}
            Err(_) => return (done, false),
        }
        done += 1;
    }
    (done, true)
}

/// Makes the calls of a lane.
fn run_job<R: Wait, H: LaneHook, S: Lenders, L: LaneLines<Call = S::Call> + Sync>(
    rt: &R,
    alloc: Global,
    hook: &H,
    lane: &Lane<L>,
    job: &mut Job<S::Lent>,
)
    requires ready { LaneReady S.knows S.owns S.takes lane.now job.old }
    ensures ran { LaneRan S.knows S.stands_as S.owns lane.now job.old job.new }
{
    let slots = job.slots.as_mut_slice();
    let (done, is_done) = run_slots::<R, H, S, L>(rt, alloc, hook, lane, slots);
    job.done = done;
    job.is_done = is_done;
}

/// Runs all lanes side by side, each in a thread of its own with the passes of its job.
fn run_all<
    R: Threads + Wait + Sync,
    H: LaneHook + Sync,
    S: Lenders,
    L: LaneLines<Call = S::Call> + Sync,
>(rt: &R, alloc: Global, hook: &H, jobs: &mut [Job<S::Lent>], lanes: &[Lane<L>])
    requires len { length jobs.old ≡ length lanes.now }
    requires ready { (l : ℕ) (a : LaneText S.Call) (x : Job S.Lent)
        → get_elem? lanes.now l ≡ some a → get_elem? jobs.old l ≡ some x
        → LaneReady S.knows S.owns S.takes a x }
    ensures ran { (l : ℕ) (a : LaneText S.Call) (x y : Job S.Lent)
        → get_elem? lanes.now l ≡ some a → get_elem? jobs.old l ≡ some x
        → get_elem? jobs.new l ≡ some y → LaneRan S.knows S.stands_as S.owns a x y }
{
    for_each_beside(
        rt,
        jobs,
        &|l: usize, job: &mut Job<S::Lent>|
            requires { (l < length lanes.now)
                × ((a : LaneText S.Call) → get_elem? lanes.now l ≡ some a
                → LaneReady S.knows S.owns S.takes a job.now) }
            ensures { (a : LaneText S.Call) → get_elem? lanes.entry.now l ≡ some a
                → LaneRan S.knows S.stands_as S.owns a job.entry.now job.exit.now }
        { run_job::<R, H, S, L>(rt, alloc, hook, &lanes[l], job) },
    );
}

/// Whether each lane has made all its calls. The refusal that one of them had was want of memory.
fn all_done<L: LaneLines, P>(lanes: &[Lane<L>], jobs: &[Job<P>]) -> Result<(), Memory>
    requires each { length jobs.now ≡ length lanes.now }
    requires done { (l : ℕ) (a : LaneText L.Call) (x : Job P) → get_elem? lanes.now l ≡ some a
        → get_elem? jobs.now l ≡ some x → AreDone a.lines x.done x.is_done }
    ensures ok { OnOk result (AllDone lanes.now (done_of jobs.now)) }
    ensures refused { OnErr result (SomeLeft lanes.now (done_of jobs.now)) }
{
    for l in 0..lanes.len() {
        if !jobs[l].is_done {
            return Err(Memory);
        }
    }
    Ok(())
}

/// Lends all lanes their passes, and runs them. Where lending was refused, no lane runs.
fn lend_and_run<
    R: Threads + Wait + Sync,
    H: LaneHook + Sync,
    S: Lenders,
    L: LaneLines<Call = S::Call> + Sync,
>(
    rt: &R,
    alloc: Global,
    hook: &H,
    shared: &mut S,
    lanes: &[Lane<L>],
    jobs: &mut Vec<Job<S::Lent>>,
) -> Result<(), Memory>
    requires roots { Roots root_of (S.things shared.old) }
    requires fit { AllFit (length (S.things shared.old)) lanes.now }
    requires taken { AllTaken fixed_of S.takes (S.things shared.old) lanes.now }
    requires room { (jobs.old.items ≡ []) × (vec_len jobs.old ≡ 0)
        × (length lanes.now ≤ vec_capacity jobs.old) }
    ensures kept { (length (S.things shared.new) ≡ length (S.things shared.old))
        × (S.frame shared.new ≡ S.frame shared.old) }
    ensures lends { Each (λ j. Lends root_of (Stays S.lasts fixed_of) (lent_on j jobs.new.items))
        (S.things shared.old) (S.things shared.new) }
    ensures fit { JobsFit (Owns fixed_of S.owns) (S.things shared.new) jobs.new.items
        × (length jobs.new.items ≤ length lanes.now) }
    ensures ran { JobsRan S.knows S.stands_as lanes.now jobs.new.items }
    ensures ok { OnOk result (AllDone lanes.now (done_of jobs.new.items)) }
    ensures refused { OnErr result (Unfinished lanes.now (done_of jobs.new.items)) }
{
    match lend_all(alloc, shared, lanes, jobs) {
        Ok(()) => {}
        Err(refused) => return Err(refused),
    }
    run_all::<R, H, S, L>(rt, alloc, hook, jobs.as_mut_slice(), lanes);
    all_done(lanes, jobs.as_slice())
}

/// Takes back the passes of the lane with this number.
fn take_lane<S: Lenders>(shared: &mut S, lane: usize, mut slots: Vec<Slot<S::Lent>>)
    requires roots { Roots root_of (S.things shared.old) }
    requires slots { SlotsFit (Owns fixed_of S.owns) (S.things shared.old) slots.items }
    ensures many { length (S.things shared.new) ≡ length (S.things shared.old) }
    ensures frame { S.frame shared.new ≡ S.frame shared.old }
    ensures takes { Each (λ j. Takes root_of (Stays S.lasts fixed_of)
        (given S.knows j lane slots.items)) (S.things shared.old) (S.things shared.new) }
{
    while let Some(slot) = slots.pop() {
        let Slot { cell, lent } = slot;
        shared.take_back(cell, lent);
    }
}

/// Takes back the passes of all lanes.
fn take_all<S: Lenders>(shared: &mut S, mut jobs: Vec<Job<S::Lent>>)
    requires roots { Roots root_of (S.things shared.old) }
    requires fit { JobsFit (Owns fixed_of S.owns) (S.things shared.old) jobs.items }
    ensures many { length (S.things shared.new) ≡ length (S.things shared.old) }
    ensures frame { S.frame shared.new ≡ S.frame shared.old }
    ensures takes { Each (λ j. Takes root_of (Stays S.lasts fixed_of)
        (all_given S.knows j 0 jobs.items)) (S.things shared.old) (S.things shared.new) }
{
    while let Some(job) = jobs.pop() {
        let Job { slots, .. } = job;
        take_lane(shared, jobs.len(), slots);
    }
}

/// Settles each thing that a lane names.
fn settle_lane<R: Wait, S: Lenders>(rt: &R, shared: &mut S, named: &[usize])
    requires home { Roots root_of (S.things shared.old) × Home root_of (S.things shared.old) }
    requires named { (s j : ℕ) → get_elem? named.now s ≡ some j → j < length (S.things shared.old) }
    ensures same { S.things shared.new ≡ S.things shared.old }
    ensures frame { S.frame shared.new ≡ S.frame shared.old }
    ensures settled { (s j : ℕ) → get_elem? named.now s ≡ some j
        → SettledAt root_of (S.things shared.old) j }
{
    for cell in named {
        shared.settle(rt, *cell);
    }
}

/// Settles each thing that some lane names. A thing that two lanes name is settled twice.
fn settle_named<R: Wait, S: Lenders, L: LaneLines>(rt: &R, shared: &mut S, lanes: &[Lane<L>])
    requires home { Roots root_of (S.things shared.old) × Home root_of (S.things shared.old) }
    requires fit { AllFit (length (S.things shared.old)) lanes.now }
    ensures same { S.things shared.new ≡ S.things shared.old }
    ensures frame { S.frame shared.new ≡ S.frame shared.old }
    ensures settled { (j : ℕ) → Named j lanes.now → SettledAt root_of (S.things shared.old) j }
{
    for lane in lanes {
        settle_lane(rt, shared, lane.cells());
    }
}

/// Runs lanes side by side, each in a thread of its own. Each history grows by the calls that the lanes made on it, in one order
/// in which each lane's calls stand as the lane made them; the orders of two histories have nothing to do with each other.
/// All passes are back at the end.
///
/// A lane that is refused memory makes no further call, and the answer is then `Memory`, once all lanes have returned.
/// Where a pass can't be lent, no lane runs. So after `Memory` a lane has calls left, or none has made any.
pub fn run_lanes<
    R: Threads + Wait + Sync,
    H: LaneHook + Sync,
    S: Lenders,
    L: LaneLines<Call = S::Call> + Sync,
>(rt: &R, alloc: Global, hook: &H, shared: &mut S, lanes: &[Lane<L>]) -> Result<(), Memory>
    requires roots { Roots root_of (S.things shared.old) × AtRest root_of (S.things shared.old) }
    requires fit { AllFit (length (S.things shared.old)) lanes.now }
    requires taken { AllTaken fixed_of S.takes (S.things shared.old) lanes.now }
    ensures many { length (S.things shared.new) ≡ length (S.things shared.old) }
    ensures frame { S.frame shared.new ≡ S.frame shared.old }
    ensures roots { Roots root_of (S.things shared.new) × AtRest root_of (S.things shared.new) }
    ensures stays { Each (λ j. Stays S.lasts fixed_of) (S.things shared.old) (S.things shared.new) }
    ensures grew { (done : ℕ → ℕ) × OnOk result (AllDone lanes.now done)
        × Each (Grew root_of S.stands_as lanes.now done) (S.things shared.old) (S.things shared.new)
        × OnErr result (Unfinished lanes.now done) }
{
    let mut jobs = match Vec::with_capacity(alloc, lanes.len()) {
        Ok(jobs) => jobs,
        Err(_) => return Err(Memory),
    };
    let outcome = lend_and_run::<R, H, S, L>(rt, alloc, hook, shared, lanes, &mut jobs);
    take_all(shared, jobs);
    settle_named(rt, shared, lanes);
    outcome
}
