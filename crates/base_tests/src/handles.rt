//! Handles, recorders and scopes.

ghost use Rattle.std.specs.Prelude.{◌≡◌, ⊤, Some};
ghost use Rattle.metrics_core.specs.Calls.{counter_step};

use metrics_core::{Fixed, Key, Level, Memory, Metadata, SharedString};
use metrics_facade::*;
use std::alloc::Global;
use std::sync::{Arc, Wait};
use std::test::Fail;
use std::time::Duration;

/// A counter whose passes are its value.
#[derive(Drop)]
struct Counting;

impl CounterFn for Counting {
    type Pass = u64;

    ghost is_pass = { λ _ _. ⊤ };

    ghost may_follow = { λ _ before call after. after ≡ counter_step before call };

    fn increment(&self, pass: &mut u64, value: u64) {
        *pass = pass.wrapping_add(value);
    }

    fn absolute(&self, pass: &mut u64, value: u64) {
        *pass = (*pass).max(value);
    }
}

/// What a pass holds after the calls of a handle, of a copy of it, and of a handle that does nothing.
fn passes(handle: &Counter<Counting>) -> Result<[u64; 3], Memory> {
    let mut pass = u64::MAX;
    handle.increment(&mut pass, 3);
    let first = pass;
    handle.clone()?.absolute(&mut pass, 7);
    let second = pass;
    Counter::<Counting>::noop().increment(&mut pass, 1);
    Ok([first, second, pass])
}

/// The same for a new handle. Here alone it is dropped.
fn passes_of_new(alloc: Global) -> Result<[u64; 3], Memory> {
    let handle = Counter::from_arc(Arc::new(alloc, Counting)?);
    passes(&handle)
}

#[test]
fn a_handle_makes_the_calls_of_its_cell(rt: HostRuntime) -> Result<(), Fail> {
    assert!(rt; passes_of_new(rt.alloc())? == [2, 7, 7]);
    Ok(())
}

#[test]
fn values_out_of_range_are_refused(rt: HostRuntime) {
    let gauge = Gauge::<NoopCell>::noop();
    let long = Duration::from_secs(10_000_000_000);
    let moved = [
        gauge.set(&mut (), long),
        gauge.increment(&mut (), 5u8),
        gauge.decrement(&mut (), Fixed(i64::MIN)),
    ];
    let histogram = Histogram::<NoopCell>::noop();
    let recorded = [
        histogram.record(&rt, rt.alloc(), &mut (), long, 0),
        histogram.record_many(&rt, rt.alloc(), &mut (), 5u8, 0, 2),
    ];
    assert!(rt; moved == [Err(OutOfRange), Ok(()), Ok(())]);
    assert!(rt; recorded == [Err(RecordFault::OutOfRange), Ok(())]);
}

/// Whether a recorder gives a counter.
fn gives_a_counter<R: Wait, T: Recorder>(rt: &R, alloc: Global, recorder: &T) -> bool
where
    T::Counter: Drop,
{
    let metadata = Metadata::new("tests", Level::INFO, None);
    let key = Key::from_static_name("hits");
    recorder
        .register_counter(rt, alloc, &key, &metadata)
        .is_ok()
}

#[test]
fn recorders_behind_references(rt: HostRuntime) -> Result<(), Fail> {
    let alloc = rt.alloc();
    let mut recorder = NoopRecorder;
    assert!(rt; gives_a_counter(&rt, alloc, &&recorder));
    assert!(rt; gives_a_counter(&rt, alloc, &&mut recorder));
    assert!(rt; gives_a_counter(&rt, alloc, &Box::new(alloc, NoopRecorder)?));
    assert!(rt; gives_a_counter(&rt, alloc, &Arc::new(alloc, NoopRecorder)?));
    Ok(())
}

/// The number that counts, with 100 added to that of the program.
fn number(current: Current<'_, u64>) -> u64 {
    match current {
        Current::Local(number) => *number,
        Current::Global(number) => number.wrapping_add(100),
        Current::Noop => 0,
    }
}

/// Whether the number that is set first stays, and is what a scope without a local one shows.
fn first_stays(alloc: Global, cell: &RecorderOnceCell<u64>) -> Result<bool, Memory> {
    let one = Box::new(alloc, 1)?;
    let mut note = cell.note();
    let empty = cell.try_load(&mut note).is_none();
    let set = set_global_recorder(cell, &mut note, one).is_ok();
    let mut fresh = cell.note();
    let shown = with_recorder(cell, &mut fresh, &RecorderScope::new(), number);
    Ok(empty && set && refuses(cell, Box::new(alloc, 2)?) && shown == 101)
}

/// Whether a cell gives a number back.
fn refuses(cell: &RecorderOnceCell<u64>, other: Box<u64>) -> bool {
    let number = *other;
    match cell.set(&mut cell.note(), other) {
        Ok(()) => false,
        Err(refused) => *refused.into_inner() == number,
    }
}

/// Whether it holds of a new cell. Here alone a cell is dropped.
fn first_stays_in_new(alloc: Global) -> Result<bool, Memory> {
    let cell = RecorderOnceCell::new(alloc);
    first_stays(alloc, &cell)
}

#[test]
fn the_first_recorder_stays(rt: HostRuntime) -> Result<(), Fail> {
    assert!(rt; first_stays_in_new(rt.alloc())?);
    Ok(())
}

/// The number of the local recorder of a scope.
fn local(scope: &RecorderScope<'_, u64>) -> u64 {
    scope.current().copied().unwrap_or(0)
}

/// The recorders that count within two guards, one in the other, and in the outer one after the end of the inner.
fn in_guards<'a, R: Copy>(
    scope: &mut RecorderScope<'a, R>,
    outer_recorder: &'a R,
    inner_recorder: &'a R,
) -> (Option<R>, Option<R>)
    ensures restored { scope.new ≡ scope.old }
    ensures inner { result.0 ≡ Some inner_recorder.now }
    ensures outer { result.1 ≡ Some outer_recorder.now }
{
    let outer = set_default_local_recorder(scope, outer_recorder);
    let mut within = outer.scope();
    let inner = set_default_local_recorder(&mut within, inner_recorder);
    let innermost = inner.scope().current().copied();
    drop(inner);
    (innermost, within.current().copied())
}

/// The number that counts in a call within a guard, and the one that counts in the guard after the call.
fn called_in_guard<'a>(
    scope: &mut RecorderScope<'a, u64>,
    guarding: &'a u64,
    called: &'a u64,
) -> (u64, u64) {
    let guard = set_default_local_recorder(scope, guarding);
    let mut within = guard.scope();
    let number = with_local_recorder(&mut within, called, |innermost| local(innermost));
    (number, local(&within))
}

#[test]
fn the_innermost_recorder_counts(rt: HostRuntime) {
    let first = 1u64;
    let second = 2u64;
    let mut scope = RecorderScope::new();
    let guarded = in_guards(&mut scope, &first, &second);
    let between = local(&scope);
    let called = called_in_guard(&mut scope, &first, &second);
    assert!(rt; guarded == (Some(2), Some(1)) && called == (2, 1));
    assert!(rt; between == 0 && local(&scope) == 0);
}

fn crosses_threads<T: Send + Sync>() {}

#[test]
fn handles_and_cells_cross_threads() {
    crosses_threads::<Counter<NoopCell>>();
    crosses_threads::<Gauge<NoopCell>>();
    crosses_threads::<Histogram<NoopCell>>();
    crosses_threads::<RecorderOnceCell<NoopRecorder>>();
    crosses_threads::<SharedString>();
    crosses_threads::<Key>();
}
