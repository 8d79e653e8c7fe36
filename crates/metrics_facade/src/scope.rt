//! Which recorder is the current one: the local one of a scope, the one of the program, or none.

ghost use Rattle.std.specs.Prelude.{◌≡◌, None, Some, OnOk, IfErr, IfSome, option_copied};
ghost use Rattle.once_cell.specs.Once.{Agrees};
ghost use Rattle.std.specs.Fn.{FnOnceReturnsAtMut};

use crate::{Note, RecorderOnceCell, SetRecorderError};
use std::marker::Model;

/// The local recorder of a part of a program, where it has one. Contracts see it as that recorder, or as nothing.
#[derive(Drop)]
pub struct RecorderScope<'a, R> {
    current: Option<&'a R>,
}

impl<'a, R> Model for RecorderScope<'a, R> {
    ghost use Rattle.std.specs.Prelude.{Option};
    ghost use Rattle.std.specs.Option.{option_copied};

    ghost Value = { Option R };

    ghost view = { λ scope. option_copied scope.current };
}

impl<'a, R> RecorderScope<'a, R> {
    /// A scope without a local recorder.
    pub fn new() -> RecorderScope<'a, R>
        ensures { result ≡ None }
    {
        RecorderScope { current: None }
    }

    /// The local recorder, where there is one.
    pub fn current(&self) -> Option<&'a R>
        ensures { option_copied result ≡ self.now }
    {
        self.current
    }

    /// Sets or unsets the local recorder.
    fn set(&mut self, recorder: Option<&'a R>)
        ensures { self.new ≡ option_copied recorder.entry }
    {
        self.current = recorder;
    }
}

/// A local recorder that counts in place of a scope's own. As long as it lives it borrows that scope, which shows its
/// former recorder again once the guard has ended.
#[derive(Drop)]
pub struct LocalRecorderGuard<'s, R> {
    recorder: &'s R,
}

impl<'s, R> LocalRecorderGuard<'s, R> {
    ghost use Rattle.metrics_facade.specs.Scopes.{guarding_recorder};

    /// A scope with the guard's recorder, for guards and calls within. What becomes of it does not matter to the guard.
    pub fn scope(&self) -> RecorderScope<'_, R>
        ensures { result ≡ Some (guarding_recorder self.now) }
    {
        RecorderScope {
            current: Some(self.recorder),
        }
    }
}

ghost use Rattle.std.specs.Borrow.{sem};
ghost use Rattle.metrics_facade.specs.Scopes.{guarding_recorder, IsRestored, IsCurrent};

/// Sets the local recorder of a scope until the guard's end. The scope is lent to the guard until then, and then has the
/// recorder that it had at the call, whatever was done with the guard and its scope.
pub fn set_default_local_recorder<'s, 'a, R>(
    scope: &'s mut RecorderScope<'a, R>,
    recorder: &'a R,
) -> LocalRecorderGuard<'s, R>
    ensures* restored { sem 𝓛 (IsRestored R.row scope.entry) }
    ensures current { guarding_recorder result ≡ recorder.now }
{
    let _ = scope;
    LocalRecorderGuard { recorder }
}

/// Calls a function with the scope whose local recorder is this one, and sets the former one again.
pub fn with_local_recorder<'a, R, T, F: FnOnce(&mut RecorderScope<'a, R>) -> T>(
    scope: &mut RecorderScope<'a, R>,
    recorder: &'a R,
    f: F,
) -> T
    requires { F.IsAlwaysCallable f }
    ensures restored { scope.new ≡ scope.old }
    ensures answer { (last : _) × FnOnceReturnsAtMut F.FnOnce f (Some recorder.now) result last }
{
    let former = scope.current();
    scope.set(Some(recorder));
    let answer = f(scope);
    scope.set(former);
    answer
}

/// Puts the recorder of a program into its cell, where none is there, as [`RecorderOnceCell::set`] does.
pub fn set_global_recorder<R: Drop>(
    cell: &RecorderOnceCell<R>,
    note: &mut Note<R>,
    recorder: Box<R>,
) -> Result<(), SetRecorderError<Box<R>>>
    requires { note.old.cell ≡ cell.now }
    ensures cell { note.new.cell ≡ note.old.cell }
    ensures known { (there : R) × (note.new.known ≡ Some there) × Agrees note.old.known there }
    ensures ok { OnOk result ((note.new.known ≡ Some recorder.value) × (note.old.known ≡ None)) }
    ensures back { IfErr result (λ refused. refused.0.value ≡ recorder.value) }
{
    cell.set(note, recorder)
}

/// The recorder that counts: the local one of a scope, otherwise the one of the program, otherwise none.
#[derive(Clone, Copy)]
pub enum Current<'a, R> {
    /// The local recorder of the scope.
    Local(&'a R),
    /// The recorder of the program.
    Global(&'a R),
    /// There is none.
    Noop,
}

/// Calls a function with the recorder that counts. A note that knows a recorder keeps it, and then one counts.
pub fn with_recorder<'c, R, T, F: FnOnce(Current<'c, R>) -> T>(
    cell: &'c RecorderOnceCell<R>,
    note: &mut Note<R>,
    scope: &RecorderScope<'c, R>,
    f: F,
) -> T
    requires cell { note.old.cell ≡ cell.now }
    requires callable { F.IsAlwaysCallable f }
    ensures cell { note.new.cell ≡ note.old.cell }
    ensures known { IfSome note.old.known (λ there. note.new.known ≡ Some there) }
    ensures answer { (current : _) × IsCurrent scope.now note.new.known current
        × F.post f current result }
{
    match scope.current() {
        Some(recorder) => f(Current::Local(recorder)),
        None => match cell.try_load(note) {
            Some(recorder) => f(Current::Global(recorder)),
            None => f(Current::Noop),
        },
    }
}
