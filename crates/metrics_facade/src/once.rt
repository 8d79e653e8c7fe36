//! A cell for the recorder of a whole program, which is set once.

ghost use Rattle.std.specs.Prelude.{◌≡◌, None, Some, OnOk, IfErr};
ghost use Rattle.once_cell.specs.Once.{Agrees};
ghost use Rattle.metrics_facade.specs.Scopes.{Loads};

use once_cell::race::{Note, OnceBox};
use std::alloc::Global;
use std::error::Error;
use std::fmt;
use std::marker::Model;

/// A cell for one recorder, which any thread may read and which is set once. Contracts see it as its name, by which
/// the notes of this cell are known.
#[derive(Drop)]
pub struct RecorderOnceCell<R> {
    recorder: OnceBox<R>,
}

impl<R> Model for RecorderOnceCell<R> {
    ghost use Rattle.std.specs.Prelude.{ℕ};
    ghost use Rattle.once_cell.specs.Once.{cell_name};

    ghost Value = { ℕ };

    ghost view = { λ cell. cell_name cell.recorder };
}

impl<R> RecorderOnceCell<R> {
    /// A cell without a recorder.
    pub fn new(alloc: Global) -> RecorderOnceCell<R> {
        RecorderOnceCell {
            recorder: OnceBox::new(alloc),
        }
    }

    /// A note of this cell that knows nothing yet. It takes no memory.
    pub fn note(&self) -> Note<R>
        ensures cell { result.cell ≡ self.now }
        ensures known { result.known ≡ None }
    {
        self.recorder.note()
    }

    /// The recorder, where there is one. A note that knows a recorder always gets that one.
    pub fn try_load<'a>(&'a self, note: &mut Note<R>) -> Option<&'a R>
        requires { note.old.cell ≡ self.now }
        ensures cell { note.new.cell ≡ note.old.cell }
        ensures value { Loads note.old.known note.new.known result }
    {
        self.recorder.get_as(note)
    }
}

impl<R: Drop> RecorderOnceCell<R> {
    /// Puts a recorder into the cell, where none is there, and otherwise hands it back. The note then knows the
    /// recorder of the cell. It takes no memory.
    pub fn set(&self, note: &mut Note<R>, recorder: Box<R>) -> Result<(), SetRecorderError<Box<R>>>
        requires { note.old.cell ≡ self.now }
        ensures cell { note.new.cell ≡ note.old.cell }
        ensures known { (there : R) × (note.new.known ≡ Some there) × Agrees note.old.known there }
        ensures ok { OnOk result ((note.new.known ≡ Some recorder.value) × (note.old.known ≡ None)) }
        ensures back { IfErr result (λ refused. refused.0.value ≡ recorder.value) }
    {
        self.recorder
            .set_as(recorder, note)
            .map_err(SetRecorderError)
    }
}

/// A recorder was there already. It hands back the one that was to be set.
#[derive(Drop)]
pub struct SetRecorderError<R>(pub R);

impl<R> SetRecorderError<R> {
    /// The recorder that was to be set.
    pub fn into_inner(self) -> R
        ensures { result ≡ self.0 }
    {
        let SetRecorderError(recorder) = self;
        recorder
    }
}

impl<R> fmt::Display for SetRecorderError<R> {
    ghost use Rattle.std.specs.Prelude.{Some, codes};

    ghost output = { λ _. Some (codes "attempted to set a recorder after the metrics system was already initialized") };

    fn fmt<W: fmt::Write>(&self, f: &mut fmt::Formatter<W>) -> fmt::Result {
        write!(
            f,
            "attempted to set a recorder after the metrics system was already initialized"
        )
    }
}

impl<R> fmt::Debug for SetRecorderError<R> {
    fn fmt<W: fmt::Write>(&self, f: &mut fmt::Formatter<W>) -> fmt::Result {
        f.debug_struct("SetRecorderError").finish_non_exhaustive()
    }
}

impl<R: Drop> Error for SetRecorderError<R> {}
