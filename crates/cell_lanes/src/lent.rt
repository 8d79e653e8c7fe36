//! A cell that was lent, with the pass by which calls are made.
ghost use Rattle.std.specs.Prelude.{◌≡◌};
ghost use Rattle.std.specs.Arc.{arc_value};
ghost use Rattle.cell_lanes.specs.Things.{Lease};

use crate::cell::SharedCell;
use metrics_core::Memory;
use std::alloc::Global;
use std::marker::Model;
use std::sync::{Arc, Wait};

/// A cell in an `Arc`, with a pass of it. A contract sees it as the cell and what the pass knows.
#[derive(Drop)]
pub struct LentCell<C: SharedCell> {
    pub(crate) cell: Arc<C>,
    pub(crate) pass: C::Pass,
    ghost own: { C.is_pass (arc_value cell) pass } by { C.is_one_fact (arc_value cell) pass },
}

impl<C: SharedCell> Model for LentCell<C> {
    ghost use Rattle.std.specs.Arc.{arc_value};
    ghost use Rattle.cell_lanes.specs.Things.{Lease};

    ghost Value = { Lease C.Entry C };

    ghost view = { λ l. record { cell = arc_value l.cell; knows = C.view l.pass } };
}

impl<C: SharedCell> LentCell<C> {
    ghost use Rattle.std.specs.Prelude.{OnOk, OnErr};
    ghost use Rattle.cell_lanes.specs.Calls.{Made};

    /// What is lent of a cell, from the cell and a pass of it.
    pub fn new(cell: Arc<C>, pass: C::Pass) -> LentCell<C>
        requires { C.is_pass (arc_value cell) pass }
        ensures { result ≡ record { cell = arc_value cell; knows = C.view pass } }
    {
        LentCell { cell, pass }
    }

    /// Makes a call. A refused call changes nothing.
    pub fn make<R: Wait>(&mut self, rt: &R, alloc: Global, call: &C::Call) -> Result<(), Memory>
        ensures made { OnOk result (Made (C.stands_as call.now) self.old.knows self.new.knows) }
        ensures refused { OnErr result (self.new.knows ≡ self.old.knows) }
        ensures cell { self.new.cell ≡ self.old.cell }
    {
        self.cell.make(rt, alloc, &mut self.pass, call)
    }

    /// The pass alone.
    pub fn into_pass(self) -> C::Pass
        ensures { C.is_pass self.cell result × (C.view result ≡ self.knows) }
    {
        let LentCell { cell: _, pass } = self;
        pass
    }
}
