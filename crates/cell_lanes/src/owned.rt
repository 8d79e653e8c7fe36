//! A cell as a state keeps it, with its root pass, and how it is lent to lanes.
ghost use Rattle.std.specs.Prelude.{◌≡◌, ◌-◌, ℕ, true};
ghost use Rattle.cell_lanes.specs.Owned.{counts};
ghost use Rattle.std.specs.Arc.{arc_value};

use crate::cell::{CountedCell, SharedCell, StillCell, ValueCell};
use crate::lender::Lender;
use crate::lent::LentCell;
use metrics_core::Memory;
use std::alloc::Global;
use std::marker::Model;
use std::sync::{Arc, Wait};

/// A cell in an `Arc`, with its root pass. A contract sees it as the cell and what the root pass knows.
#[derive(Drop)]
pub struct OwnedCell<C: SharedCell> {
    cell: Arc<C>,
    /// How many passes are out; the greatest number stands for any.
    out: u32,
    root: C::Pass,
    ghost counted: { counts out (C.view root).out ≡ true },
    ghost own: { C.is_pass (arc_value cell) root } by { C.is_one_fact (arc_value cell) root },
    ghost first: { (C.view root).number ≡ 0 },
}

impl<C: SharedCell> Model for OwnedCell<C> {
    ghost use Rattle.std.specs.Arc.{arc_value};
    ghost use Rattle.cell_lanes.specs.Things.{Thing};

    ghost Value = { Thing C.Entry C };

    ghost view = { λ o. record { root = C.view o.root; fixed = arc_value o.cell } };
}

impl<C: SharedCell> OwnedCell<C> {
    ghost use Rattle.std.specs.Prelude.{IfOk, IsTrue, OnOk, OnErr};
    ghost use Rattle.legal_history.specs.History.{lender, child, taker};
    ghost use Rattle.cell_lanes.specs.Calls.{Made, Found};

    /// A cell that is kept, from the cell and its root pass.
    pub fn new(alloc: Global, cell: C, root: C::Pass) -> Result<OwnedCell<C>, Memory>
        requires pass { C.is_pass cell root }
        requires root { (C.view root).number ≡ 0 }
        ensures { IfOk result (λ made. made ≡ record { root = C.view root; fixed = cell }) }
    {
        let cell = Arc::new(alloc, cell)?;
        Ok(OwnedCell {
            cell,
            out: u32::MAX,
            root,
        })
    }

    /// A cell that is kept, from the cell and its root pass, while no other pass is out: from then on those that are lent are
    /// counted.
    pub fn unlent(alloc: Global, cell: C, root: C::Pass) -> Result<OwnedCell<C>, Memory>
        requires pass { C.is_pass cell root }
        requires root { (C.view root).number ≡ 0 }
        requires home { (C.view root).out ≡ 0 }
        ensures { IfOk result (λ made. made ≡ record { root = C.view root; fixed = cell }) }
    {
        let cell = Arc::new(alloc, cell)?;
        Ok(OwnedCell { cell, out: 0, root })
    }

    /// The cell itself, once more.
    fn share(&self) -> Result<Arc<C>, Memory>
        ensures { IfOk result (λ cell. arc_value cell ≡ self.now.fixed) }
    {
        Ok(Arc::try_clone(&self.cell)?)
    }

    /// Reads the cell with the root pass.
    pub fn read<R: Wait>(&mut self, rt: &R) -> C::Reading
        ensures read { C.reads self.old.root result self.new.root }
        ensures stands { Found (C.read_as result) self.old.root self.new.root }
        ensures cell { self.new.fixed ≡ self.old.fixed }
    {
        self.cell.read(rt, &mut self.root)
    }

    /// Makes a call with the root pass. A refused call changes nothing.
    pub fn make<R: Wait>(&mut self, rt: &R, alloc: Global, call: &C::Call) -> Result<(), Memory>
        ensures made { OnOk result (Made (C.stands_as call.now) self.old.root self.new.root) }
        ensures refused { OnErr result (self.new ≡ self.old) }
        ensures cell { self.new.fixed ≡ self.old.fixed }
    {
        self.cell.make(rt, alloc, &mut self.root, call)
    }

    /// Lends the cell itself and a new pass of it, which has seen what the root pass has seen and has made no call.
    pub fn lend_pass(&mut self, alloc: Global) -> Result<(Arc<C>, C::Pass), Memory>
        ensures lent { IfOk result (λ lent. (arc_value lent.0 ≡ self.old.fixed)
            × C.is_pass self.old.fixed lent.1 × (C.view lent.1 ≡ child self.old.root)) }
        ensures root { OnOk result (self.new.root ≡ lender self.old.root) }
        ensures refused { OnErr result (self.new ≡ self.old) }
        ensures cell { self.new.fixed ≡ self.old.fixed }
    {
        let cell = self.share()?;
        let pass = self.cell.split(alloc, &mut self.root)?;
        self.out = self.out.saturating_add(1);
        Ok((cell, pass))
    }

    /// Takes a pass of the cell back. The root pass has then seen what either had seen, and holds the calls of both.
    pub fn take_pass(&mut self, pass: C::Pass)
        requires { C.is_pass self.old.fixed pass }
        ensures root { self.new.root ≡ taker self.old.root (C.view pass) }
        ensures cell { self.new.fixed ≡ self.old.fixed }
    {
        self.cell.join(&mut self.root, pass);
        self.out = one_less(self.out);
    }

    /// Whether no pass is out for sure. It is never so of a cell that `new` made, nor where more than 2^32 - 2 were out at once.
    pub fn is_home(&self) -> bool
        ensures { IsTrue result → self.now.root.out ≡ 0 }
    {
        self.out == 0
    }
}

/// The number of passes that are out when one of them came back.
fn one_less(out: u32) -> u32
    ensures { (n : ℕ) → counts out n ≡ true → counts result (n - 1) ≡ true }
{
    if out == u32::MAX {
        out
    } else {
        out.saturating_sub(1)
    }
}

impl<C: StillCell> OwnedCell<C> {
    ghost use Rattle.std.specs.Prelude.{IfSome, IfNone};
    ghost use Rattle.cell_lanes.specs.Calls.{Found};

    /// Reads the cell with the root pass where nothing waits in it. Elsewhere it reads nothing, and changes nothing.
    pub fn read_still<R: Wait>(&mut self, rt: &R) -> Option<C::Reading>
        ensures read { IfSome result (λ reading. C.reads self.old.root reading self.new.root) }
        ensures still { IfSome result C.is_still }
        ensures stands { IfSome result (λ reading.
            Found (C.read_as reading) self.old.root self.new.root) }
        ensures unread { IfNone result (self.new ≡ self.old) }
        ensures cell { self.new.fixed ≡ self.old.fixed }
    {
        self.cell.read_still(rt, &mut self.root)
    }
}

impl<C: ValueCell> OwnedCell<C> {
    ghost use Rattle.cell_lanes.specs.Calls.{Shows};

    /// The value after a beginning of the history that has all that the root pass had seen.
    pub fn value(&mut self) -> C::Reading
        ensures value { Shows C.value_of self.old.root result self.new.root }
        ensures cell { self.new.fixed ≡ self.old.fixed }
    {
        self.cell.value(&mut self.root)
    }
}

impl<C: CountedCell> OwnedCell<C> {
    ghost use Rattle.cell_lanes.specs.Calls.{CountsCalls};

    /// The number of calls that were counted, modulo 2^64, of a beginning of the history that has all that the root pass had
    /// seen. All of its calls are counted but one at most of each pass that is out: where none is, it is the number of all calls.
    pub fn updates(&mut self) -> u64
        ensures count { CountsCalls self.old.root result self.new.root }
        ensures cell { self.new.fixed ≡ self.old.fixed }
    {
        self.cell.updates(&mut self.root)
    }
}

impl<C: SharedCell> Lender for OwnedCell<C> {
    ghost use Rattle.std.specs.Prelude.{⊤};
    ghost use Rattle.cell_lanes.specs.Things.{root_of, fixed_of, knows_of, IsOf, IsKept, kept_on, kept_then, of_kept};

    type Lent = LentCell<C>;

    type Call = C::Call;

    type Entry = C::Entry;

    type Lasting = C;

    ghost root = { root_of };

    ghost knows = { knows_of };

    ghost fixed = { fixed_of };

    ghost owns = { IsOf };

    ghost takes = { λ _ _. ⊤ };

    ghost lasts = { IsKept };

    ghost lasts_on = { kept_on };

    ghost lasts_then = { kept_then };

    ghost owns_on = { of_kept };

    ghost takes_on = { λ _ _ _ _ taken. taken };

    ghost stands_as = { C.stands_as };

    fn lend(&mut self, alloc: Global) -> Result<LentCell<C>, Memory> {
        let cell = Arc::try_clone(&self.cell)?;
        let pass = self.cell.split(alloc, &mut self.root)?;
        self.out = self.out.saturating_add(1);
        Ok(LentCell { cell, pass })
    }

    fn make<R: Wait>(
        rt: &R,
        alloc: Global,
        lent: &mut LentCell<C>,
        call: &C::Call,
    ) -> Result<(), Memory> {
        lent.cell.make(rt, alloc, &mut lent.pass, call)
    }

    fn take_back(&mut self, lent: LentCell<C>) {
        let LentCell { cell: _, pass } = lent;
        self.cell.join(&mut self.root, pass);
        self.out = one_less(self.out);
    }

    fn settle<R: Wait>(&mut self, rt: &R) {
        self.cell.settle(rt, &mut self.root);
    }
}
