//! Counters and gauges as the exporter keeps them: the cell that threads share, and what a flush knows of it without a look.

ghost use Rattle.std.specs.Prelude.{◌≡◌, Some, IfOk, IfSome, OnOk, OnErr};
ghost use Rattle.std.specs.Bool.{OnTrue, OnFalse};
ghost use Rattle.std.specs.Arc.{arc_value};
ghost use Rattle.legal_history.specs.History.{Settled, child, first};
ghost use Rattle.flushed_cells.specs.declared.counter_state.CounterState.{CounterState};
ghost use Rattle.flushed_cells.specs.declared.gauge_state.GaugeState.{GaugeState};
ghost use Rattle.dsd_exporter.specs.Exporter.{IsHome, unmade};
ghost use Rattle.dsd_exporter.specs.Flushing.{PassesGauge, TakesCounter, TakesGauge};
ghost use Rattle.dsd_exporter.specs.Lending.{Makes, with_lent, with_one_back};
ghost use Rattle.dsd_exporter.specs.Waiting.{NothingWaits, GaugeStays};

use cell_lanes::{Lender, LentCell, OwnedCell, SharedCell};
use flushed_cells::{DsdCounter, DsdGauge};
use metrics_core::{Fixed, Memory};
use std::alloc::Global;
use std::marker::Model;
use std::sync::{Arc, Wait};

/// A cell in which nothing waits before the first call, nor from a flush to the next call.
pub(crate) trait RestingCell: SharedCell {
    ghost use Rattle.std.specs.Prelude.{◌≡◌, IfOk};
    ghost use Rattle.legal_history.specs.declared.history.View.{View};
    ghost use Rattle.legal_history.specs.History.{Settled, first};

    /// What is to know of a cell in which nothing waits.
    type Rest: Send + Drop;

    /// After all calls that a pass has seen nothing waits, and this is to know of the cell.
    ghost rests: { View Self.Entry → Self.Rest → Type 0 };

    /// Makes a cell that nobody has called.
    fn make_cell(alloc: Global) -> Result<OwnedCell<Self>, Memory>
        ensures { IfOk result (λ made. (made.root ≡ first) × Settled made.root) };
}

/// A cell with the exporter's own pass of it, which is made when it is first lent. Where no pass was out since the last flush it
/// says what another flush finds: the cell isn't looked at. A contract sees it as the cell, once it is made, and what the
/// exporter's pass knows.
#[derive(Drop)]
pub(crate) struct KeptCell<C: RestingCell> {
    owned: Option<OwnedCell<C>>,
    /// What is to know of the cell, where no pass is out and nothing waits for sure.
    rest: Option<C::Rest>,
}

impl<C: RestingCell> Model for KeptCell<C> {
    ghost use Rattle.std.specs.Prelude.{◌≡◌, Option, IfSome};
    ghost use Rattle.cell_lanes.specs.Things.{Thing};
    ghost use Rattle.dsd_exporter.specs.Exporter.{kept_thing};

    ghost Value = { Thing C.Entry (Option C) };

    ghost view = { λ kept. kept_thing kept.owned };

    ghost invariant = { λ kept. IfSome kept.rest (λ rest. ((kept_thing kept.owned).root.out ≡ 0) × C.rests (kept_thing kept.owned).root rest) };
}

impl<C: RestingCell> KeptCell<C> {
    /// A cell that isn't made yet, with what is to know of one that nobody has called.
    fn new(rest: C::Rest) -> KeptCell<C>
        requires { C.rests first rest }
        ensures { result ≡ unmade }
    {
        KeptCell {
            owned: None,
            rest: Some(rest),
        }
    }

    /// Lends the cell and a new pass of it. The first lend makes the cell.
    pub(crate) fn lend_pass(&mut self, alloc: Global) -> Result<(Arc<C>, C::Pass), Memory>
        ensures lent { IfOk result (λ lent. Makes self.old.fixed (arc_value lent.0)
            × C.is_pass (arc_value lent.0) lent.1 × (C.view lent.1 ≡ child self.old.root)
            × (self.new ≡ with_lent (arc_value lent.0) self.old)) }
        ensures refused { OnErr result (self.new ≡ self.old) }
    {
        self.rest = None;
        if let Some(owned) = &mut self.owned {
            return owned.lend_pass(alloc);
        }
        let mut owned = C::make_cell(alloc)?;
        let lent = owned.lend_pass(alloc)?;
        self.owned = Some(owned);
        Ok(lent)
    }

    /// Takes a pass of the cell back.
    pub(crate) fn take_pass(&mut self, pass: C::Pass)
        requires pass { (cell : C) × (self.old.fixed ≡ Some cell) × C.is_pass cell pass }
        ensures { self.new ≡ with_one_back (C.view pass) self.old }
    {
        self.rest = None;
        if let Some(owned) = &mut self.owned {
            owned.take_pass(pass);
        }
    }

    /// Lends a new pass of the cell to a lane. The first lend makes the cell.
    pub(crate) fn lend_to_lane(&mut self, alloc: Global) -> Result<LentCell<C>, Memory>
        ensures lent { IfOk result (λ lent. Makes self.old.fixed lent.cell
            × (lent.knows ≡ child self.old.root) × (self.new ≡ with_lent lent.cell self.old)) }
        ensures refused { OnErr result (self.new ≡ self.old) }
    {
        let (cell, pass) = self.lend_pass(alloc)?;
        Ok(LentCell::new(cell, pass))
    }

    /// Takes a lane's pass of the cell back.
    pub(crate) fn take_from_lane(&mut self, lent: LentCell<C>)
        requires lent { self.old.fixed ≡ Some lent.cell }
        ensures { self.new ≡ with_one_back lent.knows self.old }
    {
        self.take_pass(lent.into_pass());
    }

    /// Notes what is to know of the cell, if no pass of it is out.
    fn note_rest(&mut self, rest: C::Rest)
        requires { C.rests self.old.root rest }
        ensures { self.new ≡ self.old }
    {
        if let Some(owned) = &self.owned {
            if owned.is_home() {
                self.rest = Some(rest);
            }
        }
    }

    /// With no pass of the cell out, makes sure that the exporter knows whose each call is. It changes nothing.
    pub(crate) fn settle<R: Wait>(&mut self, rt: &R)
        requires home { IsHome self.old.root }
        ensures same { self.new ≡ self.old }
        ensures settled { Settled self.old.root }
    {
        if let Some(owned) = &mut self.owned {
            owned.settle(rt);
        }
    }
}

impl RestingCell for DsdCounter {
    type Rest = ();

    ghost rests = { λ v _. NothingWaits v };

    fn make_cell(alloc: Global) -> Result<OwnedCell<DsdCounter>, Memory> {
        DsdCounter::owned(alloc)
    }
}

impl RestingCell for DsdGauge {
    type Rest = Fixed;

    ghost rests = { GaugeStays };

    fn make_cell(alloc: Global) -> Result<OwnedCell<DsdGauge>, Memory> {
        DsdGauge::owned(alloc)
    }
}

/// A new counter, with no calls. It takes no memory before it is lent.
pub(crate) fn new_counter() -> KeptCell<DsdCounter>
    ensures { result ≡ unmade }
{
    KeptCell::new(())
}

/// A new gauge, with no calls. It takes no memory before it is lent.
pub(crate) fn new_gauge() -> KeptCell<DsdGauge>
    ensures { result ≡ unmade }
{
    KeptCell::new(Fixed(0))
}

impl KeptCell<DsdCounter> {
    /// Takes what waits in the counter: its delta, and its number of updates.
    pub(crate) fn take_delta<R: Wait>(&mut self, rt: &R) -> (u64, u64)
        ensures { (found : CounterState) × (result ≡ (found.delta, found.updates))
            × TakesCounter self.old found self.new }
    {
        if self.rest.is_some() {
            return (0, 0);
        }
        let taken = match &mut self.owned {
            Some(owned) => owned.read(rt),
            None => return (0, 0),
        };
        self.note_rest(());
        taken
    }

    /// Takes what waits in the counter where that is nothing: no delta, and no updates. Elsewhere nothing changes.
    pub(crate) fn take_nothing<R: Wait>(&mut self, rt: &R) -> bool
        ensures taken { OnTrue result ((found : CounterState) × (found.delta ≡ 0)
            × (found.updates ≡ 0) × TakesCounter self.old found self.new) }
        ensures none { OnFalse result (self.new ≡ self.old) }
    {
        if self.rest.is_some() {
            return true;
        }
        let still = match &mut self.owned {
            Some(owned) => owned.read_still(rt),
            None => return true,
        };
        if still.is_none() {
            return false;
        }
        self.note_rest(());
        true
    }
}

impl KeptCell<DsdGauge> {
    /// The value of the gauge, where no pass is out and nothing waits for sure.
    pub(crate) fn resting_value(&self) -> Option<Fixed>
        ensures { IfSome result (λ value. (found : GaugeState) × (value ≡ found.value)
            × PassesGauge self.now found self.now) }
    {
        self.rest
    }

    /// Takes what waits in the gauge: its value, which it keeps, and its number of updates.
    pub(crate) fn take_value<R: Wait>(&mut self, rt: &R) -> (Fixed, u64)
        ensures { (found : GaugeState) × (result ≡ (found.value, found.updates))
            × TakesGauge self.old found self.new }
    {
        if let Some(value) = self.rest {
            return (value, 0);
        }
        let taken = match &mut self.owned {
            Some(owned) => owned.read(rt),
            None => return (Fixed(0), 0),
        };
        self.note_rest(taken.0);
        taken
    }
}
