//! A gauge that threads share and that is flushed.

ghost use Rattle.std.specs.Prelude.{◌≡◌, true, IfOk, OnOk, OnErr};
ghost use Rattle.std.specs.Bool.{OnTrue, OnFalse};
ghost use Rattle.crossbeam_utils.specs.Seq.{cell_view};
ghost use Rattle.flushed_cells.specs.Gauges.{Called, Turned, Holds, answered};

use crate::gauge_calls::{GaugeCall, GaugeChange};
use crate::gauge_state::GaugeState;
use crate::pass::DsdPass;
use crate::rule::{Loan, Moves, Peeks};
use crossbeam_utils::atomic::seq_cell::{Pass, RuledSeqCell};
use crossbeam_utils::rule::{Outcome, Protocol};
use legal_history::history::View;
use metrics_core::{Fixed, GaugeValue, Memory};
use std::alloc::Global;
use std::marker::{Brand, PhantomData};
use std::sync::Wait;

/// The gauge and its passes have one legal history.
pub struct GaugeRule;

impl Protocol<GaugeState, View<GaugeCall>> for GaugeRule {
    ghost use Rattle.legal_history.specs.History.{first};
    ghost use Rattle.flushed_cells.specs.Seats.{Seated};
    ghost use Rattle.flushed_cells.specs.Gauges.{GaugeStep, gauge_start};

    ghost holds = { Seated GaugeStep gauge_start };

    ghost first = { first };
}

/// Which call is made, and at which state.
pub trait AskedGauge {
    ghost use Rattle.flushed_cells.specs.declared.gauge_calls.GaugeCall.{GaugeCall};
    ghost use Rattle.flushed_cells.specs.declared.gauge_state.GaugeState.{GaugeState};

    ghost call: { GaugeCall };

    ghost expected: { GaugeState };
}

impl AskedGauge for Brand {
    ghost use Rattle.flushed_cells.specs.declared.gauge_calls.GaugeCall.TheVariants.{Flush};
    ghost use Rattle.flushed_cells.specs.Gauges.{gauge_start};

    ghost call = { Flush gauge_start.value 0 };

    ghost expected = { gauge_start };
}

/// The call is made where the state is as expected.
pub struct Exchange<N: AskedGauge> {
    call: PhantomData<N>,
}

impl<N: AskedGauge> Outcome<GaugeState, View<GaugeCall>> for Exchange<N> {
    ghost use Rattle.flushed_cells.specs.Seats.{Exchanged};
    ghost use Rattle.flushed_cells.specs.Gauges.{GaugeStep, gauge_start};

    ghost then = { λ v x y w. Exchanged GaugeStep gauge_start N.call N.expected v x w };
}

/// A look at the state.
pub struct GaugeLook;

impl Outcome<GaugeState, View<GaugeCall>> for GaugeLook {
    ghost use Rattle.std.specs.Prelude.{◌≡◌};
    ghost use Rattle.legal_history.specs.Object.{Told};
    ghost use Rattle.flushed_cells.specs.Gauges.{GaugeStep, gauge_start};

    ghost then = { λ v x y w. (w ≡ v) × Told GaugeStep gauge_start v x };
}

/// A look that is a flush where nothing waits.
pub struct GaugeRest;

impl Outcome<GaugeState, View<GaugeCall>> for GaugeRest {
    ghost use Rattle.flushed_cells.specs.declared.gauge_calls.GaugeCall.TheVariants.{Flush};
    ghost use Rattle.flushed_cells.specs.Seats.{Looked};
    ghost use Rattle.flushed_cells.specs.Gauges.{GaugeStep, gauge_start, is_still};

    ghost then = { λ v x y w. Looked GaugeStep gauge_start (Flush x.value 0) (is_still x) v w };
}

/// A pass of a gauge.
pub type GaugePass = DsdPass<GaugeState, GaugeCall>;

type Seat = Pass<GaugeState, View<GaugeCall>>;

/// A counter whose pending sum is flushed.
#[derive(Drop)]
pub struct DsdGauge {
    cell: RuledSeqCell<GaugeState, View<GaugeCall>, GaugeRule, 2>,
}

impl DsdGauge {
    ghost use Rattle.flushed_cells.specs.Cells.{IsGaugePass};
    ghost use Rattle.flushed_cells.specs.Passes.{view_of};
    ghost use Rattle.flushed_cells.specs.declared.gauge_state.GaugeState.{GaugeState as StateOf};
    ghost use Rattle.flushed_cells.specs.declared.gauge_calls.GaugeCall.TheVariants.{Update, Flush};
    ghost use Rattle.metrics_core.specs.declared.gauge_values.GaugeValue.TheVariants.{Absolute, Increment, Decrement};
    ghost use Rattle.legal_history.specs.History.{Settled, first, lender, child, taker};

    /// A new gauge, with its root pass.
    pub fn new(alloc: Global) -> Result<(DsdGauge, GaugePass), Memory>
        ensures pass { IfOk result (λ made. IsGaugePass made.0 made.1) }
        ensures first { IfOk result (λ made. (view_of made.1 ≡ first) × Settled (view_of made.1)) }
    {
        let (cell, seat) = RuledSeqCell::ruled(alloc, GaugeState::START)?;
        Ok((DsdGauge { cell }, DsdPass { seat, root: true }))
    }

    /// Changes the value.
    pub fn update<R: Wait>(&self, rt: &R, pass: &mut GaugePass, update: GaugeValue)
        requires { IsGaugePass self.now pass.old }
        ensures pass { IsGaugePass self.now pass.new }
        ensures call { Called (Update update) (view_of pass.old) (view_of pass.new) }
    {
        self.turn(rt, &mut pass.seat, GaugeChange::Update(update));
    }

    /// Adds to the gauge, modulo 2^64 billionths.
    pub fn increment<R: Wait>(&self, rt: &R, pass: &mut GaugePass, value: Fixed)
        requires { IsGaugePass self.now pass.old }
        ensures pass { IsGaugePass self.now pass.new }
        ensures call { Called (Update (Increment value)) (view_of pass.old) (view_of pass.new) }
    {
        self.update(rt, pass, GaugeValue::Increment(value));
    }

    /// Takes off the gauge, modulo 2^64 billionths.
    pub fn decrement<R: Wait>(&self, rt: &R, pass: &mut GaugePass, value: Fixed)
        requires { IsGaugePass self.now pass.old }
        ensures pass { IsGaugePass self.now pass.new }
        ensures call { Called (Update (Decrement value)) (view_of pass.old) (view_of pass.new) }
    {
        self.update(rt, pass, GaugeValue::Decrement(value));
    }

    /// Sets the gauge.
    pub fn set<R: Wait>(&self, rt: &R, pass: &mut GaugePass, value: Fixed)
        requires { IsGaugePass self.now pass.old }
        ensures pass { IsGaugePass self.now pass.new }
        ensures call { Called (Update (Absolute value)) (view_of pass.old) (view_of pass.new) }
    {
        self.update(rt, pass, GaugeValue::Absolute(value));
    }

    /// Hands out the value, and the number of updates since the last flush, both of one point.
    pub fn flush<R: Wait>(&self, rt: &R, pass: &mut GaugePass) -> (Fixed, u64)
        requires { IsGaugePass self.now pass.old }
        ensures pass { IsGaugePass self.now pass.new }
        ensures call { Called (Flush result.0 result.1) (view_of pass.old) (view_of pass.new) }
    {
        let seen = self.cell.load_as::<GaugeRest, R>(rt, &mut pass.seat);
        if seen.is_still() {
            return (seen.value, 0);
        }
        let found = self.turn(rt, &mut pass.seat, GaugeChange::Flush);
        (found.value, found.updates)
    }

    /// A new pass of this gauge, for another caller. It knows what the root knows, and has made no call.
    pub fn split(&self, _alloc: Global, pass: &mut GaugePass) -> Result<GaugePass, Memory>
        requires pass { IsGaugePass self.now pass.old }
        requires root { (view_of pass.old).number ≡ 0 }
        ensures pass { IsGaugePass self.now pass.new }
        ensures lent { IfOk result (IsGaugePass self.now) }
        ensures child { IfOk result (λ lent. view_of lent ≡ child (view_of pass.old)) }
        ensures root { OnOk result (view_of pass.new ≡ lender (view_of pass.old)) }
        ensures refused { OnErr result (view_of pass.new ≡ view_of pass.old) }
    {
        let seat = self.cell.split_pass::<Loan>(&mut pass.seat);
        Ok(DsdPass { seat, root: false })
    }

    /// Takes a pass back. The root then knows what both knew, and the calls of both.
    pub fn join(&self, pass: &mut GaugePass, child: GaugePass)
        requires passes { IsGaugePass self.now pass.old × IsGaugePass self.now child }
        requires root { (view_of pass.old).number ≡ 0 }
        ensures pass { IsGaugePass self.now pass.new }
        ensures call { view_of pass.new ≡ taker (view_of pass.old) (view_of child) }
    {
        let DsdPass { mut seat, root: _ } = child;
        let fresh = self.cell.split_pass::<Moves>(&mut seat);
        self.cell.join_pass::<Loan>(&mut pass.seat, fresh);
    }

    /// With no other pass out, the root has seen the whole history and knows whose each call is. This makes sure of it, and
    /// changes nothing.
    pub fn settle<R: Wait>(&self, rt: &R, pass: &mut GaugePass)
        requires pass { IsGaugePass self.now pass.old }
        requires root { ((view_of pass.old).number ≡ 0) × ((view_of pass.old).out ≡ 0) }
        ensures pass { IsGaugePass self.now pass.new }
        ensures same { view_of pass.new ≡ view_of pass.old }
        ensures settled { Settled (view_of pass.old) }
        ensures state { (state : StateOf) × Holds (view_of pass.old) state }
    {
        self.cell.load_as::<GaugeLook, R>(rt, &mut pass.seat);
    }

    // Makes a change, and answers the state at which it was made.
    pub(crate) fn turn<R: Wait>(&self, rt: &R, seat: &mut Seat, change: GaugeChange) -> GaugeState
        requires cell { seat.old.table_id ≡ self.now.cell.table.shared.table_id }
        requires live { (cell_view seat.old).live ≡ true }
        ensures seat { seat.new.table_id ≡ seat.old.table_id }
        ensures call { Turned change result (cell_view seat.old) (cell_view seat.new) }
    {
        for _ in rt.forever() {
            let found = self.cell.load_as::<Peeks, R>(rt, seat);
            if self.exchange::<Brand, R>(rt, seat, found, change) {
                return found;
            }
        }
        unreachable!()
    }

    // Makes a change where the state is `old`, and answers whether it was.
    fn exchange<N: AskedGauge, R: Wait>(
        &self,
        rt: &R,
        seat: &mut Seat,
        old: GaugeState,
        change: GaugeChange,
    ) -> bool
        requires cell { seat.old.table_id ≡ self.now.cell.table.shared.table_id }
        requires live { (cell_view seat.old).live ≡ true }
        requires asked { (N.call ≡ answered change old) × (N.expected ≡ old) }
        ensures seat { seat.new.table_id ≡ seat.old.table_id }
        ensures call { OnTrue result (Turned change old (cell_view seat.old) (cell_view seat.new)) }
        ensures none { OnFalse result (cell_view seat.new ≡ cell_view seat.old) }
    {
        match self
            .cell
            .compare_exchange_as::<Exchange<N>, R>(rt, seat, old, old.after(change))
        {
            Ok(_) => true,
            Err(_) => false,
        }
    }
}
