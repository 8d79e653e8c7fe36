//! A counter that threads share and that is flushed.

ghost use Rattle.std.specs.Prelude.{◌≡◌, true, IfOk, OnOk, OnErr};
ghost use Rattle.std.specs.Bool.{OnTrue, OnFalse};
ghost use Rattle.crossbeam_utils.specs.Seq.{cell_view};
ghost use Rattle.flushed_cells.specs.Counters.{Called, Turned, Holds, answered};

use crate::counter_calls::{CounterCall, CounterChange};
use crate::counter_state::CounterState;
use crate::pass::DsdPass;
use crate::rule::{Loan, Moves, Peeks};
use crossbeam_utils::atomic::seq_cell::{Pass, RuledSeqCell};
use crossbeam_utils::rule::{Outcome, Protocol};
use legal_history::history::View;
use metrics_core::Memory;
use std::alloc::Global;
use std::marker::{Brand, PhantomData};
use std::sync::Wait;

/// The counter and its passes have one legal history.
pub struct CounterRule;

impl Protocol<CounterState, View<CounterCall>> for CounterRule {
    ghost use Rattle.legal_history.specs.History.{first};
    ghost use Rattle.flushed_cells.specs.Seats.{Seated};
    ghost use Rattle.flushed_cells.specs.Counters.{CounterStep, counter_start};

    ghost holds = { Seated CounterStep counter_start };

    ghost first = { first };
}

/// Which call is made, and at which state.
pub trait AskedCounter {
    ghost use Rattle.flushed_cells.specs.declared.counter_calls.CounterCall.{CounterCall};
    ghost use Rattle.flushed_cells.specs.declared.counter_state.CounterState.{CounterState};

    ghost call: { CounterCall };

    ghost expected: { CounterState };
}

impl AskedCounter for Brand {
    ghost use Rattle.flushed_cells.specs.declared.counter_calls.CounterCall.TheVariants.{Increment};
    ghost use Rattle.flushed_cells.specs.Counters.{counter_start};

    ghost call = { Increment 0 };

    ghost expected = { counter_start };
}

/// The call is made where the state is as expected.
pub struct Exchange<N: AskedCounter> {
    call: PhantomData<N>,
}

impl<N: AskedCounter> Outcome<CounterState, View<CounterCall>> for Exchange<N> {
    ghost use Rattle.flushed_cells.specs.Seats.{Exchanged};
    ghost use Rattle.flushed_cells.specs.Counters.{CounterStep, counter_start};

    ghost then = { λ v x y w. Exchanged CounterStep counter_start N.call N.expected v x w };
}

/// A look at the state.
pub struct CounterLook;

impl Outcome<CounterState, View<CounterCall>> for CounterLook {
    ghost use Rattle.std.specs.Prelude.{◌≡◌};
    ghost use Rattle.legal_history.specs.Object.{Told};
    ghost use Rattle.flushed_cells.specs.Counters.{CounterStep, counter_start};

    ghost then = { λ v x y w. (w ≡ v) × Told CounterStep counter_start v x };
}

/// A look that is a flush where nothing waits.
pub struct CounterRest;

impl Outcome<CounterState, View<CounterCall>> for CounterRest {
    ghost use Rattle.flushed_cells.specs.declared.counter_calls.CounterCall.TheVariants.{Flush};
    ghost use Rattle.flushed_cells.specs.Seats.{Looked};
    ghost use Rattle.flushed_cells.specs.Counters.{CounterStep, counter_start, is_still};

    ghost then = { λ v x y w. Looked CounterStep counter_start (Flush 0 0) (is_still x) v w };
}

/// A pass of a counter.
pub type CounterPass = DsdPass<CounterState, CounterCall>;

type Seat = Pass<CounterState, View<CounterCall>>;

/// A counter whose pending sum is flushed.
#[derive(Drop)]
pub struct DsdCounter {
    cell: RuledSeqCell<CounterState, View<CounterCall>, CounterRule, 4>,
}

impl DsdCounter {
    ghost use Rattle.flushed_cells.specs.Cells.{IsCounterPass};
    ghost use Rattle.flushed_cells.specs.Passes.{view_of};
    ghost use Rattle.flushed_cells.specs.declared.counter_state.CounterState.{CounterState as StateOf};
    ghost use Rattle.flushed_cells.specs.declared.counter_calls.CounterCall.TheVariants.{Increment, Absolute, Flush};
    ghost use Rattle.legal_history.specs.History.{Settled, first, lender, child, taker};

    /// A new counter, with its root pass.
    pub fn new(alloc: Global) -> Result<(DsdCounter, CounterPass), Memory>
        ensures pass { IfOk result (λ made. IsCounterPass made.0 made.1) }
        ensures first { IfOk result (λ made. (view_of made.1 ≡ first) × Settled (view_of made.1)) }
    {
        let (cell, seat) = RuledSeqCell::ruled(alloc, CounterState::START)?;
        Ok((DsdCounter { cell }, DsdPass { seat, root: true }))
    }

    /// Adds to the counter, modulo 2^64.
    pub fn increment<R: Wait>(&self, rt: &R, pass: &mut CounterPass, value: u64)
        requires { IsCounterPass self.now pass.old }
        ensures pass { IsCounterPass self.now pass.new }
        ensures call { Called (Increment value) (view_of pass.old) (view_of pass.new) }
    {
        self.turn(rt, &mut pass.seat, CounterChange::Increment(value));
    }

    /// Counts to this value: by how much it is greater than the last absolute value is added. After an increment, and at
    /// first, the value begins a new count.
    pub fn absolute<R: Wait>(&self, rt: &R, pass: &mut CounterPass, value: u64)
        requires { IsCounterPass self.now pass.old }
        ensures pass { IsCounterPass self.now pass.new }
        ensures call { Called (Absolute value) (view_of pass.old) (view_of pass.new) }
    {
        self.turn(rt, &mut pass.seat, CounterChange::Absolute(value));
    }

    /// Hands out what was added since the last flush, and the number of updates since then, both of one point.
    pub fn flush<R: Wait>(&self, rt: &R, pass: &mut CounterPass) -> (u64, u64)
        requires { IsCounterPass self.now pass.old }
        ensures pass { IsCounterPass self.now pass.new }
        ensures call { Called (Flush result.0 result.1) (view_of pass.old) (view_of pass.new) }
    {
        if self.flush_still(rt, pass) {
            return (0, 0);
        }
        let found = self.turn(rt, &mut pass.seat, CounterChange::Flush);
        (found.delta, found.updates)
    }

    /// Flushes where nothing waits, by a look alone. Elsewhere nothing is done.
    pub fn flush_still<R: Wait>(&self, rt: &R, pass: &mut CounterPass) -> bool
        requires { IsCounterPass self.now pass.old }
        ensures pass { IsCounterPass self.now pass.new }
        ensures call { OnTrue result (Called (Flush 0 0) (view_of pass.old) (view_of pass.new)) }
        ensures none { OnFalse result (view_of pass.new ≡ view_of pass.old) }
    {
        self.cell
            .load_as::<CounterRest, R>(rt, &mut pass.seat)
            .is_still()
    }

    /// A new pass of this counter, for another caller. It knows what the root knows, and has made no call.
    pub fn split(&self, _alloc: Global, pass: &mut CounterPass) -> Result<CounterPass, Memory>
        requires pass { IsCounterPass self.now pass.old }
        requires root { (view_of pass.old).number ≡ 0 }
        ensures pass { IsCounterPass self.now pass.new }
        ensures lent { IfOk result (IsCounterPass self.now) }
        ensures child { IfOk result (λ lent. view_of lent ≡ child (view_of pass.old)) }
        ensures root { OnOk result (view_of pass.new ≡ lender (view_of pass.old)) }
        ensures refused { OnErr result (view_of pass.new ≡ view_of pass.old) }
    {
        let seat = self.cell.split_pass::<Loan>(&mut pass.seat);
        Ok(DsdPass { seat, root: false })
    }

    /// Takes a pass back. The root then knows what both knew, and the calls of both.
    pub fn join(&self, pass: &mut CounterPass, child: CounterPass)
        requires passes { IsCounterPass self.now pass.old × IsCounterPass self.now child }
        requires root { (view_of pass.old).number ≡ 0 }
        ensures pass { IsCounterPass self.now pass.new }
        ensures call { view_of pass.new ≡ taker (view_of pass.old) (view_of child) }
    {
        let DsdPass { mut seat, root: _ } = child;
        let fresh = self.cell.split_pass::<Moves>(&mut seat);
        self.cell.join_pass::<Loan>(&mut pass.seat, fresh);
    }

    /// With no other pass out, the root has seen the whole history and knows whose each call is. This makes sure of it, and
    /// changes nothing.
    pub fn settle<R: Wait>(&self, rt: &R, pass: &mut CounterPass)
        requires pass { IsCounterPass self.now pass.old }
        requires root { ((view_of pass.old).number ≡ 0) × ((view_of pass.old).out ≡ 0) }
        ensures pass { IsCounterPass self.now pass.new }
        ensures same { view_of pass.new ≡ view_of pass.old }
        ensures settled { Settled (view_of pass.old) }
        ensures state { (state : StateOf) × Holds (view_of pass.old) state }
    {
        self.cell.load_as::<CounterLook, R>(rt, &mut pass.seat);
    }

    // Makes a change, and answers the state at which it was made.
    pub(crate) fn turn<R: Wait>(
        &self,
        rt: &R,
        seat: &mut Seat,
        change: CounterChange,
    ) -> CounterState
        requires cell { seat.old.table_id ≡ self.now.cell.table.shared.table_id }
        requires live { (cell_view seat.old).live ≡ true }
        ensures seat { seat.new.table_id ≡ seat.old.table_id }
        ensures call { Turned change result (cell_view seat.old) (cell_view seat.new) }
    {
        for _ in rt.forever() {
            let found = self.cell.load_as::<Peeks, R>(rt, seat);
            if self.exchange::<Brand, R>(rt, seat, found, change) {
                return found;
            }
        }
        unreachable!()
    }

    // Makes a change where the state is `old`, and answers whether it was.
    fn exchange<N: AskedCounter, R: Wait>(
        &self,
        rt: &R,
        seat: &mut Seat,
        old: CounterState,
        change: CounterChange,
    ) -> bool
        requires cell { seat.old.table_id ≡ self.now.cell.table.shared.table_id }
        requires live { (cell_view seat.old).live ≡ true }
        requires asked { (N.call ≡ answered change old) × (N.expected ≡ old) }
        ensures seat { seat.new.table_id ≡ seat.old.table_id }
        ensures call { OnTrue result (Turned change old (cell_view seat.old) (cell_view seat.new)) }
        ensures none { OnFalse result (cell_view seat.new ≡ cell_view seat.old) }
    {
        match self
            .cell
            .compare_exchange_as::<Exchange<N>, R>(rt, seat, old, old.after(change))
        {
            Ok(_) => true,
            Err(_) => false,
        }
    }
}
