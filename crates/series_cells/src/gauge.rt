//! A gauge that threads share.
ghost use Rattle.std.specs.Prelude.{◌≡◌, ◌<◌, max, IfOk, IsOk};
ghost use mathlib.Core.List.{IsPrefix};
ghost use Rattle.legal_history.specs.History.{Settled, first, lender, child, taker};
ghost use Rattle.metrics_core.specs.declared.calls.SeriesCall.TheVariants.{Add, Subtract, Set};

use crate::pass::CellPass;
use crate::rules;
use crate::rules::GaugeWords;
use crate::views::CellView;
use atomic_table::Table;
use metrics_core::{Fixed, Memory};
use std::alloc::Global;

/// A gauge, from 0, and the number of its updates. Its word holds the billionths in two's complement.
#[derive(Drop)]
pub struct PromGauge {
    table: Table<(), CellView, (), GaugeWords, Global>,
    ghost two: { table.shared.table_id.words ≡ 2 },
}

impl PromGauge {
    ghost use Rattle.series_cells.specs.Pass.{IsGaugePass, view_of, known_of, Calls, ReadsGauge, ReadsUpdates};

    /// A gauge at 0, with no updates, and its root pass.
    pub fn new(alloc: Global) -> Result<(PromGauge, CellPass), Memory>
        ensures { IfOk result (λ made. IsGaugePass made.0 made.1 × (view_of made.1 ≡ first)
            × (known_of made.1 ≡ 0) × Settled (view_of made.1)) }
    {
        let (table, seat) = Table::of_words(alloc, &[0, 0], &())?;
        Ok((PromGauge { table }, CellPass { seat, root: true }))
    }

    /// Adds to the gauge, modulo 2^64 billionths.
    pub fn increment(&self, pass: &mut CellPass, value: Fixed)
        requires { IsGaugePass self.now pass.old }
        ensures pass { IsGaugePass self.now pass.new }
        ensures call { Calls (Add value) (view_of pass.old) (view_of pass.new) }
        ensures counted { known_of pass.old < known_of pass.new }
    {
        let word = value.0.cast_unsigned();
        self.table
            .shared
            .fetch_add::<rules::Adds>(&mut pass.seat, 0, word);
        self.table
            .shared
            .fetch_add::<rules::Counts>(&mut pass.seat, 1, 1);
    }

    /// Takes off the gauge, modulo 2^64 billionths.
    pub fn decrement(&self, pass: &mut CellPass, value: Fixed)
        requires { IsGaugePass self.now pass.old }
        ensures pass { IsGaugePass self.now pass.new }
        ensures call { Calls (Subtract value) (view_of pass.old) (view_of pass.new) }
        ensures counted { known_of pass.old < known_of pass.new }
    {
        let word = value.0.cast_unsigned();
        self.table
            .shared
            .fetch_sub::<rules::Subtracts>(&mut pass.seat, 0, word);
        self.table
            .shared
            .fetch_add::<rules::Counts>(&mut pass.seat, 1, 1);
    }

    /// Sets the gauge.
    pub fn set(&self, pass: &mut CellPass, value: Fixed)
        requires { IsGaugePass self.now pass.old }
        ensures pass { IsGaugePass self.now pass.new }
        ensures call { Calls (Set value) (view_of pass.old) (view_of pass.new) }
        ensures counted { known_of pass.old < known_of pass.new }
    {
        let word = value.0.cast_unsigned();
        self.table
            .shared
            .swap::<rules::Sets>(&mut pass.seat, 0, word);
        self.table
            .shared
            .fetch_add::<rules::Counts>(&mut pass.seat, 1, 1);
    }

    /// The value after a beginning of the history that has all that the pass had seen. The pass has then seen that beginning.
    pub fn load(&self, pass: &mut CellPass) -> Fixed
        requires { IsGaugePass self.now pass.old }
        ensures pass { IsGaugePass self.now pass.new }
        ensures value { ReadsGauge (view_of pass.old) result.0 (view_of pass.new) }
        ensures known { known_of pass.new ≡ known_of pass.old }
    {
        let word = self
            .table
            .shared
            .load::<rules::ReadsGauge>(&mut pass.seat, 0);
        Fixed(word.cast_signed())
    }

    /// The number of calls that were counted, modulo 2^64, of a beginning of the history that has all that the pass had seen.
    /// The pass has then seen that beginning. It counts all calls that the pass knew to be counted. Of the root's, all calls
    /// are counted but one at most of each pass that is out: where none is, it is the number of all calls.
    pub fn updates(&self, pass: &mut CellPass) -> u64
        requires { IsGaugePass self.now pass.old }
        ensures pass { IsGaugePass self.now pass.new }
        ensures count { ReadsUpdates (view_of pass.old) (known_of pass.old) result
            (view_of pass.new) (known_of pass.new) }
    {
        self.table
            .shared
            .load::<rules::ReadsCount>(&mut pass.seat, 1)
    }

    /// Lends a new pass of the gauge, which has seen what the root pass has seen and has made no call. It is not refused:
    /// a pass of this kind takes no memory.
    pub fn split(&self, _alloc: Global, pass: &mut CellPass) -> Result<CellPass, Memory>
        requires pass { IsGaugePass self.now pass.old }
        requires root { (view_of pass.old).number ≡ 0 }
        ensures made { IsOk result }
        ensures pass { IsGaugePass self.now pass.new × IfOk result (IsGaugePass self.now) }
        ensures root { (view_of pass.new ≡ lender (view_of pass.old))
            × (known_of pass.new ≡ known_of pass.old) }
        ensures child { IfOk result (λ new. (view_of new ≡ child (view_of pass.old))
            × (known_of new ≡ known_of pass.old)) }
    {
        let seat = self.table.shared.split_seat::<rules::Loan>(&mut pass.seat);
        Ok(CellPass { seat, root: false })
    }

    /// Gives a pass of the gauge back to its root pass, which has then seen all that either had seen, and holds the calls of
    /// both.
    pub fn join(&self, pass: &mut CellPass, child: CellPass)
        requires pass { IsGaugePass self.now pass.old }
        requires root { (view_of pass.old).number ≡ 0 }
        requires child { IsGaugePass self.now child }
        ensures pass { IsGaugePass self.now pass.new }
        ensures view { view_of pass.new ≡ taker (view_of pass.old) (view_of child) }
        ensures seen { IsPrefix (view_of child).seen (view_of pass.new).seen }
        ensures known { known_of pass.new ≡ max (known_of pass.old) (known_of child) }
    {
        let CellPass { seat, root: _ } = child;
        self.table
            .shared
            .join_seat::<rules::Loan>(&mut pass.seat, seat);
        self.table.shared.load::<rules::Peeks>(&mut pass.seat, 0);
    }
}
