//! The rules of the two words of a counter and of a gauge, and what each step tells the pass that makes it.

ghost use Rattle.std.specs.Prelude.{pos};
ghost use Rattle.series_cells.specs.Cell.{Kept, Made, Looked, Counted, CountRead, Told, opening_view, cell_lender, cell_child, cell_taker, cell_nobody};
ghost use Rattle.series_cells.specs.Values.{counter_step, itself, gauge_step, signed, billionths};
ghost use Rattle.metrics_core.specs.declared.calls.SeriesCall.TheVariants.{Increment, Absolute, Add, Subtract, Set};

use crate::views::CellView;
use atomic_table::{Join, Play, Split, TableRule};

/// The first word is the value of a counter after the calls of the history, the second how many calls were counted.
pub struct CounterWords;

impl TableRule<(), CellView, ()> for CounterWords {
    ghost holds = { λ _ s. Kept counter_step 0 itself s.words s.views };

    ghost first = { λ _. opening_view };
}

/// The same, where the first word is a gauge's value in two's complement.
pub struct GaugeWords;

impl TableRule<(), CellView, ()> for GaugeWords {
    ghost holds = { λ _ s. Kept gauge_step (pos 0) signed s.words s.views };

    ghost first = { λ _. opening_view };
}

/// `fetch_add` on a counter's value.
pub struct Increments;

impl Play<(), CellView> for Increments {
    ghost then = { λ s m _ w. Made (Increment s.first) m w };
}

/// `fetch_max` on a counter's value.
pub struct Raises;

impl Play<(), CellView> for Raises {
    ghost then = { λ s m _ w. Made (Absolute s.first) m w };
}

/// `fetch_add` on a gauge's value.
pub struct Adds;

impl Play<(), CellView> for Adds {
    ghost then = { λ s m _ w. Made (Add (billionths s.first)) m w };
}

/// `fetch_sub` on a gauge's value.
pub struct Subtracts;

impl Play<(), CellView> for Subtracts {
    ghost then = { λ s m _ w. Made (Subtract (billionths s.first)) m w };
}

/// `swap` on a gauge's value.
pub struct Sets;

impl Play<(), CellView> for Sets {
    ghost then = { λ s m _ w. Made (Set (billionths s.first)) m w };
}

/// `load` of a counter's value.
pub struct ReadsCounter;

impl Play<(), CellView> for ReadsCounter {
    ghost then = { λ _ m n w. Looked counter_step 0 itself m n w };
}

/// `load` of a gauge's value.
pub struct ReadsGauge;

impl Play<(), CellView> for ReadsGauge {
    ghost then = { λ _ m n w. Looked gauge_step (pos 0) signed m n w };
}

/// `fetch_add` of one on the number of updates.
pub struct Counts;

impl Play<(), CellView> for Counts {
    ghost then = { λ _ m _ w. Counted m w };
}

/// `load` of the number of updates.
pub struct ReadsCount;

impl Play<(), CellView> for ReadsCount {
    ghost then = { λ _ m n w. CountRead m n w };
}

/// `load` of a value that isn't used.
pub struct Peeks;

impl Play<(), CellView> for Peeks {
    ghost then = { λ _ m _ w. Told m w };
}

/// The root lends a pass, and takes one back.
pub struct Loan;

impl Split<CellView> for Loan {
    ghost left = { cell_lender };

    ghost right = { cell_child };
}

impl Join<CellView> for Loan {
    ghost both = { cell_taker };

    ghost spent = { cell_nobody };
}
