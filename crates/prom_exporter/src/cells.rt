//! Counters and gauges as the exporter keeps them: the cell that threads share, once it was lent, and the value that was last read
//! of it.

ghost use Rattle.std.specs.Prelude.{◌≡◌, ◌++◌, [], Some, IfOk, OnOk, OnErr, string_bytes};
ghost use Rattle.std.specs.Arc.{arc_value};
ghost use Rattle.legal_history.specs.History.{child};
ghost use Rattle.metrics_core.specs.Numbers.{page_number};
ghost use Rattle.prom_exporter.specs.Shared.{unmade, with_lent, Counts, Looks, Makes, TakesBack};

use cell_lanes::{CountedCell, LentCell, OwnedCell, ValueCell};
use metrics_core::{Fixed, Memory, MetricKind, SeriesCall};
use metrics_registry::Recency;
use prom_format::{push_count, push_fixed};
use series_cells::{PromCounter, PromGauge};
use std::alloc::Global;
use std::marker::Model;
use std::sync::Arc;

/// A value on a page, in billionths.
#[derive(Clone, Copy, PartialEq, Eq)]
pub(crate) struct Billionths(pub(crate) i128);

/// A cell whose value stands on a page.
pub(crate) trait Shown {
    ghost use Rattle.std.specs.Prelude.{◌≡◌, ◌++◌, OnOk, string_bytes, ℤ};
    ghost use Rattle.metrics_core.specs.Numbers.{page_number};

    /// The value, in billionths.
    ghost shown: { Self → ℤ };

    /// The value, in billionths.
    fn billionths(&self) -> Billionths
        ensures { result.0 ≡ shown self.now };

    /// Appends the value in its page spelling.
    fn push_value(&self, buffer: &mut String) -> Result<(), Memory>
        ensures { OnOk result (string_bytes buffer.new ≡ string_bytes buffer.old ++ page_number
            (shown self.now)) };
}

/// A cell that the exporter makes when it lends it for the first time.
pub(crate) trait MadeCell: CountedCell {
    ghost use Rattle.std.specs.Prelude.{◌≡◌, IfOk};
    ghost use Rattle.legal_history.specs.History.{Settled, first};

    /// A new cell that nobody has called.
    fn make_cell(alloc: Global) -> Result<OwnedCell<Self>, Memory>
        ensures { IfOk result (λ made. (made.root ≡ first) × Settled made.root) };
}

impl MadeCell for PromCounter {
    fn make_cell(alloc: Global) -> Result<OwnedCell<PromCounter>, Memory> {
        PromCounter::owned(alloc)
    }
}

impl MadeCell for PromGauge {
    fn make_cell(alloc: Global) -> Result<OwnedCell<PromGauge>, Memory> {
        PromGauge::owned(alloc)
    }
}

/// A series with a cell of any kind whose calls are those of series. The cell is made when the series is lent for the first time:
/// nobody can have called it before. A contract sees it as the cell, if it is made, and what the exporter's own pass knows; where it
/// isn't made that is what the pass of a new cell knows.
#[derive(Drop)]
pub(crate) struct KeptCell<C: ValueCell<Call = SeriesCall, Entry = SeriesCall>> {
    owned: Option<OwnedCell<C>>,
    /// The value after the calls that the exporter has seen.
    value: C::Reading,
    /// How many updates a page has found, modulo 2^64, and the moment at which a page found so many first.
    note: Option<(u64, u64)>,
}

impl<C: ValueCell<Call = SeriesCall, Entry = SeriesCall>> Model for KeptCell<C> {
    ghost use Rattle.std.specs.Prelude.{◌≡◌, Option};
    ghost use Rattle.legal_history.specs.History.{calls};
    ghost use Rattle.prom_exporter.specs.Shared.{Shared, cell_kept, root_kept};

    ghost Value = { Shared (Option C) };

    ghost view = { λ kept. record { cell = cell_kept kept.owned; root = root_kept kept.owned; note = kept.note } };

    ghost use Rattle.prom_exporter.specs.Shared.{KnowsAll};

    ghost invariant = { λ kept. (kept.value ≡ C.value_of (calls (root_kept kept.owned).seen)) × KnowsAll (root_kept kept.owned) };
}

impl<C: ValueCell<Call = SeriesCall, Entry = SeriesCall>> KeptCell<C> {
    /// A series that was never lent, with its value at the start.
    fn new(value: C::Reading) -> KeptCell<C>
        requires { value ≡ C.value_of [] }
        ensures { result ≡ unmade }
    {
        KeptCell {
            owned: None,
            value,
            note: None,
        }
    }

    /// Reads the cell, if a pass of it is out. Where none is, its value was read when the last one came back.
    pub(crate) fn read(&mut self)
        ensures { Looks self.old self.new }
    {
        if let Some(owned) = &mut self.owned {
            if owned.is_home() {
                return;
            }
            self.value = owned.value();
        }
    }

    /// Takes a pass back, and reads the cell.
    pub(crate) fn take_back(&mut self, pass: C::Pass)
        requires { (cell : C) × (self.old.cell ≡ Some cell) × C.is_pass cell pass }
        ensures { TakesBack (C.view pass) self.old self.new }
    {
        if let Some(owned) = &mut self.owned {
            owned.take_pass(pass);
            self.value = owned.value();
        }
    }

    /// Takes a lane's pass back, and reads the cell.
    pub(crate) fn take_from_lane(&mut self, lent: LentCell<C>)
        requires lent { self.old.cell ≡ Some lent.cell }
        ensures { TakesBack lent.knows self.old self.new }
    {
        self.take_back(lent.into_pass());
    }
}

impl<C: MadeCell<Call = SeriesCall, Entry = SeriesCall>> KeptCell<C> {
    ghost use Rattle.std.specs.Prelude.{None, unwrap_or};
    ghost use Rattle.prom_exporter.specs.Stepped.{IsNoted};

    /// Lends the cell and a new pass of it. The cell is made where there is none yet.
    pub(crate) fn lend(&mut self, alloc: Global) -> Result<(Arc<C>, C::Pass), Memory>
        ensures lent { IfOk result (λ lent. Makes self.old.cell (arc_value lent.0)
            × C.is_pass (arc_value lent.0) lent.1 × (C.view lent.1 ≡ child self.old.root)) }
        ensures out { IfOk result (λ lent. self.new ≡ with_lent (arc_value lent.0) self.old) }
        ensures refused { OnErr result (self.new ≡ self.old) }
    {
        if let Some(owned) = &mut self.owned {
            return owned.lend_pass(alloc);
        }
        let mut made = C::make_cell(alloc)?;
        let lent = made.lend_pass(alloc)?;
        self.owned = Some(made);
        Ok(lent)
    }

    /// Lends a new pass of the cell to a lane. The cell is made where there is none yet.
    pub(crate) fn lend_to_lane(&mut self, alloc: Global) -> Result<LentCell<C>, Memory>
        ensures lent { IfOk result (λ lent. Makes self.old.cell lent.cell
            × (lent.knows ≡ child self.old.root)) }
        ensures out { IfOk result (λ lent. self.new ≡ with_lent lent.cell self.old) }
        ensures refused { OnErr result (self.new ≡ self.old) }
    {
        let (cell, pass) = self.lend(alloc)?;
        Ok(LentCell::new(cell, pass))
    }

    /// How many updates the cell has, modulo 2^64: none where it isn't made. The cell is then read: the value may know of calls
    /// that are not counted yet.
    fn count(&mut self) -> u64
        ensures { Counts self.old result self.new }
    {
        match &mut self.owned {
            Some(owned) => {
                let updates = owned.updates();
                self.value = owned.value();
                updates
            }
            None => 0,
        }
    }

    /// Reads the cell for a page at a moment, and where series of its kind may fall idle notes how many updates it has. Answers
    /// whether the cell stays: false exactly where it is idle.
    pub(crate) fn stays(&mut self, recency: &Option<Recency>, kind: MetricKind, moment: u64) -> bool
        ensures { IsNoted (unwrap_or recency.now None) moment kind self.old result self.new }
    {
        match recency {
            Some(recency) => {
                let updates = self.count();
                recency.should_store(kind, &mut self.note, updates, moment)
            }
            None => {
                self.read();
                true
            }
        }
    }
}

/// A counter.
pub(crate) type CounterCell = KeptCell<PromCounter>;

/// A gauge.
pub(crate) type GaugeCell = KeptCell<PromGauge>;

/// A counter at 0.
pub(crate) fn new_counter() -> CounterCell
    ensures { result ≡ unmade }
{
    KeptCell::new(0)
}

/// A gauge at 0.
pub(crate) fn new_gauge() -> GaugeCell
    ensures { result ≡ unmade }
{
    KeptCell::new(Fixed(0))
}

impl Shown for KeptCell<PromCounter> {
    ghost use Rattle.prom_exporter.specs.Values.{counter_shown};

    ghost shown = { counter_shown };

    fn billionths(&self) -> Billionths {
        Billionths(i128::from(self.value) * 1_000_000_000)
    }

    fn push_value(&self, buffer: &mut String) -> Result<(), Memory> {
        push_count(buffer, self.value)
    }
}

impl Shown for KeptCell<PromGauge> {
    ghost use Rattle.prom_exporter.specs.Values.{gauge_shown};

    ghost shown = { gauge_shown };

    fn billionths(&self) -> Billionths {
        Billionths(i128::from(self.value.0))
    }

    fn push_value(&self, buffer: &mut String) -> Result<(), Memory> {
        push_fixed(buffer, i128::from(self.value.0))
    }
}
