//! The recorder that running threads register, describe and render with, each by a pass of its own.
ghost use Rattle.std.specs.Prelude.{◌≡◌, ◌+◌, ◌<◌, ◌≤◌, ◌^◌, ◌⊎◌, [], ◌∷◌, Err, None, IfOk, IfErr, IfSome, OnErr, OnOk, string_bytes};
ghost use Rattle.metrics_core.specs.Texts.{cow_text};
ghost use Rattle.metrics_core.specs.Outside.{Rose, GrewBy, GrewByPrefix};
ghost use Rattle.metrics_core.specs.declared.kinds.MetricKind.TheVariants.{Counter, Gauge, Histogram};
ghost use Rattle.metrics_facade.specs.Handles.{Fits};
ghost use Rattle.series_cells.specs.Pass.{IsCounterPass, IsGaugePass};
ghost use Rattle.sample_queue.specs.Passes.{IsSamplePass};
ghost use Rattle.legal_history.specs.History.{calls, lender, child, taker};
ghost use Rattle.shared_turns.specs.Passes.{view_of, Waits};
ghost use Rattle.shared_turns.specs.Turns.{Inside, Counted, Left, opening};
ghost use Rattle.prom_exporter.specs.Exporter.{Exporter, written_body};
ghost use Rattle.prom_exporter.specs.Lending.{LendsCounter, LendsGauge, LendsHistogram};
ghost use Rattle.prom_exporter.specs.Stepped.{KeepsUp};
ghost use Rattle.shared_recorder.specs.declared.entries.RecorderEntry.TheVariants.{Built, Register, Describe, Page};
ghost use Rattle.shared_recorder.specs.Setup.{gone_of};
ghost use Rattle.shared_recorder.specs.Stands.{StandsFor, Makes, LooksAt};
ghost use Rattle.shared_recorder.specs.Lending.{Lends, IsOwn};
ghost use Rattle.shared_recorder.specs.Pages.{MakesPage, MakesPart, Paged};

use crate::entries::RecorderEntry;
use crate::kept::KeptState;
use metrics_core::{Fixed, Key, KeyName, Memory, MetricKind, SeriesId, SharedString, Sink, Unit};
use metrics_facade as facade;
use page_texts::TextSink;
use prom_exporter::{BuildError, Lent, PrometheusState};
use sample_queue::{PromHistogram, SamplePass};
use series_cells::{CellPass, PromCounter, PromGauge};
use shared_turns::pass::{TurnPass, TurnSeat};
use shared_turns::rules::{Named, Stands};
use shared_turns::turns::Turns;
use std::alloc::Global;
use std::marker::Brand;
use std::snapshot::Snapshot;
use std::sync::Wait;

impl Stands<RecorderEntry> for KeptState {
    ghost use Rattle.shared_recorder.specs.Stands.{StandsFor as StandsFor_state};
    ghost use Rattle.shared_recorder.specs.declared.entries.RecorderEntry.TheVariants.{Built as Built_over};

    ghost stands = { StandsFor_state };

    ghost opens = { Built_over };
}

impl Named<RecorderEntry> for Brand {
    ghost use Rattle.shared_recorder.specs.Setup.{none_gone};
    ghost use Rattle.shared_recorder.specs.declared.entries.RecorderEntry.TheVariants.{Page as A_page};

    ghost call = { A_page none_gone };
}

/// A caller's token for a shared recorder.
pub type SharedPass = TurnPass<KeptState, RecorderEntry>;

type SharedSeat = TurnSeat<KeptState, RecorderEntry>;

/// A recorder that threads share. Its last owner ends it by `end`; where it is let go instead, the state is kept in memory until the
/// program ends.
#[derive(Drop)]
pub struct SharedRecorder {
    turns: Turns<KeptState, RecorderEntry>,
}

impl SharedRecorder {
    ghost use Rattle.shared_recorder.specs.Recorder.{IsPass, Stays};

    /// Shares a state, and gives the root pass, which knows that the recorder was built over this state. Where memory is refused the
    /// state is let go without an end.
    pub fn new(
        alloc: Global,
        state: PrometheusState,
    ) -> Result<(SharedRecorder, SharedPass), Memory>
        ensures { IfOk result (λ made. IsPass made.0 made.1
            × (view_of made.1 ≡ opening (Built state))) }
    {
        match Turns::new(alloc, KeptState::of(state)) {
            Ok((turns, pass)) => Ok((SharedRecorder { turns }, pass)),
            Err(_) => Err(Memory),
        }
    }

    // Counts a registration.
    fn count_registration<N: Named<RecorderEntry>>(
        &self,
        seat: &mut SharedSeat,
        _kind: MetricKind,
        _key: &Key,
        _number: u64,
    )
        requires call { N.call ≡ Register _kind _key.now _number }
        requires seat { (seat.old.table_id ≡ self.now.turns.table.shared.table_id)
            × Inside seat.old.me }
        ensures seat { seat.new.table_id ≡ seat.old.table_id }
        ensures counted { Counted (Register _kind _key.now _number) seat.old.me seat.new.me }
    {
        self.turns.count::<N>(seat);
    }

    // Counts a description, whose texts are gone.
    fn count_description<N: Named<RecorderEntry>>(
        &self,
        seat: &mut SharedSeat,
        _name: Snapshot<KeyName>,
        _unit: Snapshot<Option<Unit>>,
        _text: Snapshot<SharedString>,
    )
        requires call { N.call ≡ Describe _name.value _unit.value (cow_text _text.value) }
        requires seat { (seat.old.table_id ≡ self.now.turns.table.shared.table_id)
            × Inside seat.old.me }
        ensures seat { seat.new.table_id ≡ seat.old.table_id }
        ensures counted { Counted (Describe _name.value _unit.value (cow_text _text.entry.value))
            seat.old.me seat.new.me }
    {
        self.turns.count::<N>(seat);
    }

    // Counts a page, with the series that it removed.
    fn count_page<N: Named<RecorderEntry>>(
        &self,
        seat: &mut SharedSeat,
        _before: Snapshot<KeptState>,
        _after: &KeptState,
    )
        requires call { N.call ≡ Page (gone_of _before.value _after.now) }
        requires seat { (seat.old.table_id ≡ self.now.turns.table.shared.table_id)
            × Inside seat.old.me }
        ensures seat { seat.new.table_id ≡ seat.old.table_id }
        ensures counted { Counted (Page (gone_of _before.value _after.now)) seat.old.me seat.new.me }
    {
        self.turns.count::<N>(seat);
    }

    // Ends the turn of a call that was refused for want of memory and made no entry.
    fn refuse(&self, seat: &mut SharedSeat, state: Box<KeptState>) -> Memory
        requires seat { (seat.old.table_id ≡ self.now.turns.table.shared.table_id)
            × Inside seat.old.me }
        requires value { StandsFor (calls seat.old.me.0.history.seen) state.value }
        ensures seat { seat.new.table_id ≡ seat.old.table_id }
        ensures left { Left seat.old.me seat.new.me }
    {
        self.turns.leave(seat, state);
        Memory
    }

    /// Registers a series of a kind, behind all that the pass had seen: gives the id that the recorder of one thread gives at that
    /// place. Where memory is refused there is no entry.
    pub fn register<R: Wait>(
        &self,
        rt: &R,
        alloc: Global,
        pass: &mut SharedPass,
        kind: MetricKind,
        key: &Key,
    ) -> Result<SeriesId, Memory>
        requires { IsPass self.now pass.old }
        ensures pass { Stays self.now pass.old pass.new }
        ensures registered { IfOk result (λ id. (id.kind ≡ kind)
            × Makes (Register kind key.now id.number) (view_of pass.old) (view_of pass.new)) }
        ensures refused { OnErr result (Waits (view_of pass.old) (view_of pass.new)) }
    {
        let mut state = self.turns.enter(rt, &mut pass.seat);
        match state.register(alloc, kind, key) {
            Ok(id) => {
                self.count_registration::<Brand>(&mut pass.seat, kind, key, id.number);
                pass.entries = pass.entries.wrapping_add(1);
                self.turns.leave(&mut pass.seat, state);
                Ok(id)
            }
            Err(Memory) => Err(self.refuse(&mut pass.seat, state)),
        }
    }

    /// Registers a counter, as `register` does a series of any kind.
    pub fn register_counter<R: Wait>(
        &self,
        rt: &R,
        alloc: Global,
        pass: &mut SharedPass,
        key: &Key,
    ) -> Result<SeriesId, Memory>
        requires { IsPass self.now pass.old }
        ensures pass { Stays self.now pass.old pass.new }
        ensures registered { IfOk result (λ id. (id.kind ≡ Counter)
            × Makes (Register Counter key.now id.number) (view_of pass.old) (view_of pass.new)) }
        ensures refused { OnErr result (Waits (view_of pass.old) (view_of pass.new)) }
    {
        self.register(rt, alloc, pass, MetricKind::Counter, key)
    }

    /// Registers a gauge, as `register` does a series of any kind.
    pub fn register_gauge<R: Wait>(
        &self,
        rt: &R,
        alloc: Global,
        pass: &mut SharedPass,
        key: &Key,
    ) -> Result<SeriesId, Memory>
        requires { IsPass self.now pass.old }
        ensures pass { Stays self.now pass.old pass.new }
        ensures registered { IfOk result (λ id. (id.kind ≡ Gauge)
            × Makes (Register Gauge key.now id.number) (view_of pass.old) (view_of pass.new)) }
        ensures refused { OnErr result (Waits (view_of pass.old) (view_of pass.new)) }
    {
        self.register(rt, alloc, pass, MetricKind::Gauge, key)
    }

    /// Registers a histogram, as `register` does a series of any kind.
    pub fn register_histogram<R: Wait>(
        &self,
        rt: &R,
        alloc: Global,
        pass: &mut SharedPass,
        key: &Key,
    ) -> Result<SeriesId, Memory>
        requires { IsPass self.now pass.old }
        ensures pass { Stays self.now pass.old pass.new }
        ensures registered { IfOk result (λ id. (id.kind ≡ Histogram)
            × Makes (Register Histogram key.now id.number) (view_of pass.old) (view_of pass.new)) }
        ensures refused { OnErr result (Waits (view_of pass.old) (view_of pass.new)) }
    {
        self.register(rt, alloc, pass, MetricKind::Histogram, key)
    }

    /// Describes metrics of a name, of any kind, behind all that the pass had seen. Where memory is refused there is no entry.
    pub fn describe<R: Wait>(
        &self,
        rt: &R,
        alloc: Global,
        pass: &mut SharedPass,
        kind: MetricKind,
        name: KeyName,
        unit: Option<Unit>,
        description: SharedString,
    ) -> Result<(), Memory>
        requires { IsPass self.now pass.old }
        ensures pass { Stays self.now pass.old pass.new }
        ensures described { OnOk result (Makes (Describe name unit (cow_text description.entry))
            (view_of pass.old) (view_of pass.new)) }
        ensures refused { OnErr result (Waits (view_of pass.old) (view_of pass.new)) }
    {
        let said_name = Snapshot::of(&name);
        let said_unit = Snapshot::of(&unit);
        let said_text = Snapshot::of(&description);
        let mut state = self.turns.enter(rt, &mut pass.seat);
        match state.describe(rt, alloc, kind, name, unit, description) {
            Ok(()) => {
                self.count_description::<Brand>(&mut pass.seat, said_name, said_unit, said_text);
                pass.entries = pass.entries.wrapping_add(1);
                self.turns.leave(&mut pass.seat, state);
                Ok(())
            }
            Err(Memory) => Err(self.refuse(&mut pass.seat, state)),
        }
    }

    /// Describes a counter, as `describe` does.
    pub fn describe_counter<R: Wait>(
        &self,
        rt: &R,
        alloc: Global,
        pass: &mut SharedPass,
        name: KeyName,
        unit: Option<Unit>,
        description: SharedString,
    ) -> Result<(), Memory>
        requires { IsPass self.now pass.old }
        ensures pass { Stays self.now pass.old pass.new }
        ensures described { OnOk result (Makes (Describe name unit (cow_text description.entry))
            (view_of pass.old) (view_of pass.new)) }
        ensures refused { OnErr result (Waits (view_of pass.old) (view_of pass.new)) }
    {
        self.describe(
            rt,
            alloc,
            pass,
            MetricKind::Counter,
            name,
            unit,
            description,
        )
    }

    /// Describes a gauge, as `describe` does.
    pub fn describe_gauge<R: Wait>(
        &self,
        rt: &R,
        alloc: Global,
        pass: &mut SharedPass,
        name: KeyName,
        unit: Option<Unit>,
        description: SharedString,
    ) -> Result<(), Memory>
        requires { IsPass self.now pass.old }
        ensures pass { Stays self.now pass.old pass.new }
        ensures described { OnOk result (Makes (Describe name unit (cow_text description.entry))
            (view_of pass.old) (view_of pass.new)) }
        ensures refused { OnErr result (Waits (view_of pass.old) (view_of pass.new)) }
    {
        self.describe(rt, alloc, pass, MetricKind::Gauge, name, unit, description)
    }

    /// Describes a histogram, as `describe` does.
    pub fn describe_histogram<R: Wait>(
        &self,
        rt: &R,
        alloc: Global,
        pass: &mut SharedPass,
        name: KeyName,
        unit: Option<Unit>,
        description: SharedString,
    ) -> Result<(), Memory>
        requires { IsPass self.now pass.old }
        ensures pass { Stays self.now pass.old pass.new }
        ensures described { OnOk result (Makes (Describe name unit (cow_text description.entry))
            (view_of pass.old) (view_of pass.new)) }
        ensures refused { OnErr result (Waits (view_of pass.old) (view_of pass.new)) }
    {
        self.describe(
            rt,
            alloc,
            pass,
            MetricKind::Histogram,
            name,
            unit,
            description,
        )
    }

    /// Lends a counter. It makes no entry, and what was lent is never given back.
    pub fn lend_counter<R: Wait>(
        &self,
        rt: &R,
        alloc: Global,
        pass: &mut SharedPass,
        id: SeriesId,
    ) -> Result<Option<Lent<facade::Counter<PromCounter>, CellPass>>, Memory>
        requires { IsPass self.now pass.old }
        ensures pass { Stays self.now pass.old pass.new }
        ensures lent { IfOk result (λ lent.
            Lends (LendsCounter id lent) (view_of pass.old) (view_of pass.new)) }
        ensures fits { IfOk result (λ lent.
            IfSome lent (λ lent. Fits IsCounterPass lent.handle lent.pass)) }
        ensures own { IfOk result (λ lent. IsOwn Counter id (view_of pass.old) → ¬ (lent ≡ None)) }
        ensures refused { OnErr result (Waits (view_of pass.old) (view_of pass.new)) }
    {
        let mut state = self.turns.enter(rt, &mut pass.seat);
        match state.lend_counter(alloc, id) {
            Ok(lent) => {
                self.turns.leave(&mut pass.seat, state);
                Ok(lent)
            }
            Err(Memory) => Err(self.refuse(&mut pass.seat, state)),
        }
    }

    /// Lends a gauge, as `lend_counter` does a counter.
    pub fn lend_gauge<R: Wait>(
        &self,
        rt: &R,
        alloc: Global,
        pass: &mut SharedPass,
        id: SeriesId,
    ) -> Result<Option<Lent<facade::Gauge<PromGauge>, CellPass>>, Memory>
        requires { IsPass self.now pass.old }
        ensures pass { Stays self.now pass.old pass.new }
        ensures lent { IfOk result (λ lent.
            Lends (LendsGauge id lent) (view_of pass.old) (view_of pass.new)) }
        ensures fits { IfOk result (λ lent.
            IfSome lent (λ lent. Fits IsGaugePass lent.handle lent.pass)) }
        ensures own { IfOk result (λ lent. IsOwn Gauge id (view_of pass.old) → ¬ (lent ≡ None)) }
        ensures refused { OnErr result (Waits (view_of pass.old) (view_of pass.new)) }
    {
        let mut state = self.turns.enter(rt, &mut pass.seat);
        match state.lend_gauge(alloc, id) {
            Ok(lent) => {
                self.turns.leave(&mut pass.seat, state);
                Ok(lent)
            }
            Err(Memory) => Err(self.refuse(&mut pass.seat, state)),
        }
    }

    /// Lends a histogram, as `lend_counter` does a counter.
    pub fn lend_histogram<R: Wait>(
        &self,
        rt: &R,
        alloc: Global,
        pass: &mut SharedPass,
        id: SeriesId,
    ) -> Result<Option<Lent<facade::Histogram<PromHistogram>, SamplePass<(Fixed, u64)>>>, Memory>
        requires { IsPass self.now pass.old }
        ensures pass { Stays self.now pass.old pass.new }
        ensures lent { IfOk result (λ lent.
            Lends (LendsHistogram id lent) (view_of pass.old) (view_of pass.new)) }
        ensures fits { IfOk result (λ lent.
            IfSome lent (λ lent. Fits IsSamplePass lent.handle lent.pass)) }
        ensures own { IfOk result (λ lent. IsOwn Histogram id (view_of pass.old) → ¬ (lent ≡ None)) }
        ensures refused { OnErr result (Waits (view_of pass.old) (view_of pass.new)) }
    {
        let mut state = self.turns.enter(rt, &mut pass.seat);
        match state.lend_histogram(alloc, id) {
            Ok(lent) => {
                self.turns.leave(&mut pass.seat, state);
                Ok(lent)
            }
            Err(Memory) => Err(self.refuse(&mut pass.seat, state)),
        }
    }

    /// Makes a page at a moment, in nanoseconds: drains the histograms and publishes what is said, makes the page step with an entry,
    /// and writes the page's body. Where memory is refused before anything was published there is no entry; after any other refusal there is,
    /// and a prefix of the body was written.
    pub fn render_to_write<R: Wait, K: Sink>(
        &self,
        rt: &R,
        alloc: Global,
        pass: &mut SharedPass,
        moment: u64,
        sink: &mut K,
    ) -> Result<(), BuildError>
        requires { IsPass self.now pass.old }
        ensures pass { Stays self.now pass.old pass.new }
        ensures page { OnOk result ((y : Exporter)
            × Paged (MakesPage moment) y (view_of pass.old) (view_of pass.new)
            × GrewBy (K.written sink.old) (K.written sink.new) (written_body moment y)) }
        ensures refused { OnErr result ((Waits (view_of pass.old) (view_of pass.new)
            × (K.written sink.new ≡ K.written sink.old))
            ⊎ ((y : Exporter) × Paged (MakesPart moment) y (view_of pass.old) (view_of pass.new) × GrewByPrefix (K.written sink.old) (K.written sink.new) (written_body moment y))) }
        ensures errors { IfErr result (λ error. (error ≡ BuildError.WriteFault)
            ⊎ (error ≡ BuildError.Memory)) }
        ensures cause { result ≡ Err BuildError.WriteFault
            → Rose (K.faults sink.old) (K.faults sink.new) }
        ensures never_falls { K.faults sink.old ≤ K.faults sink.new }
    {
        let mut state = self.turns.enter(rt, &mut pass.seat);
        let before = Snapshot::of(&*state);
        match state.page(rt, alloc, moment, sink) {
            Ok(page) => {
                self.count_page::<Brand>(&mut pass.seat, before, &state);
                pass.entries = pass.entries.wrapping_add(1);
                self.turns.leave(&mut pass.seat, state);
                page
            }
            Err(Memory) => Err(self.refuse(&mut pass.seat, state).into()),
        }
    }

    /// Makes a page at a moment, in nanoseconds, as `render_to_write` does, and answers its body as a text. Where memory is refused
    /// before anything was published there is no entry; after any later refusal there is one. `calls` of the pass tells which.
    pub fn render<R: Wait>(
        &self,
        rt: &R,
        alloc: Global,
        pass: &mut SharedPass,
        moment: u64,
    ) -> Result<String, Memory>
        requires { IsPass self.now pass.old }
        ensures pass { Stays self.now pass.old pass.new }
        ensures page { IfOk result (λ text. (y : Exporter)
            × Paged (MakesPage moment) y (view_of pass.old) (view_of pass.new)
            × (string_bytes text ≡ written_body moment y)) }
        ensures refused { OnErr result (Waits (view_of pass.old) (view_of pass.new)
            ⊎ ((y : Exporter) × Paged (MakesPart moment) y (view_of pass.old) (view_of pass.new))) }
    {
        let mut sink = TextSink::new(alloc);
        match self.render_to_write(rt, alloc, pass, moment, &mut sink) {
            Ok(()) => Ok(sink.into_text()),
            // This sink fails only where memory is refused, since each piece of a page is a text.
            Err(_) => Err(Memory),
        }
    }

    /// Drains the histograms and publishes what is said of metrics, as a page does before it is shown. The entry is that of a page which
    /// removed nothing. Where memory is refused there is no entry.
    pub fn run_upkeep<R: Wait>(
        &self,
        rt: &R,
        alloc: Global,
        pass: &mut SharedPass,
    ) -> Result<(), Memory>
        requires { IsPass self.now pass.old }
        ensures pass { Stays self.now pass.old pass.new }
        ensures kept { OnOk result ((y : Exporter)
            × Paged KeepsUp y (view_of pass.old) (view_of pass.new)) }
        ensures refused { OnErr result (Waits (view_of pass.old) (view_of pass.new)) }
    {
        let mut state = self.turns.enter(rt, &mut pass.seat);
        let before = Snapshot::of(&*state);
        match state.keep_up(rt, alloc) {
            Ok(()) => {
                self.count_page::<Brand>(&mut pass.seat, before, &state);
                pass.entries = pass.entries.wrapping_add(1);
                self.turns.leave(&mut pass.seat, state);
                Ok(())
            }
            Err(Memory) => Err(self.refuse(&mut pass.seat, state)),
        }
    }

    /// How many entries there are, modulo 2^64. The pass has then seen all of them. It waits for no turn.
    pub fn look(&self, pass: &mut SharedPass) -> u64
        requires { IsPass self.now pass.old }
        ensures pass { Stays self.now pass.old pass.new }
        ensures looked { LooksAt result (view_of pass.old) (view_of pass.new) }
    {
        self.turns.look(&mut pass.seat)
    }

    /// Lends a new pass, which has seen what the root has seen and has made no call.
    pub fn split(&self, pass: &mut SharedPass) -> SharedPass
        requires pass { IsPass self.now pass.old }
        requires root { (view_of pass.old).number ≡ 0 }
        requires few { pass.old.splits + 2 < 2 ^ 64 }
        ensures pass { IsPass self.now pass.new × IsPass self.now result }
        ensures root { view_of pass.new ≡ lender (view_of pass.old) }
        ensures child { view_of result ≡ child (view_of pass.old) }
        ensures splits { pass.new.splits ≡ pass.old.splits + 1 }
    {
        self.turns.split(pass)
    }

    /// Takes a pass back: the root has then seen what either had seen, and holds the entries of both.
    pub fn join(&self, pass: &mut SharedPass, child: SharedPass)
        requires pass { IsPass self.now pass.old × IsPass self.now child }
        requires root { (view_of pass.old).number ≡ 0 }
        requires child { ¬ ((view_of child).number ≡ 0) }
        ensures pass { IsPass self.now pass.new }
        ensures view { view_of pass.new ≡ taker (view_of pass.old) (view_of child) }
        ensures splits { pass.new.splits ≡ pass.old.splits }
    {
        self.turns.join(pass, child);
    }

    /// Ends the recorder by its last owner, and the state with it. It waits for the readers of descriptions.
    pub fn end<R: Wait>(self, rt: &R, pass: SharedPass)
        requires { IsPass self pass }
    {
        let Self { turns } = self;
        if let Some(state) = turns.end(pass) {
            Box::into_inner(state).end(rt);
        }
    }
}
