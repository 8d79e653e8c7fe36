//! The state, and the calls that are made on it while a pass has its turn.

ghost use Rattle.std.specs.Prelude.{◌≡◌, ◌+◌, ◌<◌, ◌^◌, [], ◌∷◌, None, IfOk, OnErr, OnOk};
ghost use Rattle.metrics_core.specs.declared.kinds.MetricKind.TheVariants.{Counter, Gauge, Histogram};
ghost use Rattle.legal_history.specs.History.{lender, child, taker};
ghost use Rattle.shared_turns.specs.Passes.{view_of, Waits};
ghost use Rattle.shared_turns.specs.Turns.{Inside, Counted, opening};
ghost use Rattle.dsd_exporter.specs.State.{register, number_given};
ghost use Rattle.dsd_exporter.specs.Exporter.{Exporter, series_seen, settings_of};
ghost use Rattle.dsd_exporter.specs.Flushing.{Found, Flushes};
ghost use Rattle.dsd_exporter.specs.Lending.{LendsCounter, LendsGauge, LendsHistogram};
ghost use Rattle.dsd_exporter.specs.Sending.{WritesFlush};
ghost use Rattle.shared_flushes.specs.declared.entries.StateEntry.TheVariants.{Built, Register};
ghost use Rattle.shared_flushes.specs.Stands.{During, IsOwn, LooksAt, Makes};

use crate::entries::StateEntry;
use dsd_exporter::{FlushState, Lent, State, StateConfiguration, TelemetryUpdate, write_flush};
use dsd_writer::PayloadWriter;
use flushed_cells::{CounterPass, DsdCounter, DsdGauge, GaugePass};
use hash_starts::HashStart;
use metrics_core::{Fixed, Key, Memory, MetricKind, SeriesId, Words};
use sample_queue::{DsdHistogram, SamplePass};
use shared_turns::pass::{TurnPass, TurnSeat};
use shared_turns::rules::{Named, Stands};
use shared_turns::turns::Turns;
use std::alloc::Global;
use std::marker::Brand;
use std::sync::{Arc, Wait};

impl Stands<StateEntry> for State {
    ghost use Rattle.shared_flushes.specs.Stands.{StandsFor, opens};

    ghost stands = { StandsFor };

    ghost opens = { opens };
}

impl Named<StateEntry> for Brand {
    ghost use Rattle.shared_flushes.specs.Stands.{any_entry};

    ghost call = { any_entry };
}

/// A caller's token for a shared state.
pub type StatePass = TurnPass<State, StateEntry>;

type StateSeat = TurnSeat<State, StateEntry>;

/// Registers a series of a kind in a state.
fn register_in(
    state: &mut State,
    alloc: Global,
    kind: MetricKind,
    key: &Key,
) -> Result<SeriesId, Memory>
    ensures registered { OnOk result (series_seen state.new.series ≡ register kind key.now
        (series_seen state.old.series)) }
    ensures settings { state.new.settings ≡ state.old.settings }
    ensures id { IfOk result (λ id.
        id ≡ record { kind = kind; number = number_given kind key.now state.old.series }) }
    ensures refused { OnErr result (state.new ≡ state.old) }
{
    match kind {
        MetricKind::Counter => state.register_counter(alloc, key),
        MetricKind::Gauge => state.register_gauge(alloc, key),
        MetricKind::Histogram => state.register_histogram(alloc, key),
    }
}

/// The state of an exporter that threads share.
#[derive(Drop)]
pub struct SharedState {
    turns: Turns<State, StateEntry>,
}

impl SharedState {
    ghost use Rattle.shared_flushes.specs.Passes.{IsPass};

    /// Shares a new state without series, and gives the root pass, which knows what the state was built with. Keys are looked up by
    /// hashes from a start, which should be drawn where strangers choose them.
    pub fn new(
        alloc: Global,
        start: HashStart,
        configuration: StateConfiguration,
    ) -> Result<(SharedState, StatePass), Memory>
        ensures { IfOk result (λ made. IsPass made.0 made.1
            × (view_of made.1 ≡ opening (Built (settings_of configuration)))) }
    {
        let state = State::starting_from(alloc, start, configuration)?;
        match Turns::new(alloc, state) {
            Ok((turns, pass)) => Ok((SharedState { turns }, pass)),
            Err(_state) => Err(Memory),
        }
    }

    // Counts a registration.
    fn count_registration<N: Named<StateEntry>>(
        &self,
        seat: &mut StateSeat,
        _kind: MetricKind,
        _key: &Key,
        _number: u64,
    )
        requires call { N.call ≡ Register _kind _key.now _number }
        requires seat { (seat.old.table_id ≡ self.now.turns.table.shared.table_id)
            × Inside seat.old.me }
        ensures seat { seat.new.table_id ≡ seat.old.table_id }
        ensures counted { Counted (Register _kind _key.now _number) seat.old.me seat.new.me }
    {
        self.turns.count::<N>(seat);
    }

    /// Registers a series of a kind, behind all that the pass had seen: gives the id that the state of one thread gives at that
    /// place. Past 2^64 - 1 series none is made, and the id names none. Where memory is refused there is no entry.
    pub fn register<R: Wait>(
        &self,
        rt: &R,
        alloc: Global,
        pass: &mut StatePass,
        kind: MetricKind,
        key: &Key,
    ) -> Result<SeriesId, Memory>
        requires { IsPass self.now pass.old }
        ensures pass { IsPass self.now pass.new }
        ensures registered { IfOk result (λ id. (id.kind ≡ kind)
            × Makes (Register kind key.now id.number) (view_of pass.old) (view_of pass.new)) }
        ensures refused { OnErr result (Waits (view_of pass.old) (view_of pass.new)) }
        ensures splits { pass.new.splits ≡ pass.old.splits }
    {
        let mut state = self.turns.enter(rt, &mut pass.seat);
        match register_in(&mut state, alloc, kind, key) {
            Ok(id) => {
                self.count_registration::<Brand>(&mut pass.seat, kind, key, id.number);
                pass.entries = pass.entries.wrapping_add(1);
                self.turns.leave(&mut pass.seat, state);
                Ok(id)
            }
            Err(refused) => {
                self.turns.leave(&mut pass.seat, state);
                Err(refused)
            }
        }
    }

    /// Lends a counter. It makes no entry, and what was lent is never given back.
    pub fn lend_counter<R: Wait>(
        &self,
        rt: &R,
        alloc: Global,
        pass: &mut StatePass,
        id: SeriesId,
    ) -> Result<Option<Lent<Arc<DsdCounter>, CounterPass>>, Memory>
        requires { IsPass self.now pass.old }
        ensures pass { IsPass self.now pass.new }
        ensures lent { IfOk result (λ lent.
            During (LendsCounter id lent) (view_of pass.old) (view_of pass.new)) }
        ensures own { IfOk result (λ lent. IsOwn Counter id (view_of pass.old) → ¬ (lent ≡ None)) }
        ensures refused { OnErr result (Waits (view_of pass.old) (view_of pass.new)) }
        ensures splits { pass.new.splits ≡ pass.old.splits }
    {
        let mut state = self.turns.enter(rt, &mut pass.seat);
        match state.lend_counter(alloc, id) {
            Ok(lent) => {
                self.turns.leave(&mut pass.seat, state);
                Ok(lent)
            }
            Err(refused) => {
                self.turns.leave(&mut pass.seat, state);
                Err(refused)
            }
        }
    }

    /// Lends a gauge, as `lend_counter` does a counter.
    pub fn lend_gauge<R: Wait>(
        &self,
        rt: &R,
        alloc: Global,
        pass: &mut StatePass,
        id: SeriesId,
    ) -> Result<Option<Lent<Arc<DsdGauge>, GaugePass>>, Memory>
        requires { IsPass self.now pass.old }
        ensures pass { IsPass self.now pass.new }
        ensures lent { IfOk result (λ lent.
            During (LendsGauge id lent) (view_of pass.old) (view_of pass.new)) }
        ensures own { IfOk result (λ lent. IsOwn Gauge id (view_of pass.old) → ¬ (lent ≡ None)) }
        ensures refused { OnErr result (Waits (view_of pass.old) (view_of pass.new)) }
        ensures splits { pass.new.splits ≡ pass.old.splits }
    {
        let mut state = self.turns.enter(rt, &mut pass.seat);
        match state.lend_gauge(alloc, id) {
            Ok(lent) => {
                self.turns.leave(&mut pass.seat, state);
                Ok(lent)
            }
            Err(refused) => {
                self.turns.leave(&mut pass.seat, state);
                Err(refused)
            }
        }
    }

    /// Lends a histogram, as `lend_counter` does a counter.
    pub fn lend_histogram<R: Wait>(
        &self,
        rt: &R,
        alloc: Global,
        pass: &mut StatePass,
        id: SeriesId,
    ) -> Result<Option<Lent<Arc<DsdHistogram>, SamplePass<Fixed>>>, Memory>
        requires { IsPass self.now pass.old }
        ensures pass { IsPass self.now pass.new }
        ensures lent { IfOk result (λ lent.
            During (LendsHistogram id lent) (view_of pass.old) (view_of pass.new)) }
        ensures own { IfOk result (λ lent. IsOwn Histogram id (view_of pass.old) → ¬ (lent ≡ None)) }
        ensures refused { OnErr result (Waits (view_of pass.old) (view_of pass.new)) }
        ensures splits { pass.new.splits ≡ pass.old.splits }
    {
        let mut state = self.turns.enter(rt, &mut pass.seat);
        match state.lend_histogram(alloc, id) {
            Ok(lent) => {
                self.turns.leave(&mut pass.seat, state);
                Ok(lent)
            }
            Err(refused) => {
                self.turns.leave(&mut pass.seat, state);
                Err(refused)
            }
        }
    }

    /// Flushes the state into a writer, as `write_flush` of the exporter does: it is the flush of a state that stands for a history
    /// with all that the pass had seen. It makes no entry. The moment is in nanoseconds. Nothing is sent: others may have their
    /// turns while the payloads of the writer are.
    pub fn write_flush<R: Wait, W: Words>(
        &self,
        rt: &R,
        alloc: Global,
        pass: &mut StatePass,
        flush_state: &mut FlushState,
        writer: &mut PayloadWriter,
        telemetry: &mut TelemetryUpdate,
        moment: u64,
        words: &mut W,
    ) -> Result<u64, Memory>
        requires { IsPass self.now pass.old }
        ensures pass { IsPass self.now pass.new }
        ensures written { IfOk result (λ left_out.
            During (λ x y. WritesFlush moment x y flush_state.old flush_state.new writer.old
            writer.new
            telemetry.old telemetry.new (W.to_come words.old) (W.to_come words.new) left_out) (view_of pass.old) (view_of pass.new)) }
        ensures refused { OnErr result (During
            (λ x y. (found : Found)
            × Flushes moment found x y flush_state.old flush_state.new writer.old writer.new
            telemetry.old telemetry.new (W.to_come words.old) (W.to_come words.new)) (view_of pass.old) (view_of pass.new)) }
        ensures splits { pass.new.splits ≡ pass.old.splits }
    {
        let mut state = self.turns.enter(rt, &mut pass.seat);
        match write_flush(
            rt,
            alloc,
            &mut state,
            flush_state,
            writer,
            telemetry,
            moment,
            words,
        ) {
            Ok(left_out) => {
                self.turns.leave(&mut pass.seat, state);
                Ok(left_out)
            }
            Err(refused) => {
                self.turns.leave(&mut pass.seat, state);
                Err(refused)
            }
        }
    }

    /// How many entries there are, modulo 2^64. The pass has then seen all of them. It waits for no turn.
    pub fn look(&self, pass: &mut StatePass) -> u64
        requires { IsPass self.now pass.old }
        ensures pass { IsPass self.now pass.new }
        ensures looked { LooksAt result (view_of pass.old) (view_of pass.new) }
        ensures splits { pass.new.splits ≡ pass.old.splits }
    {
        self.turns.look(&mut pass.seat)
    }

    /// Lends a new pass, which has seen what the root has seen and has made no entry.
    pub fn split(&self, pass: &mut StatePass) -> StatePass
        requires pass { IsPass self.now pass.old }
        requires root { (view_of pass.old).number ≡ 0 }
        requires few { pass.old.splits + 2 < 2 ^ 64 }
        ensures pass { IsPass self.now pass.new × IsPass self.now result }
        ensures root { view_of pass.new ≡ lender (view_of pass.old) }
        ensures child { view_of result ≡ child (view_of pass.old) }
        ensures splits { pass.new.splits ≡ pass.old.splits + 1 }
    {
        self.turns.split(pass)
    }

    /// Takes a pass back: the root has then seen what either had seen, and holds the entries of both.
    pub fn join(&self, pass: &mut StatePass, child: StatePass)
        requires pass { IsPass self.now pass.old × IsPass self.now child }
        requires root { (view_of pass.old).number ≡ 0 }
        requires child { ¬ ((view_of child).number ≡ 0) }
        ensures pass { IsPass self.now pass.new }
        ensures view { view_of pass.new ≡ taker (view_of pass.old) (view_of child) }
        ensures splits { pass.new.splits ≡ pass.old.splits }
    {
        self.turns.join(pass, child);
    }
}
