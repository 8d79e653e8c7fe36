//! A pass of a shared state, held with the state that it is of.

ghost use Rattle.std.specs.Prelude.{◌≡◌, IfOk, OnErr, OnOk};
ghost use Rattle.std.specs.Arc.{arc_value};
ghost use Rattle.legal_history.specs.History.{child, lender, taker};
ghost use Rattle.shared_turns.specs.Passes.{view_of};
ghost use Rattle.shared_flushes.specs.Passes.{IsPass, one_pass};
ghost use Rattle.shared_flushes.specs.Stands.{During};
ghost use Rattle.dsd_exporter.specs.Flushing.{Found, Flushes};
ghost use Rattle.dsd_exporter.specs.Sending.{WritesFlush};
ghost use Rattle.dsd_forwarder.specs.Registering.{IsHandedCounter, IsHandedGauge, IsHandedHistogram};

use crate::registering::{register_counter, register_gauge, register_histogram};
use dsd_exporter::{FlushState, Lent, TelemetryUpdate};
use dsd_writer::PayloadWriter;
use flushed_cells::{CounterPass, DsdCounter, DsdGauge, GaugePass};
use metrics_core::{Fixed, Key, Memory, Words};
use sample_queue::{DsdHistogram, SamplePass};
use shared_flushes::{SharedState, StatePass};
use std::alloc::Global;
use std::sync::{Arc, Wait};

/// A pass of a shared state with that state: who has it can register and flush.
#[derive(Drop)]
pub(crate) struct HeldPass {
    pub(crate) state: Arc<SharedState>,
    pub(crate) pass: StatePass,
    ghost own: { IsPass (arc_value state) pass } by { one_pass (arc_value state) pass },
}

impl HeldPass {
    /// Registers a counter and hands it out.
    pub(crate) fn register_counter<R: Wait>(
        &mut self,
        rt: &R,
        alloc: Global,
        key: &Key,
    ) -> Result<Lent<Arc<DsdCounter>, CounterPass>, Memory>
        ensures { IfOk result IsHandedCounter }
    {
        register_counter(rt, alloc, &self.state, &mut self.pass, key)
    }

    /// Registers a gauge and hands it out.
    pub(crate) fn register_gauge<R: Wait>(
        &mut self,
        rt: &R,
        alloc: Global,
        key: &Key,
    ) -> Result<Lent<Arc<DsdGauge>, GaugePass>, Memory>
        ensures { IfOk result IsHandedGauge }
    {
        register_gauge(rt, alloc, &self.state, &mut self.pass, key)
    }

    /// Registers a histogram and hands it out.
    pub(crate) fn register_histogram<R: Wait>(
        &mut self,
        rt: &R,
        alloc: Global,
        key: &Key,
    ) -> Result<Lent<Arc<DsdHistogram>, SamplePass<Fixed>>, Memory>
        ensures { IfOk result IsHandedHistogram }
    {
        register_histogram(rt, alloc, &self.state, &mut self.pass, key)
    }

    /// Flushes the state into a writer, as `SharedState::write_flush` does.
    pub(crate) fn write_flush<R: Wait, W: Words>(
        &mut self,
        rt: &R,
        alloc: Global,
        flush_state: &mut FlushState,
        writer: &mut PayloadWriter,
        telemetry: &mut TelemetryUpdate,
        moment: u64,
        words: &mut W,
    ) -> Result<u64, Memory>
        ensures written { IfOk result (λ left_out.
            During (λ x y. WritesFlush moment x y flush_state.old flush_state.new writer.old
            writer.new
            telemetry.old telemetry.new (W.to_come words.old) (W.to_come words.new) left_out) (view_of self.old.pass) (view_of self.new.pass)) }
        ensures refused { OnErr result (During
            (λ x y. (found : Found)
            × Flushes moment found x y flush_state.old flush_state.new writer.old writer.new
            telemetry.old telemetry.new (W.to_come words.old) (W.to_come words.new)) (view_of self.old.pass) (view_of self.new.pass)) }
        ensures state { self.new.state ≡ self.old.state }
        ensures number { (view_of self.new.pass).number ≡ (view_of self.old.pass).number }
    {
        self.state.write_flush(
            rt,
            alloc,
            &mut self.pass,
            flush_state,
            writer,
            telemetry,
            moment,
            words,
        )
    }

    /// As the root lends a pass: refused where no number is left for it.
    pub(crate) fn lend(&mut self) -> Result<StatePass, Memory>
        requires { (view_of self.old.pass).number ≡ 0 }
        ensures lent { IfOk result (λ pass. IsPass (arc_value self.old.state) pass
            × (view_of pass ≡ child (view_of self.old.pass))) }
        ensures child { IfOk result (λ pass. ¬ ((view_of pass).number ≡ 0)) }
        ensures root { OnOk result (view_of self.new.pass ≡ lender (view_of self.old.pass)) }
        ensures refused { OnErr result (view_of self.new.pass ≡ view_of self.old.pass) }
        ensures state { self.new.state ≡ self.old.state }
    {
        if self.pass.splits() >= u64::MAX - 1 {
            return Err(Memory);
        }
        Ok(self.state.split(&mut self.pass))
    }

    /// As the root takes a pass back.
    pub(crate) fn take_back(&mut self, pass: StatePass)
        requires root { (view_of self.old.pass).number ≡ 0 }
        requires pass { IsPass (arc_value self.old.state) pass }
        requires lent { ¬ ((view_of pass).number ≡ 0) }
        ensures view { view_of self.new.pass ≡ taker (view_of self.old.pass) (view_of pass) }
        ensures state { self.new.state ≡ self.old.state }
    {
        self.state.join(&mut self.pass, pass);
    }
}
