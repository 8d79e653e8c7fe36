//! The receiver: an exporter of which nothing is lent out, to which payloads are applied.

ghost use Rattle.std.specs.Prelude.{◌≡◌, ◌≤◌, ◌+◌, ◌⊎◌, IfOk, IfErr, OnErr, OnOk, length, string_bytes};
ghost use Rattle.dsd_lines.specs.Payloads.{payload_lines};
ghost use Rattle.dsd_lines.specs.Texts.{line_text};
ghost use Rattle.prom_exporter.specs.State.{page_step};
ghost use Rattle.prom_exporter.specs.Exporter.{AllHome, state_of, written_page};
ghost use Rattle.dsd_receiver.specs.Received.{after_line};
ghost use Rattle.dsd_receiver.specs.Receiving.{IsApplied, IsInPart, IsSaid, IsStopped};

use crate::lines::{Stop, apply_said};
use crate::payloads::apply_lines;
use dsd_lines::{Dialect, Line};
use metrics_core::Memory;
use page_texts::TextSink;
use prom_exporter::PrometheusState;
use std::alloc::Global;
use std::marker::Model;
use std::sync::Wait;

/// How many lines of a payload are in the grammar of lines, and how many are not. A bad line changes nothing.
#[derive(Clone, Copy, Debug, PartialEq, Eq, Drop)]
pub struct Applied {
    /// The lines of the grammar, which were applied.
    pub lines: u64,
    /// The other lines.
    pub bad: u64,
}

/// Why not all lines were applied.
#[derive(Clone, Copy, Debug, PartialEq, Eq, Drop)]
pub enum ReceiveFault {
    /// Memory was refused.
    Memory {
        /// Whether the flush that was to give the lines was made; lines that are given are flushed.
        flushed: bool,
        /// How many lines were treated, bad ones included.
        done: u64,
        /// Whether the series of the next line was registered.
        registered: bool,
        /// How many values of the next line were applied. It is 0 but for a histogram.
        values: u64,
    },
}

/// Applies payloads to an exporter of which nothing is lent out. A contract sees it as the exporter.
pub struct Receiver {
    state: PrometheusState,
}

impl Model for Receiver {
    ghost use Rattle.prom_exporter.specs.Exporter.{AllHome, Exporter};

    ghost Value = { Exporter };

    ghost view = { λ receiver. receiver.state };

    ghost invariant = { λ receiver. AllHome receiver.state };
}

impl Receiver {
    /// A receiver over this exporter, of which nothing is lent out. It takes no memory.
    pub fn new(_alloc: Global, state: PrometheusState) -> Receiver
        requires home { AllHome state }
        ensures same { result ≡ state }
    {
        Receiver { state }
    }

    /// The exporter.
    pub fn state(&self) -> &PrometheusState
        ensures same { result.now ≡ self.now }
    {
        &self.state
    }

    /// The exporter alone, to write a page or to lend of it. A receiver is ended so.
    pub fn into_state(self) -> PrometheusState
        ensures same { result ≡ self }
        ensures home { AllHome result }
    {
        let Receiver { state } = self;
        state
    }

    /// Applies the lines of a payload in order, read in a dialect, each at this moment, in nanoseconds. A payload is cut at each
    /// newline, and an empty last piece is no line.
    pub fn apply_payload<R: Wait>(
        &mut self,
        rt: &R,
        alloc: Global,
        dialect: Dialect,
        payload: &[u8],
        moment: u64,
    ) -> Result<Applied, ReceiveFault>
        ensures applied { IfOk result (λ applied.
            IsApplied dialect moment (payload_lines payload.now) (state_of self.old) applied
            (state_of self.new)) }
        ensures refused { IfErr result (λ fault.
            IsStopped dialect moment (payload_lines payload.now) (state_of self.old) fault
            (state_of self.new)) }
        ensures settings { self.new.settings ≡ self.old.settings }

        // Each line takes a byte at least.
        ensures few { IfOk result (λ applied. applied.lines + applied.bad ≤ length payload.now) }
    {
        apply_lines(&mut self.state, rt, alloc, dialect, payload, moment)
    }

    /// Applies what a line of a dialect says at a moment, in nanoseconds: its series is registered, and its calls are made in order. Its
    /// timestamp changes nothing.
    pub fn apply_line<R: Wait>(
        &mut self,
        rt: &R,
        alloc: Global,
        dialect: Dialect,
        line: Line,
        moment: u64,
    ) -> Result<(), Stop>
        requires said { IsSaid dialect (line_text line) }
        ensures applied { OnOk result (state_of self.new ≡ after_line moment (state_of self.old)
            (line_text line)) }
        ensures stopped { IfErr result (λ stop.
            IsInPart moment (line_text line) stop.registered stop.values (state_of self.old)
            (state_of self.new)) }
        ensures settings { self.new.settings ≡ self.old.settings }
    {
        apply_said(&mut self.state, rt, alloc, dialect, line, moment)
    }

    /// Makes the exporter's page step at a moment, in nanoseconds, and answers the page's body (Prometheus text exposition format,
    /// version 0.0.4). Where memory is refused the page step was made or not, and no sample is lost.
    pub fn render<R: Wait>(&mut self, rt: &R, alloc: Global, moment: u64) -> Result<String, Memory>
        ensures page { IfOk result (λ text. string_bytes text ≡ written_page moment self.old) }
        ensures stepped { OnOk result (state_of self.new ≡ page_step self.old.settings.idle moment
            (state_of self.old)) }
        ensures refused { OnErr result ((state_of self.new ≡ page_step self.old.settings.idle moment
            (state_of self.old)) ⊎ (state_of self.new ≡ state_of self.old)) }
        ensures settings { self.new.settings ≡ self.old.settings }
    {
        let mut sink = TextSink::new(alloc);
        match self.state.render_to_write(rt, alloc, moment, &mut sink) {
            Ok(()) => Ok(sink.into_text()),
            // This sink fails only where memory is refused, since each piece of a page is a text.
            Err(_) => Err(Memory),
        }
    }

    /// Ends the exporter. It waits for the readers of descriptions.
    pub fn end<R: Wait>(self, rt: &R) {
        self.into_state().end(rt);
    }
}
