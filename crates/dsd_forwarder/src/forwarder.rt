//! The forwarder: it flushes an exporter's state and sends what the flush wrote, once for each run.

ghost use Rattle.std.specs.Prelude.{◌≡◌, ◌⊎◌, ◌≤◌, ◌↔◌, false, Some, None, IsTrue, IfOk, OnOk, OnErr};
ghost use Rattle.std.specs.Arc.{arc_value};
ghost use Rattle.dsd_addresses.specs.Remotes.{remote_text, transport_of};
ghost use Rattle.dsd_exporter.specs.State.{DogStatsDSettings};
ghost use Rattle.legal_history.specs.History.{child, lender, taker};
ghost use Rattle.shared_turns.specs.Passes.{view_of};
ghost use Rattle.shared_turns.specs.Turns.{opening};
ghost use Rattle.shared_flushes.specs.declared.entries.StateEntry.TheVariants.{Built};
ghost use Rattle.shared_flushes.specs.Passes.{IsPass};
ghost use Rattle.dsd_forwarder.specs.OwnCounters.{own_counters};
ghost use Rattle.dsd_forwarder.specs.Telemetry.{RegistersSomeSeen};
ghost use Rattle.dsd_forwarder.specs.Building.{IsMadeWith};
ghost use Rattle.dsd_forwarder.specs.Forwarding.{SendsState, FlushesState, CountsOwn, IsCountedIn, IsToCount, IsUncounted, RunsOnce, IsRefusedRun, begun, remote_of};

use crate::configuration::ForwarderConfiguration;
use crate::held_pass::HeldPass;
use crate::telemetry::Telemetry;
use dsd_addresses::RemoteAddr;
use dsd_exporter::{FlushReport, FlushState, Link, TelemetryUpdate, send_written};
use dsd_writer::PayloadWriter;
use metrics_core::{IntoLabels, Memory, Words};
use shared_flushes::StatePass;
use std::alloc::Global;
use std::marker::Model;
use std::sync::Wait;

/// Sends what the series of an exporter's state have counted, once for each run. It shares the state with a recorder, in turns, and
/// has the root pass of it: it lends passes to threads that register, and takes them back. What it registered, and what it was told
/// of by a pass that it took back, is in each flush that follows.
#[derive(Drop)]
pub struct Forwarder {
    own: HeldPass,
    configuration: ForwarderConfiguration,
    counts_own: bool,
    flush_state: FlushState,
    writer: PayloadWriter,
    /// What the flushes and sends of the last run added up to, and of those before it that were refused.
    update: TelemetryUpdate,
    was_refused: bool,
    /// The exporter's own counters, once there was something to count.
    telemetry: Option<Telemetry>,
    ghost root: { (view_of own.pass).number ≡ 0 },
}

impl Model for Forwarder {
    ghost use Rattle.std.specs.Arc.{arc_value};
    ghost use Rattle.shared_turns.specs.Passes.{view_of};
    ghost use Rattle.dsd_forwarder.specs.Forwarding.{ForwarderText};

    ghost Value = { ForwarderText };

    ghost view = { λ forwarder. record {
      configuration = forwarder.configuration;
      counts_own = forwarder.counts_own;
      marks = forwarder.flush_state;
      writer = forwarder.writer;
      update = forwarder.update;
      was_refused = forwarder.was_refused;
      telemetry = forwarder.telemetry;
      state = arc_value forwarder.own.state;
      knows = view_of forwarder.own.pass;
    } };
}

impl Forwarder {
    /// A forwarder with the root pass of its state that has not run. Its labels are copied, for its lines.
    pub(crate) fn new(
        alloc: Global,
        configuration: ForwarderConfiguration,
        counts_own: bool,
        own: HeldPass,
    ) -> Result<Forwarder, Memory>
        requires least { 6 ≤ configuration.max_payload_len }
        requires most { configuration.max_payload_len ≤ 4294967295 }
        requires root { (view_of own.pass).number ≡ 0 }
        ensures made { IfOk result (λ made. (settings : DogStatsDSettings)
            → counts_own ≡ settings.telemetry → view_of own.pass ≡ lender (opening (Built settings))
            → IsMadeWith configuration settings made) }
        ensures state { IfOk result (λ made. made.state ≡ arc_value own.state) }
    {
        let labels = configuration.global_labels.iter().into_labels(alloc)?;
        let on_stream = configuration.is_length_prefixed();
        let mut update = TelemetryUpdate::default();
        update.clear();
        Ok(Forwarder {
            own,
            flush_state: FlushState::new(alloc),
            writer: PayloadWriter::new(
                alloc,
                configuration.max_payload_len,
                on_stream,
            ).with_global_labels(labels),
            configuration,
            counts_own,
            update,
            was_refused: false,
            telemetry: None,
        })
    }

    /// Begins a run: with an empty update, or behind a run that was refused with that one's.
    fn begin(&mut self)
        ensures { self.new ≡ begun self.old }
    {
        if !self.was_refused {
            self.update.clear();
        }
        self.was_refused = true;
    }

    /// Ends a run that was not refused.
    fn end(&mut self)
        ensures { self.new ≡ record self.old { was_refused = false } }
    {
        self.was_refused = false;
    }

    /// Where the payloads are sent.
    fn remote(&self) -> &RemoteAddr
        ensures { remote_text result.now ≡ remote_of self.now }
    {
        &self.configuration.remote_addr
    }

    /// Flushes the state, and sends the payloads by a link that is aimed at the forwarder's address. While they are sent others may
    /// have their turns.
    fn send<R: Wait, L: Link, W: Words>(
        &mut self,
        rt: &R,
        alloc: Global,
        moment: u64,
        words: &mut W,
        link: &mut L,
    ) -> Result<FlushReport, Memory>
        requires { L.aimed link.old ≡ Some (remote_of self.old) }
        ensures sent { IfOk result (SendsState moment self.old self.new (W.to_come words.old)
            (W.to_come words.new)
            (L.sent link.old) (L.sent link.new) (L.faults link.old) (L.faults link.new)) }
        ensures refused { OnErr result (FlushesState moment self.old self.new (W.to_come words.old)
            (W.to_come words.new)) }
        ensures unused { OnErr result (link.new ≡ link.old) }
        ensures aimed { L.aimed link.new ≡ L.aimed link.old }
        ensures never_falls { L.faults link.old ≤ L.faults link.new }
    {
        let dropped = self.own.write_flush(
            rt,
            alloc,
            &mut self.flush_state,
            &mut self.writer,
            &mut self.update,
            moment,
            words,
        )?;
        Ok(send_written(&mut self.writer, &mut self.update, dropped, link))
    }

    /// Whether it counts its own work, and its flushes told of an update.
    fn is_to_count(&self) -> bool
        ensures { IsTrue result ↔ IsToCount self.now }
    {
        self.counts_own && self.update.had_updates()
    }

    /// What its flushes and sends added up to.
    fn latest(&self) -> &TelemetryUpdate
        ensures { result.now ≡ self.now.update }
    {
        &self.update
    }

    /// Takes the exporter's own counters out of the forwarder. Where it has none yet they are registered.
    fn take_telemetry<R: Wait>(&mut self, rt: &R, alloc: Global) -> Result<Telemetry, Memory>
        ensures counted_in { IfOk result (λ counts.
            IsCountedIn (transport_of (remote_of self.old)) self.old.telemetry counts self.old.knows
            self.new.knows) }
        ensures taken { self.new ≡ record self.old { telemetry = None; knows = self.new.knows } }
        ensures none_yet { OnErr result (self.old.telemetry ≡ None) }
        ensures refused { OnErr result (RegistersSomeSeen
            (transport_of (remote_of self.old)) self.old.knows own_counters self.new.knows) }
    {
        match self.telemetry.take() {
            Some(telemetry) => Ok(telemetry),
            None => {
                let transport = self.configuration.remote_addr.transport_id();
                Telemetry::seen(rt, alloc, &mut self.own, transport)
            }
        }
    }

    /// Keeps the exporter's own counters.
    fn keep_telemetry(&mut self, telemetry: Telemetry)
        ensures { self.new ≡ record self.old { telemetry = Some telemetry } }
    {
        self.telemetry = Some(telemetry);
    }

    /// Adds the update to the exporter's own counters, where it counts its own work and there is something to count. Before the
    /// first time they are registered.
    fn count<R: Wait>(&mut self, rt: &R, alloc: Global) -> Result<(), Memory>
        ensures counted { OnOk result (CountsOwn self.old self.new) }
        ensures uncounted { OnErr result (IsUncounted self.old self.new) }
    {
        if !self.is_to_count() {
            return Ok(());
        }
        let mut telemetry = self.take_telemetry(rt, alloc)?;
        telemetry.apply_update(rt, self.latest());
        self.keep_telemetry(telemetry);
        Ok(())
    }

    /// One run at a moment in nanoseconds: it aims the link at the forwarder's address, flushes the state and sends the
    /// payloads, as `send_flush` does; and then it adds what came of it to the exporter's own counters, which the next run sends.
    /// It adds nothing where telemetry is off, or where no line told of an update. Where memory is refused before the payloads
    /// are made, nothing is handed to the link; where it is refused for the exporter's own counters, all payloads were. The next
    /// run then goes on with the update of this one.
    pub fn run_once<R: Wait, L: Link, W: Words>(
        &mut self,
        rt: &R,
        alloc: Global,
        moment: u64,
        words: &mut W,
        link: &mut L,
    ) -> Result<FlushReport, Memory>
        ensures run { IfOk result (RunsOnce moment self.old self.new (W.to_come words.old)
            (W.to_come words.new)
            (L.sent link.old) (L.sent link.new) (L.faults link.old) (L.faults link.new)) }
        ensures refused { OnErr result (IsRefusedRun moment self.old self.new (W.to_come words.old)
            (W.to_come words.new)
            (L.sent link.old) (L.sent link.new) (L.faults link.old) (L.faults link.new)) }
        ensures aimed { OnOk result (L.aimed link.new ≡ Some (remote_of self.old)) }
        ensures unaimed { OnErr result ((L.aimed link.new ≡ L.aimed link.old)
            ⊎ (L.aimed link.new ≡ Some (remote_of self.old))) }
        ensures never_falls { L.faults link.old ≤ L.faults link.new }
    {
        self.begin();
        link.aim(alloc, self.remote())?;
        let report = self.send(rt, alloc, moment, words, link)?;
        self.count(rt, alloc)?;
        self.end();
        Ok(report)
    }

    /// Lends a pass of the state, for a thread that registers. It has seen what the forwarder has seen.
    pub fn lend_pass(&mut self) -> Result<StatePass, Memory>
        ensures lent { IfOk result (λ pass. IsPass self.old.state pass
            × (view_of pass ≡ child self.old.knows)) }
        ensures child { IfOk result (λ pass. ¬ ((view_of pass).number ≡ 0)) }
        ensures knows { OnOk result (self.new ≡ record self.old { knows = lender self.old.knows }) }
        ensures refused { OnErr result (self.new ≡ self.old) }
    {
        self.own.lend()
    }

    /// Takes a pass back: what it registered, and all that it was told of, is in each flush that follows.
    pub fn take_back(&mut self, pass: StatePass)
        requires pass { IsPass self.old.state pass }
        requires lent { ¬ ((view_of pass).number ≡ 0) }
        ensures { self.new ≡ record self.old { knows = taker self.old.knows (view_of pass) } }
    {
        self.own.take_back(pass);
    }
}
