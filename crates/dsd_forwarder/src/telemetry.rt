//! What an exporter counts of its own work, in counters of its own state.

ghost use Rattle.std.specs.Prelude.{◌≡◌, ◌⊎◌, IfOk, OnErr};
ghost use Rattle.std.specs.List.{FoldsTo};
ghost use Rattle.dsd_forwarder.specs.OwnCounters.{own_key, own_counters};
ghost use Rattle.metrics_core.specs.declared.kinds.MetricKind.TheVariants as kinds;
ghost use Rattle.shared_turns.specs.Passes.{view_of};
ghost use Rattle.dsd_forwarder.specs.Registering.{MayRegister, RegistersCounter};
ghost use Rattle.dsd_forwarder.specs.Telemetry.{Holds, Registers, RegistersSome, RegistersSeen, RegistersSomeSeen, AddsTo, EachAdds, counters_of};

use crate::held::HeldCounter;
use crate::held_pass::HeldPass;
use crate::own_counters::{OWN_COUNTERS, OwnCounter};
use dsd_exporter::{State, TelemetryUpdate};
use metrics_core::{Memory, MetricKind, SeriesId};
use std::alloc::Global;
use std::marker::Model;
use std::sync::Wait;

/// One of the exporter's own counters, as its state lent it. None was lent where no series was made for it.
#[derive(Drop)]
pub struct OwnCount {
    /// Which of them it is.
    pub counter: OwnCounter,
    /// What the state lent of it.
    pub held: Option<HeldCounter>,
}

impl OwnCount {
    /// Adds to it what an update says, also where that is 0.
    fn add<R: Wait>(&mut self, rt: &R, update: &TelemetryUpdate)
        ensures { AddsTo update.now self.old self.new }
    {
        if let Some(held) = &mut self.held {
            held.increment(rt, self.counter.added(update));
        }
    }
}

/// Adds to each what an update says.
fn add_all<R: Wait>(counts: &mut [OwnCount], rt: &R, update: &TelemetryUpdate)
    ensures { EachAdds update.now counts.old counts.new }
{
    for count in counts.iter_mut() {
        count.add(rt, update);
    }
}

/// What a state lends of the counter with an id, where it has one.
fn lend_held(alloc: Global, state: &mut State, id: SeriesId) -> Result<Option<HeldCounter>, Memory>
    ensures held { IfOk result (λ held. Holds id held state.old state.new) }
    ensures refused { OnErr result (state.new ≡ state.old) }
{
    match state.lend_counter(alloc, id)? {
        Some(lent) => Ok(Some(HeldCounter::new(lent))),
        None => Ok(None),
    }
}

/// Registers one of the exporter's own counters, and lends it.
fn register_own(
    alloc: Global,
    state: &mut State,
    transport: &'static str,
    counter: OwnCounter,
) -> Result<OwnCount, Memory>
    ensures counter { IfOk result (λ count. count.counter ≡ counter) }
    ensures registered { IfOk result (λ count. Registers transport.now state.old count state.new) }
    ensures refused { OnErr result ((state.new ≡ state.old)
        ⊎ RegistersCounter (own_key transport.now counter) state.old state.new) }
{
    let key = counter.key(alloc, transport)?;
    let id = state.register_owned_counter(alloc, key)?;
    let held = lend_held(alloc, state, id)?;
    Ok(OwnCount { counter, held })
}

/// Registers one of the exporter's own counters with a pass of the state that it is in, and lends it.
fn register_own_seen<R: Wait>(
    rt: &R,
    alloc: Global,
    own: &mut HeldPass,
    transport: &'static str,
    counter: OwnCounter,
) -> Result<OwnCount, Memory>
    ensures counter { IfOk result (λ count. count.counter ≡ counter) }
    ensures registered { IfOk result (λ count.
        RegistersSeen transport.now (view_of own.old.pass) count (view_of own.new.pass)) }
    ensures refused { OnErr result ((view_of own.new.pass ≡ view_of own.old.pass)
        ⊎ MayRegister kinds.Counter (own_key transport.now counter) (view_of own.old.pass) (view_of own.new.pass)) }
    ensures state { own.new.state ≡ own.old.state }
    ensures number { (view_of own.new.pass).number ≡ (view_of own.old.pass).number }
{
    let key = counter.key(alloc, transport)?;
    let id = own
        .state
        .register(rt, alloc, &mut own.pass, MetricKind::Counter, &key)?;
    match own.state.lend_counter(rt, alloc, &mut own.pass, id)? {
        Some(lent) => Ok(OwnCount {
            counter,
            held: Some(HeldCounter::new(lent)),
        }),
        None => Ok(OwnCount {
            counter,
            held: None,
        }),
    }
}

/// The exporter's own counters, which stand in its state beside the others. A contract sees them in order of registration.
#[derive(Drop)]
pub struct Telemetry {
    counts: Vec<OwnCount>,
}

impl Model for Telemetry {
    ghost use Rattle.std.specs.Prelude.{List};
    ghost use Rattle.dsd_forwarder.specs.declared.telemetry.OwnCount.{OwnCount as OwnCountOf};

    ghost Value = { List OwnCountOf };

    ghost view = { λ telemetry. telemetry.counts.items };
}

impl Telemetry {
    /// Registers the counters in a state, for payloads that go by this transport, and has each lent. Where it is refused, those
    /// that were registered by then stay registered.
    pub fn new(
        alloc: Global,
        state: &mut State,
        transport: &'static str,
    ) -> Result<Telemetry, Memory>
        ensures all { IfOk result (λ telemetry. counters_of telemetry ≡ own_counters) }
        ensures registered { IfOk result (λ telemetry.
            FoldsTo (Registers transport.now) state.old telemetry state.new) }
        ensures refused { OnErr result (RegistersSome transport.now state.old own_counters
            state.new) }
    {
        let mut counts = Vec::with_capacity(alloc, OWN_COUNTERS.len())?;
        for counter in OWN_COUNTERS {
            counts.push(register_own(alloc, state, transport, counter)?)?;
        }
        Ok(Telemetry { counts })
    }

    /// Registers the counters as `new` does, in a state that is shared: each is an entry of the pass.
    pub(crate) fn seen<R: Wait>(
        rt: &R,
        alloc: Global,
        own: &mut HeldPass,
        transport: &'static str,
    ) -> Result<Telemetry, Memory>
        ensures all { IfOk result (λ telemetry. counters_of telemetry ≡ own_counters) }
        ensures registered { IfOk result (λ telemetry.
            FoldsTo (RegistersSeen transport.now) (view_of own.old.pass) telemetry
            (view_of own.new.pass)) }
        ensures refused { OnErr result (RegistersSomeSeen transport.now
            (view_of own.old.pass) own_counters (view_of own.new.pass)) }
        ensures state { own.new.state ≡ own.old.state }
        ensures number { (view_of own.new.pass).number ≡ (view_of own.old.pass).number }
    {
        let mut counts = Vec::with_capacity(alloc, OWN_COUNTERS.len())?;
        for counter in OWN_COUNTERS {
            counts.push(register_own_seen(rt, alloc, own, transport, counter)?)?;
        }
        Ok(Telemetry { counts })
    }

    /// Adds to each counter what an update says, once, also where that is 0.
    pub fn apply_update<R: Wait>(&mut self, rt: &R, update: &TelemetryUpdate)
        ensures { EachAdds update.now self.old self.new }
    {
        add_all(self.counts.as_mut_slice(), rt, update);
    }
}
