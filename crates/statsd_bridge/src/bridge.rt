//! The bridge.

ghost use Rattle.std.specs.Prelude.{◌≡◌, ◌⊎◌, OnErr, OnOk, IfOk, string_bytes};
ghost use Rattle.prom_exporter.specs.Exporter.{AllHome, state_of};
ghost use Rattle.statsd_bridge.specs.Bridge.{bridge_of, state_at};
ghost use Rattle.statsd_bridge.specs.Hearing.{Accounts, AccountsInPart, Hears, HearsInPart, Misses, Shows, paged, shown_by};

use crate::Totals;
use dsd_lines::Dialect;
use dsd_receiver::{ReceiveFault, Receiver};
use metrics_core::Memory;
use prom_exporter::PrometheusState;
use std::alloc::Global;
use std::marker::Model;
use std::sync::Wait;

/// A receiver of payloads in one dialect whose pages tell, too, how much it has heard. A contract sees it as its exporter, its dialect,
/// and what it has heard since its last account.
pub struct Bridge {
    receiver: Receiver,
    dialect: Dialect,
    unsaid: Totals,
}

impl Model for Bridge {
    ghost use Rattle.prom_exporter.specs.Exporter.{AllHome};
    ghost use Rattle.statsd_bridge.specs.Bridge.{BridgeText};

    ghost Value = { BridgeText };

    ghost view = { λ bridge. record {
      exporter = bridge.receiver;
      dialect = bridge.dialect;
      unsaid = bridge.unsaid;
    } };
}

impl Bridge {
    /// A bridge over an exporter of which nothing is lent out. It takes no memory.
    pub fn new(alloc: Global, dialect: Dialect, exporter: PrometheusState) -> Bridge
        requires home { AllHome exporter }
        ensures { result ≡ bridge_of dialect exporter }
    {
        Bridge {
            receiver: Receiver::new(alloc, exporter),
            dialect,
            unsaid: Totals::none(),
        }
    }

    /// Hears a payload at a moment, in nanoseconds: its lines are applied in order, and counted. A bad line changes nothing else.
    /// Where memory is refused the payload is cut there, and counted as cut.
    ///
    /// A line is applied at once, in as many steps as it has values: a value at a rate stands for a million samples at most.
    pub fn hear<R: Wait>(
        &mut self,
        rt: &R,
        alloc: Global,
        payload: &[u8],
        moment: u64,
    ) -> Result<(), Memory>
        ensures heard { OnOk result (Hears moment payload.now (state_at self.old) (state_at self.new)) }
        ensures cut { OnErr result (HearsInPart moment payload.now (state_at self.old)
            (state_at self.new)) }
    {
        match self
            .receiver
            .apply_payload(rt, alloc, self.dialect, payload, moment)
        {
            Ok(applied) => {
                self.unsaid = self.unsaid.with_heard(payload, applied);
                Ok(())
            }
            Err(_) => {
                self.unsaid = self.unsaid.with_cut(payload);
                Err(Memory)
            }
        }
    }

    /// Tells first, by counters of its own, what was heard since the last account: `bridge_datagrams_total`, `bridge_bytes_total`,
    /// `bridge_lines_total` by its label `outcome`, and `bridge_cut_datagrams_total`. Then makes the page step at a moment, in
    /// nanoseconds, and answers the page's body (Prometheus text exposition format, version 0.0.4). Where memory is refused no
    /// sample is lost, and what wasn't told is still to be told.
    pub fn page<R: Wait>(&mut self, rt: &R, alloc: Global, moment: u64) -> Result<String, Memory>
        ensures shows { IfOk result (λ text.
            Shows moment (string_bytes text) (state_at self.old) (state_at self.new)) }
        ensures misses { OnErr result (Misses moment (state_at self.old) (state_at self.new)) }
    {
        self.account(rt, alloc, moment)?;
        self.render(rt, alloc, moment)
    }

    /// Tells what was heard since the last account.
    fn account<R: Wait>(&mut self, rt: &R, alloc: Global, moment: u64) -> Result<(), Memory>
        ensures told { OnOk result (Accounts moment (state_at self.old) (state_at self.new)) }
        ensures in_part { OnErr result ((state_at self.new ≡ state_at self.old)
            ⊎ AccountsInPart moment (state_at self.old) (state_at self.new)) }
    {
        let text = self.unsaid.account(alloc)?;
        match self
            .receiver
            .apply_payload(rt, alloc, Dialect::DogStatsd, text.as_bytes(), moment)
        {
            Ok(_) => {
                self.unsaid = Totals::none();
                Ok(())
            }
            Err(ReceiveFault::Memory { done, .. }) => {
                self.unsaid = self.unsaid.untold(done);
                Err(Memory)
            }
        }
    }

    /// Makes the page step, and answers the page's body.
    fn render<R: Wait>(&mut self, rt: &R, alloc: Global, moment: u64) -> Result<String, Memory>
        ensures page { IfOk result (λ text. string_bytes text ≡ shown_by moment (state_at self.old)) }
        ensures stepped { OnOk result (state_at self.new ≡ paged moment (state_at self.old)) }
        ensures refused { OnErr result ((state_at self.new ≡ paged moment (state_at self.old))
            ⊎ (state_at self.new ≡ state_at self.old)) }
    {
        self.receiver.render(rt, alloc, moment)
    }

    /// Ends the bridge and its exporter.
    pub fn end<R: Wait>(self, rt: &R) {
        let Bridge {
            receiver,
            dialect: _,
            unsaid: _,
        } = self;
        receiver.end(rt);
    }
}
