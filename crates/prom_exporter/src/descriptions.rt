//! What is said of metrics: describing, publishing, and readers of what is published.

ghost use Rattle.std.specs.Prelude.{◌≡◌, ℕ, IfOk, OnErr, OnOk};
ghost use Rattle.evmap_contents.specs.Fold.{after};
ghost use Rattle.evmap_core.specs.Known.{known};
ghost use Rattle.metrics_core.specs.Texts.{cow_text};
ghost use Rattle.metric_descriptions.specs.Written.{IsToldOf, Text};
ghost use Rattle.prom_exporter.specs.State.{describe, publish};
ghost use Rattle.prom_exporter.specs.Stepped.{DrainsEach, DrainsInPart, KeepsUp};
ghost use Rattle.prom_exporter.specs.Exporter.{state_of, AllHome, AreTimely};

use crate::state::PrometheusState;
use evmap_contents::KeyClone;
use evmap_core::{EvmapFault, Keep, KeepAll};
use metric_descriptions::DescriptionReader;
use metrics_core::{KeyName, Memory, SharedString, Unit};
use prom_format::sanitize_metric_name;
use std::alloc::Global;
use std::mem;
use std::sync::Wait;

impl PrometheusState {
    /// Describes a counter by its name: a text for the help line of its family, and a unit. The description waits for the next page or
    /// `run_upkeep`; of several that wait under one metric name the last counts, and a published one stays. Metrics of all kinds
    /// share their descriptions by metric name.
    pub fn describe_counter<R: Wait>(
        &mut self,
        rt: &R,
        alloc: Global,
        name: KeyName,
        unit: Option<Unit>,
        description: SharedString,
    ) -> Result<(), Memory>
        ensures described { OnOk result (state_of self.new ≡ describe name unit
            (cow_text description.entry) (state_of self.old)) }
        ensures others { self.new ≡ record self.old { said = self.new.said } }
        ensures refused { OnErr result (self.new ≡ self.old) }
    {
        self.describe(rt, alloc, name, unit, description)
    }

    /// Describes a gauge, as `describe_counter` does a counter.
    pub fn describe_gauge<R: Wait>(
        &mut self,
        rt: &R,
        alloc: Global,
        name: KeyName,
        unit: Option<Unit>,
        description: SharedString,
    ) -> Result<(), Memory>
        ensures described { OnOk result (state_of self.new ≡ describe name unit
            (cow_text description.entry) (state_of self.old)) }
        ensures others { self.new ≡ record self.old { said = self.new.said } }
        ensures refused { OnErr result (self.new ≡ self.old) }
    {
        self.describe(rt, alloc, name, unit, description)
    }

    /// Describes a histogram, as `describe_counter` does a counter.
    pub fn describe_histogram<R: Wait>(
        &mut self,
        rt: &R,
        alloc: Global,
        name: KeyName,
        unit: Option<Unit>,
        description: SharedString,
    ) -> Result<(), Memory>
        ensures described { OnOk result (state_of self.new ≡ describe name unit
            (cow_text description.entry) (state_of self.old)) }
        ensures others { self.new ≡ record self.old { said = self.new.said } }
        ensures refused { OnErr result (self.new ≡ self.old) }
    {
        self.describe(rt, alloc, name, unit, description)
    }

    /// Describes a metric by the metric name that is made of its name.
    fn describe<R: Wait>(
        &mut self,
        rt: &R,
        alloc: Global,
        name: KeyName,
        unit: Option<Unit>,
        description: SharedString,
    ) -> Result<(), Memory>
        ensures described { OnOk result (state_of self.new ≡ describe name unit
            (cow_text description.entry) (state_of self.old)) }
        ensures others { self.new ≡ record self.old { said = self.new.said } }
        ensures refused { OnErr result (self.new ≡ self.old) }
    {
        let name = sanitize_metric_name(alloc, name.as_str())?;
        self.descriptions
            .describe(rt, alloc, name, unit, description)
    }

    /// Drains all histograms and publishes what is said of metrics, as a page does before it is shown, so that samples and descriptions
    /// don't wait for one. Where memory is refused nothing is published, and the samples that are not drained wait for the next
    /// call, in the same order.
    pub fn run_upkeep<R: Wait>(&mut self, rt: &R, alloc: Global) -> Result<(), Memory>
        ensures kept_up { OnOk result (KeepsUp self.old self.new) }
        ensures refused { OnErr result (DrainsEach DrainsInPart self.old self.new) }
        ensures home { AllHome self.old → AllHome self.new }
        ensures published { OnOk result (AllHome self.old
            → state_of self.new ≡ publish (state_of self.old)) }
        ensures same { OnErr result (AllHome self.old → state_of self.new ≡ state_of self.old) }
        ensures timely { (t : ℕ) → AllHome self.old → AreTimely t self.old → AreTimely t self.new }
    {
        self.drain_histograms(rt, alloc)?;
        self.descriptions.publish(rt)
    }

    /// A reader of the published descriptions, which was told of the last publish. `NoPlace` where no place was found for it, else
    /// `Memory`.
    pub fn descriptions<R: Wait>(
        &mut self,
        rt: &R,
        alloc: Global,
    ) -> Result<DescriptionReader, EvmapFault>
        ensures same { self.new ≡ self.old }
        ensures told { IfOk result (λ reader.
            IsToldOf (after ⟦<String as KeyClone>⟧.same ⟦<(SharedString, Option<Unit>) as PartialEq>⟧.eq ⟦<KeepAll as Keep<(SharedString, Option<Unit>)>>⟧.keeps)
            self.old.said.published (known reader)) }
    {
        self.descriptions.reader(rt, alloc)
    }

    /// Ends the exporter. It waits for the readers of descriptions that are reading, which read nothing from then on.
    pub fn end<R: Wait>(self, rt: &R) {
        let Self {
            globals: _,
            settings: _,
            distributions: _,
            series: _,
            counter_rows: _,
            gauge_rows: _,
            histogram_rows: _,
            descriptions,
            redirections: _,
        } = self;
        descriptions.end(rt);
    }

    /// Ends the exporter as `end` does, where the program ends behind it: the memory of its series isn't given back block by block,
    /// since the system takes all of it at once.
    pub fn end_with_program<R: Wait>(self, rt: &R) {
        let Self {
            globals: _,
            settings: _,
            distributions: _,
            series,
            counter_rows,
            gauge_rows,
            histogram_rows,
            descriptions,
            redirections,
        } = self;
        mem::forget(series);
        mem::forget(counter_rows);
        mem::forget(gauge_rows);
        mem::forget(histogram_rows);
        mem::forget(redirections);
        descriptions.end(rt);
    }
}
