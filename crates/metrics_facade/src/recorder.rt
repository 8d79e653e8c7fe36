//! Recorders: what takes descriptions of metrics and hands out handles of them.

use metrics_core::{Key, KeyName, Memory, Metadata, SharedString, Unit};
use std::alloc::Global;
use std::sync::{Arc, Wait};

/// What takes descriptions of metrics and hands out handles of them. What a description does, and what a second one of
/// the same name does, is the recorder's own to say.
pub trait Recorder {
    ghost use Rattle.std.specs.Prelude.{⊤, ℕ, List, Option, Result, IfOk, OnErr};
    ghost use Rattle.metrics_core.specs.declared.kinds.MetricKind.{MetricKind};
    ghost use Rattle.metrics_core.specs.declared.kinds.MetricKind.TheVariants as kinds;
    ghost use Rattle.metrics_core.specs.declared.memory.Memory.{Memory as MemoryOf};
    ghost use Rattle.metrics_core.specs.declared.units.Unit.{Unit as UnitOf};
    ghost use Rattle.metrics_core.specs.Texts.{cow_text};
    ghost use Rattle.metrics_core.specs.Keys.{KeyText};
    ghost use Rattle.metrics_core.specs.Metadata.{MetadataText};

    /// What is handed out for a counter.
    type Counter;

    /// What is handed out for a gauge.
    type Gauge;

    /// What is handed out for a histogram.
    type Histogram;

    /// This may be handed out for the counter of a key.
    ghost counter_of: { Self → KeyText → MetadataText → Self.Counter → Type 0 } = { λ _ _ _ _. ⊤ };

    /// This may be handed out for the gauge of a key.
    ghost gauge_of: { Self → KeyText → MetadataText → Self.Gauge → Type 0 } = { λ _ _ _ _. ⊤ };

    /// This may be handed out for the histogram of a key.
    ghost histogram_of: { Self → KeyText → MetadataText → Self.Histogram → Type 0 } = { λ _ _ _ _. ⊤ };

    /// This may be answered to the description of a name, by its kind, unit and text.
    ghost describes: { Self → MetricKind → List ℕ → Option UnitOf → List ℕ → Result (Unit {0}) MemoryOf → Type 0 } = { λ _ _ _ _ _ _. ⊤ };

    /// The recorder may be refused memory.
    ghost may_refuse: { Self → Type 0 } = { λ _. ⊤ };

    /// Describes the counters of a name.
    fn describe_counter<R: Wait>(
        &self,
        rt: &R,
        alloc: Global,
        key: KeyName,
        unit: Option<Unit>,
        description: SharedString,
    ) -> Result<(), Memory>
        ensures answer { describes self.now kinds.Counter key unit
            (cow_text description.entry) result }
        ensures refused { OnErr result (may_refuse self.now) };

    /// Describes the gauges of a name.
    fn describe_gauge<R: Wait>(
        &self,
        rt: &R,
        alloc: Global,
        key: KeyName,
        unit: Option<Unit>,
        description: SharedString,
    ) -> Result<(), Memory>
        ensures answer { describes self.now kinds.Gauge key unit
            (cow_text description.entry) result }
        ensures refused { OnErr result (may_refuse self.now) };

    /// Describes the histograms of a name.
    fn describe_histogram<R: Wait>(
        &self,
        rt: &R,
        alloc: Global,
        key: KeyName,
        unit: Option<Unit>,
        description: SharedString,
    ) -> Result<(), Memory>
        ensures answer { describes self.now kinds.Histogram key unit
            (cow_text description.entry) result }
        ensures refused { OnErr result (may_refuse self.now) };

    /// Hands out the counter of a key.
    fn register_counter<R: Wait>(
        &self,
        rt: &R,
        alloc: Global,
        key: &Key,
        metadata: &Metadata<'_>,
    ) -> Result<Self::Counter, Memory>
        ensures answer { IfOk result (counter_of self.now key.now metadata.now) }
        ensures refused { OnErr result (may_refuse self.now) };

    /// Hands out the gauge of a key.
    fn register_gauge<R: Wait>(
        &self,
        rt: &R,
        alloc: Global,
        key: &Key,
        metadata: &Metadata<'_>,
    ) -> Result<Self::Gauge, Memory>
        ensures answer { IfOk result (gauge_of self.now key.now metadata.now) }
        ensures refused { OnErr result (may_refuse self.now) };

    /// Hands out the histogram of a key.
    fn register_histogram<R: Wait>(
        &self,
        rt: &R,
        alloc: Global,
        key: &Key,
        metadata: &Metadata<'_>,
    ) -> Result<Self::Histogram, Memory>
        ensures answer { IfOk result (histogram_of self.now key.now metadata.now) }
        ensures refused { OnErr result (may_refuse self.now) };
}

/// What leads to a recorder: a reference to one, or what owns or shares one. It is a recorder that does what that one does.
pub trait LeadsToRecorder {
    ghost use Rattle.std.specs.Prelude.{◌≡◌};

    /// The recorder's type.
    type Target: Recorder;

    /// The recorder.
    ghost led_to: { Self → Self.Target };

    /// The recorder that this leads to.
    fn recorder(&self) -> &Self::Target
        ensures { result.now ≡ led_to self.now };
}

impl<T: Recorder> LeadsToRecorder for &T {
    type Target = T;

    ghost led_to = { λ it. it.now };

    fn recorder(&self) -> &T {
        self
    }
}

impl<T: Recorder> LeadsToRecorder for &mut T {
    type Target = T;

    ghost led_to = { λ it. it.now };

    fn recorder(&self) -> &T {
        self
    }
}

impl<T: Recorder> LeadsToRecorder for Box<T> {
    type Target = T;

    ghost led_to = { λ it. it.value };

    fn recorder(&self) -> &T {
        self
    }
}

impl<T: Recorder> LeadsToRecorder for Arc<T> {
    ghost use Rattle.std.specs.Arc.{arc_value};

    type Target = T;

    ghost led_to = { arc_value };

    fn recorder(&self) -> &T {
        self
    }
}

impl<P: LeadsToRecorder> Recorder for P {
    type Counter = <P::Target as Recorder>::Counter;

    type Gauge = <P::Target as Recorder>::Gauge;

    type Histogram = <P::Target as Recorder>::Histogram;

    ghost counter_of = { λ it. P.Target.counter_of (P.led_to it) };

    ghost gauge_of = { λ it. P.Target.gauge_of (P.led_to it) };

    ghost histogram_of = { λ it. P.Target.histogram_of (P.led_to it) };

    ghost describes = { λ it. P.Target.describes (P.led_to it) };

    ghost may_refuse = { λ it. P.Target.may_refuse (P.led_to it) };

    fn describe_counter<R: Wait>(
        &self,
        rt: &R,
        alloc: Global,
        key: KeyName,
        unit: Option<Unit>,
        description: SharedString,
    ) -> Result<(), Memory> {
        self.recorder()
            .describe_counter(rt, alloc, key, unit, description)
    }

    fn describe_gauge<R: Wait>(
        &self,
        rt: &R,
        alloc: Global,
        key: KeyName,
        unit: Option<Unit>,
        description: SharedString,
    ) -> Result<(), Memory> {
        self.recorder()
            .describe_gauge(rt, alloc, key, unit, description)
    }

    fn describe_histogram<R: Wait>(
        &self,
        rt: &R,
        alloc: Global,
        key: KeyName,
        unit: Option<Unit>,
        description: SharedString,
    ) -> Result<(), Memory> {
        self.recorder()
            .describe_histogram(rt, alloc, key, unit, description)
    }

    fn register_counter<R: Wait>(
        &self,
        rt: &R,
        alloc: Global,
        key: &Key,
        metadata: &Metadata<'_>,
    ) -> Result<Self::Counter, Memory> {
        self.recorder().register_counter(rt, alloc, key, metadata)
    }

    fn register_gauge<R: Wait>(
        &self,
        rt: &R,
        alloc: Global,
        key: &Key,
        metadata: &Metadata<'_>,
    ) -> Result<Self::Gauge, Memory> {
        self.recorder().register_gauge(rt, alloc, key, metadata)
    }

    fn register_histogram<R: Wait>(
        &self,
        rt: &R,
        alloc: Global,
        key: &Key,
        metadata: &Metadata<'_>,
    ) -> Result<Self::Histogram, Memory> {
        self.recorder().register_histogram(rt, alloc, key, metadata)
    }
}
