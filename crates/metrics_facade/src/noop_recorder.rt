//! A recorder that records nothing.

use crate::{Counter, Gauge, Histogram, NoopCell, Recorder};
use metrics_core::{Key, KeyName, Memory, Metadata, SharedString, Unit};
use std::alloc::Global;
use std::sync::Wait;

/// A recorder that takes every description and hands out handles that do nothing. It is never refused memory.
#[derive(Clone, Copy, Debug, Default, PartialEq, Eq)]
pub struct NoopRecorder;

impl Recorder for NoopRecorder {
    ghost use Rattle.std.specs.Prelude.{◌≡◌, None};

    type Counter = Counter<NoopCell>;

    type Gauge = Gauge<NoopCell>;

    type Histogram = Histogram<NoopCell>;

    ghost counter_of = { λ _ _ _ handle. handle ≡ None };

    ghost gauge_of = { λ _ _ _ handle. handle ≡ None };

    ghost histogram_of = { λ _ _ _ handle. handle ≡ None };

    ghost may_refuse = { λ _. ⊥ };

    fn describe_counter<R: Wait>(
        &self,
        _rt: &R,
        _alloc: Global,
        _key: KeyName,
        _unit: Option<Unit>,
        _description: SharedString,
    ) -> Result<(), Memory> {
        Ok(())
    }

    fn describe_gauge<R: Wait>(
        &self,
        _rt: &R,
        _alloc: Global,
        _key: KeyName,
        _unit: Option<Unit>,
        _description: SharedString,
    ) -> Result<(), Memory> {
        Ok(())
    }

    fn describe_histogram<R: Wait>(
        &self,
        _rt: &R,
        _alloc: Global,
        _key: KeyName,
        _unit: Option<Unit>,
        _description: SharedString,
    ) -> Result<(), Memory> {
        Ok(())
    }

    fn register_counter<R: Wait>(
        &self,
        _rt: &R,
        _alloc: Global,
        _key: &Key,
        _metadata: &Metadata<'_>,
    ) -> Result<Counter<NoopCell>, Memory> {
        Ok(Counter::noop())
    }

    fn register_gauge<R: Wait>(
        &self,
        _rt: &R,
        _alloc: Global,
        _key: &Key,
        _metadata: &Metadata<'_>,
    ) -> Result<Gauge<NoopCell>, Memory> {
        Ok(Gauge::noop())
    }

    fn register_histogram<R: Wait>(
        &self,
        _rt: &R,
        _alloc: Global,
        _key: &Key,
        _metadata: &Metadata<'_>,
    ) -> Result<Histogram<NoopCell>, Memory> {
        Ok(Histogram::noop())
    }
}
