//! Where the series of handles are looked for first.

use metrics_core::{Memory, MetricKind};
use std::alloc::Global;

/// For each handle where to look for its series first among those of its kind. To begin with, that is the place of its register
/// line among those of the kind: the series stands there as long as no line registers one again and none has gone.
#[derive(Drop)]
pub struct Guesses {
    pub places: Vec<u32>,
    counters: u32,
    gauges: u32,
    histograms: u32,
}

impl Guesses {
    /// The guesses of no handle.
    pub(crate) fn new(alloc: Global) -> Guesses {
        Guesses {
            places: Vec::new(alloc),
            counters: 0,
            gauges: 0,
            histograms: 0,
        }
    }

    /// Makes room for those of so many more handles.
    pub(crate) fn reserve(&mut self, count: usize) -> Result<(), Memory> {
        self.places.reserve(count)?;
        Ok(())
    }

    /// Adds that of the next handle, whose series is of a kind.
    pub(crate) fn push(&mut self, kind: MetricKind) -> Result<(), Memory> {
        let place = match kind {
            MetricKind::Counter => counted(&mut self.counters),
            MetricKind::Gauge => counted(&mut self.gauges),
            MetricKind::Histogram => counted(&mut self.histograms),
        };
        self.places.push(place)?;
        Ok(())
    }
}

/// A count so far, to which one is added.
fn counted(count: &mut u32) -> u32 {
    let so_far = *count;
    *count = so_far.saturating_add(1);
    so_far
}
