//! Histograms: queues of samples, as those who make calls through handles see them.

use crate::pass::SamplePass;
use crate::queue::SampleQueue;
use metrics_core::{Fixed, Memory};
use metrics_facade::HistogramFn;
use std::alloc::Global;
use std::sync::Wait;

/// What a histogram keeps of a sample.
pub trait Recorded: Copy + Drop + Send + Sync {
    ghost use Rattle.std.specs.Prelude.{◌≡◌, ℕ, ℤ};

    /// What is kept of a value, in billionths, and its moment.
    ghost kept: { ℤ → ℕ → Self };

    /// What is kept of a value and its moment.
    fn of(value: Fixed, moment: u64) -> Self
        ensures { result ≡ kept value.0 moment };
}

/// A histogram whose samples keep their moments, in nanoseconds.
pub type PromHistogram = SampleQueue<(Fixed, u64)>;

/// A histogram whose samples have no moment.
pub type DsdHistogram = SampleQueue<Fixed>;

impl Recorded for (Fixed, u64) {
    ghost use Rattle.sample_queue.specs.Histograms.{timed};

    ghost kept = { timed };

    fn of(value: Fixed, moment: u64) -> (Fixed, u64) {
        (value, moment)
    }
}

impl Recorded for Fixed {
    ghost use Rattle.sample_queue.specs.Histograms.{untimed};

    ghost kept = { untimed };

    fn of(value: Fixed, _moment: u64) -> Fixed {
        value
    }
}

impl<T: Recorded> HistogramFn for SampleQueue<T> {
    type Pass = SamplePass<T>;

    ghost use Rattle.sample_queue.specs.Passes.{IsSamplePass};
    ghost use Rattle.sample_queue.specs.Histograms.{Records, Stays};

    ghost is_pass = { IsSamplePass };

    ghost may_follow = { λ _. Records T.kept };

    ghost stays = { λ _. Stays };

    fn record_many<R: Wait>(
        &self,
        rt: &R,
        alloc: Global,
        pass: &mut SamplePass<T>,
        value: Fixed,
        moment: u64,
        count: u32,
    ) -> Result<(), Memory> {
        self.push(rt, alloc, pass, T::of(value, moment), count)
    }
}
