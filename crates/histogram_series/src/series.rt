//! A queue of samples with the distribution that it is drained into.

ghost use Rattle.std.specs.Prelude.{◌≡◌, [], length, None, IfOk, OnOk, OnErr};
ghost use Rattle.std.specs.Bool.{OnTrue, OnFalse};
ghost use Rattle.std.specs.Arc.{arc_value};
ghost use Rattle.metrics_core.specs.Numbers.{in_64_bits};
ghost use Rattle.legal_history.specs.History.{calls, child, Settled};
ghost use Rattle.sample_queue.specs.Passes.{IsSamplePass, view_of};
ghost use Rattle.sample_queue.specs.Queues.{FoundEmpty, pushed};
ghost use Rattle.distributions.specs.Kinds.{DistributionKind};
ghost use Rattle.distributions.specs.Recording.{StandsFor};
ghost use Rattle.histogram_series.specs.Entries.{queued};
ghost use Rattle.histogram_series.specs.Series.{
  unused,
  IsHome,
  with_one_out,
  with_one_back,
  entries,
  recorded,
  recorded_samples,
  kind_of,
  AreInTurn,
  HasRecorded,
};
ghost use Rattle.histogram_series.specs.Drains.{TakesNext, with_none_waiting, Drains, Grows};

use cell_lanes::{Lender, LentCell, OwnedCell};
use distributions::Distribution;
use metrics_core::{Fixed, Memory};
use sample_queue::{PromHistogram, SampleEntry, SamplePass, SampleQueue};
use std::alloc::Global;
use std::marker::Model;
use std::sync::{Arc, Wait};

/// A histogram series. Callers push samples on its queue, and a drain records them in its distribution. Each sample stands
/// once: in the queue, in the stray slot or in the distribution. A contract sees the queue, what the series' own pass of it
/// knows, the entry in the stray slot, and the kind of distribution.
#[derive(Drop)]
pub struct HistogramSeries {
    queue: OwnedCell<PromHistogram>,
    /// An entry that was taken out of the queue while its recording was refused memory. It is recorded first.
    stray: Option<SampleEntry<(Fixed, u64)>>,
    distribution: Distribution,
}

impl Model for HistogramSeries {
    ghost use Rattle.std.specs.Prelude.{◌≡◌, ◌++◌};
    ghost use Rattle.sample_queue.specs.Queues.{popped};
    ghost use Rattle.histogram_series.specs.Entries.{listed};
    ghost use Rattle.histogram_series.specs.Series.{SampleSeries, kind_of, but_waiting, HasRecorded};

    ghost Value = { SampleSeries };

    ghost view = { λ s. record { cell = s.queue.fixed; root = s.queue.root; stray = s.stray; kind = kind_of s.distribution } };

    ghost invariant = { λ s. let out = popped s.queue.root.mine in
        (out ≡ but_waiting s.stray out ++ listed s.stray) × HasRecorded (kind_of s.distribution) (but_waiting s.stray out) s.distribution };
}

impl HistogramSeries {
    /// A series with a distribution of no samples.
    pub fn new(alloc: Global, distribution: Distribution) -> Result<HistogramSeries, Memory>
        requires { (kind : DistributionKind) × StandsFor kind [] distribution }
        ensures unused { IfOk result (λ made. (kind : DistributionKind)
            → StandsFor kind [] distribution → made ≡ unused kind made.cell) }
        ensures settled { IfOk result (λ made. Settled made.root) }
    {
        let queue = SampleQueue::owned(alloc)?;
        Ok(HistogramSeries {
            queue,
            stray: None,
            distribution,
        })
    }

    /// Lends the queue and a new pass of it, for a caller who pushes samples.
    pub fn lend(
        &mut self,
        alloc: Global,
    ) -> Result<(Arc<PromHistogram>, SamplePass<(Fixed, u64)>), Memory>
        ensures lent { IfOk result (λ lent. (arc_value lent.0 ≡ self.old.cell)
            × IsSamplePass self.old.cell lent.1 × (view_of lent.1 ≡ child self.old.root)) }
        ensures out { OnOk result (self.new ≡ with_one_out self.old) }
        ensures refused { OnErr result (self.new ≡ self.old) }
    {
        self.queue.lend_pass(alloc)
    }

    /// Takes a pass of the queue back.
    pub fn take_back(&mut self, pass: SamplePass<(Fixed, u64)>)
        requires { IsSamplePass self.old.cell pass }
        ensures { self.new ≡ with_one_back (view_of pass) self.old }
    {
        self.queue.take_pass(pass);
    }

    /// Lends a new pass of the queue to a lane.
    pub fn lend_to_lane(&mut self, alloc: Global) -> Result<LentCell<PromHistogram>, Memory>
        ensures lent { IfOk result (λ lent. (lent.cell ≡ self.old.cell)
            × (lent.knows ≡ child self.old.root)) }
        ensures out { OnOk result (self.new ≡ with_one_out self.old) }
        ensures refused { OnErr result (self.new ≡ self.old) }
    {
        let (queue, pass) = self.queue.lend_pass(alloc)?;
        Ok(LentCell::new(queue, pass))
    }

    /// Takes a lane's pass back.
    pub fn take_from_lane(&mut self, lent: LentCell<PromHistogram>)
        requires { lent.cell ≡ self.old.cell }
        ensures { self.new ≡ with_one_back lent.knows self.old }
    {
        self.queue.take_pass(lent.into_pass());
    }

    /// With no pass out, makes sure that the series knows whose each call on the queue is. It changes nothing.
    pub fn settle<R: Wait>(&mut self, rt: &R)
        requires { IsHome self.old }
        ensures same { self.new ≡ self.old }
        ensures settled { Settled self.old.root }
    {
        self.queue.settle(rt);
    }

    /// Records the samples of the queue, in order, until the queue was empty at a moment of the call. Where memory is refused,
    /// each sample stands where it stood or further on, once and in the same order, and a later drain goes on from there. It may
    /// go on for as long as others push.
    pub fn drain<R: Wait>(&mut self, rt: &R, alloc: Global) -> Result<(), Memory>
        ensures drains { Drains self.old self.new }
        ensures grows { Grows self.old.root self.new.root }
        ensures none_waits { OnOk result (self.new.stray ≡ None) }
        ensures found_empty { OnOk result (FoundEmpty self.new.root) }

        // After a drain that was not refused, all that the series' own pass has seen pushed is recorded.
        ensures all_seen { OnOk result (recorded self.new ≡ pushed (calls self.new.root.seen)) }
        ensures emptied { OnOk result (queued self.new.root ≡ []) }

        // Where no pass is out, no entry is lost and none comes; after a drain that was not refused all are recorded.
        ensures same_entries { IsHome self.old → entries self.new ≡ entries self.old }
        ensures all_recorded { OnOk result (IsHome self.old → recorded self.new ≡ entries self.old) }
    {
        self.record_stray(alloc)?;
        for _ in rt.forever() {
            if !self.take_next(rt) {
                return Ok(());
            }
            self.record_stray(alloc)?;
        }
        unreachable!()
    }

    /// Takes the next entry out of the queue into the stray slot, and answers whether there was one.
    fn take_next<R: Wait>(&mut self, rt: &R) -> bool
        requires { self.old.stray ≡ None }
        ensures taken { OnTrue result (TakesNext self.old self.new) }
        ensures same { OnFalse result (self.new ≡ self.old) }
        ensures empty { OnFalse result (FoundEmpty self.old.root) }
    {
        self.stray = self.queue.read(rt);
        self.stray.is_some()
    }

    /// Records the entry in the stray slot, if there is one, or changes nothing.
    fn record_stray(&mut self, alloc: Global) -> Result<(), Memory>
        ensures recorded { OnOk result (self.new ≡ with_none_waiting self.old) }
        ensures refused { OnErr result (self.new ≡ self.old) }
    {
        if let Some(entry) = self.stray {
            let (value, moment) = entry.item;
            self.distribution.record(alloc, value, moment, entry.count)?;
            self.stray = None;
        }
        Ok(())
    }

    /// The number of samples that were recorded so far, modulo 2^64.
    pub fn updates(&self) -> u64
        ensures { result ≡ in_64_bits (length (recorded_samples self.now)) }
    {
        self.distribution.count()
    }

    /// What the series keeps of the samples that were recorded so far.
    pub fn distribution(&self) -> &Distribution
        ensures recorded { HasRecorded self.now.kind (recorded self.now) result.now }
        ensures kind { kind_of result.now ≡ self.now.kind }
        ensures stands { AreInTurn self.now.kind (recorded_samples self.now)
            → StandsFor self.now.kind (recorded_samples self.now) result.now }
    {
        &self.distribution
    }
}
