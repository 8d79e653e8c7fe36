//! Histograms as an exporter keeps them: the queue that threads share, and what was taken out of it and not sent yet.

ghost use Rattle.std.specs.Prelude.{◌≡◌, ◌<◌, ◌++◌, [], length, replicate, false, IfOk, OnOk, OnErr};
ghost use Rattle.std.specs.Bool.{OnTrue, OnFalse};
ghost use Rattle.std.specs.Arc.{arc_value};
ghost use Rattle.legal_history.specs.History.{Settled, child};
ghost use Rattle.sample_queue.specs.Passes.{IsSamplePass, view_of};
ghost use Rattle.sample_queue.specs.Queues.{FoundEmpty};
ghost use Rattle.dsd_exporter.specs.Exporter.{IsHome, empty_queue};
ghost use Rattle.dsd_exporter.specs.Flushing.{Drains, IsSample, Offers};
ghost use Rattle.dsd_exporter.specs.Samples.{samples_in};
ghost use Rattle.dsd_exporter.specs.Lending.{queue_out, queue_back};

use cell_lanes::{Lender, LentCell, OwnedCell};
use metrics_core::{Fixed, Memory, Words};
use metrics_registry::Reservoir;
use sample_queue::{DsdHistogram, SampleEntry, SamplePass, SampleQueue};
use std::alloc::Global;
use std::marker::Model;
use std::sync::{Arc, Wait};

/// A histogram. A contract sees its queue, what the exporter's own pass of it knows, and the entries that were taken out.
#[derive(Drop)]
pub(crate) struct QueuedSamples {
    queue: OwnedCell<DsdHistogram>,
    /// The entries that were taken out of the queue and not sent yet, in order.
    taken: Vec<SampleEntry<Fixed>>,
}

impl Model for QueuedSamples {
    ghost use Rattle.dsd_exporter.specs.Exporter.{Queued};

    ghost Value = { Queued };

    ghost view = { λ h. record { cell = h.queue.fixed; root = h.queue.root; taken = h.taken.items } };
}

impl QueuedSamples {
    /// An empty queue, with no pass out.
    pub(crate) fn new(alloc: Global) -> Result<QueuedSamples, Memory>
        ensures { IfOk result (λ made. made ≡ empty_queue made.cell) }
    {
        Ok(QueuedSamples {
            queue: SampleQueue::owned(alloc)?,
            taken: Vec::new(alloc),
        })
    }

    /// Lends the queue and a new pass of it.
    pub(crate) fn lend(
        &mut self,
        alloc: Global,
    ) -> Result<(Arc<DsdHistogram>, SamplePass<Fixed>), Memory>
        ensures lent { IfOk result (λ lent. (arc_value lent.0 ≡ self.old.cell)
            × IsSamplePass self.old.cell lent.1 × (view_of lent.1 ≡ child self.old.root)) }
        ensures out { OnOk result (self.new ≡ queue_out self.old) }
        ensures refused { OnErr result (self.new ≡ self.old) }
    {
        self.queue.lend_pass(alloc)
    }

    /// Takes a pass of the queue back.
    pub(crate) fn take_back(&mut self, pass: SamplePass<Fixed>)
        requires { IsSamplePass self.old.cell pass }
        ensures { self.new ≡ queue_back (view_of pass) self.old }
    {
        self.queue.take_pass(pass);
    }

    /// Lends a new pass of the queue to a lane.
    pub(crate) fn lend_to_lane(&mut self, alloc: Global) -> Result<LentCell<DsdHistogram>, Memory>
        ensures lent { IfOk result (λ lent. (lent.cell ≡ self.old.cell)
            × (lent.knows ≡ child self.old.root)) }
        ensures out { OnOk result (self.new ≡ queue_out self.old) }
        ensures refused { OnErr result (self.new ≡ self.old) }
    {
        let (queue, pass) = self.queue.lend_pass(alloc)?;
        Ok(LentCell::new(queue, pass))
    }

    /// Takes a lane's pass of the queue back.
    pub(crate) fn take_from_lane(&mut self, lent: LentCell<DsdHistogram>)
        requires { lent.cell ≡ self.old.cell }
        ensures { self.new ≡ queue_back lent.knows self.old }
    {
        self.queue.take_pass(lent.into_pass());
    }

    /// With no pass out, makes sure that the exporter knows whose each call on the queue is. It changes nothing.
    pub(crate) fn settle<R: Wait>(&mut self, rt: &R)
        requires { IsHome self.old.root }
        ensures same { self.new ≡ self.old }
        ensures settled { Settled self.old.root }
    {
        self.queue.settle(rt);
    }

    /// Takes entries out of the queue, in order, until it was empty at a moment of the call. Where memory is refused those that
    /// were taken out are kept, and a later drain goes on from there. It may go on for as long as others push.
    pub(crate) fn drain<R: Wait>(&mut self, rt: &R) -> Result<(), Memory>
        ensures drains { Drains self.old self.new }
        ensures empty { OnOk result (FoundEmpty self.new.root) }
    {
        for _ in rt.forever() {
            if !self.take_next(rt)? {
                return Ok(());
            }
        }
        unreachable!()
    }

    /// Takes the next entry out of the queue, and answers whether there was one.
    fn take_next<R: Wait>(&mut self, rt: &R) -> Result<bool, Memory>
        ensures drains { Drains self.old self.new }
        ensures empty { IfOk result (λ some. some ≡ false → FoundEmpty self.new.root) }
    {
        self.taken.reserve(1)?;
        let Some(entry) = self.queue.read(rt) else {
            return Ok(false);
        };
        let _ = self.taken.push(entry);
        Ok(true)
    }

    /// Lets the entries go that were taken out.
    pub(crate) fn clear(&mut self)
        ensures { self.new ≡ record self.old { taken = [] } }
    {
        self.taken.clear();
    }

    /// Whether there are samples that were taken out.
    pub(crate) fn has_samples(&self) -> bool
        ensures none { OnFalse result (samples_in self.now.taken ≡ []) }
        ensures some { OnTrue result (0 < length (samples_in self.now.taken)) }
    {
        let entries = self.taken.as_slice();
        for entry in entries {
            if entry.count > 0 {
                return true;
            }
        }
        false
    }

    /// The samples that were taken out.
    pub(crate) fn samples(&self, alloc: Global) -> Result<Vec<Fixed>, Memory>
        ensures { IfOk result (λ samples. samples.items ≡ samples_in self.now.taken) }
    {
        let mut samples = Vec::new(alloc);
        let entries = self.taken.as_slice();
        for entry in entries {
            push_times(&mut samples, entry.item, entry.count)?;
        }
        Ok(samples)
    }

    /// A sample of at most so many of the samples that were taken out, for which words are drawn in turn.
    pub(crate) fn sample<W: Words>(
        &self,
        alloc: Global,
        size: u32,
        words: &mut W,
    ) -> Result<Reservoir, Memory>
        ensures sample { IfOk result (λ sample.
            IsSample size (samples_in self.now.taken) sample (W.to_come words.old)
            (W.to_come words.new)) }
        ensures refused { OnErr result (words.new ≡ words.old) }
    {
        let mut sample = Reservoir::new(alloc, size)?;
        let entries = self.taken.as_slice();
        for entry in entries {
            offer_times(&mut sample, entry.item, entry.count, words);
        }
        Ok(sample)
    }
}

/// Puts a value at the end so many times. After an error some of them may be there.
fn push_times(values: &mut Vec<Fixed>, value: Fixed, count: u32) -> Result<(), Memory>
    ensures { OnOk result (values.new.items ≡ values.old.items ++ replicate count value) }
{
    let mut made = 0;
    while made < count {
        values.push(value)?;
        made += 1;
    }
    Ok(())
}

/// Hands a value to a sample so many times. It takes no memory.
fn offer_times<W: Words>(sample: &mut Reservoir, value: Fixed, count: u32, words: &mut W)
    ensures { Offers (sample.old, W.to_come words.old) (replicate count value)
        (sample.new, W.to_come words.new) }
{
    let mut made = 0;
    while made < count {
        sample.push(value, words);
        made += 1;
    }
}
