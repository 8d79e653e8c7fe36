//! A histogram as the exporter keeps it: the series with its queue, and what the last page noted of it.

ghost use Rattle.std.specs.Prelude.{◌≡◌, [], None, unwrap_or, IfOk, OnOk, OnErr};
ghost use Rattle.std.specs.Arc.{arc_value};
ghost use Rattle.legal_history.specs.History.{child, Settled};
ghost use Rattle.distributions.specs.Kinds.{DistributionKind};
ghost use Rattle.distributions.specs.Recording.{StandsFor};
ghost use Rattle.sample_queue.specs.Passes.{IsSamplePass, view_of};
ghost use Rattle.histogram_series.specs.Series.{kind_of, recorded, recorded_samples, with_one_back, AreInTurn, HasRecorded};
ghost use Rattle.prom_exporter.specs.Sampled.{unsampled, with_pass_out, IsAtRest};
ghost use Rattle.prom_exporter.specs.Stepped.{DrainsInPart, DrainsWhole, IsCounted};

use cell_lanes::LentCell;
use distributions::Distribution;
use histogram_series::HistogramSeries;
use metrics_core::{Fixed, Memory, MetricKind};
use metrics_registry::Recency;
use sample_queue::{PromHistogram, SamplePass};
use std::alloc::Global;
use std::marker::Model;
use std::sync::{Arc, Wait};

/// A histogram. A contract sees it as its series and the note.
#[derive(Drop)]
pub(crate) struct HistogramCell {
    series: HistogramSeries,
    /// How many updates a page has found, modulo 2^64, and the moment at which a page found so many first.
    note: Option<(u64, u64)>,
}

impl Model for HistogramCell {
    ghost use Rattle.prom_exporter.specs.Sampled.{Sampled};

    ghost Value = { Sampled };

    ghost view = { λ kept. record { series = kept.series; note = kept.note } };
}

impl HistogramCell {
    /// A histogram that nobody has called, with a distribution of no samples.
    pub(crate) fn new(alloc: Global, distribution: Distribution) -> Result<HistogramCell, Memory>
        requires { (kind : DistributionKind) × StandsFor kind [] distribution }
        ensures { IfOk result (λ made. (kind : DistributionKind) → StandsFor kind [] distribution
            → made ≡ unsampled kind made.series.cell) }
    {
        Ok(HistogramCell {
            series: HistogramSeries::new(alloc, distribution)?,
            note: None,
        })
    }

    /// Lends the queue and a new pass of it.
    pub(crate) fn lend(
        &mut self,
        alloc: Global,
    ) -> Result<(Arc<PromHistogram>, SamplePass<(Fixed, u64)>), Memory>
        ensures lent { IfOk result (λ lent. (arc_value lent.0 ≡ self.old.series.cell)
            × IsSamplePass self.old.series.cell lent.1
            × (view_of lent.1 ≡ child self.old.series.root)) }
        ensures out { OnOk result (self.new ≡ with_pass_out self.old) }
        ensures refused { OnErr result (self.new ≡ self.old) }
    {
        self.series.lend(alloc)
    }

    /// Takes a pass back.
    pub(crate) fn take_back(&mut self, pass: SamplePass<(Fixed, u64)>)
        requires { IsSamplePass self.old.series.cell pass }
        ensures { self.new ≡ record self.old
            { series = with_one_back (view_of pass) self.old.series } }
    {
        self.series.take_back(pass);
    }

    /// Lends a new pass of the queue to a lane.
    pub(crate) fn lend_to_lane(&mut self, alloc: Global) -> Result<LentCell<PromHistogram>, Memory>
        ensures lent { IfOk result (λ lent. (lent.cell ≡ self.old.series.cell)
            × (lent.knows ≡ child self.old.series.root)) }
        ensures out { OnOk result (self.new ≡ with_pass_out self.old) }
        ensures refused { OnErr result (self.new ≡ self.old) }
    {
        self.series.lend_to_lane(alloc)
    }

    /// Takes a lane's pass back.
    pub(crate) fn take_from_lane(&mut self, lent: LentCell<PromHistogram>)
        requires { lent.cell ≡ self.old.series.cell }
        ensures { self.new ≡ record self.old { series = with_one_back lent.knows self.old.series } }
    {
        self.series.take_from_lane(lent);
    }

    /// With no pass out, makes sure that the exporter knows whose each call on the queue is. It changes nothing.
    pub(crate) fn settle<R: Wait>(&mut self, rt: &R)
        requires { IsAtRest self.old }
        ensures same { self.new ≡ self.old }
        ensures settled { Settled self.old.series.root }
    {
        self.series.settle(rt);
    }

    /// Records the samples of the queue, until it was empty at a moment of the call. Where memory is refused, each sample stands where
    /// it stood or further on, and a later drain goes on from there.
    pub(crate) fn drain<R: Wait>(&mut self, rt: &R, alloc: Global) -> Result<(), Memory>
        ensures whole { OnOk result (DrainsWhole self.old self.new) }
        ensures in_part { OnErr result (DrainsInPart self.old self.new) }
    {
        self.series.drain(rt, alloc)
    }

    /// Where histograms may fall idle, notes how many updates this one has. Answers whether it stays: false exactly where it is
    /// idle.
    pub(crate) fn stays(&mut self, recency: &Option<Recency>, moment: u64) -> bool
        ensures { IsCounted (unwrap_or recency.now None) moment self.old result self.new }
    {
        match recency {
            Some(recency) => {
                let updates = self.series.updates();
                recency.should_store(MetricKind::Histogram, &mut self.note, updates, moment)
            }
            None => true,
        }
    }

    /// What it keeps of the samples that are recorded.
    pub(crate) fn distribution(&self) -> &Distribution
        ensures recorded { HasRecorded self.now.series.kind (recorded self.now.series) result.now }
        ensures kind { kind_of result.now ≡ self.now.series.kind }
        ensures stands { let samples = recorded_samples self.now.series in
            AreInTurn self.now.series.kind samples → StandsFor self.now.series.kind samples result.now }
    {
        self.series.distribution()
    }
}
