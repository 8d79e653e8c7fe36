//! Native histograms, which have no rows on a page: they are asked for by the ids of their series.

ghost use Rattle.std.specs.Option.{option_copied};
ghost use Rattle.metrics_registry.specs.Live.{cell_of};
ghost use Rattle.prom_exporter.specs.Natives.{HasNative};

use crate::state::PrometheusState;
use distributions::Distribution;
use metrics_core::SeriesId;
use native_histograms::NativeHistogram;

impl PrometheusState {
    /// The native histogram of a series, with the samples that are recorded, its buckets as they stand. It is `None` exactly where
    /// no histogram with the id is live, or its distribution is none of this kind.
    pub fn native(&self, id: SeriesId) -> Option<&NativeHistogram>
        ensures { HasNative (cell_of id self.now.series.histograms) (option_copied result) }
    {
        match self.series.get_histogram(id)?.distribution() {
            Distribution::NativeHistogram(native) => Some(native),
            Distribution::Histogram(_) | Distribution::Summary(..) => None,
        }
    }
}
