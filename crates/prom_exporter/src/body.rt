//! The body of a page, of all that the exporter keeps.

ghost use Rattle.std.specs.Prelude.{◌≡◌, ◌-◌, ◌<◌, ◌≤◌, ◌⊎◌, IfErr, OnErr, OnOk};
ghost use Rattle.metrics_core.specs.declared.kinds.MetricKind.TheVariants.{Counter, Gauge};
ghost use Rattle.metrics_core.specs.Outside.{Rose, GrewBy, GrewByPrefix};
ghost use Rattle.prom_exporter.specs.Exporter.{written_body};

use crate::BuildError;
use crate::distribution_pages::write_distributions;
use crate::naming::Naming;
use crate::pages::write_families;
use crate::redirections::push_redirections;
use crate::state::PrometheusState;
use metrics_core::{Sink, write_whole};
use prom_format::FamilyType;
use std::alloc::Global;

impl PrometheusState {
    /// Writes the body of the families that the exporter shows at a moment, as it is.
    pub(crate) fn write_body<K: Sink>(
        &mut self,
        alloc: Global,
        moment: u64,
        sink: &mut K,
    ) -> Result<(), BuildError>
        ensures same { self.new ≡ self.old }
        ensures body { OnOk result (GrewBy (K.written sink.old) (K.written sink.new)
            (written_body moment self.old)) }
        ensures prefix { OnErr result (GrewByPrefix (K.written sink.old) (K.written sink.new)
            (written_body moment self.old)) }
        ensures errors { IfErr result (λ error. (error ≡ BuildError.WriteFault)
            ⊎ (error ≡ BuildError.Memory)) }
        ensures cause { result ≡ Err BuildError.WriteFault
            → Rose (K.faults sink.old) (K.faults sink.new) }
        ensures never_falls { K.faults sink.old ≤ K.faults sink.new }
    {
        let (counter_count, gauge_count) = (self.series.counter_count(), self.series.gauge_count());
        let counters = self.series.counters();
        self.counter_rows
            .catch_up(alloc, &counters, counter_count, &self.globals)?;
        let gauges = self.series.gauges();
        self.gauge_rows
            .catch_up(alloc, &gauges, gauge_count, &self.globals)?;
        let histogram_count = self.series.histogram_count();
        let histograms = self.series.histograms();
        self.histogram_rows
            .catch_up(alloc, &histograms, histogram_count, &self.globals)?;
        let mut buffer = String::new(alloc);
        let naming = Naming {
            units: self.settings.units(),
            descriptions: &self.descriptions,
        };
        let (suffix, rows) = (self.settings.counter_suffix(), &mut self.counter_rows);
        write_families(
            &naming,
            suffix,
            FamilyType::Counter,
            rows,
            &counters,
            &mut buffer,
            sink,
        )?;
        let rows = &mut self.gauge_rows;
        write_families(
            &naming,
            None,
            FamilyType::Gauge,
            rows,
            &gauges,
            &mut buffer,
            sink,
        )?;
        let (kinds, rows) = (&self.distributions, &self.histogram_rows);
        write_distributions(&naming, kinds, moment, rows, &histograms, &mut buffer, sink)?;
        push_redirections(&self.redirections, &mut buffer)?;
        write_whole(sink, buffer.as_bytes())?;
        Ok(())
    }
}
