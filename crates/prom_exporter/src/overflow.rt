//! Registrations past the limit of a metric name, which go to its overflow series.

ghost use Rattle.std.specs.Prelude.{◌≡◌, ◌⊎◌, None, IfOk, OnErr, OnOk, is_some, option_map, string_bytes};
ghost use Rattle.name_counts.specs.Counts.{count_of};
ghost use Rattle.prom_exporter.specs.State.{live_series, count_named, counted as counted_of, overflow_key, redirected_to, with_raised, with_series, number_of};
ghost use Rattle.prom_exporter.specs.Exporter.{state_of, AllHome, AddsSeries};

use crate::state::PrometheusState;
use metrics_core::{Key, KeyName, Label, Memory, MetricKind, SeriesId};
use name_counts::NameCounts;
use prom_format::sanitize_metric_name;
use std::alloc::Global;
use std::mem;

/// The key of the overflow series of a metric name.
fn overflow_key(alloc: Global, name: &str) -> Result<Key, Memory>
    ensures { IfOk result (λ key. key ≡ overflow_key name.now) }
{
    let labels = vec![in alloc; Label::from_static_parts("overflow", "true")]?;
    Ok(Key::from_parts(KeyName::from(String::from_str(alloc, name)?), labels))
}

impl PrometheusState {
    /// How many registrations of a kind were redirected under a metric name, modulo 2^64.
    pub fn redirections(&self, kind: MetricKind, name: &str) -> u64
        ensures { result ≡ count_of kind name.now (state_of self.now).redirected }
    {
        self.redirections.count(kind, name)
    }

    /// The metric name whose overflow series the registration of a key gets; none where it isn't redirected. Where no limit is set, and
    /// where the key is live, it takes no memory.
    pub(crate) fn redirected_to(
        &mut self,
        alloc: Global,
        kind: MetricKind,
        key: &Key,
    ) -> Result<Option<String>, Memory>
        ensures name { IfOk result (λ name.
            option_map string_bytes name ≡ redirected_to kind key.now (state_of self.old)) }
        ensures same { self.new ≡ self.old }
        ensures absent { OnErr result (live_series kind key.now (state_of self.old) ≡ None) }
    {
        let Some(limit) = self.settings.series_limit() else {
            return Ok(None);
        };
        if self.is_live(kind, key) {
            return Ok(None);
        }
        let name = sanitize_metric_name(alloc, key.name())?;
        let counted = self.counted(alloc, kind, name.as_str())?;
        let most = limit.get() as usize;
        if counted < most {
            return Ok(None);
        }
        Ok(Some(name))
    }

    /// Registers in place of a series the overflow series of its metric name, and counts it.
    pub(crate) fn redirect(
        &mut self,
        alloc: Global,
        kind: MetricKind,
        name: String,
    ) -> Result<SeriesId, Memory>
        ensures registered { let name = string_bytes name in
            OnOk result (state_of self.new ≡ with_series kind (overflow_key name) (with_raised kind name (state_of self.old))) }
        ensures cells { OnOk result ((self.new.series ≡ self.old.series)
            ⊎ AddsSeries kind (overflow_key (string_bytes name)) self.old self.new) }
        ensures home { AllHome self.old → AllHome self.new }
        ensures settings { self.new.settings ≡ self.old.settings }
        ensures id { let key = overflow_key (string_bytes name) in
            IfOk result (λ id. id ≡ record { kind = kind; number = number_of kind key (state_of self.old) }) }
        ensures refused { OnErr result (self.new ≡ self.old) }
    {
        let overflow = overflow_key(alloc, name.as_str())?;
        self.redirections.reserve(kind, name.as_str())?;
        // They are set aside meanwhile, so that the room stays.
        let none = NameCounts::new(alloc, *self.globals.hasher());
        let mut redirections = mem::replace(&mut self.redirections, none);
        let id = match self.put(alloc, kind, overflow) {
            Ok(id) => id,
            Err(refused) => {
                self.redirections = redirections;
                return Err(refused);
            }
        };
        let counted = redirections.add(kind, name.as_str());
        self.redirections = redirections;
        counted?;
        Ok(id)
    }

    /// Makes sure that a series of a kind with a key is live: where none is, a new one goes last, or past 2^64 - 1 series none.
    fn put(&mut self, alloc: Global, kind: MetricKind, key: Key) -> Result<SeriesId, Memory>
        ensures registered { OnOk result (state_of self.new ≡ with_series kind key
            (state_of self.old)) }
        ensures cells { OnOk result ((self.new.series ≡ self.old.series)
            ⊎ AddsSeries kind key self.old self.new) }
        ensures home { AllHome self.old → AllHome self.new }
        ensures settings { self.new.settings ≡ self.old.settings }
        ensures id { IfOk result (λ id.
            id ≡ record { kind = kind; number = number_of kind key (state_of self.old) }) }
        ensures refused { OnErr result (self.new ≡ self.old) }
    {
        match kind {
            MetricKind::Counter => self.put_counter(alloc, key),
            MetricKind::Gauge => self.put_gauge(alloc, key),
            MetricKind::Histogram => self.put_histogram(alloc, key),
        }
    }

    /// Whether a series of a kind with a key is live.
    pub fn is_live(&self, kind: MetricKind, key: &Key) -> bool
        ensures { result ≡ is_some (live_series kind key.now (state_of self.now)) }
    {
        self.find(kind, key).is_some()
    }

    /// The id of the live series of a kind with a key.
    fn find(&self, kind: MetricKind, key: &Key) -> Option<SeriesId>
        ensures { is_some result ≡ is_some (live_series kind key.now (state_of self.now)) }
    {
        match kind {
            MetricKind::Counter => self.series.find_counter(key),
            MetricKind::Gauge => self.series.find_gauge(key),
            MetricKind::Histogram => self.series.find_histogram(key),
        }
    }

    /// How many live series of a kind count against the limit of a metric name.
    fn counted(&mut self, alloc: Global, kind: MetricKind, name: &str) -> Result<usize, Memory>
        ensures same { self.new ≡ self.old }
        ensures counted { IfOk result (λ counted.
            counted ≡ counted_of kind name.now (state_of self.old)) }
    {
        let overflow = overflow_key(alloc, name)?;
        let named = self.count_named(alloc, kind, name)?;
        if self.is_live(kind, &overflow) {
            return Ok(named.saturating_sub(1));
        }
        Ok(named)
    }

    /// How many live series of a kind have a metric name. What is kept for their rows tells it, which is made first where it isn't yet.
    fn count_named(&mut self, alloc: Global, kind: MetricKind, name: &str) -> Result<usize, Memory>
        ensures same { self.new ≡ self.old }
        ensures count { IfOk result (λ count.
            count ≡ count_named kind name.now (state_of self.old)) }
    {
        match kind {
            MetricKind::Counter => {
                let series = self.series.counters();
                let count = self.series.counter_count();
                self.counter_rows
                    .count_named(alloc, &series, count, &self.globals, name)
            }
            MetricKind::Gauge => {
                let series = self.series.gauges();
                let count = self.series.gauge_count();
                self.gauge_rows
                    .count_named(alloc, &series, count, &self.globals, name)
            }
            MetricKind::Histogram => {
                let series = self.series.histograms();
                let count = self.series.histogram_count();
                self.histogram_rows
                    .count_named(alloc, &series, count, &self.globals, name)
            }
        }
    }
}
