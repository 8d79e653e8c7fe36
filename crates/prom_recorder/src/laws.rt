//! What two passes know of each other's series.

ghost use Rattle.metrics_core.specs.declared.kinds.MetricKind.TheVariants.{Counter, Gauge, Histogram};
ghost use Rattle.prom_exporter.specs.Lending.{LendsCounter, LendsGauge, LendsHistogram};
ghost use Rattle.prom_recorder.specs.Agreeing.{EqualKeysAgree};

use shared_recorder::numbers_are_keys;

/// Two passes that were handed out series under equal keys at a recorder without idle timeout, and that were given back to the root, were
/// handed out one series, whichever came first.
pub fn equal_keys_are_one_series()
    ensures counters { EqualKeysAgree Counter LendsCounter }
    ensures gauges { EqualKeysAgree Gauge LendsGauge }
    ensures histograms { EqualKeysAgree Histogram LendsHistogram }
{
    numbers_are_keys();
}
