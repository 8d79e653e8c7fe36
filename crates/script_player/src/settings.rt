//! The exporter that a script's settings ask for.

ghost use Rattle.std.specs.Prelude.{◌≡◌, ◌++◌, ◌||◌, None, Ok, IfOk, fold, map, option_map, unwrap_or};
ghost use Rattle.std.specs.Int.NonZero.{non_zero_u32_get};
ghost use Rattle.metrics_core.specs.Keys.{put_label};
ghost use Rattle.prom_format.specs.LabelSets.{labels_of};
ghost use Rattle.dsd_addresses.specs.Remotes.{RemoteText};
ghost use Rattle.drive_script.specs.Texts.{settings_of, values_of};
ghost use Rattle.script_player.specs.Faults.{AreAllowed};
ghost use Rattle.script_player.specs.Play.{exporter_settings, native_text};
ghost use Rattle.script_player.specs.Told.{native_told, rule_told};

use drive_script::Settings;
use hash_starts::HashStart;
use metrics_core::{Fixed, Memory};
use metrics_registry::MetricKindMask;
use native_histograms::NativeHistogramConfig;
use prom_exporter::{BuildError, PrometheusBuilder};
use prom_format::Matcher;
use std::alloc::Global;
use std::num::NonZeroU32;

/// A builder of an exporter with these settings, none of which is refused.
pub(crate) fn builder_of(
    alloc: Global,
    start: HashStart,
    settings: Settings,
) -> Result<PrometheusBuilder, Memory>
    requires allowed { (to : RemoteText) × AreAllowed to (settings_of settings) }
    ensures { IfOk result (λ builder. builder.settings ≡ exporter_settings (settings_of settings)) }
{
    let builder = PrometheusBuilder::starting_from(alloc, start)?;
    let builder = with_quantiles(alloc, builder, settings.quantiles)?;
    let builder = with_buckets(alloc, builder, settings.buckets)?;
    let builder = with_rules(alloc, builder, settings.buckets_for)?;
    let builder = with_native_rules(alloc, builder, settings.native_for)?;
    let builder = with_window(builder, settings.summary)?;
    let builder = with_idle(builder, settings.idle);
    let builder = with_series_limit(builder, settings.series_limit);
    let builder = with_names(builder, settings.naming, settings.units);
    with_globals(alloc, builder, settings.globals)
}

/// A builder that is told the quantiles of summaries, if there are any.
fn with_quantiles(
    alloc: Global,
    builder: PrometheusBuilder,
    quantiles: Option<Vec<Fixed>>,
) -> Result<PrometheusBuilder, Memory>
    ensures { IfOk result (λ told. told ≡ record builder {
      settings = record builder.settings {
        quantiles = unwrap_or (option_map (λ numbers. values_of numbers.items) quantiles)
            builder.settings.quantiles;
      };
    }) }
{
    let Some(quantiles) = quantiles else {
        return Ok(builder);
    };
    granted(builder.set_quantiles(alloc, quantiles.as_slice()))
}

/// A builder that is told the bounds of all distributions, if there are any.
fn with_buckets(
    alloc: Global,
    builder: PrometheusBuilder,
    buckets: Option<Vec<Fixed>>,
) -> Result<PrometheusBuilder, Memory>
    requires { builder.settings.buckets ≡ None }
    ensures { IfOk result (λ told. told ≡ record builder {
      settings = record builder.settings {
        buckets = option_map (λ numbers. values_of numbers.items) buckets;
      };
    }) }
{
    let Some(buckets) = buckets else {
        return Ok(builder);
    };
    granted(builder.set_buckets(alloc, buckets.as_slice()))
}

/// A builder that is told the bounds of the distributions whose names matchers fit.
fn with_rules(
    alloc: Global,
    builder: PrometheusBuilder,
    rules: Vec<(Matcher, Vec<Fixed>)>,
) -> Result<PrometheusBuilder, Memory>
    ensures { IfOk result (λ told. told ≡ record builder {
      settings = record builder.settings {
        buckets_for = builder.settings.buckets_for ++ map rule_told rules.items;
      };
    }) }
{
    let mut builder = builder;
    for (matcher, bounds) in rules {
        builder = granted(builder.set_buckets_for_metric(alloc, matcher, bounds.as_slice()))?;
    }
    Ok(builder)
}

/// A builder that is told of which names native histograms are made, and how.
fn with_native_rules(
    alloc: Global,
    builder: PrometheusBuilder,
    rules: Vec<(Matcher, Fixed, u32, Fixed)>,
) -> Result<PrometheusBuilder, Memory>
    ensures { IfOk result (λ told. told ≡ record builder {
      settings = record builder.settings {
        native_for = builder.settings.native_for ++ map native_told rules.items;
      };
    }) }
{
    let mut builder = builder;
    for (matcher, factor, max_buckets, threshold) in rules {
        let config = native_config(factor, max_buckets, threshold)?;
        builder = granted(builder.set_native_histogram_for_metric(alloc, matcher, config))?;
    }
    Ok(builder)
}

/// The settings of a native histogram, none of which is refused.
fn native_config(
    factor: Fixed,
    max_buckets: u32,
    threshold: Fixed,
) -> Result<NativeHistogramConfig, Memory>
    ensures { IfOk result (λ config. config ≡ native_text factor.0 max_buckets threshold.0) }
{
    match NativeHistogramConfig::new(factor, max_buckets, threshold) {
        Ok(config) => Ok(config),
        Err(_) => Err(Memory),
    }
}

/// A builder that is told the window of summaries, if there is one.
fn with_window(
    builder: PrometheusBuilder,
    summary: Option<(NonZeroU32, u64)>,
) -> Result<PrometheusBuilder, Memory>
    ensures { IfOk result (λ told. told ≡ record builder {
      settings = record builder.settings {
        bucket_count = unwrap_or (option_map (λ window. non_zero_u32_get window.0) summary)
            builder.settings.bucket_count;
        bucket_duration = unwrap_or (option_map (λ window. window.1) summary)
            builder.settings.bucket_duration;
      };
    }) }
{
    let Some((count, duration)) = summary else {
        return Ok(builder);
    };
    granted(
        builder
            .set_bucket_count(count)
            .set_bucket_duration(duration),
    )
}

/// A builder that is told which series fall idle, and when, if any do.
fn with_idle(builder: PrometheusBuilder, idle: Option<(MetricKindMask, u64)>) -> PrometheusBuilder
    requires { builder.settings.idle ≡ None }
    ensures { result ≡ record builder {
      settings = record builder.settings {
        idle = option_map
            (λ (mask, timeout). record { mask = mask; timeout = timeout }) idle;
      };
    } }
{
    match idle {
        Some((mask, timeout)) => builder.idle_timeout(mask, Some(timeout)),
        None => builder,
    }
}

/// A builder that is told how many series of one kind and metric name are made at most, if there is a limit.
fn with_series_limit(builder: PrometheusBuilder, limit: Option<NonZeroU32>) -> PrometheusBuilder
    requires { builder.settings.series_limit ≡ None }
    ensures { result ≡ record builder {
      settings = record builder.settings { series_limit = option_map non_zero_u32_get limit };
    } }
{
    match limit {
        Some(limit) => builder.series_limit(limit),
        None => builder,
    }
}

/// A builder that is told whether names are as recommended, and whether they end with units.
fn with_names(builder: PrometheusBuilder, naming: bool, units: bool) -> PrometheusBuilder
    ensures { result ≡ record builder {
      unit_suffix = units;
      settings = record builder.settings { units = naming || units; total_suffix = naming };
    } }
{
    builder
        .set_enable_unit_suffix(units)
        .with_recommended_naming(naming)
}

/// A builder that is told global labels.
fn with_globals(
    alloc: Global,
    builder: PrometheusBuilder,
    globals: Vec<(String, String)>,
) -> Result<PrometheusBuilder, Memory>
    ensures { IfOk result (λ told. told ≡ record builder {
      settings = record builder.settings {
        globals = fold put_label builder.settings.globals (labels_of globals.items);
      };
    }) }
{
    let mut builder = builder;
    for (key, value) in globals {
        builder = granted(builder.add_global_label(alloc, key, value))?;
    }
    Ok(builder)
}

/// What a builder that refuses no setting answers: another refusal than want of memory never comes.
fn granted(builder: Result<PrometheusBuilder, BuildError>) -> Result<PrometheusBuilder, Memory>
    ensures { IfOk result (λ told. builder ≡ Ok told) }
{
    match builder {
        Ok(builder) => Ok(builder),
        Err(_) => Err(Memory),
    }
}
