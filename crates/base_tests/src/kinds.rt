//! Worked examples of distributions: with ample memory names get theirs, which record samples, and why samples were not all
//! recorded, in words.

ghost use Rattle.std.specs.Prelude.{◌≡◌, true, IfOk};
ghost use Rattle.distributions.specs.Builders.{has_bound, all_have_bounds};

use distributions::{Distribution, DistributionBuilder, RecordSamplesFault};
use metrics_core::{Fixed, Memory};
use metrics_registry::{Quantile, parse_quantiles};
use native_histograms::NativeHistogramConfig;
use prom_format::Matcher;
use rolling_summaries::RollingSummary;
use std::alloc::Global;
use std::test::Fail;

/// The value 1 in billionths.
const ONE: i64 = 1_000_000_000;

/// A second in nanoseconds.
const SECOND: u64 = 1_000_000_000;

/// What a distribution shows.
#[derive(Clone, Copy, PartialEq, Eq)]
enum Shown {
    /// The count at the first bound, the sum and the count.
    Histogram(Option<u64>, i128, u64),
    /// The median of the window at second 3660, the sum and the count.
    Summary(Option<Fixed>, i128, u64),
    /// The schema, the sum and the count.
    NativeHistogram(i32, i128, u64),
}

/// The median of a window at second 3660. Here alone the values of a window are dropped.
fn median(
    alloc: Global,
    window: &RollingSummary,
    quantiles: &[Quantile],
) -> Result<Option<Fixed>, Memory> {
    let values = window.snapshot(alloc, 3660 * SECOND)?;
    Ok(match quantiles.first() {
        Some(quantile) => values.quantile(quantile),
        None => None,
    })
}

/// What a distribution shows.
fn show(alloc: Global, distribution: &Distribution) -> Result<Shown, Memory> {
    Ok(match distribution {
        Distribution::Histogram(histogram) => {
            let first = histogram.buckets().first().map(|(_bound, count)| *count);
            Shown::Histogram(first, histogram.sum(), histogram.count())
        }
        Distribution::Summary(window, quantiles, sum) => Shown::Summary(
            median(alloc, window, quantiles.as_slice())?,
            *sum,
            window.count(),
        ),
        Distribution::NativeHistogram(histogram) => Shown::NativeHistogram(
            histogram.schema(),
            histogram.sum(),
            histogram.count(),
        ),
    })
}

/// What a distribution shows after samples.
fn recorded(
    alloc: Global,
    distribution: &mut Distribution,
    samples: &[(Fixed, u64)],
) -> Result<Shown, Fail> {
    distribution.record_samples(alloc, samples)?;
    Ok(show(alloc, distribution)?)
}

/// What the distribution of a name shows after samples. Here alone a distribution is dropped.
fn shown_of_name(
    alloc: Global,
    builder: &DistributionBuilder,
    name: &str,
    samples: &[(Fixed, u64)],
) -> Result<Shown, Fail> {
    let mut distribution = builder.get_distribution(alloc, name)?;
    recorded(alloc, &mut distribution, samples)
}

/// A matcher of names that begin with a text.
fn front(alloc: Global, text: &str) -> Result<Matcher, Memory> {
    Ok(Matcher::Prefix(String::from_str(alloc, text)?))
}

/// A list of one bound.
fn bound(alloc: Global, value: i64) -> Result<Vec<Fixed>, Memory>
    ensures { IfOk result (λ bounds. has_bound bounds ≡ true) }
{
    Ok(vec![in alloc; Fixed(value)]?)
}

/// The bound 2 for names that begin with `http`.
fn overrides(alloc: Global) -> Result<Vec<(Matcher, Vec<Fixed>)>, Memory>
    ensures { IfOk result (λ rules. all_have_bounds rules.items ≡ true) }
{
    let front = front(alloc, "http")?;
    let bound = bound(alloc, 2 * ONE)?;
    Ok(vec![in alloc; (front, bound)]?)
}

/// At most two native buckets of factor 2 for names that begin with `http_native`.
fn natives(alloc: Global) -> Result<Vec<(Matcher, NativeHistogramConfig)>, Fail> {
    let config = NativeHistogramConfig::new(Fixed(2 * ONE), 2, Fixed(ONE / 10))?;
    let front = front(alloc, "http_native")?;
    Ok(vec![in alloc; (front, config)]?)
}

/// A builder with these and with the median for summaries.
fn new_builder(alloc: Global) -> Result<DistributionBuilder, Fail> {
    let natives = natives(alloc)?;
    let overrides = overrides(alloc)?;
    let quantiles = parse_quantiles(alloc, &[Fixed(ONE / 2)])?;
    Ok(DistributionBuilder::new(alloc, quantiles, None, None, None, overrides, natives)?)
}

/// The samples 1, 2, 4 and 8, each with its moment.
const SAMPLES: [(Fixed, u64); 4] = [
    (Fixed(ONE), 3600 * SECOND),
    (Fixed(2 * ONE), 3620 * SECOND),
    (Fixed(4 * ONE), 3640 * SECOND),
    (Fixed(8 * ONE), 3660 * SECOND),
];

/// What the distributions of names show after them.
const ROWS: [(&str, Shown); 3] = [
    ("http_seconds", Shown::Histogram(Some(2), 15_000_000_000, 4)),
    (
        "seconds",
        Shown::Summary(Some(Fixed(4 * ONE)), 15_000_000_000, 4),
    ),
    (
        "http_native_seconds",
        Shown::NativeHistogram(-2, 15_000_000_000, 4),
    ),
];

/// Whether each name has its kind of distribution and that shows the samples.
fn holds(alloc: Global, builder: &DistributionBuilder) -> Result<bool, Fail> {
    for (name, expected) in &ROWS {
        if shown_of_name(alloc, builder, name, &SAMPLES)? != *expected {
            return Ok(false);
        }
    }
    Ok(true)
}

/// Whether it holds of a new builder. Here alone a builder is dropped.
fn holds_of_new(alloc: Global) -> Result<bool, Fail> {
    let builder = new_builder(alloc)?;
    holds(alloc, &builder)
}

#[test]
fn names_have_distributions_of_their_kinds(rt: HostRuntime) -> Result<(), Fail> {
    assert!(rt; holds_of_new(rt.alloc())?);
    Ok(())
}

/// Whether this is said of samples that were not all recorded.
fn is_said(alloc: Global, said: &str) -> Result<bool, Fail> {
    let fault = RecordSamplesFault::Memory { done: 2 };
    Ok(format!(in alloc; "{fault}")?.as_str() == said)
}

#[test]
fn a_fault_says_how_many_samples_were_recorded(rt: HostRuntime) -> Result<(), Fail> {
    assert!(rt; is_said(rt.alloc(), "out of memory after 2 samples")?);
    Ok(())
}
