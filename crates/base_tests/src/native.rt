//! Worked examples of native histograms: with ample memory values are observed, buckets are merged and a histogram is copied.

use metrics_core::{Fixed, Memory};
use native_histograms::{NativeHistogram, NativeHistogramConfig};
use std::alloc::Global;
use std::collections::BTreeMap;
use std::test::Fail;

/// Values in billionths, each observed once with factor 2 and threshold 0.1, and what the histogram then has.
#[derive(Clone, Copy)]
struct Case<'a> {
    max_buckets: u32,
    values: &'a [i64],
    schema: i32,
    positive: &'a [(i32, u64)],
    negative: &'a [(i32, u64)],
    zeros: u64,
    sum: i128,
}

/// Whether buckets are these.
fn are(buckets: &BTreeMap<i32, u64>, expected: &[(i32, u64)]) -> bool {
    buckets.len() == expected.len()
        && expected.iter().all(|(index, count)| buckets.get(index).copied() == Some(*count))
}

/// Whether a histogram has what a case says.
fn shows(histogram: &NativeHistogram, case: &Case<'_>) -> bool {
    histogram.schema() == case.schema
        && are(histogram.positive_buckets(), case.positive)
        && are(histogram.negative_buckets(), case.negative)
        && histogram.zero_count() == case.zeros
        && histogram.sum() == case.sum
}

/// Observes the values of a case.
fn observe(alloc: Global, histogram: &mut NativeHistogram, case: &Case<'_>) -> Result<(), Memory> {
    for value in case.values {
        histogram.observe(alloc, Fixed(*value), 1)?;
    }
    Ok(())
}

/// Whether a copy of a histogram has what a case says. Here alone the copy is dropped.
fn is_copied(alloc: Global, histogram: &NativeHistogram, case: &Case<'_>) -> Result<bool, Memory> {
    let copy = histogram.clone(alloc)?;
    Ok(shows(&copy, case))
}

/// Whether a histogram and its copy have what a case says of its values.
fn holds(alloc: Global, histogram: &mut NativeHistogram, case: &Case<'_>) -> Result<bool, Memory> {
    observe(alloc, histogram, case)?;
    Ok(shows(histogram, case) && is_copied(alloc, histogram, case)?)
}

/// Whether a case holds of a new histogram. Here alone the histogram is dropped.
fn holds_of_new(alloc: Global, case: &Case<'_>) -> Result<bool, Fail> {
    let threshold = Fixed(100_000_000);
    let config = NativeHistogramConfig::new(Fixed(2_000_000_000), case.max_buckets, threshold)?;
    let mut histogram = NativeHistogram::new(alloc, config);
    Ok(holds(alloc, &mut histogram, case)?)
}

/// Values on both sides of 0, and more buckets than a histogram may have.
const CASES: [Case<'_>; 2] = [
    Case {
        max_buckets: 2,
        values: &[1_000_000_000, 2_000_000_000, 4_000_000_000, 8_000_000_000],
        schema: -2,
        positive: &[(0, 1), (1, 3)],
        negative: &[],
        zeros: 0,
        sum: 15_000_000_000,
    },
    Case {
        max_buckets: 160,
        values: &[
            -1_000_000_000,
            -2_000_000_000,
            500_000_000,
            4_000_000_001,
            0,
        ],
        schema: 0,
        positive: &[(-1, 1), (3, 1)],
        negative: &[(0, 1), (1, 1)],
        zeros: 1,
        sum: 1_500_000_001,
    },
];

#[test]
fn values_fall_in_buckets(rt: HostRuntime) -> Result<(), Fail> {
    for case in &CASES {
        assert!(rt; holds_of_new(rt.alloc(), case)?);
    }
    Ok(())
}
