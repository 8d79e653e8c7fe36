//! When series fall idle, and quantiles, bags and cumulative histograms of values.

use metrics_core::{Fixed, Memory, MetricKind};
use metrics_registry::{
    Bag, CumulativeHistogram, MetricKindMask, Quantile, Recency, parse_quantiles, same_in_any_cuts,
};
use std::alloc::Global;
use std::test::Fail;

#[test]
fn idle_series_are_told(rt: HostRuntime) {
    let mask = MetricKindMask::COUNTER.union(MetricKindMask::GAUGE);
    let recency = Recency::new(mask, Some(5));
    let mut noted = None;
    let stored = [
        recency.should_store(MetricKind::Counter, &mut noted, 1, 10),
        recency.should_store(MetricKind::Counter, &mut noted, 1, 15),
        recency.should_store(MetricKind::Counter, &mut noted, 1, 16),
    ];
    assert!(rt; stored == [true, true, false]);
    let matching = MetricKindMask::named().map(|mask| mask.matches(MetricKind::Gauge));
    assert!(rt; matching == [false, false, true, false, true]);
}

/// Adds values to a bag, one by one.
fn add_all(bag: &mut Bag, values: &[i64]) -> Result<(), Memory> {
    for value in values {
        bag.add(Fixed(*value), 1)?;
    }
    Ok(())
}

/// Quantiles that are asked for in no order. One below 0 is 0, and one above 1 is 1.
const ASKED: [Fixed; 5] = [
    Fixed(1_000_000_001),
    Fixed(-1),
    Fixed(900_000_000),
    Fixed(500_000_000),
    Fixed(900_000_000),
];

/// The quantiles 1, 0, 0.9 and 0.5 of values.
type Case<'a> = (&'a [i64], [Option<Fixed>; 4]);

/// Whether a quantile is so.
fn is_quantile(bag: &Bag, billionths: i64, expected: Option<Fixed>) -> bool {
    bag.quantile(&Quantile::new(Fixed(billionths))) == expected
}

/// Whether a bag answers so, each quantile in a call of its own.
fn answers_each(bag: &Bag, [highest, lowest, ninth, median]: [Option<Fixed>; 4]) -> bool {
    is_quantile(bag, 1_000_000_000, highest)
        && is_quantile(bag, 0, lowest)
        && is_quantile(bag, 900_000_000, ninth)
        && is_quantile(bag, 500_000_000, median)
}

/// Whether a bag answers so all that are asked for.
fn answers_all(
    alloc: Global,
    bag: &Bag,
    [highest, lowest, ninth, median]: [Option<Fixed>; 4],
) -> Result<bool, Memory> {
    let asked = parse_quantiles(alloc, &ASKED)?;
    let answers = bag.quantiles(alloc, asked.as_slice())?;
    Ok(answers.as_slice() == [highest, lowest, ninth, median, ninth].as_slice())
}

/// Whether a bag answers so once values were added.
fn answers(alloc: Global, bag: &mut Bag, (values, expected): &Case<'_>) -> Result<bool, Memory> {
    add_all(bag, values)?;
    Ok(answers_each(bag, *expected) && answers_all(alloc, bag, *expected)?)
}

/// Whether a new bag answers so. Here alone a bag of values is dropped.
fn are_quantiles(alloc: Global, case: &Case<'_>) -> Result<bool, Memory> {
    let mut bag = Bag::new(alloc);
    answers(alloc, &mut bag, case)
}

/// Values and their nearest ranks.
const CASES: [Case<'_>; 5] = [
    (&[], [None, None, None, None]),
    (
        &[42],
        [
            Some(Fixed(42)),
            Some(Fixed(42)),
            Some(Fixed(42)),
            Some(Fixed(42)),
        ],
    ),
    (
        &[2, 1],
        [
            Some(Fixed(2)),
            Some(Fixed(1)),
            Some(Fixed(2)),
            Some(Fixed(1)),
        ],
    ),
    (
        &[5, -1, 4, 2, 3],
        [
            Some(Fixed(5)),
            Some(Fixed(-1)),
            Some(Fixed(5)),
            Some(Fixed(3)),
        ],
    ),
    (
        &[5, -1, 4, 2, 3, 3],
        [
            Some(Fixed(5)),
            Some(Fixed(-1)),
            Some(Fixed(5)),
            Some(Fixed(3)),
        ],
    ),
];

#[test]
fn quantiles_are_the_nearest_ranks(rt: HostRuntime) -> Result<(), Fail> {
    for case in &CASES {
        assert!(rt; are_quantiles(rt.alloc(), case)?);
    }
    Ok(())
}

/// The numbers from -500 to 499, in an order that neither rises nor falls.
fn scattered(alloc: Global) -> Result<Vec<i64>, Memory> {
    let mut values = Vec::new(alloc);
    for place in 0..1_000u32 {
        values.push(i64::from(place * 389 % 1_000) - 500)?;
    }
    Ok(values)
}

/// Whether the quantiles of those numbers are their nearest ranks.
fn are_ranked(alloc: Global) -> Result<bool, Memory> {
    let values = scattered(alloc)?;
    let ranks = [499, -500, 399, -1].map(|rank| Some(Fixed(rank)));
    are_quantiles(alloc, &(values.as_slice(), ranks))
}

#[test]
fn quantiles_of_a_thousand_values_are_the_nearest_ranks(rt: HostRuntime) -> Result<(), Fail> {
    assert!(rt; are_ranked(rt.alloc())?);
    Ok(())
}

/// A bag of one value.
fn bag_of(alloc: Global, value: i64) -> Result<Bag, Memory> {
    let mut bag = Bag::new(alloc);
    bag.add(Fixed(value), 1)?;
    Ok(bag)
}

/// A bag with what another one has, twice.
fn twice_merged(mut bag: Bag, other: &Bag) -> Result<Bag, Memory> {
    bag.merge(other)?;
    bag.merged_with(other)
}

/// Whether a bag of one 8 has three values and 8 as the highest once another bag's 7 was merged and added.
fn merges(alloc: Global) -> Result<bool, Memory> {
    let other = bag_of(alloc, 7)?;
    let bag = twice_merged(bag_of(alloc, 8)?, &other)?;
    Ok(bag.count() == 3 && is_quantile(&bag, 1_000_000_000, Some(Fixed(8))))
}

#[test]
fn a_bag_takes_in_another_one(rt: HostRuntime) -> Result<(), Fail> {
    assert!(rt; merges(rt.alloc())?);
    Ok(())
}

const ONE: i64 = 1_000_000_000;

/// Whether a histogram with the bounds 1 and 5 has two values up to 1 and three up to 5 once 0.5, 1, 3 and 9 were observed.
fn observes(histogram: &mut CumulativeHistogram) -> bool {
    for value in &[ONE / 2, ONE, 3 * ONE, 9 * ONE] {
        histogram.observe(Fixed(*value), 1);
    }
    histogram.buckets() == [(Fixed(ONE), 2), (Fixed(5 * ONE), 3)].as_slice()
        && (histogram.sum(), histogram.count()) == (13_500_000_000, 4)
}

/// Whether it holds of a new histogram. Here alone a histogram is dropped.
fn is_cumulative(alloc: Global) -> Result<bool, Memory> {
    let mut histogram = CumulativeHistogram::new(alloc, &[Fixed(ONE), Fixed(5 * ONE)])?;
    Ok(observes(&mut histogram))
}

#[test]
fn buckets_are_cumulative(rt: HostRuntime) -> Result<(), Fail> {
    same_in_any_cuts();
    assert!(rt; is_cumulative(rt.alloc())?);
    Ok(())
}
