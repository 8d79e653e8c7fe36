//! Worked examples of rolling summaries: with ample memory samples are added and the window is shown.

use metrics_core::{Fixed, Memory};
use metrics_registry::Quantile;
use rolling_summaries::RollingSummary;
use std::alloc::Global;
use std::num::NonZeroU32;
use std::test::Fail;

/// A second in nanoseconds.
const SECOND: u64 = 1_000_000_000;

/// The value 1 in billionths.
const ONE: i64 = 1_000_000_000;

/// Samples, each a second and a value, and what a summary shows of them at a second: how many buckets it keeps, how many samples
/// it counted, and the median of its window.
#[derive(Clone, Copy)]
struct Case<'a> {
    samples: &'a [(u16, i64)],
    now: u16,
    shown: (usize, u64, Option<Fixed>),
}

/// Adds the samples of a case.
fn add(alloc: Global, summary: &mut RollingSummary, case: &Case<'_>) -> Result<(), Memory> {
    for (second, value) in case.samples {
        summary.add(alloc, Fixed(*value), u64::from(*second) * SECOND, 1)?;
    }
    Ok(())
}

/// The median of a summary's window at a second. Here alone the values of a window are dropped.
fn median(alloc: Global, summary: &RollingSummary, now: u16) -> Result<Option<Fixed>, Memory> {
    let window = summary.snapshot(alloc, u64::from(now) * SECOND)?;
    Ok(window.quantile(&Quantile::new(Fixed(ONE / 2))))
}

/// Whether a case holds of a summary without samples, which then has them.
fn shows(alloc: Global, summary: &mut RollingSummary, case: &Case<'_>) -> Result<bool, Memory> {
    add(alloc, summary, case)?;
    let median = median(alloc, summary, case.now)?;
    Ok((summary.bucket_len(), summary.count(), median) == case.shown)
}

/// Whether a case holds of a summary without samples. Here and in `crowded` alone a summary is dropped.
fn holds(alloc: Global, mut summary: RollingSummary, case: &Case<'_>) -> Result<bool, Memory> {
    shows(alloc, &mut summary, case)
}

/// Samples of the default window.
const CASES: [Case<'_>; 2] = [
    Case {
        samples: &[(3600, ONE), (3620, 2 * ONE)],
        now: 3660,
        shown: (2, 2, Some(Fixed(2 * ONE))),
    },
    Case {
        samples: &[
            (3600, ONE),
            (3620, 2 * ONE),
            (3640, 3 * ONE),
            (3660, 4 * ONE),
        ],
        now: 3660,
        shown: (3, 4, Some(Fixed(3 * ONE))),
    },
];

#[test]
fn samples_show_in_the_default_window(rt: HostRuntime) -> Result<(), Fail> {
    for case in &CASES {
        let summary = RollingSummary::with_defaults(rt.alloc());
        assert!(rt; holds(rt.alloc(), summary, case)?);
    }
    Ok(())
}

/// A sample behind which an earlier one comes.
const LATE: Case<'_> = Case {
    samples: &[(4, 42 * ONE), (3, 43 * ONE)],
    now: 4,
    shown: (1, 2, Some(Fixed(42 * ONE))),
};

#[test]
fn a_late_sample_is_counted(rt: HostRuntime) -> Result<(), Fail> {
    let buckets = NonZeroU32::new(2).ok_or("no buckets")?;
    let summary = RollingSummary::new(rt.alloc(), buckets, 5 * SECOND);
    assert!(rt; holds(rt.alloc(), summary, &LATE)?);
    Ok(())
}

/// Adds a sample at each moment up to a count, and each again, which is late then.
fn add_twice(alloc: Global, summary: &mut RollingSummary, moments: u32) -> Result<(), Memory> {
    for moment in 0..moments {
        summary.add(alloc, Fixed(ONE), u64::from(moment), 1)?;
    }
    for moment in 0..moments {
        summary.add(alloc, Fixed(ONE), u64::from(moment), 1)?;
    }
    Ok(())
}

/// How many buckets and samples a summary has after so many moments, each with two samples.
fn crowded(
    alloc: Global,
    mut summary: RollingSummary,
    moments: u32,
) -> Result<(usize, u64), Memory> {
    add_twice(alloc, &mut summary, moments)?;
    Ok((summary.bucket_len(), summary.count()))
}

#[test]
fn very_many_buckets_take_little_time(rt: HostRuntime) -> Result<(), Fail> {
    let buckets = NonZeroU32::new(u32::MAX).ok_or("no buckets")?;
    let summary = RollingSummary::new(rt.alloc(), buckets, 1);
    assert!(rt; crowded(rt.alloc(), summary, 200_000)? == (200_000, 400_000));
    Ok(())
}
