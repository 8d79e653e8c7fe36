//! All rows of a histogram series at a moment.

ghost use Rattle.std.specs.Prelude.{◌≡◌, ◌++◌, List, flat_map, OnOk, string_bytes};
ghost use Rattle.metrics_core.specs.Keys.{LabelText};
ghost use Rattle.prom_format.specs.Pages.{label_set_text, row_text};
ghost use Rattle.prom_format.specs.PrintedRows.{IsPrintedSet};
ghost use Rattle.histogram_series.specs.Rows.{shown_rows};
ghost use Rattle.distribution_rows.specs.Lines.{histogram_lines, last_bucket_line, summary_lines, shown_lines, value_line};
ghost use Rattle.rolling_summaries.specs.Summaries.{snapshot_at};
ghost use Rattle.distribution_rows.specs.Series.{series_row};

use crate::parts::{push_buckets, push_quantiles, push_sum_and_count, whole_value};
use distributions::Distribution;
use metrics_core::Memory;
use metrics_registry::{CumulativeHistogram, Quantile};
use prom_format::write_row;
use rolling_summaries::RollingSummary;

/// Appends the rows that a series shows of its distribution at a moment, in nanoseconds: its metric name and its label set,
/// which is given as it is printed. A native histogram has none. A refused call may leave a part of them.
pub fn push_rows(
    buffer: &mut String,
    name: &str,
    labels: &str,
    distribution: &Distribution,
    moment: u64,
) -> Result<(), Memory>
    requires { IsPrintedSet labels.now }
    ensures { OnOk result ((set : List LabelText) → labels.now ≡ label_set_text set
        → string_bytes buffer.new ≡ string_bytes buffer.old ++ flat_map row_text (shown_rows (series_row name.now set) moment distribution.now)) }
{
    push_lines(buffer, name, labels, distribution, moment)
}

/// The same, as lines that are made of the label set's text.
fn push_lines(
    buffer: &mut String,
    name: &str,
    labels: &str,
    distribution: &Distribution,
    moment: u64,
) -> Result<(), Memory>
    requires { IsPrintedSet labels.now }
    ensures { OnOk result (string_bytes buffer.new
        ≡ string_bytes buffer.old ++ shown_lines name.now labels.now moment distribution.now) }
{
    match distribution {
        Distribution::Histogram(histogram) => { push_histogram(buffer, name, labels, histogram) }
        Distribution::Summary(window, quantiles, sum) => push_summary(
            buffer,
            name,
            labels,
            window,
            quantiles.as_slice(),
            *sum,
            moment,
        ),
        Distribution::NativeHistogram(_) => Ok(()),
    }
}

/// Appends the rows of a cumulative histogram.
fn push_histogram(
    buffer: &mut String,
    name: &str,
    labels: &str,
    histogram: &CumulativeHistogram,
) -> Result<(), Memory>
    requires { IsPrintedSet labels.now }
    ensures { OnOk result (string_bytes buffer.new
        ≡ string_bytes buffer.old ++ histogram_lines name.now labels.now histogram.now) }
{
    push_buckets(buffer, name, labels, histogram.buckets())?;
    push_last_bucket(buffer, name, labels, histogram.count())?;
    push_sum_and_count(buffer, name, labels, histogram.sum(), histogram.count())
}

/// Appends the row of all samples.
fn push_last_bucket(buffer: &mut String, name: &str, labels: &str, count: u64) -> Result<(), Memory>
    requires { IsPrintedSet labels.now }
    ensures { OnOk result (string_bytes buffer.new
        ≡ string_bytes buffer.old ++ last_bucket_line name.now labels.now count) }
{
    let label = Some(("le", "+Inf"));
    write_row(
        buffer,
        name,
        None,
        Some("bucket"),
        labels,
        label,
        whole_value(count),
    )
}

/// Appends the rows of a summary: its quantiles over the window at a moment, and the sum and the number of all samples. The
/// values of the window are gathered once for all quantiles.
fn push_summary(
    buffer: &mut String,
    name: &str,
    labels: &str,
    window: &RollingSummary,
    quantiles: &[Quantile],
    sum: i128,
    moment: u64,
) -> Result<(), Memory>
    requires { IsPrintedSet labels.now }
    ensures { OnOk result (string_bytes buffer.new
        ≡ string_bytes buffer.old ++ summary_lines name.now labels.now moment window.now quantiles.now sum) }
{
    push_window(buffer, name, labels, window, quantiles, moment)?;
    push_sum_and_count(buffer, name, labels, sum, window.count())
}

/// Appends the rows of quantiles over the window at a moment. Where one bucket of the window has all values they are read there, and
/// else the values of its buckets are put together.
fn push_window(
    buffer: &mut String,
    name: &str,
    labels: &str,
    window: &RollingSummary,
    quantiles: &[Quantile],
    moment: u64,
) -> Result<(), Memory>
    requires { IsPrintedSet labels.now }
    ensures { OnOk result (string_bytes buffer.new ≡ string_bytes buffer.old
        ++ flat_map (value_line name.now labels.now (snapshot_at moment window.now)) quantiles.now) }
{
    match window.sole_values(moment) {
        Some(values) => push_quantiles(buffer, name, labels, quantiles, values),
        None => {
            let values = window.snapshot(*buffer.allocator(), moment)?;
            push_quantiles(buffer, name, labels, quantiles, &values)
        }
    }
}
