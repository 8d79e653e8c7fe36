//! Rows of one series, one after another: of bounds, of quantiles, and the sum with the count.

ghost use Rattle.std.specs.Prelude.{◌≡◌, ◌++◌, pos, flat_map, option_map, unwrap_or, OnOk, string_bytes};
ghost use Rattle.metrics_core.specs.Numbers.{whole};
ghost use Rattle.metrics_registry.specs.Buckets.{bucket_of};
ghost use Rattle.prom_format.specs.PrintedRows.{IsPrintedSet};
ghost use Rattle.distribution_rows.specs.Lines.{bucket_line, quantile_line, value_line, sum_and_count_lines};

use metrics_core::{BILLIONTHS, Fixed, Memory};
use metrics_registry::{Bag, Quantile};
use prom_format::{push_fixed, write_row};

/// A count as a value, in billionths.
pub(crate) fn whole_value(count: u64) -> i128
    ensures { result ≡ whole count }
{
    i128::from(count) * i128::from(BILLIONTHS)
}

/// Appends a row for each bound, with the number of samples at most the bound. A refused call may leave a part of them.
pub(crate) fn push_buckets(
    buffer: &mut String,
    name: &str,
    labels: &str,
    buckets: &[(Fixed, u64)],
) -> Result<(), Memory>
    requires { IsPrintedSet labels.now }
    ensures { OnOk result (string_bytes buffer.new
        ≡ string_bytes buffer.old ++ flat_map (λ bucket. bucket_line name.now labels.now (bucket_of bucket)) buckets.now) }
{
    let mut text = String::new(*buffer.allocator());
    for bucket in buckets {
        push_bucket(buffer, &mut text, name, labels, *bucket)?;
    }
    Ok(())
}

/// Appends the row of one bound. The text is written over.
fn push_bucket(
    buffer: &mut String,
    text: &mut String,
    name: &str,
    labels: &str,
    bucket: (Fixed, u64),
) -> Result<(), Memory>
    requires { IsPrintedSet labels.now }
    ensures { OnOk result (string_bytes buffer.new
        ≡ string_bytes buffer.old ++ bucket_line name.now labels.now (bucket_of bucket)) }
{
    let (bound, count) = bucket;
    text.clear();
    push_fixed(text, i128::from(bound.0))?;
    let label = Some(("le", text.as_str()));
    write_row(
        buffer,
        name,
        None,
        Some("bucket"),
        labels,
        label,
        whole_value(count),
    )
}

/// Appends a row for each quantile, with its value among those of a bag. A refused call may leave a part of them.
pub(crate) fn push_quantiles(
    buffer: &mut String,
    name: &str,
    labels: &str,
    quantiles: &[Quantile],
    bag: &Bag,
) -> Result<(), Memory>
    requires { IsPrintedSet labels.now }
    ensures { OnOk result (string_bytes buffer.new
        ≡ string_bytes buffer.old ++ flat_map (value_line name.now labels.now bag.now) quantiles.now) }
{
    let values = bag.quantiles(*buffer.allocator(), quantiles)?;
    let values = values.as_slice();
    let mut text = String::new(*buffer.allocator());
    for place in 0..quantiles.len() {
        push_quantile(
            buffer,
            &mut text,
            name,
            labels,
            quantiles[place],
            values[place],
        )?;
    }
    Ok(())
}

/// Appends the row of one quantile, where its value is 0 if there is none. The text is written over.
fn push_quantile(
    buffer: &mut String,
    text: &mut String,
    name: &str,
    labels: &str,
    quantile: Quantile,
    value: Option<Fixed>,
) -> Result<(), Memory>
    requires { IsPrintedSet labels.now }
    ensures { OnOk result (string_bytes buffer.new
        ≡ string_bytes buffer.old ++ quantile_line name.now labels.now quantile (unwrap_or (option_map (λ v. v.0) value) (pos 0))) }
{
    text.clear();
    push_fixed(text, i128::from(quantile.value().0))?;
    let label = Some(("quantile", text.as_str()));
    write_row(
        buffer,
        name,
        None,
        None,
        labels,
        label,
        billionths_or_zero(value),
    )
}

/// The billionths of a value, 0 where there is none.
fn billionths_or_zero(value: Option<Fixed>) -> i128
    ensures { result ≡ unwrap_or (option_map (λ v. v.0) value) (pos 0) }
{
    match value {
        Some(value) => i128::from(value.0),
        None => 0,
    }
}

/// Appends the row of the sum, in billionths, and that of the number of all samples. A refused call may leave the first.
pub(crate) fn push_sum_and_count(
    buffer: &mut String,
    name: &str,
    labels: &str,
    sum: i128,
    count: u64,
) -> Result<(), Memory>
    requires { IsPrintedSet labels.now }
    ensures { OnOk result (string_bytes buffer.new
        ≡ string_bytes buffer.old ++ sum_and_count_lines name.now labels.now sum count) }
{
    write_row(buffer, name, None, Some("sum"), labels, None, sum)?;
    write_row(
        buffer,
        name,
        None,
        Some("count"),
        labels,
        None,
        whole_value(count),
    )
}
