//! Units, levels, metadata and the values of gauges.

use metrics_core::{BILLIONTHS, Fixed, GaugeValue, IntoFixed, Level, Metadata, Unit, ValueFault};
use std::alloc::Global;
use std::test::Fail;
use std::time::Duration;

/// Whether a text is read as a unit, which has a label.
fn is_unit(text: &str, unit: Unit, label: &str) -> bool {
    Unit::from_string(text) == Some(unit) && unit.as_canonical_label() == label
}

#[test]
fn units_are_read_back(rt: HostRuntime) {
    for (text, unit, label) in &[
        ("count", Unit::Count, ""),
        ("percent", Unit::Percent, "%"),
        ("microseconds", Unit::Microseconds, "μs"),
        ("kibibytes", Unit::Kibibytes, "KiB"),
        ("terabits_per_second", Unit::TerabitsPerSecond, "Tbps"),
        ("count_per_second", Unit::CountPerSecond, "/s"),
    ] {
        assert!(rt; is_unit(text, *unit, label), "{text}");
    }
    assert!(rt; Unit::from_string("Seconds").is_none());
}

/// Whether this is said of a text that is no level.
fn is_refused(alloc: Global, text: &str, said: &str) -> Result<bool, Fail> {
    match Level::try_from_text(alloc, text) {
        Ok(_) => Ok(false),
        Err(fault) => Ok(format!(in alloc; "{fault}")?.as_str() == said),
    }
}

/// Whether a text is read as a level.
fn is_level(alloc: Global, text: &str, level: Level) -> bool {
    matches!(Level::try_from_text(alloc, text), Ok(read) if read == level)
}

#[test]
fn levels_are_read(rt: HostRuntime) -> Result<(), Fail> {
    assert!(rt; is_level(rt.alloc(), "info", Level::INFO));
    let said =
        "unknown log level: foo (expected one of 'trace', 'debug', 'info', 'warn', or 'error')";
    assert!(rt; is_refused(rt.alloc(), "foo", said)?);
    Ok(())
}

#[test]
fn metadata_are_copied(rt: HostRuntime) -> Result<(), Fail> {
    let metadata = Metadata::new("server", Level::INFO, Some("server::pages"));
    assert!(rt; metadata.clone()? == metadata);
    Ok(())
}

#[test]
fn numbers_and_spans_are_values(rt: HostRuntime) {
    let values = [
        Duration::new(1, 5).into_fixed(),
        Duration::from_secs(10_000_000_000).into_fixed(),
        (-2i8).into_fixed(),
        u32::MAX.into_fixed(),
        1u8.into_fixed(),
    ];
    let expected = [
        Some(Fixed(1_000_000_005)),
        None,
        Some(Fixed(-2_000_000_000)),
        Some(Fixed(4_294_967_295_000_000_000)),
        Some(Fixed(i64::from(BILLIONTHS))),
    ];
    assert!(rt; values == expected);
}

#[test]
fn numbers_out_of_range_are_no_values(rt: HostRuntime) {
    let values = [
        Fixed::try_from(9_223_372_036u64),
        Fixed::try_from(9_223_372_037u64),
        Fixed::try_from(-9_223_372_036i64),
        Fixed::try_from(-9_223_372_037i64),
        Fixed::try_from(7usize),
        Fixed::try_from(-0.25),
        Fixed::try_from(1e10),
        Fixed::try_from(-1e10),
        Fixed::try_from(f64::NAN),
    ];
    let expected = [
        Ok(Fixed(9_223_372_036_000_000_000)),
        Err(ValueFault::TooLarge),
        Ok(Fixed(-9_223_372_036_000_000_000)),
        Err(ValueFault::TooSmall),
        Ok(Fixed(7_000_000_000)),
        Ok(Fixed(-250_000_000)),
        Err(ValueFault::TooLarge),
        Err(ValueFault::TooSmall),
        Err(ValueFault::NotANumber),
    ];
    assert!(rt; values == expected);
}

#[test]
fn a_gauge_is_set_raised_and_lowered(rt: HostRuntime) {
    let changes = [
        GaugeValue::Absolute(Fixed(3)),
        GaugeValue::Increment(Fixed(3)),
        GaugeValue::Decrement(Fixed(7)),
    ];
    let outputs = changes.map(|change| change.update_value(Fixed(5)));
    assert!(rt; outputs == [Fixed(3), Fixed(8), Fixed(-2)]);
}
