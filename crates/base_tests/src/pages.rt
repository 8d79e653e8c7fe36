//! What stands on a page: printed texts, numbers, rows and their labels, and matchers of names.

use hash_starts::HashStart;
use indexmap::IndexMap;
use metrics_core::{IntoLabels, Key, KeyName, Memory, Unit};
use prom_format::{
    LabelSet, Matcher, push_count, push_fixed, sanitize_description, sanitize_label_key,
    sanitize_label_value, sanitize_metric_name, write_help_line, write_metric_line,
    write_type_line,
};
use std::alloc::Global;
use std::test::Fail;

/// Global labels.
type Globals = IndexMap<String, String, HashStart>;

/// Adds a global label.
fn insert(globals: &mut Globals, alloc: Global, (key, value): (&str, &str)) -> Result<(), Memory> {
    globals.insert(
        String::from_str(alloc, key)?,
        String::from_str(alloc, value)?,
    )?;
    Ok(())
}

/// The labels of a key and global ones. Here alone global labels are dropped.
fn labels_of(alloc: Global, key: &Key, global: &[(&str, &str)]) -> Result<LabelSet, Memory> {
    let mut globals = IndexMap::with_hasher(alloc, HashStart::fixed());
    for label in global {
        insert(&mut globals, alloc, *label)?;
    }
    LabelSet::from_key_and_global(alloc, key, &globals)
}

/// The labels of the series `x` with the labels `a="9"` and `c="3"`, and with the global labels `a="1"` and `b="2"`.
fn labels_with_global(alloc: Global) -> Result<LabelSet, Memory> {
    let labels = [("a", "9"), ("c", "3")].as_slice().into_labels(alloc)?;
    let key = Key::from_parts(KeyName::from_const_str("x"), labels);
    labels_of(alloc, &key, &[("a", "1"), ("b", "2")])
}

/// A row with the value 4, under a name with a suffix, a unit and a label behind the others.
#[derive(Clone, Copy)]
struct Row {
    name: &'static str,
    suffix: Option<&'static str>,
    additional_label: Option<(&'static str, &'static str)>,
    unit: Option<Unit>,
}

/// Whether the text of a row is so.
fn is_row(alloc: Global, labels: &LabelSet, row: Row, expected: &str) -> Result<bool, Memory> {
    let mut text = String::new(alloc);
    write_metric_line(
        &mut text,
        row.name,
        row.suffix,
        labels,
        row.additional_label,
        "4",
        row.unit,
    )?;
    Ok(text.as_str() == expected)
}

/// Whether a text is made this name.
fn is_named(alloc: Global, text: &str, name: &str) -> Result<bool, Memory> {
    Ok(sanitize_metric_name(alloc, text)?.as_str() == name)
}

/// Whether the value of a label is printed so.
fn is_escaped(alloc: Global, text: &str, printed: &str) -> Result<bool, Memory> {
    Ok(sanitize_label_value(alloc, text)?.as_str() == printed)
}

/// Whether the key of a label is printed so.
fn is_keyed(alloc: Global, text: &str, printed: &str) -> Result<bool, Memory> {
    Ok(sanitize_label_key(alloc, text)?.as_str() == printed)
}

/// Whether a description is printed so.
fn is_described(alloc: Global, text: &str, printed: &str) -> Result<bool, Memory> {
    Ok(sanitize_description(alloc, text)?.as_str() == printed)
}

#[test]
fn texts_are_made_printable(rt: HostRuntime) -> Result<(), Fail> {
    let alloc = rt.alloc();
    for (text, name) in &[
        ("1é b", "___b"),
        ("", "_"),
        ("foo1:bar2", "foo1:bar2"),
        ("*", "_"),
    ] {
        assert!(rt; is_named(alloc, text, name)?, "{text}");
    }
    for (text, printed) in &[
        ("\\", "\\\\"),
        ("\\\\", "\\\\"),
        ("\\\"", "\\\""),
        ("\\\nb", "\\n\\\\b"),
    ] {
        assert!(rt; is_escaped(alloc, text, printed)?, "{text}");
    }
    assert!(rt; is_keyed(alloc, ":", "_")?);
    assert!(rt; is_described(alloc, "say \"x\"", "say \"x\"")?);
    Ok(())
}

/// Whether a number of billionths is spelled so.
fn is_spelled(alloc: Global, billionths: i128, spelled: &str) -> Result<bool, Memory> {
    let mut text = String::new(alloc);
    push_fixed(&mut text, billionths)?;
    Ok(text.as_str() == spelled)
}

/// Whether a count is spelled so.
fn is_counted(alloc: Global, count: u64, spelled: &str) -> Result<bool, Memory> {
    let mut text = String::new(alloc);
    push_count(&mut text, count)?;
    Ok(text.as_str() == spelled)
}

#[test]
fn numbers_are_spelled(rt: HostRuntime) -> Result<(), Fail> {
    for (billionths, spelled) in &[
        (-3_140_000_000i128, "-3.14"),
        (12_000_000_000, "12"),
        (0, "0"),
        (4_000_001, "0.004000001"),
        (-9_223_372_036_854_775_808, "-9223372036.854775808"),
        (1, "0.000000001"),
    ] {
        assert!(rt; is_spelled(rt.alloc(), *billionths, spelled)?, "{spelled}");
    }
    assert!(rt; is_counted(rt.alloc(), 42, "42")?);
    Ok(())
}

/// Whether lines of help and type are printed so.
fn are_appended(alloc: Global, expected: &str) -> Result<bool, Memory> {
    let mut page = String::new(alloc);
    write_help_line(&mut page, "a", None, None, "say \"x\"")?;
    write_type_line(&mut page, "basic_counter", None, None, "counter")?;
    Ok(page.as_str() == expected)
}

#[test]
fn lines_are_appended(rt: HostRuntime) -> Result<(), Fail> {
    let expected = "# HELP a say \"x\"\n# TYPE basic_counter counter\n";
    assert!(rt; are_appended(rt.alloc(), expected)?);
    Ok(())
}

/// Whether a row of a bucket is printed so, where the one label of its series is global.
fn is_bucket(alloc: Global, expected: &str) -> Result<bool, Memory> {
    let row = Row {
        name: "h",
        suffix: Some("bucket"),
        additional_label: Some(("le", "+Inf")),
        unit: None,
    };
    let labels = labels_of(alloc, &Key::from_static_name("x"), &[("a", "\n")])?;
    is_row(alloc, &labels, row, expected)
}

/// Whether a row of a counter with a unit and without labels is printed so.
fn is_total(alloc: Global, expected: &str) -> Result<bool, Memory> {
    let row = Row {
        name: "lat_total",
        suffix: Some("total"),
        additional_label: None,
        unit: Some(Unit::Seconds),
    };
    is_row(alloc, &LabelSet::empty(alloc), row, expected)
}

#[test]
fn rows_have_labels_and_units(rt: HostRuntime) -> Result<(), Fail> {
    assert!(rt; is_bucket(rt.alloc(), "h_bucket{a=\"\\n\",le=\"+Inf\"} 4\n")?);
    assert!(rt; is_total(rt.alloc(), "lat_seconds_total 4\n")?);
    Ok(())
}

/// Whether labels are printed so, in this order.
fn are_printed(alloc: Global, labels: &LabelSet, expected: &[&str]) -> Result<bool, Fail> {
    let mut strings = labels.to_strings();
    for printed in expected {
        let label = strings.next_string(alloc).ok_or("no label")??;
        if label.as_str() != *printed {
            return Ok(false);
        }
    }
    Ok(strings.next_string(alloc).is_none() && !labels.is_empty())
}

/// Whether the labels of a key replace global ones. Here alone such labels are dropped.
fn are_replaced(alloc: Global) -> Result<bool, Fail> {
    let labels = labels_with_global(alloc)?;
    are_printed(alloc, &labels, &["a=\"9\"", "b=\"2\"", "c=\"3\""])
}

#[test]
fn labels_of_the_key_replace_global_ones(rt: HostRuntime) -> Result<(), Fail> {
    assert!(rt; are_replaced(rt.alloc())?);
    Ok(())
}

/// A matcher of a text, made a metric name.
fn suffix(alloc: Global, text: &str) -> Result<Matcher, Memory> {
    Matcher::Suffix(String::from_str(alloc, text)?).sanitized(alloc)
}

/// Whether a matcher of a suffix fits the name that is made of it, and stands behind one that fits all.
fn fits(end: &Matcher, any: &Matcher) -> bool {
    let ends = !end.matches("http_5xx") && end.matches("http__xx");
    ends && any.matches("") && any < end && any != end
}

/// Whether it holds of new matchers. Here alone matchers are dropped.
fn fits_of_new(alloc: Global) -> Result<bool, Memory> {
    let end = suffix(alloc, "5xx")?;
    Ok(fits(&end, &Matcher::Prefix(String::new(alloc))))
}

#[test]
fn matchers_fit_names(rt: HostRuntime) -> Result<(), Fail> {
    assert!(rt; fits_of_new(rt.alloc())?);
    Ok(())
}
