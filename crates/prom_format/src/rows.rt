//! Rows of a series whose label set is printed already.

ghost use Rattle.std.specs.Prelude.{◌≡◌, ◌++◌, OnErr, OnOk, string_bytes};
ghost use Rattle.std.specs.Option.{option_copied};
ghost use Rattle.prom_format.specs.Lines.{lent_label};
ghost use Rattle.prom_format.specs.PrintedRows.{IsPrintedSet, opened, with_label, label_set_with, row_line, IsRowOfLabels};
ghost use Rattle.prom_format.specs.Texts.{Begins};

use crate::numbers::push_fixed;
use crate::suffixes::push_full_name;
use crate::undo::undo_refused;
use metrics_core::{Memory, Unit};

/// Appends a row: the full name, the label set with one more label at its end, if there is one, and the value, in billionths.
/// The name, the label set and the additional label are taken as they are.
pub fn write_row(
    buffer: &mut String,
    name: &str,
    unit: Option<Unit>,
    suffix: Option<&'static str>,
    labels: &str,
    additional_label: Option<(&'static str, &str)>,
    value: i128,
) -> Result<(), Memory>
    requires { IsPrintedSet labels.now }
    ensures ok { OnOk result (string_bytes buffer.new ≡ string_bytes buffer.old
        ++ row_line name.now unit (option_copied suffix.entry) labels.now (lent_label additional_label.entry) value) }
    ensures err { OnErr result (string_bytes buffer.new ≡ string_bytes buffer.old) }
{
    let length = buffer.len();
    let outcome = push_row(buffer, name, unit, suffix, labels, additional_label, value);
    undo_refused(buffer, length, outcome)
}

/// Appends the parts of a row. After a refused call some may be missing.
fn push_row(
    buffer: &mut String,
    name: &str,
    unit: Option<Unit>,
    suffix: Option<&'static str>,
    labels: &str,
    additional_label: Option<(&'static str, &str)>,
    value: i128,
) -> Result<(), Memory>
    requires { IsPrintedSet labels.now }
    ensures ok { OnOk result (string_bytes buffer.new ≡ string_bytes buffer.old
        ++ row_line name.now unit (option_copied suffix.entry) labels.now (lent_label additional_label.entry) value) }
    ensures kept { Begins (string_bytes buffer.old) (string_bytes buffer.new) }
{
    push_full_name(buffer, name, unit, suffix)?;
    push_label_set(buffer, labels, additional_label)?;
    buffer.push_str(" ")?;
    push_fixed(buffer, value)?;
    buffer.push_str("\n")?;
    Ok(())
}

/// Appends a label set with one more label at its end, if there is one. After a refused call some of it may be missing.
fn push_label_set(
    buffer: &mut String,
    labels: &str,
    additional_label: Option<(&'static str, &str)>,
) -> Result<(), Memory>
    requires { IsPrintedSet labels.now }
    ensures ok { OnOk result (string_bytes buffer.new
        ≡ string_bytes buffer.old ++ label_set_with labels.now (lent_label additional_label.entry)) }
    ensures kept { Begins (string_bytes buffer.old) (string_bytes buffer.new) }
{
    match additional_label {
        None => Ok(buffer.push_str(labels)?),
        Some((key, text)) => push_labels_with(buffer, labels, key, text),
    }
}

/// Appends a label set with one more label at its end. After a refused call some of it may be missing.
fn push_labels_with(buffer: &mut String, labels: &str, key: &str, text: &str) -> Result<(), Memory>
    requires { IsPrintedSet labels.now }
    ensures ok { OnOk result (string_bytes buffer.new
        ≡ string_bytes buffer.old ++ with_label labels.now key.now text.now) }
    ensures kept { Begins (string_bytes buffer.old) (string_bytes buffer.new) }
{
    push_opened(buffer, labels)?;
    buffer.push_str(key)?;
    buffer.push_str("=\"")?;
    buffer.push_str(text)?;
    buffer.push_str("\"}")?;
    Ok(())
}

/// Appends a label set up to where one more label stands in it. After a refused call some of it may be missing.
fn push_opened(buffer: &mut String, labels: &str) -> Result<(), Memory>
    requires { IsPrintedSet labels.now }
    ensures ok { OnOk result (string_bytes buffer.new
        ≡ string_bytes buffer.old ++ opened labels.now) }
    ensures kept { Begins (string_bytes buffer.old) (string_bytes buffer.new) }
{
    match labels.strip_suffix('}') {
        Some(front) => {
            buffer.push_str(front)?;
            buffer.push_str(",")?;
        }
        None => buffer.push_str("{")?,
    }
    Ok(())
}

/// A label set that is printed with one more label at its end is that of all the labels.
pub fn printed_rows_are_rows()
    ensures { IsRowOfLabels }
{}
