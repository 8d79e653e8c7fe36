//! The lines of a page, each appended whole or not at all (Prometheus text exposition format, "Line format").

ghost use Rattle.std.specs.Prelude.{◌≡◌, ◌++◌, OnErr, OnOk, string_bytes};
ghost use Rattle.std.specs.Option.{option_copied};
ghost use Rattle.prom_format.specs.Lines.{help_line, type_line, metric_line, braced, label_texts, lent_label, additional_text};
ghost use Rattle.prom_format.specs.Texts.{Begins};

use crate::braces::{close_braces, push_additional, push_entries};
use crate::labels::LabelSet;
use crate::printed::push_description;
use crate::suffixes::push_full_name;
use crate::undo::undo_refused;
use metrics_core::{Memory, Unit};

/// Appends `# TYPE`, the full name and the type. The name and the type are taken as they are.
pub fn write_type_line(
    buffer: &mut String,
    name: &str,
    unit: Option<Unit>,
    suffix: Option<&'static str>,
    metric_type: &str,
) -> Result<(), Memory>
    ensures ok { OnOk result (string_bytes buffer.new
        ≡ string_bytes buffer.old ++ type_line name.now unit (option_copied suffix.entry) metric_type.now) }
    ensures err { OnErr result (string_bytes buffer.new ≡ string_bytes buffer.old) }
{
    let length = buffer.len();
    let outcome = push_type_line(buffer, name, unit, suffix, metric_type);
    undo_refused(buffer, length, outcome)
}

/// Appends the parts of a type line. After a refused call some may be missing.
fn push_type_line(
    buffer: &mut String,
    name: &str,
    unit: Option<Unit>,
    suffix: Option<&'static str>,
    metric_type: &str,
) -> Result<(), Memory>
    ensures ok { OnOk result (string_bytes buffer.new
        ≡ string_bytes buffer.old ++ type_line name.now unit (option_copied suffix.entry) metric_type.now) }
    ensures kept { Begins (string_bytes buffer.old) (string_bytes buffer.new) }
{
    buffer.push_str("# TYPE ")?;
    push_full_name(buffer, name, unit, suffix)?;
    buffer.push_str(" ")?;
    buffer.push_str(metric_type)?;
    buffer.push_str("\n")?;
    Ok(())
}

/// Appends `# HELP`, the full name and the printed description. The name is taken as it is.
pub fn write_help_line(
    buffer: &mut String,
    name: &str,
    unit: Option<Unit>,
    suffix: Option<&'static str>,
    desc: &str,
) -> Result<(), Memory>
    ensures ok { OnOk result (string_bytes buffer.new
        ≡ string_bytes buffer.old ++ help_line name.now unit (option_copied suffix.entry) desc.now) }
    ensures err { OnErr result (string_bytes buffer.new ≡ string_bytes buffer.old) }
{
    let length = buffer.len();
    let outcome = push_help_line(buffer, name, unit, suffix, desc);
    undo_refused(buffer, length, outcome)
}

/// Appends the parts of a help line. After a refused call some may be missing.
fn push_help_line(
    buffer: &mut String,
    name: &str,
    unit: Option<Unit>,
    suffix: Option<&'static str>,
    desc: &str,
) -> Result<(), Memory>
    ensures ok { OnOk result (string_bytes buffer.new
        ≡ string_bytes buffer.old ++ help_line name.now unit (option_copied suffix.entry) desc.now) }
    ensures kept { Begins (string_bytes buffer.old) (string_bytes buffer.new) }
{
    buffer.push_str("# HELP ")?;
    push_full_name(buffer, name, unit, suffix)?;
    buffer.push_str(" ")?;
    push_description(buffer, desc)?;
    buffer.push_str("\n")?;
    Ok(())
}

/// Appends the full name, the labels in braces where there are any, and the value. The name, the additional label, which
/// stands last, and the value are taken as they are.
pub fn write_metric_line(
    buffer: &mut String,
    name: &str,
    suffix: Option<&'static str>,
    labels: &LabelSet,
    additional_label: Option<(&'static str, &str)>,
    value: &str,
    unit: Option<Unit>,
) -> Result<(), Memory>
    ensures ok { OnOk result (string_bytes buffer.new ≡ string_bytes buffer.old
        ++ metric_line name.now (option_copied suffix.entry) labels.now (lent_label additional_label.entry) value.now unit) }
    ensures err { OnErr result (string_bytes buffer.new ≡ string_bytes buffer.old) }
{
    let length = buffer.len();
    let outcome = push_metric_line(buffer, name, suffix, labels, additional_label, value, unit);
    undo_refused(buffer, length, outcome)
}

/// Appends the parts of a row. After a refused call some may be missing.
fn push_metric_line(
    buffer: &mut String,
    name: &str,
    suffix: Option<&'static str>,
    labels: &LabelSet,
    additional_label: Option<(&'static str, &str)>,
    value: &str,
    unit: Option<Unit>,
) -> Result<(), Memory>
    ensures ok { OnOk result (string_bytes buffer.new ≡ string_bytes buffer.old
        ++ metric_line name.now (option_copied suffix.entry) labels.now (lent_label additional_label.entry) value.now unit) }
    ensures kept { Begins (string_bytes buffer.old) (string_bytes buffer.new) }
{
    push_full_name(buffer, name, unit, suffix)?;
    push_braced_labels(buffer, labels, additional_label)?;
    buffer.push_str(" ")?;
    buffer.push_str(value)?;
    buffer.push_str("\n")?;
    Ok(())
}

/// Appends the labels in braces, and nothing where there is none. After a refused call some may be missing.
fn push_braced_labels(
    buffer: &mut String,
    labels: &LabelSet,
    additional_label: Option<(&'static str, &str)>,
) -> Result<(), Memory>
    ensures ok { OnOk result (string_bytes buffer.new ≡ string_bytes buffer.old
        ++ braced (label_texts labels.now ++ additional_text (lent_label additional_label.entry))) }
    ensures kept { Begins (string_bytes buffer.old) (string_bytes buffer.new) }
{
    let any = push_entries(buffer, false, labels.entries())?;
    let any = push_additional(buffer, any, additional_label)?;
    close_braces(buffer, any)?;
    Ok(())
}
