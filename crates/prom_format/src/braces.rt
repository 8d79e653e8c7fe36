//! Labels in braces, appended one after another.

ghost use Rattle.std.specs.Prelude.{◌≡◌, [], ◌∷◌, ◌++◌, IfOk, OnErr, OnOk, string_bytes};
ghost use Rattle.prom_format.specs.LabelSets.{labels_of, labels_of_lent};
ghost use Rattle.prom_format.specs.Lines.{additional_text, any_behind, closing, label_texts, lent_label, separated, shown_label};
ghost use Rattle.prom_format.specs.Pages.{label_text};
ghost use Rattle.prom_format.specs.Texts.{Begins};

use crate::names::push_label_name;
use crate::printed::push_label_value;
use hash_starts::HashStart;
use indexmap::IndexMap;
use metrics_core::{Label, Memory};

/// Appends the labels of a map as they are printed. The first one stands behind a brace where none stands before it, and
/// each other one behind a comma. It answers whether any label stands there then. After a refused call some may be missing.
pub(crate) fn push_entries(
    buffer: &mut String,
    mut any: bool,
    labels: &IndexMap<String, String, HashStart>,
) -> Result<bool, Memory>
    ensures ok { OnOk result (string_bytes buffer.new
        ≡ string_bytes buffer.old ++ separated any (label_texts (labels_of labels.now.entries))) }
    ensures any { IfOk result (λ now.
        now ≡ any_behind any (label_texts (labels_of labels.now.entries))) }
    ensures kept { Begins (string_bytes buffer.old) (string_bytes buffer.new) }
{
    for (key, value) in labels {
        push_label(buffer, any, key.as_str(), value.as_str())?;
        any = true;
    }
    Ok(any)
}

/// Appends the labels of a map of lent texts by the same rule.
pub(crate) fn push_lent_entries(
    buffer: &mut String,
    mut any: bool,
    labels: &IndexMap<&str, &str, HashStart>,
) -> Result<bool, Memory>
    ensures ok { OnOk result (string_bytes buffer.new
        ≡ string_bytes buffer.old ++ separated any (label_texts (labels_of_lent labels.now.entries))) }
    ensures any { IfOk result (λ now.
        now ≡ any_behind any (label_texts (labels_of_lent labels.now.entries))) }
    ensures kept { Begins (string_bytes buffer.old) (string_bytes buffer.new) }
{
    for (key, value) in labels {
        push_label(buffer, any, key, value)?;
        any = true;
    }
    Ok(any)
}

/// Appends the labels of a list by the same rule.
pub(crate) fn push_labels(
    buffer: &mut String,
    mut any: bool,
    labels: &[Label],
) -> Result<bool, Memory>
    ensures ok { OnOk result (string_bytes buffer.new ≡ string_bytes buffer.old ++ separated any
        (label_texts labels.now)) }
    ensures any { IfOk result (λ now. now ≡ any_behind any (label_texts labels.now)) }
    ensures kept { Begins (string_bytes buffer.old) (string_bytes buffer.new) }
{
    for label in labels {
        push_label(buffer, any, label.key(), label.value())?;
        any = true;
    }
    Ok(any)
}

/// Appends one label: its key made a label name, and its printed value in quotes. It stands behind a comma, or behind a
/// brace where no label stands before it. After a refused call some of it may be missing.
fn push_label(buffer: &mut String, any: bool, key: &str, value: &str) -> Result<(), Memory>
    ensures ok { OnOk result (string_bytes buffer.new ≡ string_bytes buffer.old
        ++ separated any (label_text (shown_label (record { key = key.now; value = value.now })) ∷ [])) }
    ensures kept { Begins (string_bytes buffer.old) (string_bytes buffer.new) }
{
    buffer.push_str(if any { "," } else { "{" })?;
    push_label_name(buffer, key)?;
    buffer.push_str("=\"")?;
    push_label_value(buffer, value)?;
    buffer.push_str("\"")?;
    Ok(())
}

/// Appends one more label, where there is one, by the same rule. It is written as it is. After a refused call some may be
/// missing.
pub(crate) fn push_additional(
    buffer: &mut String,
    any: bool,
    label: Option<(&'static str, &str)>,
) -> Result<bool, Memory>
    ensures ok { OnOk result (string_bytes buffer.new
        ≡ string_bytes buffer.old ++ separated any (additional_text (lent_label label.entry))) }
    ensures any { IfOk result (λ now.
        now ≡ any_behind any (additional_text (lent_label label.entry))) }
    ensures kept { Begins (string_bytes buffer.old) (string_bytes buffer.new) }
{
    let Some((name, value)) = label else {
        return Ok(any);
    };
    buffer.push_str(if any { "," } else { "{" })?;
    buffer.push_str(name)?;
    buffer.push_str("=\"")?;
    buffer.push_str(value)?;
    buffer.push_str("\"")?;
    Ok(true)
}

/// Appends the brace behind labels, where there are any. A refused call leaves the buffer as it was.
pub(crate) fn close_braces(buffer: &mut String, any: bool) -> Result<(), Memory>
    ensures ok { OnOk result (string_bytes buffer.new ≡ string_bytes buffer.old ++ closing any) }
    ensures err { OnErr result (string_bytes buffer.new ≡ string_bytes buffer.old) }
{
    if any {
        buffer.push_str("}")?;
    }
    Ok(())
}
