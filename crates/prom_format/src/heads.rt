//! What the rows of a series begin with.

ghost use Rattle.std.specs.Prelude.{◌≡◌, ◌+◌, ◌++◌, IsTrue, IfOk, OnErr, OnOk, length, slice_range, string_bytes};
ghost use Rattle.std.specs.List.{list_all};
ghost use Rattle.std.specs.Str.{IsCharBoundary};
ghost use Rattle.metrics_core.specs.Keys.{label_set};
ghost use Rattle.prom_format.specs.LabelSets.{labels_of};
ghost use Rattle.prom_format.specs.Lines.{head_text, shown_label_set};
ghost use Rattle.prom_format.specs.Names.{sanitized_metric_name};
ghost use Rattle.prom_format.specs.Pages.{label_set_text};
ghost use Rattle.prom_format.specs.PlainKeys.{PrintsPlainly, has_key, is_plain_label};
ghost use Rattle.prom_format.specs.Texts.{Begins};

use crate::braces::{close_braces, push_entries, push_labels, push_lent_entries};
use crate::lent_labels::lend_labels;
use crate::names::{NameKind, push_metric_name};
use crate::undo::undo_refused;
use hash_starts::HashStart;
use indexmap::IndexMap;
use metrics_core::{Key, Label, Memory};
use std::alloc::Global;

/// How many labels are compared with one another by pairs. More are looked up in a map.
const MOST_PAIRED: usize = 8;

/// What each row of a series with this key begins with: its metric name, and the labels in braces. Series with the same
/// one print alike.
pub fn row_head(
    alloc: Global,
    key: &Key,
    global: &IndexMap<String, String, HashStart>,
) -> Result<String, Memory>
    ensures head { IfOk result (λ text. string_bytes text
        ≡ head_text (sanitized_metric_name key.now.name) (shown_label_set (labels_of global.now.entries) key.now.labels)) }
{
    let mut text = String::new(alloc);
    push_row_head(&mut text, key, global)?;
    Ok(text)
}

/// Appends what each row of a series with this key begins with, and answers how many bytes of it are the metric name. A
/// refused call leaves the buffer as it was.
pub fn push_row_head(
    buffer: &mut String,
    key: &Key,
    globals: &IndexMap<String, String, HashStart>,
) -> Result<usize, Memory>
    ensures head { OnOk result (string_bytes buffer.new ≡ string_bytes buffer.old
        ++ head_text (sanitized_metric_name key.now.name) (shown_label_set (labels_of globals.now.entries) key.now.labels)) }
    ensures name { let start = length (string_bytes buffer.old) in
        IfOk result (λ count. slice_range (string_bytes buffer.new) start (start + count) ≡ sanitized_metric_name key.now.name) }
    ensures name_length { IfOk result (λ count. count ≡ length (sanitized_metric_name key.now.name)) }
    ensures name_begins { OnOk result (IsCharBoundary (string_bytes buffer.new)
        (length (string_bytes buffer.old))) }
    ensures name_ends { let start = length (string_bytes buffer.old) in
        IfOk result (λ count. IsCharBoundary (string_bytes buffer.new) (start + count)) }
    ensures err { OnErr result (string_bytes buffer.new ≡ string_bytes buffer.old) }
{
    let length = buffer.len();
    let outcome = push_head(buffer, key, globals);
    undo_refused(buffer, length, outcome)
}

/// Appends the metric name and the labels in braces, and answers how long the name is. After a refused call some may be
/// missing.
fn push_head(
    buffer: &mut String,
    key: &Key,
    globals: &IndexMap<String, String, HashStart>,
) -> Result<usize, Memory>
    ensures head { OnOk result (string_bytes buffer.new ≡ string_bytes buffer.old
        ++ head_text (sanitized_metric_name key.now.name) (shown_label_set (labels_of globals.now.entries) key.now.labels)) }
    ensures name_length { IfOk result (λ count. count ≡ length (sanitized_metric_name key.now.name)) }
    ensures name_ends { let start = length (string_bytes buffer.old) in
        IfOk result (λ count. IsCharBoundary (string_bytes buffer.new) (start + count)) }
    ensures kept { Begins (string_bytes buffer.old) (string_bytes buffer.new) }
{
    let start = buffer.len();
    push_metric_name(buffer, key.name())?;
    let name_length = buffer.len() - start;
    push_label_set(buffer, key, globals)?;
    Ok(name_length)
}

/// Appends the label set of a series with this key: the global labels and its own, in braces, and nothing where there is
/// none. A refused call leaves the buffer as it was.
pub fn push_row_labels(
    buffer: &mut String,
    key: &Key,
    globals: &IndexMap<String, String, HashStart>,
) -> Result<(), Memory>
    ensures labels { OnOk result (string_bytes buffer.new ≡ string_bytes buffer.old
        ++ label_set_text (shown_label_set (labels_of globals.now.entries) key.now.labels)) }
    ensures begins { OnOk result (IsCharBoundary (string_bytes buffer.new)
        (length (string_bytes buffer.old))) }
    ensures err { OnErr result (string_bytes buffer.new ≡ string_bytes buffer.old) }
{
    let length = buffer.len();
    let outcome = push_label_set(buffer, key, globals);
    undo_refused(buffer, length, outcome)
}

/// Appends the global labels and those of the key in braces, and nothing where there is none. After a refused call some may
/// be missing.
fn push_label_set(
    buffer: &mut String,
    key: &Key,
    globals: &IndexMap<String, String, HashStart>,
) -> Result<(), Memory>
    ensures ok { OnOk result (string_bytes buffer.new ≡ string_bytes buffer.old
        ++ label_set_text (shown_label_set (labels_of globals.now.entries) key.now.labels)) }
    ensures kept { Begins (string_bytes buffer.old) (string_bytes buffer.new) }
{
    let labels = key.labels().as_slice();
    let any = if have_own_keys(labels, globals) {
        let any = push_entries(buffer, false, globals)?;
        push_labels(buffer, any, labels)?
    } else {
        let alloc = *buffer.allocator();
        let labels = lend_labels(alloc, key, globals)?;
        push_lent_entries(buffer, false, &labels)?
    };
    close_braces(buffer, any)?;
    Ok(())
}

/// Whether the rows of a series with this key begin with its own texts behind those of the global labels. It is so only where
/// the name of the key is a metric name, the labels are at most eight, their keys are label names, all different and other
/// than those of the global labels, and no backslash stands in their values. It takes no memory.
pub fn prints_plainly(key: &Key, globals: &IndexMap<String, String, HashStart>) -> bool
    ensures { IsTrue result → PrintsPlainly (labels_of globals.now.entries) key.now }
{
    let labels = key.labels().as_slice();
    NameKind::Metric.is_name(key.name()) && are_plain(labels) && have_own_keys(labels, globals)
}

/// Whether each label is plain.
fn are_plain(labels: &[Label]) -> bool
    ensures { result ≡ list_all is_plain_label labels.now }
{
    labels.iter().all(|label| is_plain(label))
}

/// Whether the key of a label is a label name, and no backslash stands in its value.
fn is_plain(label: &Label) -> bool
    ensures { result ≡ is_plain_label label.now }
{
    NameKind::Label.is_name(label.key()) && !label.value().as_bytes().contains(&b'\\')
}

/// Whether the labels of a key are few, and their keys all different and other than those of the global labels. The label
/// set is then the global labels and these.
fn have_own_keys(labels: &[Label], globals: &IndexMap<String, String, HashStart>) -> bool
    ensures { IsTrue result → label_set (labels_of globals.now.entries) labels.now
        ≡ labels_of globals.now.entries ++ labels.now }
{
    let any_global = globals.len() > 0;
    if labels.len() > MOST_PAIRED {
        return false;
    }
    let mut rest = labels;
    while let Some((label, others)) = rest.split_first() {
        if any_global && globals.contains_key(label.key()) {
            return false;
        }
        if has_key(others, label.key()) {
            return false;
        }
        rest = others;
    }
    true
}

/// Whether one of the labels has a key.
fn has_key(labels: &[Label], key: &str) -> bool
    ensures { result ≡ has_key labels.now key.now }
{
    labels.iter().any(|label| key == label.key())
}
