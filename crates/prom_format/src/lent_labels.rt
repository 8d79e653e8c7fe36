//! The label set of a series by texts that are lent.

ghost use Rattle.std.specs.Prelude.{◌≡◌, IfOk, OnOk};
ghost use Rattle.metrics_core.specs.Keys.{label_set, put_label};
ghost use Rattle.prom_format.specs.LabelSets.{labels_of, labels_of_lent};

use hash_starts::HashStart;
use indexmap::IndexMap;
use metrics_core::{Key, Memory};
use std::alloc::Global;

/// The global labels in their order, then those of the key. Where two have the same key, the later one's value stands
/// in the place of the earlier one.
pub(crate) fn lend_labels<'a>(
    alloc: Global,
    key: &'a Key,
    globals: &'a IndexMap<String, String, HashStart>,
) -> Result<IndexMap<&'a str, &'a str, HashStart>, Memory>
    ensures labels { IfOk result (λ set.
        labels_of_lent set.entries ≡ label_set (labels_of globals.now.entries) key.now.labels) }
{
    let mut labels = IndexMap::with_hasher(alloc, *globals.hasher());
    for (name, value) in globals {
        lend_label(&mut labels, name.as_str(), value.as_str())?;
    }
    for label in key.labels() {
        lend_label(&mut labels, label.key(), label.value())?;
    }
    Ok(labels)
}

/// Puts a label where its key stands, and otherwise behind the others.
fn lend_label<'a>(
    labels: &mut IndexMap<&'a str, &'a str, HashStart>,
    key: &'a str,
    value: &'a str,
) -> Result<(), Memory>
    ensures { OnOk result (labels_of_lent labels.new.entries
        ≡ put_label (labels_of_lent labels.old.entries) (record { key = key.now; value = value.now })) }
{
    labels.insert(key, value)?;
    Ok(())
}
