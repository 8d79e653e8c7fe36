//! The labels of a row.

ghost use Rattle.std.specs.Prelude.{◌≡◌, ◌↔◌, [], ◌∷◌, IsTrue, IsNone, IfNone, IfOk, IfSome, OnErr, OnOk, string_bytes};
ghost use Rattle.std.specs.Cmp.{partial_equiv_from_equiv};
ghost use Rattle.std.specs.Cmp.Lexicographic.{pointwise, lists_equiv};
ghost use Rattle.std.specs.Hash as fed;
ghost use Rattle.std.specs.Hash.{items_Alike};
ghost use Rattle.metrics_core.specs.Keys.{LabelText, label_eq, label_set, put_label};
ghost use Rattle.metrics_core.specs.KeyLaws.{label_eq_laws, label_hash_input_respects};
ghost use Rattle.prom_format.specs.LabelSets.{labels_of, label_hash_input};
ghost use Rattle.prom_format.specs.Lines.{shown_label};
ghost use Rattle.prom_format.specs.Pages.{label_text};

use crate::names::sanitize_label_key;
use crate::printed::sanitize_label_value;
use hash_starts::HashStart;
use indexmap::IndexMap;
use indexmap::map::Slice;
use metrics_core::{Key, Memory};
use std::alloc::Global;
use std::hash::{Hash, Hasher};
use std::marker::Model;

/// The labels of a series, each key once, in the order in which they are printed. A contract sees them as a list.
#[derive(Drop)]
pub struct LabelSet {
    labels: IndexMap<String, String, HashStart>,
}

impl Model for LabelSet {
    ghost use Rattle.std.specs.Prelude.{List};
    ghost use Rattle.metrics_core.specs.Keys.{LabelText};
    ghost use Rattle.prom_format.specs.LabelSets.{labels_of};

    ghost Value = { List LabelText };

    ghost view = { λ set. labels_of set.labels.entries };
}

impl LabelSet {
    /// No labels.
    pub fn empty(alloc: Global) -> LabelSet
        ensures { result ≡ [] }
    {
        LabelSet {
            labels: IndexMap::with_hasher(alloc, HashStart::fixed()),
        }
    }

    /// The global labels in their order, then those of the key. Where two have the same key, the later one's value stands
    /// in the place of the earlier one.
    pub fn from_key_and_global(
        alloc: Global,
        key: &Key,
        global: &IndexMap<String, String, HashStart>,
    ) -> Result<LabelSet, Memory>
        ensures labels { IfOk result (λ set.
            set ≡ label_set (labels_of global.now.entries) key.now.labels) }
    {
        let mut labels = IndexMap::with_hasher(alloc, *global.hasher());
        for (name, value) in global {
            put_label(&mut labels, name.as_str(), value.as_str(), alloc)?;
        }
        for label in key.labels() {
            put_label(&mut labels, label.key(), label.value(), alloc)?;
        }
        Ok(LabelSet { labels })
    }

    /// Whether there are no labels.
    pub fn is_empty(&self) -> bool
        ensures { IsTrue result ↔ (self.now ≡ []) }
    {
        self.labels.is_empty()
    }

    /// The labels as a map holds them, each under its key.
    pub(crate) fn entries(&self) -> &IndexMap<String, String, HashStart>
        ensures { labels_of result.now.entries ≡ self.now }
    {
        &self.labels
    }

    /// The labels as they are printed, one after another.
    pub fn to_strings(&self) -> LabelStrings<'_>
        ensures { result ≡ self.now }
    {
        LabelStrings {
            rest: self.labels.as_slice(),
        }
    }
}

/// Two sets are equal where they have the same labels in the same order.
impl PartialEq for LabelSet {
    ghost eq = { pointwise label_eq };

    ghost laws = { partial_equiv_from_equiv (lists_equiv label_eq_laws) };

    fn eq(&self, other: &LabelSet) -> bool {
        self.labels.as_slice() == other.labels.as_slice()
    }
}

impl Eq for LabelSet {
    ghost laws = { lists_equiv label_eq_laws };
}

impl Hash for LabelSet {
    ghost hash_input = { fed.slice label_hash_input };

    ghost respects_eq = { (items_Alike (record { fed = label_hash_input_respects })).fed };

    fn hash<H: Hasher>(&self, state: &mut H) {
        state.write_usize(self.labels.len());
        let mut rest = self.labels.as_slice();
        while let Some(((key, value), behind)) = rest.split_first() {
            key.hash(state);
            value.hash(state);
            rest = behind;
        }
    }
}

/// Prints the labels of a set, one at a time. A contract sees the labels that are left.
#[derive(Drop)]
pub struct LabelStrings<'a> {
    rest: Slice<'a, String, String>,
}

impl<'a> Model for LabelStrings<'a> {
    ghost use Rattle.std.specs.Prelude.{List};
    ghost use Rattle.metrics_core.specs.Keys.{LabelText};
    ghost use Rattle.prom_format.specs.LabelSets.{labels_of};

    ghost Value = { List LabelText };

    ghost view = { λ strings. labels_of strings.rest };
}

impl<'a> LabelStrings<'a> {
    /// The next label as `key="value"`, printed. After an error the same label comes again.
    pub fn next_string(&mut self, alloc: Global) -> Option<Result<String, Memory>>
        ensures none { IsNone result ↔ (self.old ≡ []) }
        ensures at_end { IfNone result (self.new ≡ self.old) }
        ensures ok { IfSome result (λ text. IfOk text (λ text. (label : LabelText)
            × (self.old ≡ label ∷ self.new) × (string_bytes text ≡ label_text (shown_label label)))) }
        ensures err { IfSome result (λ text. OnErr text (self.new ≡ self.old)) }
    {
        let ((key, value), rest) = self.rest.split_first()?;
        let text = printed_label(alloc, key.as_str(), value.as_str());
        if text.is_ok() {
            self.rest = rest;
        }
        Some(text)
    }
}

/// Puts a label where its key stands, and otherwise behind the others.
pub fn put_label(
    labels: &mut IndexMap<String, String, HashStart>,
    key: &str,
    value: &str,
    alloc: Global,
) -> Result<(), Memory>
    ensures { OnOk result (labels_of labels.new.entries
        ≡ put_label (labels_of labels.old.entries) (record { key = key.now; value = value.now })) }
{
    let key = String::from_str(alloc, key)?;
    let value = String::from_str(alloc, value)?;
    labels.insert(key, value)?;
    Ok(())
}

/// A label as it is printed: its key made a label name, and its printed value in quotes.
fn printed_label(alloc: Global, key: &str, value: &str) -> Result<String, Memory>
    ensures { IfOk result (λ text. string_bytes text
        ≡ label_text (shown_label (record { key = key.now; value = value.now }))) }
{
    let key = sanitize_label_key(alloc, key)?;
    let value = sanitize_label_value(alloc, value)?;
    Ok(format!(in alloc; "{key}=\"{value}\"")?)
}
