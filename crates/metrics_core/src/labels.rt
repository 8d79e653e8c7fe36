//! Labels: pairs of texts that tell the series of one name apart.

ghost use Rattle.std.specs.Prelude.{◌≡◌, ◌+◌, ◌++◌, length, IfOk, Some, option_copied, fold, map, true, sum_by, refl};
ghost use Rattle.std.specs.Hash as fed;
ghost use Rattle.std.specs.Cmp.Lexicographic.{slice_cmp};
ghost use Rattle.std.specs.Cmp.{partial_equiv_from_equiv, partial_order_from_agreeing_total};
ghost use Rattle.metrics_core.specs.Texts.{cow_text};
ghost use Rattle.metrics_core.specs.Sorting.{sorted_by, lesser_differing};
ghost use Rattle.metrics_core.specs.Keys.{label_eq, label_cmp, occurrences, same_multiset};
ghost use Rattle.metrics_core.specs.Numbers.{in_64_bits};
ghost use Rattle.metrics_core.specs.Hashes.{label_hash};
ghost use Rattle.metrics_core.specs.KeyLaws.{label_eq_laws, label_cmp_total, label_cmp_ties, label_hash_input_respects};

use crate::hashes::hash_with_seed;
use crate::{Memory, SharedString};
use std::alloc::{AllocError, Global};
use std::cmp::Ordering;
use std::hash::{Hash, Hasher};
use std::marker::Model;

/// A label: a key and a value. Labels are ordered by key, then by value.
#[derive(Debug, Drop)]
pub struct Label {
    key: SharedString,
    value: SharedString,
}

impl Model for Label {
    ghost use Rattle.metrics_core.specs.Keys.{LabelText};
    ghost use Rattle.metrics_core.specs.Texts.{cow_text};

    ghost Value = { LabelText };

    ghost view = { λ label. record { key = cow_text label.key; value = cow_text label.value } };
}

impl Label {
    /// The label of a key and a value.
    pub fn new(key: SharedString, value: SharedString) -> Label
        ensures parts { result ≡ record { key = cow_text key.entry; value = cow_text value.entry } }
    {
        Label { key, value }
    }

    /// The label of a key and a value that live as long as the program.
    pub fn from_static_parts(key: &'static str, value: &'static str) -> Label
        ensures parts { result ≡ record { key = key.now; value = value.now } }
    {
        Label {
            key: SharedString::const_str(key),
            value: SharedString::const_str(value),
        }
    }

    /// The key of the label.
    pub fn key(&self) -> &str
        ensures text { result.now ≡ self.now.key }
    {
        self.key.as_str()
    }

    /// The value of the label.
    pub fn value(&self) -> &str
        ensures text { result.now ≡ self.now.value }
    {
        self.value.as_str()
    }

    /// The same label.
    pub fn clone(&self, alloc: Global) -> Result<Label, Memory>
        ensures same { IfOk result (λ copy. copy ≡ self.now) }
    {
        Ok(Label {
            key: self.key.clone(alloc)?,
            value: self.value.clone(alloc)?,
        })
    }

    /// The key and the value.
    pub fn into_parts(self) -> (SharedString, SharedString)
        ensures key { cow_text result.0 ≡ self.key }
        ensures value { cow_text result.1 ≡ self.value }
    {
        let Label { key, value } = self;
        (key, value)
    }

    /// The label's part of the hash of a key.
    pub(crate) fn part_of_hash(&self) -> u64
        ensures { result ≡ label_hash self.now }
    {
        hash_with_seed(1, self.key().as_bytes()) ^ hash_with_seed(2, self.value().as_bytes())
    }
}

impl PartialEq for Label {
    ghost eq = { label_eq };

    ghost laws = { partial_equiv_from_equiv label_eq_laws };

    fn eq(&self, other: &Label) -> bool {
        self.key() == other.key() && self.value() == other.value()
    }
}

impl Eq for Label {
    ghost laws = { label_eq_laws };
}

impl PartialOrd for Label {
    ghost partial_cmp = { λ a b. Some (label_cmp a b) };

    ghost laws = { partial_order_from_agreeing_total label_cmp label_cmp_total (λ a b. refl) label_cmp_ties };

    fn partial_cmp(&self, other: &Label) -> Option<Ordering> {
        Some(self.cmp(other))
    }
}

impl Ord for Label {
    ghost cmp = { label_cmp };

    ghost total = { label_cmp_total };

    ghost matches_partial_cmp = { λ a b. refl };

    ghost matches_eq = { label_cmp_ties };

    fn cmp(&self, other: &Label) -> Ordering {
        self.key()
            .cmp(other.key())
            .then(self.value().cmp(other.value()))
    }
}

impl From<(&'static str, &'static str)> for Label {
    ghost from_gives = { λ pair label. label ≡ record { key = pair.0.now; value = pair.1.now } };

    fn from(pair: (&'static str, &'static str)) -> Label {
        Label::from_static_parts(pair.0, pair.1)
    }
}

/// Owned texts are copied by the allocator that they have.
impl Clone for Label {
    ghost is_clone = { λ label copy. copy ≡ label };

    fn clone(&self) -> Result<Label, AllocError> {
        Ok(Label {
            key: Clone::clone(&self.key)?,
            value: Clone::clone(&self.value)?,
        })
    }
}

impl Hash for Label {
    ghost hash_input = { λ label. fed.str label.key ++ fed.str label.value };

    ghost respects_eq = { label_hash_input_respects };

    fn hash<H: Hasher>(&self, state: &mut H) {
        self.key().hash(state);
        self.value().hash(state);
    }
}

/// Up to this many labels two lists are compared by counting, which takes no memory.
const FEW_LABELS: usize = 8;

/// The labels of a list, put in order.
fn in_order(labels: &[Label], alloc: Global) -> Result<Vec<&Label>, Memory>
    ensures { IfOk result (λ sorted. map (λ label. label.now) sorted.items ≡ sorted_by label_cmp labels.now) }
{
    let mut sorted: Vec<&Label> = labels.iter().collect(alloc)?;
    sorted.sort_unstable();
    Ok(sorted)
}

/// How two lists compare, each put in order, where there is memory for that.
fn compare_sorted(labels: &[Label], others: &[Label], alloc: Global) -> Result<Ordering, Memory>
    ensures { IfOk result (λ order. order
        ≡ slice_cmp label_cmp (sorted_by label_cmp labels.now) (sorted_by label_cmp others.now)) }
{
    let labels = in_order(labels, alloc)?;
    let others = in_order(others, alloc)?;
    Ok(labels.as_slice().cmp(&others.as_slice()))
}

/// How often a label stands in a list.
fn count(labels: &[Label], label: &Label) -> usize
    ensures { result ≡ occurrences labels.now label.now }
{
    labels.iter().filter(|other| *label == **other).count()
}

/// The label found so far that is least among those that don't stand as often in the one list as in the other, after
/// one more label.
fn lesser_of<'a>(
    labels: &[Label],
    others: &[Label],
    found: Option<&'a Label>,
    label: &'a Label,
) -> Option<&'a Label>
    ensures { option_copied result
        ≡ lesser_differing label_cmp label_eq labels.now others.now (option_copied found.entry) label.now }
{
    if count(labels, label) == count(others, label) {
        return found;
    }
    match found {
        Some(least) if *label >= *least => found,
        _ => Some(label),
    }
}

/// The least of some labels and of one found before that doesn't stand as often in the one list as in the other.
fn least_differing<'a>(
    labels: &[Label],
    others: &[Label],
    among: &'a [Label],
    found: Option<&'a Label>,
) -> Option<&'a Label>
    ensures { option_copied result
        ≡ fold (lesser_differing label_cmp label_eq labels.now others.now) (option_copied found.entry) among.now }
{
    let mut least = found;
    for label in among {
        least = lesser_of(labels, others, least, label);
    }
    least
}

/// How two lists of as many labels compare, each in order. It takes no memory: the first label in order that they don't
/// have equally often decides, and for each label both lists are gone over.
fn compare_counts<'a>(labels: &'a [Label], others: &'a [Label]) -> Ordering
    requires { length labels.now ≡ length others.now }
    ensures { result ≡ slice_cmp label_cmp (sorted_by label_cmp labels.now) (sorted_by label_cmp others.now) }
{
    let found = least_differing(labels, others, labels, None);
    match least_differing(labels, others, others, found) {
        None => Ordering::Equal,
        Some(label) => count(others, label).cmp(&count(labels, label)),
    }
}

/// How two lists of as many labels compare, each in order: by putting both in order where they are long and there is
/// memory for that, and otherwise by counting.
fn compare_unlike(labels: &[Label], others: &[Label], alloc: Option<Global>) -> Ordering
    requires { length labels.now ≡ length others.now }
    ensures { result ≡ slice_cmp label_cmp (sorted_by label_cmp labels.now) (sorted_by label_cmp others.now) }
{
    if labels.len() > FEW_LABELS
        && let Some(alloc) = alloc
        && let Ok(order) = compare_sorted(labels, others, alloc)
    {
        return order;
    }
    compare_counts(labels, others)
}

/// Whether two lists may have the same labels: they have as many, and the same hash.
fn may_be_same(labels: &[Label], others: &[Label]) -> bool
    ensures same { same_multiset labels.now others.now ≡ true → result ≡ true }
    ensures len { result ≡ true → length labels.now ≡ length others.now }
{
    labels.len() == others.len() && add_hashes(0, labels) == add_hashes(0, others)
}

/// Whether each label stands as often in the one list as in the other. Lists in the same order, of another length or
/// with another hash cost a pass over both, and take no memory. Others cost n log n for n labels, and memory for a
/// reference to each; a few, or any number without an allocator or when memory is refused, cost a pass over both lists
/// for each label.
pub(crate) fn are_same(labels: &[Label], others: &[Label], alloc: Option<Global>) -> bool
    ensures { result ≡ same_multiset labels.now others.now }
{
    labels == others || may_be_same(labels, others) && compare_unlike(labels, others, alloc).is_eq()
}

/// How two lists of as many labels compare, each in order. Lists that are equal as they stand cost a pass over both,
/// and take no memory. Others cost what they do in [`are_same`].
pub(crate) fn compare_in_order(
    labels: &[Label],
    others: &[Label],
    alloc: Option<Global>,
) -> Ordering
    requires { length labels.now ≡ length others.now }
    ensures { result ≡ slice_cmp label_cmp (sorted_by label_cmp labels.now) (sorted_by label_cmp others.now) }
{
    if labels == others {
        return Ordering::Equal;
    }
    compare_unlike(labels, others, alloc)
}

/// Copies of the labels, in their order.
pub(crate) fn clone_all(labels: &[Label], alloc: Global) -> Result<Vec<Label>, Memory>
    ensures same { IfOk result (λ copies. copies.items ≡ labels.now) }
{
    let mut copies = Vec::new(alloc);
    for label in labels {
        copies.push(label.clone(alloc)?)?;
    }
    Ok(copies)
}

/// A hash to which those of labels are added, modulo 2^64.
pub(crate) fn add_hashes(start: u64, labels: &[Label]) -> u64
    ensures { result ≡ in_64_bits (start + sum_by label_hash labels.now) }
{
    labels.iter().fold(start, |hash, label| hash.wrapping_add(label.part_of_hash()))
}
