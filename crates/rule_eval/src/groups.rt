//! The rows of a page by their names, and the sums of a rule's groups of them.

ghost use Rattle.std.specs.Prelude.{◌≡◌, ℕ, List, [], ◌∷◌, ◌++◌, map, bytes_eq, string_bytes, if◌then◌else◌, IfOk, OnOk};
ghost use Rattle.rule_eval.specs.Evaluating.{entries_text, found_at, group_text, named, rows_at, rows_named, rows_with, sums_of};
ghost use Rattle.rule_eval.specs.Firing.{group_of, value_at};
ghost use Rattle.rule_eval.specs.Rules.{rule_text};
ghost use Rattle.page_relay.specs.Values.{families_of, label_of, row_of};

use crate::rules::Rule;
use hash_starts::HashStart;
use indexmap::IndexMap;
use metrics_core::Memory;
use page_relay::{Page, PageRow};
use std::alloc::Global;

/// The rows of each name, in order.
pub(crate) type RowsByName<'a> = IndexMap<&'a str, Vec<&'a PageRow>, HashStart>;

/// The values of a rule's keys.
pub(crate) type Group = Vec<String>;

/// The sums of groups, in order of first appearance.
pub(crate) type Sums = IndexMap<Group, i128, HashStart>;

/// The rows of a page by their names.
pub(crate) fn rows_by_name<'a>(
    alloc: Global,
    start: HashStart,
    page: &'a Page,
) -> Result<RowsByName<'a>, Memory>
    ensures { IfOk result (λ rows. (name : List ℕ)
        → rows_named rows name ≡ rows_with name (families_of page.now)) }
{
    let mut rows: RowsByName<'a> = IndexMap::with_hasher(alloc, start);
    for family in &page.families {
        add_rows(&mut rows, family.rows.as_slice())?;
    }
    Ok(rows)
}

/// Puts rows behind the others of their names.
fn add_rows<'a>(rows: &mut RowsByName<'a>, more: &'a [PageRow]) -> Result<(), Memory>
    ensures { OnOk result ((name : List ℕ)
        → rows_named rows.new name ≡ rows_named rows.old name ++ named name (map row_of more.now)) }
{
    for row in more {
        add_row(rows, row)?;
    }
    Ok(())
}

/// Puts a row behind the others of its name.
fn add_row<'a>(rows: &mut RowsByName<'a>, row: &'a PageRow) -> Result<(), Memory>
    ensures { OnOk result ((name : List ℕ) → found_at rows.new name
        ≡ found_at rows.old name ++ (if bytes_eq name (string_bytes row.now.name) then row.entry ∷ [] else [])) }
{
    rows.entry(row.name.as_str())?.or_default().push(row)?;
    Ok(())
}

/// The groups of a rule's rows in order of first appearance, and the sum of each, of rows by their names.
pub(crate) fn sums_by_name(
    alloc: Global,
    start: HashStart,
    rule: &Rule,
    rows: &RowsByName<'_>,
) -> Result<Sums, Memory>
    ensures { IfOk result (λ sums. entries_text sums.entries
        ≡ sums_of (rule_text rule.now) (rows_named rows.now (string_bytes rule.now.name))) }
{
    match rows.get(rule.name.as_str()) {
        Some(found) => sums_of(alloc, start, rule, found.as_slice()),
        None => Ok(IndexMap::with_hasher(alloc, start)),
    }
}

/// The groups of these rows in order of first appearance, and the sum of each, which wraps.
fn sums_of(alloc: Global, start: HashStart, rule: &Rule, rows: &[&PageRow]) -> Result<Sums, Memory>
    ensures { IfOk result (λ sums.
        entries_text sums.entries ≡ sums_of (rule_text rule.now) (rows_at rows.now)) }
{
    let mut sums: Sums = IndexMap::with_hasher(alloc, start);
    for row in rows {
        let group = group_of(alloc, rule.keys.as_slice(), row)?;
        let sum = sums.get(&group).copied().unwrap_or(0);
        sums.insert(group, sum.wrapping_add(row.value))?;
    }
    Ok(sums)
}

/// The values of the keys on a row.
fn group_of(alloc: Global, keys: &[String], row: &PageRow) -> Result<Group, Memory>
    ensures { IfOk result (λ group.
        group_text group ≡ map
        (λ key. value_at (string_bytes key) (row_of row.now).labels) keys.now) }
{
    let mut group = Vec::new(alloc);
    for key in keys {
        let value = value_at(key.as_str(), row.labels.as_slice());
        group.push(String::from_str(alloc, value)?)?;
    }
    Ok(group)
}

/// The value of the first label with this key, or the empty text.
fn value_at<'a>(key: &str, labels: &'a [(String, String)]) -> &'a str
    ensures { result.now ≡ value_at key.now (map label_of labels.now) }
{
    for label in labels {
        if label.0.as_str() == key {
            return label.1.as_str();
        }
    }
    ""
}
