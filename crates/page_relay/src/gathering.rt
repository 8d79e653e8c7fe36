//! What families of one name become.

ghost use Rattle.std.specs.Prelude.{◌≡◌, ◌++◌, [], Some, None, map, unwrap_or, option_map, string_bytes, codes, IfOk, OnOk};
ghost use Rattle.indexmap.specs.IndexMap.{get, Updates};
ghost use Rattle.page_relay.specs.Gathering.{family_so_far, RowsSoFar, TakesRow, TakesRows, TakesMember, AddsValue};
ghost use Rattle.page_relay.specs.Merge as merged;
ghost use Rattle.page_relay.specs.Values.{family_of, label_of, row_of};

use crate::{Family, PageRow, Shape};
use hash_starts::HashStart;
use indexmap::IndexMap;
use metrics_core::Memory;
use prom_format::push_count;
use std::alloc::Global;
use std::hash::Hash;

/// The key of the last label of a quantile.
const QUANTILE: &str = "quantile";

/// The key of the label that says of which page a kept row is.
const PAGE: &str = "page";

/// The name and the labels of a row.
type RowKey = (String, Vec<(String, String)>);

/// What families of one name became so far.
#[derive(Drop)]
pub(crate) struct Gathered {
    help: Option<String>,
    name: String,
    shape: Shape,
    rows: GatheredRows,
}

/// The rows so far, in order, and at which place the row of each added key stands.
#[derive(Drop)]
pub(crate) struct GatheredRows {
    rows: Vec<PageRow>,
    places: IndexMap<RowKey, usize, HashStart>,
}

impl Gathered {
    /// No family of that name was added yet. Rows are looked up by hashes from a start.
    pub(crate) fn new(alloc: Global, start: HashStart, name: String, shape: Shape) -> Gathered
        ensures help { result.help ≡ None }
        ensures name { result.name ≡ name }
        ensures shape { result.shape ≡ shape }
        ensures rows { RowsSoFar shape result.rows [] }
    {
        Gathered {
            help: None,
            name,
            shape,
            rows: GatheredRows {
                rows: Vec::new(alloc),
                places: IndexMap::with_hasher(alloc, start),
            },
        }
    }

    /// Adds a family of a page. Answers whether it has the type of the others and all sums fit.
    pub(crate) fn add(&mut self, alloc: Global, page: u64, family: &Family) -> Result<bool, Memory>
        ensures { IfOk result (TakesMember self.old self.new
            (record { page = page; family = family_of family.now })) }
    {
        if self.shape != family.shape {
            return Ok(false);
        }
        take_help(alloc, &mut self.help, &family.help)?;
        self.rows
            .add_all(alloc, self.shape, page, family.rows.as_slice())
    }

    /// The merged family.
    pub(crate) fn into_family(self) -> Family
        ensures { family_of result ≡ family_so_far self }
    {
        Family {
            help: self.help,
            name: self.name,
            shape: self.shape,
            rows: self.rows.rows,
        }
    }
}

impl GatheredRows {
    /// Adds the rows of a family of a page. Answers whether all sums fit.
    fn add_all(
        &mut self,
        alloc: Global,
        shape: Shape,
        page: u64,
        rows: &[PageRow],
    ) -> Result<bool, Memory>
        ensures { IfOk result (TakesRows shape self.old self.new
            (merged.numbered_rows page (map row_of rows.now))) }
    {
        for row in rows {
            if !self.add(alloc, shape, page, row)? {
                return Ok(false);
            }
        }
        Ok(true)
    }

    /// Adds a row. Answers whether its sum fits.
    fn add(&mut self, alloc: Global, shape: Shape, page: u64, row: &PageRow) -> Result<bool, Memory>
        ensures { IfOk result (TakesRow shape self.old self.new
            (record { page = page; row = row_of row.now })) }
    {
        if is_kept(shape, row) {
            self.rows.push(row_with_page(alloc, page, row)?)?;
            return Ok(true);
        }
        let key = key_of(alloc, row)?;
        let place = place_of(&mut self.places, key, self.rows.len())?;
        if place == self.rows.len() {
            self.rows.push(copy_of(alloc, row)?)?;
            return Ok(true);
        }
        Ok(add_value(&mut self.rows, place, row.value))
    }
}

/// At which place the key stands: where it stood, or the next one, where it now stands.
pub(crate) fn place_of<K: Eq + Hash + Drop>(
    places: &mut IndexMap<K, usize, HashStart>,
    key: K,
    next: usize,
) -> Result<usize, Memory>
    ensures place { IfOk result (λ place. place ≡ unwrap_or (get K.eq places.old key) next) }
    ensures updates { IfOk result (λ place. Updates K.eq places.old places.new key (Some place)) }
{
    Ok(*places.entry(key)?.or_insert(next))
}

/// Adds a value to that of the row at a place. Answers whether the sum fits.
fn add_value(rows: &mut Vec<PageRow>, place: usize, value: i128) -> bool
    ensures { AddsValue (map row_of rows.old.items) (map row_of rows.new.items) place value result }
{
    let Some(row) = rows.get_mut(place) else {
        return false;
    };
    let Some(sum) = row.value.checked_add(value) else {
        return false;
    };
    row.value = sum;
    true
}

/// Whether values of this row of several pages can't be added.
fn is_kept(shape: Shape, row: &PageRow) -> bool
    ensures { result ≡ merged.is_kept shape (row_of row.now) }
{
    match shape {
        Shape::Counter | Shape::Histogram => false,
        Shape::Gauge => true,
        Shape::Summary => last_is_quantile(row.labels.as_slice()),
    }
}

/// Whether the last label is that of a quantile.
fn last_is_quantile(labels: &[(String, String)]) -> bool
    ensures { result ≡ merged.last_key_is (codes "quantile") (map label_of labels.now) }
{
    match labels.last() {
        Some(label) => label.0.as_str() == QUANTILE,
        None => false,
    }
}

/// The row with the number of its page before its labels.
fn row_with_page(alloc: Global, page: u64, row: &PageRow) -> Result<PageRow, Memory>
    ensures { IfOk result (λ made.
        row_of made ≡ merged.with_page (record { page = page; row = row_of row.now })) }
{
    let mut number = String::new(alloc);
    push_count(&mut number, page)?;
    let mut labels = Vec::new(alloc);
    labels.push((String::from_str(alloc, PAGE)?, number))?;
    add_labels(alloc, &mut labels, row.labels.as_slice())?;
    Ok(PageRow {
        name: text_of(alloc, &row.name)?,
        labels,
        value: row.value,
    })
}

/// A copy of the row.
fn copy_of(alloc: Global, row: &PageRow) -> Result<PageRow, Memory>
    ensures { IfOk result (λ made. row_of made ≡ row_of row.now) }
{
    let (name, labels) = key_of(alloc, row)?;
    Ok(PageRow {
        name,
        labels,
        value: row.value,
    })
}

/// The name and the labels of the row.
fn key_of(alloc: Global, row: &PageRow) -> Result<RowKey, Memory>
    ensures name { IfOk result (λ key. string_bytes key.0 ≡ string_bytes row.now.name) }
    ensures labels { IfOk result (λ key.
        map label_of key.1.items ≡ map label_of row.now.labels.items) }
{
    let mut labels = Vec::new(alloc);
    add_labels(alloc, &mut labels, row.labels.as_slice())?;
    Ok((text_of(alloc, &row.name)?, labels))
}

/// Appends copies of the labels.
fn add_labels(
    alloc: Global,
    labels: &mut Vec<(String, String)>,
    more: &[(String, String)],
) -> Result<(), Memory>
    ensures { OnOk result (map label_of labels.new.items
        ≡ map label_of labels.old.items ++ map label_of more.now) }
{
    for label in more {
        labels.push((text_of(alloc, &label.0)?, text_of(alloc, &label.1)?))?;
    }
    Ok(())
}

/// Takes the help, where there is none yet.
fn take_help(alloc: Global, help: &mut Option<String>, other: &Option<String>) -> Result<(), Memory>
    ensures { OnOk result (option_map string_bytes help.new
        ≡ merged.first_of (option_map string_bytes help.old) (option_map string_bytes other.now)) }
{
    if help.is_none() {
        *help = help_of(alloc, other)?;
    }
    Ok(())
}

/// A copy of the help, where there is any.
fn help_of(alloc: Global, help: &Option<String>) -> Result<Option<String>, Memory>
    ensures { IfOk result (λ made. option_map string_bytes made ≡ option_map string_bytes help.now) }
{
    match help {
        Some(help) => Ok(Some(text_of(alloc, help)?)),
        None => Ok(None),
    }
}

/// A copy of the text.
pub(crate) fn text_of(alloc: Global, text: &String) -> Result<String, Memory>
    ensures { IfOk result (λ made. string_bytes made ≡ string_bytes text.now) }
{
    Ok(String::from_str(alloc, text.as_str())?)
}
