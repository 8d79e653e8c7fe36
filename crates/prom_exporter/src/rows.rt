//! What is kept of the series of one kind for the rows of pages. It is made once, by the first page after a series was registered,
//! and anew where a page removed series.

ghost use Rattle.std.specs.Prelude.{◌≡◌, ◌<◌, ◌++◌, [], ◌∷◌, ℕ, List, length, map, OnOk, OnErr, IfOk, IfSome, string_bytes};
ghost use Rattle.metrics_core.specs.Keys.{KeyText};
ghost use Rattle.prom_format.specs.LabelSets.{labels_of};
ghost use Rattle.prom_exporter.specs.Kept.{KeepsFirst};
ghost use Rattle.prom_exporter.specs.Rows.{HasNameAt, family_kept, keys_named, keys_of, rows_of};
ghost use Rattle.prom_format.specs.Names.{sanitized_metric_name};
ghost use Rattle.prom_exporter.specs.Values.{with_member};

use crate::label_sets::LabelSets;
use crate::printed::PrintedFamily;
use hash_starts::HashStart;
use indexmap::IndexMap;
use metrics_core::{Key, Memory};
use metrics_registry::SeriesIter;
use prom_format::{is_metric_name, sanitize_metric_name};
use std::alloc::Global;
use std::marker::Model;

/// Of each series of a kind, in order of registration, its printed label set; by metric name the places of the series of each
/// family; and of the first of these families the rows as they were printed last.
#[derive(Drop)]
pub(crate) struct Rows {
    pub(crate) label_sets: LabelSets,
    pub(crate) families: IndexMap<String, Vec<usize>, HashStart>,
    pub(crate) printed: Vec<PrintedFamily>,
}

impl Model for Rows {
    ghost use Rattle.std.specs.Prelude.{map};
    ghost use Rattle.prom_exporter.specs.Rows.{RowsText, family_kept};

    ghost Value = { RowsText };

    ghost view = { λ rows. record { label_sets = rows.label_sets; families = map family_kept rows.families.entries } };

    ghost use Rattle.prom_exporter.specs.Printed.{ArePrinted};

    ghost invariant = { λ rows. ArePrinted rows.label_sets (map family_kept rows.families.entries) rows.printed.items };
}

impl Rows {
    /// Nothing, of no series. Names of families are looked up by hashes from a start.
    pub(crate) fn new(alloc: Global, start: HashStart) -> Rows
        ensures { result ≡ record { label_sets = []; families = [] } }
    {
        Rows {
            label_sets: LabelSets::new(alloc),
            families: IndexMap::with_hasher(alloc, start),
            printed: Vec::new(alloc),
        }
    }

    /// Keeps what all of so many series want, where what the first of them want is kept. Where memory is refused it is kept of
    /// some more of them, or of none.
    pub(crate) fn catch_up<C>(
        &mut self,
        alloc: Global,
        series: &SeriesIter<'_, C>,
        count: usize,
        globals: &IndexMap<String, String, HashStart>,
    ) -> Result<(), Memory>
        requires count { count ≡ length series.now }
        requires first { KeepsFirst (labels_of globals.now.entries) series.now self.old }
        ensures all { OnOk result (self.new ≡ rows_of (labels_of globals.now.entries)
            (keys_of series.now)) }
        ensures first { KeepsFirst (labels_of globals.now.entries) series.now self.new }
    {
        for place in self.label_sets.len()..count {
            if let Some(key) = series.key(place) {
                self.add(alloc, key, globals)?;
            }
        }
        Ok(())
    }

    /// How many of so many series have a metric name, where what the first of them want is kept. It keeps first what all of them
    /// want.
    pub(crate) fn count_named<C>(
        &mut self,
        alloc: Global,
        series: &SeriesIter<'_, C>,
        count: usize,
        globals: &IndexMap<String, String, HashStart>,
        name: &str,
    ) -> Result<usize, Memory>
        requires count { count ≡ length series.now }
        requires first { KeepsFirst (labels_of globals.now.entries) series.now self.old }
        ensures named { IfOk result (λ named.
            named ≡ length (keys_named name.now (keys_of series.now))) }
        ensures first { KeepsFirst (labels_of globals.now.entries) series.now self.new }
    {
        self.catch_up(alloc, series, count, globals)?;
        let Some(places) = self.families.get(name) else {
            return Ok(0);
        };
        Ok(places.len())
    }

    /// Lets all go.
    pub(crate) fn clear(&mut self)
        ensures { self.new ≡ record { label_sets = []; families = [] } }
    {
        self.label_sets.clear();
        self.families.clear();
        self.printed.clear();
    }

    /// Keeps what one more series wants, which stands behind the others.
    pub(crate) fn add(
        &mut self,
        alloc: Global,
        key: &Key,
        globals: &IndexMap<String, String, HashStart>,
    ) -> Result<(), Memory>
        ensures added { OnOk result ((keys : List KeyText)
            → self.old ≡ rows_of (labels_of globals.now.entries) keys
            → self.new ≡ rows_of (labels_of globals.now.entries) (keys ++ key.now ∷ [])) }
        ensures refused { OnErr result (self.new ≡ self.old) }
    {
        let place = self.label_sets.len();
        self.label_sets.push(key, globals)?;
        if let Err(refused) = add_place(alloc, &mut self.families, key.name(), place) {
            self.label_sets.truncate(place);
            return Err(refused);
        }
        Ok(())
    }
}

/// Puts a place last in the family of the metric name that is made of a name.
fn add_place(
    alloc: Global,
    families: &mut IndexMap<String, Vec<usize>, HashStart>,
    name: &str,
    place: usize,
) -> Result<(), Memory>
    ensures added { OnOk result (map family_kept families.new.entries
        ≡ with_member (map family_kept families.old.entries) (sanitized_metric_name name.now) place) }
    ensures refused { OnErr result (map family_kept families.new.entries
        ≡ map family_kept families.old.entries) }
{
    if is_metric_name(name) {
        return put_place(alloc, families, name, place);
    }
    let name = sanitize_metric_name(alloc, name)?;
    put_place(alloc, families, name.as_str(), place)
}

/// Puts a place last in the family of a metric name.
fn put_place(
    alloc: Global,
    families: &mut IndexMap<String, Vec<usize>, HashStart>,
    name: &str,
    place: usize,
) -> Result<(), Memory>
    ensures added { OnOk result (map family_kept families.new.entries
        ≡ with_member (map family_kept families.old.entries) name.now place) }
    ensures refused { OnErr result (map family_kept families.new.entries
        ≡ map family_kept families.old.entries) }
{
    match last_named(families, name) {
        Some(last) => put_at(families, last, place),
        None => add_family(families, String::from_str(alloc, name)?, place),
    }
}

/// Puts a place last in the family at an index.
fn put_at(
    families: &mut IndexMap<String, Vec<usize>, HashStart>,
    index: usize,
    place: usize,
) -> Result<(), Memory>
    requires { index < length families.old.entries }
    ensures added { OnOk result ((name : List ℕ) → HasNameAt name families.old.entries index
        → map family_kept families.new.entries ≡ with_member (map family_kept families.old.entries) name place) }
    ensures refused { OnErr result (map family_kept families.new.entries
        ≡ map family_kept families.old.entries) }
{
    let Some(places) = families.get_index_mut(index) else {
        unreachable!()
    };
    places.push(place)?;
    Ok(())
}

/// The place of the last family, if it has a name: most series stand behind one of their own family.
fn last_named(families: &IndexMap<String, Vec<usize>, HashStart>, name: &str) -> Option<usize>
    ensures named { IfSome result (λ last. HasNameAt name.now families.now.entries last) }
    ensures within { IfSome result (λ last. last < length families.now.entries) }
{
    let last = families.len().checked_sub(1)?;
    let (own, _) = families.get_index(last)?;
    if name == own.as_str() {
        Some(last)
    } else {
        None
    }
}

/// Puts a place last in the family of a metric name, which goes last where it is new.
fn add_family(
    families: &mut IndexMap<String, Vec<usize>, HashStart>,
    name: String,
    place: usize,
) -> Result<(), Memory>
    ensures added { OnOk result (map family_kept families.new.entries
        ≡ with_member (map family_kept families.old.entries) (string_bytes name) place) }
    ensures refused { OnErr result (map family_kept families.new.entries
        ≡ map family_kept families.old.entries) }
{
    // A new family has room for its first place, so that it never stays empty.
    let room = Vec::with_capacity(*families.allocator(), 1)?;
    let places = families.entry(name)?.or_insert(room);
    places.push(place)?;
    Ok(())
}
