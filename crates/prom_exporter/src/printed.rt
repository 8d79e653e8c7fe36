//! Rows of counters and gauges as they were printed last. Most values stay from page to page, and so do their rows.

ghost use Rattle.std.specs.Prelude.{◌≡◌, ◌*◌, ◌≤◌, ◌<◌, ◌++◌, [], ℕ, List, length, take, drop, flat_map, IsTrue, OnOk, string_bytes};
ghost use Rattle.prom_exporter.specs.Rows.{row_at};
ghost use Rattle.prom_exporter.specs.Printed.{AreKept, AreRows, ArePrinted, ShowValues, together};

use crate::cells::{Billionths, Shown};
use crate::label_sets::LabelSets;
use crate::pages::{push_line, push_rows};
use metrics_core::Memory;
use metrics_registry::SeriesIter;
use std::alloc::Global;

/// So many rows of a family are kept together: where none of their values changed, none of them is printed again.
pub(crate) const TOGETHER: usize = 8;

/// Some rows of a family that stand one behind the other: their text, and the value of each.
#[derive(Drop)]
pub(crate) struct PrintedRows {
    pub(crate) values: Vec<Billionths>,
    pub(crate) text: String,
}

impl PrintedRows {
    /// No rows.
    fn new(alloc: Global) -> PrintedRows
        ensures values { result.values.items ≡ [] }
        ensures text { string_bytes result.text ≡ [] }
    {
        PrintedRows {
            values: Vec::new(alloc),
            text: String::new(alloc),
        }
    }

    /// Lets all rows go.
    fn clear(&mut self)
        ensures values { self.new.values.items ≡ [] }
        ensures text { string_bytes self.new.text ≡ [] }
    {
        self.values.clear();
        self.text.clear();
    }

    /// Whether these are the values of all series at some places.
    fn shows<C: Shown>(&self, series: &SeriesIter<'_, C>, places: &[usize]) -> bool
        ensures { IsTrue result → ShowValues C.shown series.now places.now self.now.values.items }
    {
        if self.values.len() != places.len() {
            return false;
        }
        for index in 0..places.len() {
            match series.cell(places[index]) {
                Some(cell) => {
                    if cell.billionths() != self.values[index] {
                        return false;
                    }
                }
                None => return false,
            }
        }
        true
    }

    /// Prints the rows of the series at some places, up to the first place without a series. A refused call may leave any rows.
    fn print<C: Shown>(
        &mut self,
        name: &str,
        label_sets: &LabelSets,
        series: &SeriesIter<'_, C>,
        places: &[usize],
    ) -> Result<(), Memory>
        requires values { self.old.values.items ≡ [] }
        requires text { string_bytes self.old.text ≡ [] }
        ensures rows { OnOk result (AreRows name.now label_sets.now places.now self.new.values.items
            (string_bytes self.new.text)) }
        ensures shown { OnOk result (ShowValues C.shown series.now places.now self.new.values.items) }
    {
        for place in places {
            let Some(labels) = label_sets.get(*place) else {
                return Ok(());
            };
            let Some(cell) = series.cell(*place) else {
                return Ok(());
            };
            push_line(name, labels, cell, &mut self.text)?;
            self.values.push(cell.billionths())?;
        }
        Ok(())
    }

    /// Prints the rows of the series at some places again, if a value changed. Where memory is refused nothing is kept.
    fn renew<C: Shown>(
        &mut self,
        name: &str,
        label_sets: &LabelSets,
        series: &SeriesIter<'_, C>,
        places: &[usize],
    )
        ensures rows { AreRows name.now label_sets.now places.now self.old.values.items
            (string_bytes self.old.text)
            → AreRows name.now label_sets.now places.now self.new.values.items (string_bytes self.new.text) }
        ensures shown { ShowValues C.shown series.now places.now self.new.values.items }
    {
        if self.shows(series, places) {
            return;
        }
        self.clear();
        if self.print(name, label_sets, series, places).is_err() {
            self.clear();
        }
    }

    /// Appends the rows of the series at some places, after it printed them again if a value changed.
    fn push_renewed<C: Shown>(
        &mut self,
        name: &str,
        label_sets: &LabelSets,
        series: &SeriesIter<'_, C>,
        places: &[usize],
        buffer: &mut String,
    ) -> Result<(), Memory>
        ensures rows { AreRows name.now label_sets.now places.now self.old.values.items
            (string_bytes self.old.text)
            → AreRows name.now label_sets.now places.now self.new.values.items (string_bytes self.new.text) }
        ensures pushed { AreRows name.now label_sets.now places.now self.old.values.items
            (string_bytes self.old.text)
            → OnOk result (string_bytes buffer.new ≡ string_bytes buffer.old
            ++ flat_map (row_at C.shown name.now label_sets.now series.now) places.now) }
    {
        self.renew(name, label_sets, series, places);
        buffer.push_str(self.text.as_str())?;
        let kept = self.values.len().min(places.len());
        push_rows(name, label_sets, series, &places[kept..], buffer)
    }
}

/// What is kept of the rows of a family: the full name under which they were printed last, and the rows, `TOGETHER` by `TOGETHER`.
#[derive(Drop)]
pub(crate) struct PrintedFamily {
    pub(crate) name: String,
    /// How many rows were there on the last page.
    pub(crate) count: usize,
    pub(crate) rows: Vec<PrintedRows>,
}

impl PrintedFamily {
    /// No rows.
    pub(crate) fn new(alloc: Global) -> PrintedFamily
        ensures { result.rows.items ≡ [] }
    {
        PrintedFamily {
            name: String::new(alloc),
            count: 0,
            rows: Vec::new(alloc),
        }
    }

    /// Begins a page that shows so many rows under a full name, and lets go what was kept under another name. Answers whether rows
    /// are to be kept on this page: from the second page on that shows as many.
    pub(crate) fn begin_page(&mut self, name: &str, count: usize) -> bool
        ensures rows { (label_sets : List (List ℕ)) (places : List ℕ)
            → AreKept (string_bytes self.old.name) label_sets places self.old.rows.items
            → AreKept (string_bytes self.new.name) label_sets places self.new.rows.items }
        ensures named { IsTrue result → string_bytes self.new.name ≡ name.now }
    {
        if self.name.as_str() == name && (self.count == count || !self.rows.is_empty()) {
            return true;
        }
        self.rows.clear();
        self.count = count;
        self.name.clear();
        // A name that is refused is none: then nothing is kept on the next page either.
        let _ = self.name.push_str(name);
        false
    }

    /// Appends rows of a family under its full name: those of the series at these places, which stand together at an index.
    pub(crate) fn push_together<C: Shown>(
        &mut self,
        index: usize,
        name: &str,
        label_sets: &LabelSets,
        series: &SeriesIter<'_, C>,
        places: &[usize],
        buffer: &mut String,
    ) -> Result<(), Memory>
        requires index { index ≤ length self.old.rows.items }
        requires name { string_bytes self.old.name ≡ name.now }
        ensures index { OnOk result (index < length self.new.rows.items) }
        ensures name { string_bytes self.new.name ≡ string_bytes self.old.name }
        ensures rows { (all : List ℕ) → places.now ≡ take together (drop (together * index) all)
            → AreKept name.now label_sets.now all self.old.rows.items → AreKept name.now label_sets.now all self.new.rows.items }
        ensures pushed { (all : List ℕ) → places.now ≡ take together (drop (together * index) all)
            → AreKept name.now label_sets.now all self.old.rows.items
            → OnOk result (string_bytes buffer.new ≡ string_bytes buffer.old
            ++ flat_map (row_at C.shown name.now label_sets.now series.now) places.now) }
    {
        begin_rows(&mut self.rows, index, *buffer.allocator())?;
        let rows = &mut self.rows[index];
        rows.push_renewed(name, label_sets, series, places, buffer)
    }
}

/// Makes places for what is kept of families, up to the one at an index.
pub(crate) fn begin_family(
    printed: &mut Vec<PrintedFamily>,
    index: usize,
    alloc: Global,
) -> Result<(), Memory>
    ensures index { OnOk result (index < length printed.new.items) }
    ensures printed { (label_sets : List (List ℕ)) (families : List (List ℕ × List ℕ))
        → index < length families
        → ArePrinted label_sets families printed.old.items → ArePrinted label_sets families printed.new.items }
{
    while printed.len() <= index {
        printed.push(PrintedFamily::new(alloc))?;
    }
    Ok(())
}

/// Makes a place for the rows that stand together at an index, where it is the first one that has none.
fn begin_rows(rows: &mut Vec<PrintedRows>, index: usize, alloc: Global) -> Result<(), Memory>
    requires index { index ≤ length rows.old.items }
    ensures index { OnOk result (index < length rows.new.items) }
    ensures rows { (name : List ℕ) (label_sets : List (List ℕ)) (places : List ℕ)
        → AreKept name label_sets places rows.old.items → AreKept name label_sets places rows.new.items }
{
    if index == rows.len() {
        rows.push(PrintedRows::new(alloc))?;
    }
    Ok(())
}

/// The first of some places, which stand together, and the others.
pub(crate) fn split_together(places: &[usize]) -> (&[usize], &[usize])
    ensures some { result.0.now ≡ take together places.now }
    ensures others { result.1.now ≡ drop together places.now }
{
    places.split_at(places.len().min(TOGETHER))
}
