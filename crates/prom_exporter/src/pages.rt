//! The body of a page, written to a sink (Prometheus text exposition format, version 0.0.4).

ghost use Rattle.std.specs.Prelude.{◌≡◌, ◌++◌, [], ℕ, List, Option, flat_map, map, slice_get, OnOk, OnErr, string_bytes};
ghost use Rattle.metrics_core.specs.Characters.{line};
ghost use Rattle.metrics_core.specs.Outside.{GrewByPrefix};
ghost use Rattle.std.specs.Option.{option_copied};
ghost use Rattle.prom_exporter.specs.Printed.{AreKept, ArePrinted};
ghost use Rattle.prom_exporter.specs.Rows.{family_kept, kept_block, kept_row, row_at};
ghost use Rattle.prom_exporter.specs.Sending.{IsSent, FailsOnly, Sends};

use crate::BuildError;
use crate::cells::Shown;
use crate::label_sets::LabelSets;
use crate::naming::Naming;
use crate::printed::{PrintedFamily, TOGETHER, begin_family, split_together};
use crate::rows::Rows;
use hash_starts::HashStart;
use indexmap::IndexMap;
use metrics_core::{Memory, Sink, write_whole};
use metrics_registry::SeriesIter;
use prom_format::FamilyType;

/// Where so many bytes of a page are in memory they go to the sink.
const PIECE: usize = 64 * 1024;

/// Appends the blocks of families of one type, of which this is kept, with this suffix to their names. What fills a piece goes to
/// the sink. Where the sink or the memory fails a prefix of them was written.
pub(crate) fn write_families<C: Shown, K: Sink>(
    naming: &Naming<'_>,
    suffix: Option<&'static str>,
    family_type: FamilyType,
    rows: &mut Rows,
    series: &SeriesIter<'_, C>,
    buffer: &mut String,
    sink: &mut K,
) -> Result<(), BuildError>
    ensures same { rows.new ≡ rows.old }
    ensures sends { Sends result (K.written sink.old) (K.written sink.new) (string_bytes buffer.old)
        (string_bytes buffer.new)
        (flat_map (kept_block C.shown naming.now (option_copied suffix.entry) family_type rows.old.label_sets series.now) rows.old.families) }
    ensures fails { FailsOnly result (K.faults sink.old) (K.faults sink.new) }
{
    write_blocks(
        naming,
        suffix,
        family_type,
        &rows.label_sets,
        &rows.families,
        &mut rows.printed,
        series,
        buffer,
        sink,
    )
}

/// Appends the blocks of families of one type, as `write_families` does. What is kept of their rows is used, and kept on.
fn write_blocks<C: Shown, K: Sink>(
    naming: &Naming<'_>,
    suffix: Option<&'static str>,
    family_type: FamilyType,
    label_sets: &LabelSets,
    families: &IndexMap<String, Vec<usize>, HashStart>,
    printed: &mut Vec<PrintedFamily>,
    series: &SeriesIter<'_, C>,
    buffer: &mut String,
    sink: &mut K,
) -> Result<(), BuildError>
    requires printed { ArePrinted label_sets.now
        (map family_kept families.now.entries) printed.old.items }
    ensures printed { ArePrinted label_sets.now
        (map family_kept families.now.entries) printed.new.items }
    ensures sends { Sends result (K.written sink.old) (K.written sink.new) (string_bytes buffer.old)
        (string_bytes buffer.new)
        (flat_map (kept_block C.shown naming.now (option_copied suffix.entry) family_type label_sets.now series.now) (map family_kept families.now.entries)) }
    ensures fails { FailsOnly result (K.faults sink.old) (K.faults sink.new) }
{
    let mut full = String::new(*buffer.allocator());
    for index in 0..families.len() {
        let Some((name, places)) = families.get_index(index) else {
            unreachable!()
        };
        naming.write_title(name, suffix, family_type.as_str(), &mut full, buffer)?;
        write_family(
            full.as_str(),
            printed,
            index,
            label_sets,
            series,
            places.as_slice(),
            buffer,
            sink,
        )?;
        end_block(buffer)?;
    }
    Ok(())
}

/// Appends the empty line behind a block.
pub(crate) fn end_block(buffer: &mut String) -> Result<(), Memory>
    ensures { OnOk result (string_bytes buffer.new ≡ string_bytes buffer.old ++ line []) }
{
    buffer.push('\n')?;
    Ok(())
}

/// Appends the rows of the series at these places, of the family at an index, under its full name. What fills a piece goes to the
/// sink. Of few rows nothing is kept; what is kept of others is used, and kept on.
fn write_family<C: Shown, K: Sink>(
    name: &str,
    printed: &mut Vec<PrintedFamily>,
    index: usize,
    label_sets: &LabelSets,
    series: &SeriesIter<'_, C>,
    places: &[usize],
    buffer: &mut String,
    sink: &mut K,
) -> Result<(), BuildError>
    ensures printed { (families : List (List ℕ × List ℕ)) (family : List ℕ)
        → slice_get families index ≡ Some (family, places.now)
        → ArePrinted label_sets.now families printed.old.items → ArePrinted label_sets.now families printed.new.items }
    ensures sends { (families : List (List ℕ × List ℕ)) (family : List ℕ)
        → slice_get families index ≡ Some (family, places.now)
        → ArePrinted label_sets.now families printed.old.items
        → Sends result (K.written sink.old) (K.written sink.new) (string_bytes buffer.old) (string_bytes buffer.new)
        (flat_map (row_at C.shown name.now label_sets.now series.now) places.now) }
    ensures fails { FailsOnly result (K.faults sink.old) (K.faults sink.new) }
{
    if places.len() < TOGETHER {
        return write_new_rows(name, label_sets, series, places, buffer, sink);
    }
    begin_family(printed, index, *buffer.allocator())?;
    let rows = &mut printed[index];
    write_rows(name, rows, label_sets, series, places, buffer, sink)
}

/// Appends the rows of the series at these places, in a family of this full name. What fills a piece goes to the sink. What is kept
/// of them is used, and kept on.
fn write_rows<C: Shown, K: Sink>(
    name: &str,
    printed: &mut PrintedFamily,
    label_sets: &LabelSets,
    series: &SeriesIter<'_, C>,
    places: &[usize],
    buffer: &mut String,
    sink: &mut K,
) -> Result<(), BuildError>
    ensures kept { AreKept (string_bytes printed.old.name) label_sets.now places.now
        printed.old.rows.items
        → AreKept (string_bytes printed.new.name) label_sets.now places.now printed.new.rows.items }
    ensures sends { AreKept (string_bytes printed.old.name) label_sets.now places.now
        printed.old.rows.items
        → Sends result (K.written sink.old) (K.written sink.new) (string_bytes buffer.old) (string_bytes buffer.new)
        (flat_map (row_at C.shown name.now label_sets.now series.now) places.now) }
    ensures fails { FailsOnly result (K.faults sink.old) (K.faults sink.new) }
{
    if printed.begin_page(name, places.len()) {
        return write_kept_rows(name, printed, label_sets, series, places, buffer, sink);
    }
    write_new_rows(name, label_sets, series, places, buffer, sink)
}

/// Appends the rows of the series at these places, in a family of this full name, under which some are kept: they are used where
/// their values are the same, and kept on.
fn write_kept_rows<C: Shown, K: Sink>(
    name: &str,
    printed: &mut PrintedFamily,
    label_sets: &LabelSets,
    series: &SeriesIter<'_, C>,
    places: &[usize],
    buffer: &mut String,
    sink: &mut K,
) -> Result<(), BuildError>
    requires name { string_bytes printed.old.name ≡ name.now }
    ensures kept { AreKept (string_bytes printed.old.name) label_sets.now places.now
        printed.old.rows.items
        → AreKept (string_bytes printed.new.name) label_sets.now places.now printed.new.rows.items }
    ensures sends { AreKept (string_bytes printed.old.name) label_sets.now places.now
        printed.old.rows.items
        → Sends result (K.written sink.old) (K.written sink.new) (string_bytes buffer.old) (string_bytes buffer.new)
        (flat_map (row_at C.shown name.now label_sets.now series.now) places.now) }
    ensures fails { FailsOnly result (K.faults sink.old) (K.faults sink.new) }
{
    let mut rest = places;
    for index in 0..places.len() / TOGETHER + 1 {
        let (some, others) = split_together(rest);
        printed.push_together(index, name, label_sets, series, some, buffer)?;
        send_full(buffer, sink)?;
        rest = others;
    }
    Ok(())
}

/// Appends the rows of the series at these places, in a family of this full name. What fills a piece goes to the sink.
fn write_new_rows<C: Shown, K: Sink>(
    name: &str,
    label_sets: &LabelSets,
    series: &SeriesIter<'_, C>,
    places: &[usize],
    buffer: &mut String,
    sink: &mut K,
) -> Result<(), BuildError>
    ensures sends { Sends result (K.written sink.old) (K.written sink.new) (string_bytes buffer.old)
        (string_bytes buffer.new)
        (flat_map (row_at C.shown name.now label_sets.now series.now) places.now) }
    ensures fails { FailsOnly result (K.faults sink.old) (K.faults sink.new) }
{
    for place in places {
        push_row(name, label_sets, series, *place, buffer)?;
        send_full(buffer, sink)?;
    }
    Ok(())
}

/// Appends the rows of the series at these places, in a family of this full name. A refused call may leave a part of them.
pub(crate) fn push_rows<C: Shown>(
    name: &str,
    label_sets: &LabelSets,
    series: &SeriesIter<'_, C>,
    places: &[usize],
    buffer: &mut String,
) -> Result<(), Memory>
    ensures { OnOk result (string_bytes buffer.new ≡ string_bytes buffer.old ++ flat_map
        (row_at C.shown name.now label_sets.now series.now) places.now) }
{
    for place in places {
        push_row(name, label_sets, series, *place, buffer)?;
    }
    Ok(())
}

/// Appends the row of the series at a place, if there is one, in a family of this full name. A refused call may leave a part of it.
fn push_row<C: Shown>(
    name: &str,
    label_sets: &LabelSets,
    series: &SeriesIter<'_, C>,
    place: usize,
    buffer: &mut String,
) -> Result<(), Memory>
    ensures { OnOk result (string_bytes buffer.new
        ≡ string_bytes buffer.old ++ row_at C.shown name.now label_sets.now series.now place) }
{
    let Some(labels) = label_sets.get(place) else {
        return Ok(());
    };
    let Some(cell) = series.cell(place) else {
        return Ok(());
    };
    push_line(name, labels, cell, buffer)
}

/// Appends the row of a cell with its printed label set, in a family of this full name. A refused call may leave a part of it.
pub(crate) fn push_line<C: Shown>(
    name: &str,
    labels: &str,
    cell: &C,
    buffer: &mut String,
) -> Result<(), Memory>
    ensures { OnOk result (string_bytes buffer.new
        ≡ string_bytes buffer.old ++ kept_row C.shown name.now labels.now cell.now) }
{
    buffer.push_str(name)?;
    buffer.push_str(labels)?;
    buffer.push(' ')?;
    cell.push_value(buffer)?;
    buffer.push('\n')?;
    Ok(())
}

/// Sends what waits, where it fills a piece.
pub(crate) fn send_full<K: Sink>(buffer: &mut String, sink: &mut K) -> Result<(), BuildError>
    ensures sent { (start : Option (List ℕ)) (bytes : List ℕ)
        → IsSent start (K.written sink.old) (string_bytes buffer.old) bytes
        → OnOk result (IsSent start (K.written sink.new) (string_bytes buffer.new) bytes) }
    ensures prefix { (start : Option (List ℕ)) (bytes : List ℕ)
        → IsSent start (K.written sink.old) (string_bytes buffer.old) bytes
        → OnErr result (GrewByPrefix start (K.written sink.new) bytes) }
    ensures fails { FailsOnly result (K.faults sink.old) (K.faults sink.new) }
{
    if buffer.len() >= PIECE {
        write_whole(sink, buffer.as_bytes())?;
        buffer.clear();
    }
    Ok(())
}
