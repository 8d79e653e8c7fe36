//! The blocks of the histograms' families, written to a sink (Prometheus text exposition format, version 0.0.4).

ghost use Rattle.std.specs.Prelude.{◌≡◌, ◌≤◌, ◌++◌, List, flat_map, ◌⊎◌, IfErr, OnOk, OnErr, string_bytes};
ghost use Rattle.std.specs.Option.{option_copied};
ghost use Rattle.metrics_core.specs.Keys.{LabelText};
ghost use Rattle.metrics_core.specs.Outside.{Rose};
ghost use Rattle.prom_format.specs.Pages.{row_text, label_set_text};
ghost use Rattle.prom_format.specs.PrintedRows.{IsPrintedSet};
ghost use Rattle.distributions.specs.Kinds.{kind_for};
ghost use Rattle.prom_exporter.specs.SampledRows.{sampled_rows, shown_word, lines_at, block_under, sampled_block, HasRowsOf};
ghost use Rattle.prom_exporter.specs.Sending.{SendsMore, SendsPrefix};

use crate::BuildError;
use crate::naming::Naming;
use crate::pages::{end_block, send_full};
use crate::rows::Rows;
use crate::sampled::HistogramCell;
use distribution_rows::push_rows;
use distributions::DistributionBuilder;
use histogram_series::laws::distributions_show_what_is_recorded;
use metrics_core::{Memory, Sink};
use metrics_registry::SeriesIter;

/// Appends the blocks of the histograms' families at a moment, in nanoseconds, of which this is kept; native histograms have
/// none. What fills a piece goes to the sink. Where the sink or the memory fails a prefix of them was written.
pub(crate) fn write_distributions<K: Sink>(
    naming: &Naming<'_>,
    distributions: &DistributionBuilder,
    moment: u64,
    rows: &Rows,
    series: &SeriesIter<'_, HistogramCell>,
    buffer: &mut String,
    sink: &mut K,
) -> Result<(), BuildError>
    requires kept { (globals : List LabelText) × HasRowsOf globals series.now rows.now }
    ensures sent { OnOk result ((globals : List LabelText) → HasRowsOf globals series.now rows.now
        → SendsMore (K.written sink.old) (K.written sink.new) (string_bytes buffer.old) (string_bytes buffer.new)
        (flat_map (sampled_block naming.now globals moment series.now distributions.now) rows.now.families)) }
    ensures prefix { OnErr result ((globals : List LabelText)
        → HasRowsOf globals series.now rows.now
        → SendsPrefix (K.written sink.old) (K.written sink.new) (string_bytes buffer.old)
        (flat_map (sampled_block naming.now globals moment series.now distributions.now) rows.now.families)) }
    ensures errors { IfErr result (λ error. (error ≡ BuildError.WriteFault)
        ⊎ (error ≡ BuildError.Memory)) }
    ensures cause { result ≡ Err BuildError.WriteFault
        → Rose (K.faults sink.old) (K.faults sink.new) }
    ensures never_falls { K.faults sink.old ≤ K.faults sink.new }
{
    for (name, places) in rows.families.iter() {
        let word = type_word(distributions, name.as_str());
        let places = places.as_slice();
        write_family(
            naming, word, moment, name, places, rows, series, buffer, sink,
        )?;
    }
    Ok(())
}

/// The word for the type of the family under a metric name. A family of native histograms has none, since it isn't shown.
fn type_word(distributions: &DistributionBuilder, name: &str) -> Option<&'static str>
    ensures { option_copied result ≡ shown_word (kind_for distributions.now name.now) }
{
    let word = distributions.get_distribution_type(name);
    if word == "native_histogram" {
        None
    } else {
        Some(word)
    }
}

/// Appends the block of a family under a word for its type, and nothing without a word. What fills a piece goes to the sink.
fn write_family<K: Sink>(
    naming: &Naming<'_>,
    word: Option<&'static str>,
    moment: u64,
    name: &String,
    places: &[usize],
    rows: &Rows,
    series: &SeriesIter<'_, HistogramCell>,
    buffer: &mut String,
    sink: &mut K,
) -> Result<(), BuildError>
    requires kept { (globals : List LabelText) × HasRowsOf globals series.now rows.now }
    ensures sent { OnOk result ((globals : List LabelText) → HasRowsOf globals series.now rows.now
        → SendsMore (K.written sink.old) (K.written sink.new) (string_bytes buffer.old) (string_bytes buffer.new)
        (block_under naming.now globals moment series.now (option_copied word.entry) (string_bytes name.now, places.now))) }
    ensures prefix { OnErr result ((globals : List LabelText)
        → HasRowsOf globals series.now rows.now
        → SendsPrefix (K.written sink.old) (K.written sink.new) (string_bytes buffer.old)
        (block_under naming.now globals moment series.now (option_copied word.entry) (string_bytes name.now, places.now))) }
    ensures errors { IfErr result (λ error. (error ≡ BuildError.WriteFault)
        ⊎ (error ≡ BuildError.Memory)) }
    ensures cause { result ≡ Err BuildError.WriteFault
        → Rose (K.faults sink.old) (K.faults sink.new) }
    ensures never_falls { K.faults sink.old ≤ K.faults sink.new }
{
    let Some(word) = word else {
        return Ok(());
    };
    let mut full = String::new(*buffer.allocator());
    naming.write_title(name, None, word, &mut full, buffer)?;
    write_series(moment, full.as_str(), places, rows, series, buffer, sink)?;
    end_block(buffer)?;
    Ok(())
}

/// Appends the rows of the series at these places, in a family of this full name. What fills a piece goes to the sink.
fn write_series<K: Sink>(
    moment: u64,
    name: &str,
    places: &[usize],
    rows: &Rows,
    series: &SeriesIter<'_, HistogramCell>,
    buffer: &mut String,
    sink: &mut K,
) -> Result<(), BuildError>
    requires kept { (globals : List LabelText) × HasRowsOf globals series.now rows.now }
    ensures sent { OnOk result ((globals : List LabelText) → HasRowsOf globals series.now rows.now
        → SendsMore (K.written sink.old) (K.written sink.new) (string_bytes buffer.old) (string_bytes buffer.new)
        (flat_map (lines_at globals moment series.now name.now) places.now)) }
    ensures prefix { OnErr result ((globals : List LabelText)
        → HasRowsOf globals series.now rows.now
        → SendsPrefix (K.written sink.old) (K.written sink.new) (string_bytes buffer.old)
        (flat_map (lines_at globals moment series.now name.now) places.now)) }
    ensures errors { IfErr result (λ error. (error ≡ BuildError.WriteFault)
        ⊎ (error ≡ BuildError.Memory)) }
    ensures cause { result ≡ Err BuildError.WriteFault
        → Rose (K.faults sink.old) (K.faults sink.new) }
    ensures never_falls { K.faults sink.old ≤ K.faults sink.new }
{
    for place in places {
        push_series(moment, name, *place, rows, series, buffer)?;
        send_full(buffer, sink)?;
    }
    Ok(())
}

/// Appends the rows of the series at a place, if there is one, in a family of this full name. A refused call may leave a part of them.
fn push_series(
    moment: u64,
    name: &str,
    place: usize,
    rows: &Rows,
    series: &SeriesIter<'_, HistogramCell>,
    buffer: &mut String,
) -> Result<(), Memory>
    requires kept { (globals : List LabelText) × HasRowsOf globals series.now rows.now }
    ensures { OnOk result ((globals : List LabelText) → HasRowsOf globals series.now rows.now
        → string_bytes buffer.new ≡ string_bytes buffer.old ++ lines_at globals moment series.now name.now place) }
{
    let Some(labels) = rows.label_sets.get(place) else {
        return Ok(());
    };
    let Some(cell) = series.cell(place) else {
        return Ok(());
    };
    push_cell(moment, name, labels, cell, buffer)
}

/// Appends the rows of a histogram, from the full name of its family and its label set. A refused call may leave a part of them.
fn push_cell(
    moment: u64,
    name: &str,
    labels: &str,
    cell: &HistogramCell,
    buffer: &mut String,
) -> Result<(), Memory>
    requires labels { IsPrintedSet labels.now }
    ensures { OnOk result ((set : List LabelText) → labels.now ≡ label_set_text set
        → string_bytes buffer.new ≡ string_bytes buffer.old ++ flat_map row_text (sampled_rows moment name.now set cell.now)) }
{
    // The law is called for the proof.
    distributions_show_what_is_recorded();
    push_rows(buffer, name, labels, cell.distribution(), moment)
}
