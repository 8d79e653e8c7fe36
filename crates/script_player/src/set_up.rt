//! The setup lines of a round: what each does to an exporter, for the flushes and for the pages.

ghost use Rattle.std.specs.Prelude.{◌≡◌, ◌<◌, Bool, List, fold, map, string_bytes, vec_len, IfOk, OnOk};
ghost use Rattle.std.specs.List.{AllZip};
ghost use Rattle.dsd_exporter.specs.Resting.{AllRest as LinesRest};
ghost use Rattle.drive_script.specs.Script.{Describe, Register};
ghost use Rattle.drive_script.specs.Texts.{setup_of};
ghost use Rattle.script_player.specs.Copies.{AreForFlushes, IsMade, in_parts};
ghost use Rattle.script_player.specs.Flushes.{FlushPlay, register_step};
ghost use Rattle.script_player.specs.Play.{setup_step};
ghost use Rattle.script_player.specs.Player.{lines_state, rows_state};
ghost use Rattle.script_player.specs.Resting.{AllRest};

use crate::both::join_if;
use crate::guesses::Guesses;
use drive_script::Setup;
use dsd_exporter::State;
use exporter_lanes::Exporters;
use metrics_core::{Key, KeyName, Memory, MetricKind, SeriesId, SharedString, Unit};
use prom_exporter::PrometheusState;
use std::alloc::Global;
use std::sync::Wait;
use std::thread::{Threads, map_chunks};

/// From how many setup lines on those for the flushes are done beside those for the pages. Fewer aren't worth a thread.
const MANY: usize = 4096;

/// In how many parts many setup lines are copied: the thread that copies one of them starts the threads of the others.
const PARTS: usize = 3;

/// The setup lines that are for the flushes, in order and in parts, of which many are made side by side: those that register. A copy
/// of a key shares its texts and its labels.
pub(crate) fn lines_for_flushes<R: Threads + Sync>(
    rt: &R,
    alloc: Global,
    setup: &[Setup],
) -> Result<Vec<Vec<Setup>>, Memory>
    ensures { IfOk result (λ parts. AreForFlushes setup.now (in_parts parts.items)) }
{
    let parts = map_chunks(
        rt,
        alloc,
        setup,
        part_size(setup.len()),
        &|_: usize, part: &[Setup]| -> Result<Vec<Setup>, Memory>
            ensures { IfOk result (λ copies. AreForFlushes part.entry.now copies.items) }
        { copies_for_flushes(alloc, part) },
    )?;
    all_made(alloc, parts)
}

/// How many of so many setup lines are in a part of them, the last of which may have fewer.
fn part_size(count: usize) -> usize
    ensures { 0 < result }
{
    if count < MANY {
        MANY
    } else {
        count.div_ceil(PARTS)
    }
}

/// The parts, if all of them were made.
fn all_made(
    alloc: Global,
    parts: Vec<Result<Vec<Setup>, Memory>>,
) -> Result<Vec<Vec<Setup>>, Memory>
    ensures { IfOk result (λ made. AllZip IsMade parts.items made.items) }
{
    let mut made = Vec::with_capacity(alloc, parts.len())?;
    for part in parts {
        made.push(part?)?;
    }
    Ok(made)
}

/// Copies of the setup lines that are for the flushes, in order.
fn copies_for_flushes(alloc: Global, setup: &[Setup]) -> Result<Vec<Setup>, Memory>
    ensures { IfOk result (λ copies. AreForFlushes setup.now copies.items) }
{
    let mut copies = Vec::with_capacity(alloc, setup.len())?;
    for line in setup {
        push_for_flushes(alloc, &mut copies, line)?;
    }
    Ok(copies)
}

/// Appends a copy of a setup line, where it registers.
fn push_for_flushes(alloc: Global, copies: &mut Vec<Setup>, line: &Setup) -> Result<(), Memory>
    ensures { OnOk result ((p : FlushPlay) → fold register_step p (map setup_of copies.new.items)
        ≡ register_step (fold register_step p (map setup_of copies.old.items))
        (setup_of line.now)) }
{
    match line {
        Setup::Describe { .. } => Ok(()),
        Setup::Register { kind, key } => {
            copies.push(Setup::Register {
                kind: *kind,
                key: key.clone(alloc)?,
            })?;
            Ok(())
        }
    }
}

/// Does setup lines on both exporters: their copies for the flushes, and the lines themselves for the pages. Many of them are done side
/// by side.
pub(crate) fn set_up_both<R: Threads + Wait + Sync>(
    rt: &R,
    alloc: Global,
    lines: &mut State,
    line_handles: &mut Vec<SeriesId>,
    line_guesses: &mut Guesses,
    copies: &mut Vec<Vec<Setup>>,
    pages: &mut PrometheusState,
    handles: &mut Vec<SeriesId>,
    guesses: &mut Guesses,
    setup: &mut Vec<Setup>,
) -> Result<(), Memory>
    ensures settings { pages.new.settings ≡ pages.old.settings }
    ensures rest { AllRest pages.old → AllRest pages.new }
    ensures lines_settings { lines.new.settings ≡ lines.old.settings }
    ensures lines_rest { LinesRest lines.old → LinesRest lines.new }
    ensures stepped { OnOk result (rows_state pages.new handles.new.items
        ≡ fold setup_step (rows_state pages.old handles.old.items) (map setup_of setup.old.items)) }
    ensures registered { OnOk result ((marks : List Bool)
        → lines_state marks lines.new line_handles.new.items
        ≡ fold register_step (lines_state marks lines.old line_handles.old.items)
        (map setup_of (in_parts copies.old.items))) }
{
    let beside = setup.len() >= MANY;
    let (first, second) = join_if(
        rt,
        beside,
        &mut || set_up_lines(rt, alloc, lines, line_handles, line_guesses, copies),
        &mut || set_up_rows(rt, alloc, pages, handles, guesses, setup),
    );
    first?;
    second?;
    Ok(())
}

/// Does the setup lines of parts for the flushes, in order.
pub(crate) fn set_up_lines<R>(
    _rt: &R,
    alloc: Global,
    lines: &mut State,
    handles: &mut Vec<SeriesId>,
    guesses: &mut Guesses,
    parts: &mut Vec<Vec<Setup>>,
) -> Result<(), Memory>
    ensures settings { lines.new.settings ≡ lines.old.settings }
    ensures rest { LinesRest lines.old → LinesRest lines.new }
    ensures registered { OnOk result ((marks : List Bool)
        → lines_state marks lines.new handles.new.items
        ≡ fold register_step (lines_state marks lines.old handles.old.items)
        (map setup_of (in_parts parts.old.items))) }
{
    for mut part in parts.drain(..) {
        set_up_part(alloc, lines, handles, guesses, &mut part)?;
    }
    Ok(())
}

/// Does setup lines for the flushes, in order. They are taken from the end of a list that is turned round, so that the room of
/// those which are done is given back on the way.
fn set_up_part(
    alloc: Global,
    lines: &mut State,
    handles: &mut Vec<SeriesId>,
    guesses: &mut Guesses,
    setup: &mut Vec<Setup>,
) -> Result<(), Memory>
    ensures settings { lines.new.settings ≡ lines.old.settings }
    ensures rest { LinesRest lines.old → LinesRest lines.new }
    ensures registered { OnOk result ((marks : List Bool)
        → lines_state marks lines.new handles.new.items
        ≡ fold register_step (lines_state marks lines.old handles.old.items)
        (map setup_of setup.old.items)) }
{
    setup.reverse();
    while let Some(line) = setup.pop() {
        set_up_line(alloc, lines, handles, guesses, line)?;
        give_room_back(setup);
    }
    Ok(())
}

/// Does one setup line for the flushes.
fn set_up_line(
    alloc: Global,
    lines: &mut State,
    handles: &mut Vec<SeriesId>,
    guesses: &mut Guesses,
    line: Setup,
) -> Result<(), Memory>
    ensures settings { lines.new.settings ≡ lines.old.settings }
    ensures rest { LinesRest lines.old → LinesRest lines.new }
    ensures registered { OnOk result ((marks : List Bool)
        → lines_state marks lines.new handles.new.items
        ≡ register_step (lines_state marks lines.old handles.old.items) (setup_of line)) }
{
    match line {
        Setup::Describe { .. } => Ok(()),
        Setup::Register { kind, key } => register_line(alloc, lines, handles, guesses, kind, key),
    }
}

/// Registers a series of the flushes under a key, which the exporter keeps, and gives it the next handle.
fn register_line(
    alloc: Global,
    lines: &mut State,
    handles: &mut Vec<SeriesId>,
    guesses: &mut Guesses,
    kind: MetricKind,
    key: Key,
) -> Result<(), Memory>
    ensures settings { lines.new.settings ≡ lines.old.settings }
    ensures rest { LinesRest lines.old → LinesRest lines.new }
    ensures registered { OnOk result ((marks : List Bool)
        → lines_state marks lines.new handles.new.items
        ≡ register_step (lines_state marks lines.old handles.old.items) (Register kind key)) }
{
    let id = match kind {
        MetricKind::Counter => lines.register_owned_counter(alloc, key)?,
        MetricKind::Gauge => lines.register_owned_gauge(alloc, key)?,
        MetricKind::Histogram => lines.register_owned_histogram(alloc, key)?,
    };
    handles.push(id)?;
    guesses.push(kind)?;
    Ok(())
}

/// Does setup lines for the pages, in order, taken as those for the flushes are.
pub(crate) fn set_up_rows<R: Wait>(
    rt: &R,
    alloc: Global,
    pages: &mut PrometheusState,
    handles: &mut Vec<SeriesId>,
    guesses: &mut Guesses,
    setup: &mut Vec<Setup>,
) -> Result<(), Memory>
    ensures settings { pages.new.settings ≡ pages.old.settings }
    ensures rest { AllRest pages.old → AllRest pages.new }
    ensures stepped { OnOk result (rows_state pages.new handles.new.items
        ≡ fold setup_step (rows_state pages.old handles.old.items) (map setup_of setup.old.items)) }
{
    setup.reverse();
    while let Some(line) = setup.pop() {
        set_up_row(rt, alloc, pages, handles, guesses, line)?;
        give_room_back(setup);
    }
    Ok(())
}

/// Does one setup line for the pages.
fn set_up_row<R: Wait>(
    rt: &R,
    alloc: Global,
    pages: &mut PrometheusState,
    handles: &mut Vec<SeriesId>,
    guesses: &mut Guesses,
    line: Setup,
) -> Result<(), Memory>
    ensures settings { pages.new.settings ≡ pages.old.settings }
    ensures rest { AllRest pages.old → AllRest pages.new }
    ensures stepped { OnOk result (rows_state pages.new handles.new.items
        ≡ setup_step (rows_state pages.old handles.old.items) (setup_of line)) }
{
    match line {
        Setup::Describe {
            kind,
            name,
            unit,
            text,
        } => describe(rt, alloc, pages, kind, name, unit, text),
        Setup::Register { kind, key } => register_row(alloc, pages, handles, guesses, kind, key),
    }
}

/// Describes the metric of a kind and a name. The exporter keeps the text.
fn describe<R: Wait>(
    rt: &R,
    alloc: Global,
    pages: &mut PrometheusState,
    kind: MetricKind,
    name: String,
    unit: Option<Unit>,
    text: String,
) -> Result<(), Memory>
    ensures settings { pages.new.settings ≡ pages.old.settings }
    ensures rest { AllRest pages.old → AllRest pages.new }
    ensures stepped { OnOk result ((handles : List SeriesId) → rows_state pages.new handles
        ≡ setup_step (rows_state pages.old handles) (Describe kind (string_bytes name) unit
        (string_bytes text))) }
{
    let name = KeyName::from(name);
    let text = SharedString::from_owned(text);
    match kind {
        MetricKind::Counter => pages.describe_counter(rt, alloc, name, unit, text),
        MetricKind::Gauge => pages.describe_gauge(rt, alloc, name, unit, text),
        MetricKind::Histogram => pages.describe_histogram(rt, alloc, name, unit, text),
    }
}

/// Registers a series of the pages under a key, which the exporter keeps, and gives it the next handle.
fn register_row(
    alloc: Global,
    pages: &mut PrometheusState,
    handles: &mut Vec<SeriesId>,
    guesses: &mut Guesses,
    kind: MetricKind,
    key: Key,
) -> Result<(), Memory>
    ensures settings { pages.new.settings ≡ pages.old.settings }
    ensures rest { AllRest pages.old → AllRest pages.new }
    ensures stepped { OnOk result (rows_state pages.new handles.new.items
        ≡ setup_step (rows_state pages.old handles.old.items) (Register kind key)) }
{
    let id = match kind {
        MetricKind::Counter => pages.register_owned_counter(alloc, key)?,
        MetricKind::Gauge => pages.register_owned_gauge(alloc, key)?,
        MetricKind::Histogram => pages.register_owned_histogram(alloc, key)?,
    };
    handles.push(id)?;
    guesses.push(kind)?;
    Ok(())
}

/// Makes room for what register lines make, where they are at least as many as those before them.
pub(crate) fn make_room(
    setup: &[Setup],
    exporters: &mut Exporters,
    handles: &mut Vec<SeriesId>,
    guesses: &mut Guesses,
    line_handles: &mut Vec<SeriesId>,
    line_guesses: &mut Guesses,
) -> Result<(), Memory>
    ensures exporters { (exporters.new.prometheus ≡ exporters.old.prometheus)
        × (exporters.new.dogstatsd ≡ exporters.old.dogstatsd) }
    ensures handles { handles.new.items ≡ handles.old.items }
    ensures line_handles { line_handles.new.items ≡ line_handles.old.items }
{
    let SetupCounts {
        counters,
        gauges,
        registrations,
    } = SetupCounts::of(setup);
    if registrations < handles.len() {
        return Ok(());
    }
    exporters.prometheus.reserve(counters, gauges)?;
    exporters.dogstatsd.reserve(counters, gauges)?;
    handles.reserve(registrations)?;
    guesses.reserve(registrations)?;
    line_handles.reserve(registrations)?;
    line_guesses.reserve(registrations)?;
    Ok(())
}

/// How many setup lines register a series, and how many of them a counter and a gauge.
#[derive(Clone, Copy)]
struct SetupCounts {
    counters: usize,
    gauges: usize,
    registrations: usize,
}

impl SetupCounts {
    /// The counts of setup lines.
    fn of(setup: &[Setup]) -> SetupCounts {
        let mut counts = SetupCounts {
            counters: 0,
            gauges: 0,
            registrations: 0,
        };
        for line in setup {
            if let Setup::Register { kind, .. } = line {
                counts.count(*kind);
            }
        }
        counts
    }

    /// Counts one more line that registers a series of a kind.
    fn count(&mut self, kind: MetricKind) {
        self.registrations = self.registrations.saturating_add(1);
        match kind {
            MetricKind::Counter => self.counters = self.counters.saturating_add(1),
            MetricKind::Gauge => self.gauges = self.gauges.saturating_add(1),
            MetricKind::Histogram => (),
        }
    }
}

/// Gives the room of lines that were taken away back, where it is at least half of all.
fn give_room_back(setup: &mut Vec<Setup>)
    ensures same { setup.new.items ≡ setup.old.items }
    ensures len { vec_len setup.new ≡ vec_len setup.old }
{
    if setup.len() <= setup.capacity() / 2 {
        setup.shrink_to_fit();
    }
}
