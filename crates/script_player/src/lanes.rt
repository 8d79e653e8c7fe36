//! The lanes of a round: which series each one's calls are on. Each call is made on both exporters, on the Prometheus series, where
//! that is live, and then on the DogStatsD series.

ghost use Rattle.std.specs.Prelude.{◌≡◌, ◌<◌, ◌+◌, [], length, All, IfOk, IfSome, IsTrue, OnOk, Some, option_map, slice_get};
ghost use Rattle.legal_history.specs.History.{Distinct};
ghost use Rattle.metrics_registry.specs.Live.{IsNumbered};
ghost use Rattle.prom_exporter.specs.LanePasses as P;
ghost use Rattle.dsd_exporter.specs.LanePasses as D;
ghost use Rattle.drive_script.specs.Texts.{call_line_of};
ghost use Rattle.script_player.specs.Fitting.{FitsHandle};
ghost use Rattle.script_player.specs.LaneTables.{AllNamed, AreLanes, HaveCalls, IsNamedAt, IsPlaceOf, NamesBoth, lane_of};
ghost use Rattle.script_player.specs.LaneCalls.{AreWith, ids_of, lane_cells, lane_its};

use crate::lane_lines::{LaneCall, RoundLines};
use cell_lanes::Lane;
use drive_script::CallLine;
use dsd_exporter::State;
use exporter_lanes::Exporters;
use indexmap::IndexSet;
use metrics_core::{Memory, SeriesId};
use prom_exporter::PrometheusState;
use std::alloc::Global;

/// How many series a lane of a round of many calls has guesses for.
const GUESSES: usize = 1024;

/// The lanes of a round at a moment that have calls, each with its number. A call line is two lines of its lane: its call on the
/// Prometheus series that the handle names, and the same on the DogStatsD series. Where an exporter has no such series, the line is
/// on none. `handles` are the series that register lines were given by the Prometheus exporter, `line_handles` those by the
/// DogStatsD exporter, and for each of them a guess says where to look first.
pub(crate) fn lanes_of<'a>(
    alloc: Global,
    exporters: &Exporters,
    handles: &[SeriesId],
    guesses: &mut [u32],
    line_handles: &[SeriesId],
    line_guesses: &mut [u32],
    moment: u64,
    calls: &'a [CallLine],
) -> Result<Vec<Lane<RoundLines<'a>>>, Memory>
    requires fit { All (λ line. FitsHandle handles.now (call_line_of line)) calls.now }
    requires line_fit { All (λ line. FitsHandle line_handles.now (call_line_of line)) calls.now }
    ensures lanes { IfOk result (λ lanes. AreLanes exporters.now lanes.items) }
    ensures calls { IfOk result (λ lanes. HaveCalls exporters.now handles.now line_handles.now moment
        calls.entry.now lanes.items) }
    ensures numbered { IsNumbered exporters.now.dogstatsd.series }
{
    let mut all = series_of(
        alloc,
        exporters,
        handles,
        guesses,
        line_handles,
        line_guesses,
        calls,
    )?;
    let mut lanes = Vec::new(alloc);
    while let Some(series) = all.pop() {
        if series.calls.is_empty() {
            continue;
        }
        lanes.push(series.into_lane(alloc, all.len(), moment)?)?;
    }
    Ok(lanes)
}

/// A number above those of all lanes that have calls.
fn lanes_in(calls: &[CallLine]) -> usize
    ensures { All (λ line. line.lane < result) calls.now }
{
    let mut lanes = 0;
    for line in calls {
        let lane = usize::from(line.lane);
        if lane >= lanes {
            lanes = lane + 1;
        }
    }
    lanes
}

/// The series that the calls of each lane are on, in the order of the lanes' numbers. The arguments are those of `lanes_of`.
fn series_of<'a>(
    alloc: Global,
    exporters: &Exporters,
    handles: &[SeriesId],
    guesses: &mut [u32],
    line_handles: &[SeriesId],
    line_guesses: &mut [u32],
    calls: &'a [CallLine],
) -> Result<Vec<LaneSeries<'a>>, Memory>
    requires fit { All (λ line. FitsHandle handles.now (call_line_of line)) calls.now }
    requires line_fit { All (λ line. FitsHandle line_handles.now (call_line_of line)) calls.now }
    ensures below { IfOk result (λ all. All (λ line. line.lane < length all.items) calls.entry.now) }
    ensures named { IfOk result (λ all. AllNamed (ids_of exporters.now) handles.now line_handles.now
        calls.entry.now all.items) }
    ensures numbered { IsNumbered exporters.now.dogstatsd.series }
{
    let first = exporters.dogstatsd.series_count();
    let mut all = empty_series(alloc, lanes_in(calls), calls.len())?;
    for line in calls {
        let handle = line.handle as usize;
        let prometheus = prometheus_place(&exporters.prometheus, handles, guesses, handle);
        let places = Places {
            prometheus: behind(first, prometheus)?,
            dogstatsd: dogstatsd_place(&exporters.dogstatsd, line_handles, line_guesses, handle),
        };
        all[usize::from(line.lane)].name_both(places, line)?;
    }
    Ok(all)
}

/// The series of so many lanes, before any of so many calls is looked at.
fn empty_series<'a>(
    alloc: Global,
    lanes: usize,
    calls: usize,
) -> Result<Vec<LaneSeries<'a>>, Memory>
    ensures many { IfOk result (λ all. length all.items ≡ lanes) }
    ensures empty { IfOk result (λ all. All (λ series. (lane_cells series ≡ [])
        × (lane_its series ≡ [])) all.items) }
{
    let guesses = if calls < GUESSES { 0 } else { GUESSES };
    let mut all = Vec::with_capacity(alloc, lanes)?;
    for _ in 0..lanes {
        all.push(LaneSeries::new(alloc, guesses)?)?;
    }
    Ok(all)
}

/// Where the two series of a call line stand among those of both exporters.
#[derive(Clone, Copy)]
pub struct Places {
    /// The index of the Prometheus series, if it is live.
    pub prometheus: Option<usize>,
    /// The index of the DogStatsD series, if there is one.
    pub dogstatsd: Option<usize>,
}

/// The index in its exporter of the Prometheus series that a handle names, if it is live. A guess for each handle says where to look
/// first.
fn prometheus_place(
    exporter: &PrometheusState,
    handles: &[SeriesId],
    guesses: &mut [u32],
    handle: usize,
) -> Option<usize>
    ensures { IsPlaceOf (P.ids_of exporter.now) (slice_get handles.now handle) result }
{
    let id = id_of(handles, handle)?;
    match guesses.get_mut(handle) {
        Some(guess) => exporter.index_near(id, guess),
        None => exporter.index_of(id),
    }
}

/// The same of the DogStatsD series.
fn dogstatsd_place(
    exporter: &State,
    handles: &[SeriesId],
    guesses: &mut [u32],
    handle: usize,
) -> Option<usize>
    ensures { IsPlaceOf (D.ids_of exporter.now) (slice_get handles.now handle) result }
{
    let id = id_of(handles, handle)?;
    match guesses.get_mut(handle) {
        Some(guess) => exporter.index_near(id, guess),
        None => exporter.index_of(id),
    }
}

/// An index behind so many others. Where no number is left for it, so many series have no room in memory.
fn behind(first: usize, index: Option<usize>) -> Result<Option<usize>, Memory>
    ensures { IfOk result (λ found. found ≡ option_map (λ k. first + k) index) }
{
    match index {
        Some(index) => match first.checked_add(index) {
            Some(found) => Ok(Some(found)),
            None => Err(Memory),
        },
        None => Ok(None),
    }
}

/// The series that a lane names, while the calls of the round are looked through.
#[derive(Drop)]
pub struct LaneSeries<'a> {
    /// The indices of the series that its calls are on, each once.
    cells: IndexSet<usize>,
    /// Where to look first for a series among the cells, by the end of its index; none in a round of few calls.
    guesses: Vec<u32>,
    /// Its calls, each with where its series are among the cells.
    calls: Vec<LaneCall<'a>>,
}

impl<'a> LaneSeries<'a> {
    /// No series yet, with so many guesses.
    fn new(alloc: Global, guesses: usize) -> Result<LaneSeries<'a>, Memory>
        ensures cells { IfOk result (λ series. lane_cells series ≡ []) }
        ensures calls { IfOk result (λ series. lane_its series ≡ []) }
    {
        Ok(LaneSeries {
            cells: IndexSet::new(alloc),
            guesses: vec![in alloc; 0; guesses]?,
            calls: Vec::new(alloc),
        })
    }

    /// Names the series at both places, for the call of a line.
    fn name_both(&mut self, places: Places, line: &'a CallLine) -> Result<(), Memory>
        ensures { OnOk result (NamesBoth places line.entry.now (lane_cells self.old) (lane_its self.old)
            (lane_cells self.new) (lane_its self.new)) }
    {
        let prometheus = self.slot_at(places.prometheus)?;
        let dogstatsd = self.slot_at(places.dogstatsd)?;
        self.calls.push(LaneCall {
            line,
            prometheus,
            dogstatsd,
        })?;
        Ok(())
    }

    /// Where the series at a place is among those of the lane, if there is one. One that isn't there goes last.
    fn slot_at(&mut self, place: Option<usize>) -> Result<Option<usize>, Memory>
        ensures calls { lane_its self.new ≡ lane_its self.old }
        ensures named { IfOk result (IsNamedAt place (lane_cells self.old) (lane_cells self.new)) }
    {
        match place {
            Some(index) => Ok(Some(self.slot(index)?)),
            None => Ok(None),
        }
    }

    /// The place of a series among those of the lane. One that isn't there goes last.
    fn slot(&mut self, index: usize) -> Result<usize, Memory>
        ensures calls { lane_its self.new ≡ lane_its self.old }
        ensures grown { OnOk result (AreWith index (lane_cells self.old) (lane_cells self.new)) }
        ensures stored { IfOk result (λ slot. slice_get (lane_cells self.new) slot ≡ Some index) }
    {
        match self.guesses.get_mut(index % GUESSES) {
            Some(guess) => slot_near(&mut self.cells, guess, index),
            None => slot_of(&mut self.cells, index),
        }
    }

    /// The lane with a number that makes these calls in a round at a moment.
    fn into_lane(
        self,
        alloc: Global,
        number: usize,
        moment: u64,
    ) -> Result<Lane<RoundLines<'a>>, Memory>
        ensures lane { IfOk result (λ lane. lane ≡ lane_of number moment (lane_cells self.entry)
            (lane_its self.entry)) }
        ensures once { IfOk result (λ lane. Distinct lane.cells) }
    {
        let cells = Vec::from_slice(alloc, self.cells.as_slice())?;
        let lines = RoundLines::new(moment, self.calls);
        Ok(Lane::new(number, cells, lines))
    }
}

/// The place of a series among those of a lane. One that isn't there goes last.
fn slot_of(cells: &mut IndexSet<usize>, index: usize) -> Result<usize, Memory>
    ensures grown { OnOk result (AreWith index cells.old.keys cells.new.keys) }
    ensures stored { IfOk result (λ slot. slice_get cells.new.keys slot ≡ Some index) }
{
    let (slot, _) = cells.insert_full(index)?;
    Ok(slot)
}

/// The place of a series as `slot_of` answers it. It looks first where a guess says, and keeps where it found the series.
fn slot_near(cells: &mut IndexSet<usize>, guess: &mut u32, index: usize) -> Result<usize, Memory>
    ensures grown { OnOk result (AreWith index cells.old.keys cells.new.keys) }
    ensures stored { IfOk result (λ slot. slice_get cells.new.keys slot ≡ Some index) }
{
    let near = *guess as usize;
    if is_cell(cells, near, index) {
        return Ok(near);
    }
    let slot = slot_of(cells, index)?;
    *guess = u32::try_from(slot).unwrap_or(0);
    Ok(slot)
}

/// Whether a series has this place among those of a lane.
fn is_cell(cells: &IndexSet<usize>, slot: usize, index: usize) -> bool
    ensures { IsTrue result → slice_get cells.now.keys slot ≡ Some index }
{
    match cells.get_index(slot) {
        Some(cell) => *cell == index,
        None => false,
    }
}

/// The id that a handle names, if any.
fn id_of(handles: &[SeriesId], handle: usize) -> Option<SeriesId>
    ensures { result ≡ slice_get handles.now handle }
{
    handles.get(handle).copied()
}
