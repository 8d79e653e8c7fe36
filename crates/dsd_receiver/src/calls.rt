//! The calls of one line on its series: a pass is lent, the calls are made with it, and it is given back.

ghost use Rattle.std.specs.Prelude.{◌≡◌, ◌≤◌, ◌<◌, OnOk, OnErr, length, map, take};
ghost use Rattle.metrics_core.specs.declared.kinds.MetricKind.TheVariants.{Counter, Gauge, Histogram};
ghost use Rattle.metrics_registry.specs.Live.{IsNumbered};
ghost use Rattle.dsd_lines.specs.Texts.{numbers_of};
ghost use Rattle.prom_exporter.specs.Exporter.{AllHome, state_of};
ghost use Rattle.dsd_receiver.specs.Received.{after_calls, increments, records, scaled};
ghost use Rattle.dsd_receiver.specs.Passes.{IsCounterHeld, IsGaugeHeld, IsHistogramHeld, IsSettled, MakesCalls, MakesRecords};

use crate::gauge_changes::GaugeChange;
use cell_lanes::Lenders;
use metrics_core::{BILLIONTHS, Fixed, Memory, SeriesId};
use metrics_facade as facade;
use prom_exporter::{
    Lent, PrometheusState, an_id_has_one_index, an_index_is_of_one_kind, series_have_their_indices,
};
use sample_queue::{PromHistogram, SamplePass};
use series_cells::{CellPass, PromCounter, PromGauge};
use std::alloc::Global;
use std::sync::Wait;

/// How many counts there are: 2^64.
const COUNTS: u128 = 18_446_744_073_709_551_616;

/// Adds to a counter what these counts stand for at a rate. Where it isn't live nothing changes.
pub(crate) fn call_counter<R: Wait>(
    state: &mut PrometheusState,
    rt: &R,
    alloc: Global,
    id: SeriesId,
    counts: &[u64],
    rate: u32,
) -> Result<(), Memory>
    requires home { AllHome state.old }
    requires kind { id.kind ≡ Counter }
    requires rate { 0 < rate }
    ensures home { AllHome state.new }
    ensures settings { state.new.settings ≡ state.old.settings }
    ensures called { OnOk result (state_of state.new ≡ after_calls Counter id.number
        (increments rate counts.now) (state_of state.old)) }
    ensures refused { OnErr result (state_of state.new ≡ state_of state.old) }
{
    settle(state, rt, id);
    let Some(lent) = state.lend_counter(alloc, id)? else {
        return Ok(());
    };
    let Lent {
        handle,
        mut pass,
        id,
    } = lent;
    increment_all(&handle, &mut pass, counts, rate);
    state.give_back_counter(Lent { handle, pass, id });
    Ok(())
}

/// Makes these changes of a gauge. Where it isn't live nothing changes.
pub(crate) fn call_gauge<R: Wait, C: GaugeChange>(
    state: &mut PrometheusState,
    rt: &R,
    alloc: Global,
    id: SeriesId,
    changes: &[C],
) -> Result<(), Memory>
    requires home { AllHome state.old }
    requires kind { id.kind ≡ Gauge }
    ensures home { AllHome state.new }
    ensures settings { state.new.settings ≡ state.old.settings }
    ensures called { OnOk result (state_of state.new ≡ after_calls Gauge id.number
        (map C.call changes.now) (state_of state.old)) }
    ensures refused { OnErr result (state_of state.new ≡ state_of state.old) }
{
    settle(state, rt, id);
    let Some(lent) = state.lend_gauge(alloc, id)? else {
        return Ok(());
    };
    let Lent {
        handle,
        mut pass,
        id,
    } = lent;
    change_each(&handle, &mut pass, changes);
    state.give_back_gauge(Lent { handle, pass, id });
    Ok(())
}

/// Records values on a histogram, each so many times, until memory is refused. Answers how many were recorded. Where the histogram
/// isn't live nothing changes.
pub(crate) fn call_histogram<R: Wait>(
    state: &mut PrometheusState,
    rt: &R,
    alloc: Global,
    id: SeriesId,
    values: &[Fixed],
    moment: u64,
    times: u32,
) -> usize
    requires home { AllHome state.old }
    requires kind { id.kind ≡ Histogram }
    requires times { 0 < times }
    ensures home { AllHome state.new }
    ensures settings { state.new.settings ≡ state.old.settings }
    ensures called { state_of state.new ≡ after_calls Histogram id.number
        (take result (records moment times (numbers_of values.now))) (state_of state.old) }
    ensures within { result ≤ length values.now }
{
    settle(state, rt, id);
    let lent = match state.lend_histogram(alloc, id) {
        Ok(Some(lent)) => lent,
        Ok(None) => return values.len(),
        Err(Memory) => return 0,
    };
    let Lent {
        handle,
        mut pass,
        id,
    } = lent;
    let done = record_each(rt, alloc, &handle, &mut pass, values, moment, times);
    state.give_back_histogram(Lent { handle, pass, id });
    settle(state, rt, id);
    done
}

/// Makes sure that the exporter knows whose each call on a series is, of which nothing is lent out. It changes nothing.
fn settle<R: Wait>(state: &mut PrometheusState, rt: &R, id: SeriesId)
    requires home { AllHome state.old }
    ensures same { state.new ≡ state.old }
    ensures settled { IsSettled id state.old }
    ensures numbered { IsNumbered state.old.series }
{
    series_have_their_indices();
    an_index_is_of_one_kind();
    an_id_has_one_index();
    if let Some(index) = state.index_of(id) {
        Lenders::settle(state, rt, index);
    }
}

/// Adds to a counter what each of these counts stands for at a rate.
fn increment_all(
    counter: &facade::Counter<PromCounter>,
    pass: &mut CellPass,
    counts: &[u64],
    rate: u32,
)
    requires held { IsCounterHeld counter.now pass.old }
    requires rate { 0 < rate }
    ensures held { IsCounterHeld counter.now pass.new }
    ensures calls { MakesCalls pass.old (increments rate counts.now) pass.new }
{
    for count in counts {
        counter.increment(pass, scaled(*count, rate));
    }
}

/// What a count stands for at a rate: rounded down, modulo 2^64.
fn scaled(count: u64, rate: u32) -> u64
    requires { 0 < rate }
    ensures { result ≡ scaled rate count }
{
    let whole = u128::from(count) * u128::from(BILLIONTHS) / u128::from(rate);
    (whole % COUNTS) as u64
}

/// Makes these changes of a gauge.
fn change_each<C: GaugeChange>(gauge: &facade::Gauge<PromGauge>, pass: &mut CellPass, changes: &[C])
    requires held { IsGaugeHeld gauge.now pass.old }
    ensures held { IsGaugeHeld gauge.now pass.new }
    ensures calls { MakesCalls pass.old (map C.call changes.now) pass.new }
{
    for change in changes {
        change.make(gauge, pass);
    }
}

/// Records values on a histogram, each so many times, until memory is refused. Answers how many were recorded.
fn record_each<R: Wait>(
    rt: &R,
    alloc: Global,
    histogram: &facade::Histogram<PromHistogram>,
    pass: &mut SamplePass<(Fixed, u64)>,
    values: &[Fixed],
    moment: u64,
    times: u32,
) -> usize
    requires held { IsHistogramHeld histogram.now pass.old }
    requires times { 0 < times }
    ensures held { IsHistogramHeld histogram.now pass.new }
    ensures calls { MakesRecords pass.old
        (take result (records moment times (numbers_of values.now))) pass.new }
    ensures within { result ≤ length values.now }
{
    for place in 0..values.len() {
        let recorded = histogram.record_many(rt, alloc, pass, values[place], moment, times);
        if recorded.is_err() {
            return place;
        }
    }
    values.len()
}
