//! One line: it is read, its series is registered, and its values become calls.

ghost use Rattle.std.specs.Prelude.{◌≡◌, ◌<◌, ◌≤◌, IfOk, IfErr, OnOk, false, length, map};
ghost use Rattle.metrics_core.specs.declared.kinds.MetricKind.TheVariants.{Counter, Gauge, Histogram};
ghost use Rattle.metrics_core.specs.Numbers.{one};
ghost use Rattle.dsd_lines.specs.Texts.{line_text, numbers_of};
ghost use Rattle.prom_exporter.specs.Exporter.{AllHome, state_of};
ghost use Rattle.dsd_receiver.specs.Received.{after_line, increments, records, times_at, with_calls};
ghost use Rattle.dsd_receiver.specs.Receiving.{InPart, IsInPart, IsReceived, IsSaid, StopsIn};

use crate::calls::{call_counter, call_gauge, call_histogram};
use crate::gauge_changes::GaugeChange;
use dsd_lines::{Dialect, Line, Points, read_line};
use metrics_core::{BILLIONTHS, Fixed, Key, Memory};
use prom_exporter::PrometheusState;
use std::alloc::Global;
use std::sync::Wait;

/// What was done of a line when memory was refused.
#[derive(Clone, Copy, Debug, PartialEq, Eq, Drop)]
pub struct Stop {
    /// Whether its series was registered.
    pub registered: bool,
    /// How many of its values were applied. It is 0 but for a histogram.
    pub values: u64,
}

impl From<Memory> for Stop {
    ghost from_gives = { λ _ stop. stop ≡ record { registered = false; values = 0 } };

    fn from(_refused: Memory) -> Stop {
        Stop {
            registered: false,
            values: 0,
        }
    }
}

/// Applies a line, which stands without its newline. Answers whether it is one of the dialect.
pub(crate) fn apply_line<R: Wait>(
    state: &mut PrometheusState,
    rt: &R,
    alloc: Global,
    dialect: Dialect,
    bytes: &[u8],
    moment: u64,
) -> Result<bool, Stop>
    requires home { AllHome state.old }
    ensures home { AllHome state.new }
    ensures settings { state.new.settings ≡ state.old.settings }
    ensures applied { IfOk result (λ is_line.
        IsReceived dialect moment bytes.now is_line (state_of state.old) (state_of state.new)) }
    ensures stopped { IfErr result (λ stop.
        StopsIn dialect moment bytes.now stop.registered stop.values (state_of state.old)
        (state_of state.new)) }
{
    let Some(line) = read_line(alloc, dialect, bytes)? else {
        return Ok(false);
    };
    apply_said(state, rt, alloc, dialect, line, moment)?;
    Ok(true)
}

/// Applies what a line says.
pub(crate) fn apply_said<R: Wait>(
    state: &mut PrometheusState,
    rt: &R,
    alloc: Global,
    _dialect: Dialect,
    line: Line,
    moment: u64,
) -> Result<(), Stop>
    requires home { AllHome state.old }
    requires said { IsSaid _dialect (line_text line) }
    ensures home { AllHome state.new }
    ensures settings { state.new.settings ≡ state.old.settings }
    ensures applied { OnOk result (state_of state.new ≡ after_line moment (state_of state.old)
        (line_text line)) }
    ensures stopped { IfErr result (λ stop.
        IsInPart moment (line_text line) stop.registered stop.values (state_of state.old)
        (state_of state.new)) }
{
    let Line {
        key,
        points,
        rate,
        timestamp: _,
    } = line;
    let rate = rate.unwrap_or(BILLIONTHS);
    match points {
        Points::Counter(counts) => apply_counter(state, rt, alloc, key, counts.as_slice(), rate),
        Points::Gauge(values) => apply_gauge(state, rt, alloc, key, values.as_slice()),
        Points::Steps(steps) => apply_gauge(state, rt, alloc, key, steps.as_slice()),
        Points::Histogram(values) | Points::Distribution(values) | Points::Timer(values) => {
            apply_histogram(state, rt, alloc, key, values.as_slice(), moment, rate)
        }
    }
}

/// Registers a counter, and adds to it what these counts stand for at a rate.
fn apply_counter<R: Wait>(
    state: &mut PrometheusState,
    rt: &R,
    alloc: Global,
    key: Key,
    counts: &[u64],
    rate: u32,
) -> Result<(), Stop>
    requires home { AllHome state.old }
    requires some { 0 < length counts.now }
    requires rate { 0 < rate }
    ensures home { AllHome state.new }
    ensures settings { state.new.settings ≡ state.old.settings }
    ensures applied { OnOk result (state_of state.new ≡ with_calls Counter key
        (increments rate counts.now) (state_of state.old)) }
    ensures stopped { IfErr result (λ stop. (stop.values ≡ 0)
        × InPart Counter key (increments rate counts.now) stop.registered stop.values
        (state_of state.old) (state_of state.new)) }
{
    let id = state.register_owned_counter(alloc, key)?;
    match call_counter(state, rt, alloc, id, counts, rate) {
        Ok(()) => Ok(()),
        Err(Memory) => Err(Stop {
            registered: true,
            values: 0,
        }),
    }
}

/// Registers a gauge, and makes these changes of it.
fn apply_gauge<R: Wait, C: GaugeChange>(
    state: &mut PrometheusState,
    rt: &R,
    alloc: Global,
    key: Key,
    values: &[C],
) -> Result<(), Stop>
    requires home { AllHome state.old }
    requires some { 0 < length values.now }
    ensures home { AllHome state.new }
    ensures settings { state.new.settings ≡ state.old.settings }
    ensures applied { OnOk result (state_of state.new ≡ with_calls Gauge key
        (map C.call values.now) (state_of state.old)) }
    ensures stopped { IfErr result (λ stop. (stop.values ≡ 0)
        × InPart Gauge key (map C.call values.now) stop.registered stop.values
        (state_of state.old) (state_of state.new)) }
{
    let id = state.register_owned_gauge(alloc, key)?;
    match call_gauge(state, rt, alloc, id, values) {
        Ok(()) => Ok(()),
        Err(Memory) => Err(Stop {
            registered: true,
            values: 0,
        }),
    }
}

/// Registers a histogram, and records each of these values as often as it stands for at a rate.
fn apply_histogram<R: Wait>(
    state: &mut PrometheusState,
    rt: &R,
    alloc: Global,
    key: Key,
    values: &[Fixed],
    moment: u64,
    rate: u32,
) -> Result<(), Stop>
    requires home { AllHome state.old }
    requires rate { (0 < rate) × (rate ≤ one) }
    ensures home { AllHome state.new }
    ensures settings { state.new.settings ≡ state.old.settings }
    ensures applied { OnOk result (state_of state.new ≡ with_calls Histogram key
        (records moment (times_at rate) (numbers_of values.now)) (state_of state.old)) }
    ensures stopped { IfErr result (λ stop.
        InPart Histogram key
        (records moment (times_at rate) (numbers_of values.now)) stop.registered stop.values
        (state_of state.old) (state_of state.new)) }
{
    let id = state.register_owned_histogram(alloc, key)?;
    let done = call_histogram(state, rt, alloc, id, values, moment, BILLIONTHS / rate);
    if done == values.len() {
        return Ok(());
    }
    Err(Stop {
        registered: true,
        values: done as u64,
    })
}
