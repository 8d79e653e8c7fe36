//! What a registry of each kind answers of its series.

use metrics_core::{Key, Memory, MetricKind, SeriesId};
use metrics_registry::Registry;
use std::alloc::Global;
use std::test::Fail;

/// A registry whose counters, gauges and histograms are numbers of three types.
type Mixed = Registry<u64, i64, u32>;

/// The id of a kind with a number.
fn id(kind: MetricKind, number: u64) -> SeriesId {
    SeriesId { kind, number }
}

/// Makes a counter under a name, if none has it.
fn add_counter(registry: &mut Mixed, name: &'static str, cell: u64) -> Option<SeriesId> {
    let key = Key::from_static_name(name);
    if registry.made() == u64::MAX || registry.find_counter(&key).is_some() {
        return None;
    }
    registry.add_counter(key, cell).ok()
}

/// Makes a gauge under a name, if none has it.
fn add_gauge(registry: &mut Mixed, name: &'static str, cell: i64) -> Option<SeriesId> {
    let key = Key::from_static_name(name);
    if registry.made() == u64::MAX || registry.find_gauge(&key).is_some() {
        return None;
    }
    registry.add_gauge(key, cell).ok()
}

/// Makes a histogram under a name, if none has it.
fn add_histogram(registry: &mut Mixed, name: &'static str, cell: u32) -> Option<SeriesId> {
    let key = Key::from_static_name(name);
    if registry.made() == u64::MAX || registry.find_histogram(&key).is_some() {
        return None;
    }
    registry.add_histogram(key, cell).ok()
}

/// Makes the counters `a`, `b` and `c` with the numbers 0, 1 and 2.
fn make_counters(registry: &mut Mixed) {
    add_counter(registry, "a", 10);
    add_counter(registry, "b", 20);
    add_counter(registry, "c", 30);
}

/// Makes the gauges `a`, `b` and `c` with the numbers 0, 1 and 2.
fn make_gauges(registry: &mut Mixed) {
    add_gauge(registry, "a", -10);
    add_gauge(registry, "b", 0);
    add_gauge(registry, "c", 30);
}

/// Makes the histograms `a`, `b` and `c` with the numbers 0, 1 and 2.
fn make_histograms(registry: &mut Mixed) {
    add_histogram(registry, "a", 10);
    add_histogram(registry, "b", 20);
    add_histogram(registry, "c", 30);
}

/// Writes the cell of a counter, if it is live.
fn write_counter(registry: &mut Mixed, id: SeriesId, cell: u64) -> bool {
    match registry.get_counter_mut(id) {
        Some(place) => {
            *place = cell;
            true
        }
        None => false,
    }
}

/// Writes the cell of a gauge, if it is live.
fn write_gauge(registry: &mut Mixed, id: SeriesId, cell: i64) -> bool {
    match registry.get_gauge_mut(id) {
        Some(place) => {
            *place = cell;
            true
        }
        None => false,
    }
}

/// Writes the cell of a histogram, if it is live.
fn write_histogram(registry: &mut Mixed, id: SeriesId, cell: u32) -> bool {
    match registry.get_histogram_mut(id) {
        Some(place) => {
            *place = cell;
            true
        }
        None => false,
    }
}

/// The numbers and the cells of the live counters in order.
fn live_counters(alloc: Global, registry: &Mixed) -> Result<Vec<(u64, u64)>, Memory> {
    let mut live = Vec::new(alloc);
    for (id, _key, cell) in registry.counters() {
        live.push((id.number, *cell))?;
    }
    Ok(live)
}

/// The numbers and the cells of the live gauges in order.
fn live_gauges(alloc: Global, registry: &Mixed) -> Result<Vec<(u64, i64)>, Memory> {
    let mut live = Vec::new(alloc);
    for (id, _key, cell) in registry.gauges() {
        live.push((id.number, *cell))?;
    }
    Ok(live)
}

/// The numbers and the cells of the live histograms in order.
fn live_histograms(alloc: Global, registry: &Mixed) -> Result<Vec<(u64, u32)>, Memory> {
    let mut live = Vec::new(alloc);
    for (id, _key, cell) in registry.histograms() {
        live.push((id.number, *cell))?;
    }
    Ok(live)
}

/// Whether one name names a series of each kind.
fn one_name_serves(registry: &mut Mixed) -> bool {
    let gauge = add_gauge(registry, "a", -1);
    let histogram = add_histogram(registry, "a", 1);
    let counter = add_counter(registry, "a", 1);
    gauge == Some(id(MetricKind::Gauge, 0))
        && histogram == Some(id(MetricKind::Histogram, 1))
        && counter == Some(id(MetricKind::Counter, 2))
        && registry.made() == 3
}

/// Whether counters are found, read, written, deleted, kept by a test and listed.
fn counters_serve(alloc: Global, registry: &mut Mixed) -> Result<bool, Memory> {
    make_counters(registry);
    let found = registry.find_counter(&Key::from_static_name("b"))
        == Some(id(MetricKind::Counter, 1));
    let read = registry.get_counter(id(MetricKind::Counter, 0)).copied() == Some(10);
    let written = write_counter(registry, id(MetricKind::Counter, 1), 99);
    let deleted = registry.delete_counter(id(MetricKind::Counter, 0));
    registry.retain_counters(|id, cell| {
        *cell ^= 1;
        id.number != 1
    });
    let left = live_counters(alloc, registry)?;
    Ok(found && read && written && deleted && left.as_slice() == [(2, 31)].as_slice())
}

/// Whether gauges are found, read, written, deleted, kept by a test and listed.
fn gauges_serve(alloc: Global, registry: &mut Mixed) -> Result<bool, Memory> {
    make_gauges(registry);
    let found = registry.find_gauge(&Key::from_static_name("b")) == Some(id(MetricKind::Gauge, 1));
    let read = registry.get_gauge(id(MetricKind::Gauge, 0)).copied() == Some(-10);
    let written = write_gauge(registry, id(MetricKind::Gauge, 1), -99);
    let deleted = registry.delete_gauge(id(MetricKind::Gauge, 0));
    registry.retain_gauges(|_id, cell| *cell == 30);
    let left = live_gauges(alloc, registry)?;
    Ok(found && read && written && deleted && left.as_slice() == [(2, 30)].as_slice())
}

/// Whether histograms are found, read, written, deleted, kept by a test and listed.
fn histograms_serve(alloc: Global, registry: &mut Mixed) -> Result<bool, Memory> {
    make_histograms(registry);
    let found = registry.find_histogram(&Key::from_static_name("b"))
        == Some(id(MetricKind::Histogram, 1));
    let read = registry
        .get_histogram(id(MetricKind::Histogram, 0))
        .copied()
        == Some(10);
    let written = write_histogram(registry, id(MetricKind::Histogram, 1), 99);
    let deleted = registry.delete_histogram(id(MetricKind::Histogram, 0));
    registry.retain_histograms(|id, cell| {
        let kept = *cell != 99;
        *cell = 7;
        kept && id.number < 3
    });
    let left = live_histograms(alloc, registry)?;
    Ok(found && read && written && deleted && left.as_slice() == [(2, 7)].as_slice())
}

/// What is looked at.
#[derive(Clone, Copy)]
enum Look {
    OneName,
    Counters,
    Gauges,
    Histograms,
}

/// Whether it holds of a registry.
fn look_at(alloc: Global, registry: &mut Mixed, look: Look) -> Result<bool, Memory> {
    match look {
        Look::OneName => Ok(one_name_serves(registry)),
        Look::Counters => counters_serve(alloc, registry),
        Look::Gauges => gauges_serve(alloc, registry),
        Look::Histograms => histograms_serve(alloc, registry),
    }
}

/// Whether it holds of a new registry. Here alone a registry is dropped.
fn holds(alloc: Global, look: Look) -> Result<bool, Memory> {
    let mut registry = Mixed::new(alloc)?;
    look_at(alloc, &mut registry, look)
}

#[test]
fn series_of_each_kind_are_kept(rt: HostRuntime) -> Result<(), Fail> {
    for look in [
        Look::OneName,
        Look::Counters,
        Look::Gauges,
        Look::Histograms,
    ] {
        assert!(rt; holds(rt.alloc(), look)?);
    }
    Ok(())
}
