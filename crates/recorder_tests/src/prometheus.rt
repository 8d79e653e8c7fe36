//! The recorder of a Prometheus exporter, its handles, its installation, and scopes of recorders.

use metrics_core::{Key, KeyName, Level, MemorySink, Metadata, SharedString};
use metrics_facade::{
    Recorder, RecorderOnceCell, RecorderScope, set_default_local_recorder, with_local_recorder,
};
use prom_exporter::PrometheusBuilder;
use prom_recorder::{BuildRecorder, InstallError, IntoHandle, PrometheusRecorder};
use std::alloc::Global;
use std::sync::Wait;
use std::test::Fail;

/// A recorder with the settings of a new builder.
fn new_recorder(alloc: Global) -> Result<PrometheusRecorder, Fail> {
    Ok(PrometheusBuilder::new(alloc)?.build_recorder(alloc)?)
}

/// Adds to the counter `c` of a recorder.
fn count<R: Wait>(
    rt: &R,
    alloc: Global,
    recorder: &PrometheusRecorder,
    value: u64,
) -> Result<(), Fail> {
    let key = Key::from_static_name("c");
    let about = Metadata::new("tests", Level::Info, None);
    let mut counter = recorder
        .register_counter(rt, alloc, &key, &about)?
        .into_handle();
    counter.increment(value);
    Ok(())
}

/// Adds to the counter `c` of the recorder that counts within a scope.
fn count_within<R: Wait>(
    rt: &R,
    alloc: Global,
    scope: &RecorderScope<'_, PrometheusRecorder>,
    value: u64,
) -> Result<(), Fail> {
    match scope.current() {
        Some(recorder) => count(rt, alloc, recorder, value),
        None => Err(Fail::new("no recorder counts")),
    }
}

/// Whether the page that a handle of this recorder shows is this.
fn shows<R: Wait>(
    rt: &R,
    alloc: Global,
    recorder: &PrometheusRecorder,
    page: &str,
) -> Result<bool, Fail> {
    let handle = recorder.handle()?.clone()?;
    Ok(handle.render(rt, alloc, 0)?.as_str() == page)
}

/// Describes the counter `c`.
fn describe<R: Wait>(
    rt: &R,
    alloc: Global,
    recorder: &PrometheusRecorder,
    text: &'static str,
) -> Result<(), Fail> {
    let name = KeyName::from_const_str("c");
    recorder.describe_counter(rt, alloc, name, None, SharedString::const_str(text))?;
    Ok(())
}

/// Whether a clone of the recorder's handle writes this page.
fn writes<R: Wait>(
    rt: &R,
    alloc: Global,
    recorder: &PrometheusRecorder,
    page: &str,
) -> Result<bool, Fail> {
    let handle = recorder.handle()?.clone()?;
    let mut sink = MemorySink::new(alloc, 1_000, Vec::new(alloc));
    handle.render_to_write(rt, alloc, 0, &mut sink)?;
    Ok(sink.written() == page.as_bytes())
}

#[test]
fn a_published_description_stays(rt: HostRuntime) -> Result<(), Fail> {
    let alloc = rt.alloc();
    let recorder = new_recorder(alloc)?;
    describe(&rt, alloc, &recorder, "one")?;
    recorder.handle()?.run_upkeep(&rt, alloc)?;
    describe(&rt, alloc, &recorder, "two")?;
    count(&rt, alloc, &recorder, 0)?;
    let page = "# HELP c one\n# TYPE c counter\nc 0\n\n";
    assert!(rt; shows(&rt, alloc, &recorder, page)? && writes(&rt, alloc, &recorder, page)?);
    recorder.end(&rt);
    Ok(())
}

/// Counts with the recorder of a scope, within it with a next one, and within that with a last one.
fn count_in_scopes<'a, R: Wait>(
    rt: &R,
    alloc: Global,
    scope: &mut RecorderScope<'a, PrometheusRecorder>,
    next: &'a PrometheusRecorder,
    last: &'a PrometheusRecorder,
) -> Result<(), Fail> {
    count_within(rt, alloc, scope, 1)?;
    count_in_next(rt, alloc, scope, next, last)?;
    count_within(rt, alloc, scope, 20)
}

/// Counts with a next recorder, and within that with a last one. Then the next one ends.
fn count_in_next<'a, R: Wait>(
    rt: &R,
    alloc: Global,
    scope: &mut RecorderScope<'a, PrometheusRecorder>,
    next: &'a PrometheusRecorder,
    last: &'a PrometheusRecorder,
) -> Result<(), Fail> {
    let guard = set_default_local_recorder(scope, next);
    let mut within = guard.scope();
    count_within(rt, alloc, &within, 1)?;
    let innermost = &*last;
    count_in_last(rt, alloc, &mut within, innermost)?;
    count_within(rt, alloc, &within, 1)
}

/// Counts with a last recorder, within a scope.
fn count_in_last<'a, R: Wait>(
    rt: &R,
    alloc: Global,
    scope: &mut RecorderScope<'a, PrometheusRecorder>,
    last: &'a PrometheusRecorder,
) -> Result<(), Fail> {
    with_local_recorder(
        scope,
        last,
        |innermost| count_within(rt, alloc, innermost, 10),
    )
}

#[test]
fn the_recorder_of_the_innermost_scope_counts(rt: HostRuntime) -> Result<(), Fail> {
    let alloc = rt.alloc();
    let root = new_recorder(alloc)?;
    let next = new_recorder(alloc)?;
    let last = new_recorder(alloc)?;
    with_local_recorder(&mut RecorderScope::new(), &root, |scope| {
        count_in_scopes(&rt, alloc, scope, &next, &last)
    })?;
    assert!(rt; shows(&rt, alloc, &root, "# TYPE c counter\nc 21\n\n")?);
    assert!(rt; shows(&rt, alloc, &next, "# TYPE c counter\nc 2\n\n")?);
    assert!(rt; shows(&rt, alloc, &last, "# TYPE c counter\nc 10\n\n")?);
    Ok(())
}

/// Whether a second recorder is handed back by a cell, and a second installation refused by its text.
fn a_second_is_refused(
    alloc: Global,
    cell: &RecorderOnceCell<PrometheusRecorder>,
) -> Result<bool, Fail> {
    let second = Box::new(alloc, new_recorder(alloc)?)?;
    let handed_back = cell.set(&mut cell.note(), second).is_err();
    let builder = PrometheusBuilder::new(alloc)?;
    match builder.install_recorder(alloc, cell, &mut cell.note()) {
        Err(InstallError::FailedToSetGlobalRecorder(refused)) => {
            let text =
                "failed to install exporter as global recorder: attempted to set a recorder after the metrics system was already initialized";
            let error = InstallError::FailedToSetGlobalRecorder(refused);
            Ok(handed_back && format!(in alloc; "{error}")?.as_str() == text)
        }
        Err(InstallError::Build(_)) | Ok(_) => Ok(false),
    }
}

#[test]
fn the_first_recorder_of_a_cell_stays(rt: HostRuntime) -> Result<(), Fail> {
    let alloc = rt.alloc();
    let cell = RecorderOnceCell::new(alloc);
    let first = new_recorder(alloc)?;
    count(&rt, alloc, &first, 3)?;
    let first = Box::new(alloc, first)?;
    assert!(rt; cell.set(&mut cell.note(), first).is_ok());
    assert!(rt; a_second_is_refused(alloc, &cell)?);
    match cell.try_load(&mut cell.note()) {
        Some(there) => {
            assert!(rt; shows(&rt, alloc, there, "# TYPE c counter\nc 3\n\n")?);
            Ok(())
        }
        None => Err(Fail::new("no recorder is there")),
    }
}
