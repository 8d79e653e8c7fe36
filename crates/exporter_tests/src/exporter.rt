//! The exporter with ample memory: counters and gauges that it lends, and a sink that fails.

ghost use Rattle.std.specs.Prelude.{◌≡◌};
ghost use Rattle.prom_exporter.specs.Exporter.{no_cells};

use metrics_core::{Fixed, Key, KeyName, Label, MemorySink};
use metrics_registry::MetricKindMask;
use page_texts::Render;
use prom_exporter::{BuildError, PrometheusBuilder, PrometheusState};
use std::alloc::Global;
use std::sync::Wait;
use std::test::Fail;

/// Whether the body of an exporter's page at moment 0 is this.
fn shows<R: Wait>(rt: &R, alloc: Global, exporter: &mut PrometheusState, body: &[u8]) -> bool {
    shows_at(rt, alloc, exporter, 0, body)
}

/// Whether the body of an exporter's page at a moment is this.
fn shows_at<R: Wait>(
    rt: &R,
    alloc: Global,
    exporter: &mut PrometheusState,
    moment: u64,
    body: &[u8],
) -> bool {
    match exporter.render(rt, alloc, moment) {
        Ok(page) => page.as_bytes() == body,
        Err(_) => false,
    }
}

/// A key of a name and one label.
fn labelled_key(alloc: Global) -> Result<Key, Fail> {
    let labels = Vec::from_array(alloc, [Label::from_static_parts("wutang", "forever")])?;
    Ok(Key::from_parts(KeyName::from_const_str("basic_counter"), labels))
}

fn a_lent_counter<R: Wait>(
    rt: &R,
    alloc: Global,
    exporter: &mut PrometheusState,
) -> Result<bool, Fail>
    requires { exporter.old.series ≡ no_cells }
{
    let id = exporter.register_counter(alloc, &labelled_key(alloc)?)?;
    let Some(mut lent) = exporter.lend_counter(alloc, id)? else {
        return Ok(false);
    };
    lent.handle.increment(&mut lent.pass, 42);
    exporter.give_back_counter(lent);
    let body = b"# TYPE basic_counter counter\nbasic_counter{a=\"1\",wutang=\"forever\"} 42\n\n";
    Ok(shows(rt, alloc, exporter, body.as_slice()))
}

fn a_counter_that_is_out<R: Wait>(
    rt: &R,
    alloc: Global,
    exporter: &mut PrometheusState,
) -> Result<bool, Fail> {
    let id = exporter.register_counter(alloc, &Key::from_static_name("c"))?;
    match exporter.lend_counter(alloc, id)? {
        Some(mut lent) => {
            lent.handle.increment(&mut lent.pass, 5);
            let body = b"# TYPE c counter\nc{a=\"1\"} 5\n\n";
            Ok(shows(rt, alloc, exporter, body.as_slice()))
        }
        None => Ok(false),
    }
}

fn a_lent_gauge<R: Wait>(
    rt: &R,
    alloc: Global,
    exporter: &mut PrometheusState,
) -> Result<bool, Fail>
    requires { exporter.old.series ≡ no_cells }
{
    let id = exporter.register_gauge(alloc, &Key::from_static_name("g"))?;
    let Some(mut lent) = exporter.lend_gauge(alloc, id)? else {
        return Ok(false);
    };
    let _in_range = lent.handle.set(&mut lent.pass, Fixed(-3_140_000_000));
    exporter.give_back_gauge(lent);
    let body = b"# TYPE g gauge\ng{a=\"1\"} -3.14\n\n";
    Ok(shows(rt, alloc, exporter, body.as_slice()))
}

fn a_failing_sink<R: Wait>(
    rt: &R,
    alloc: Global,
    exporter: &mut PrometheusState,
) -> Result<bool, Fail> {
    let _id = exporter.register_counter(alloc, &Key::from_static_name("basic_counter"))?;
    let mut sink = MemorySink::new(alloc, 16, Vec::from_slice(alloc, &[1])?);
    let refused = exporter.render_to_write(rt, alloc, 0, &mut sink);
    Ok(refused == Err(BuildError::WriteFault) && sink.written() == b"# TYPE basic_cou".as_slice())
}

/// A counter is noted at 0, is there at 5, and is gone at 6; a gauge stays.
fn an_idle_counter<R: Wait>(
    rt: &R,
    alloc: Global,
    exporter: &mut PrometheusState,
) -> Result<bool, Fail> {
    let id = exporter.register_counter(alloc, &Key::from_static_name("c"))?;
    let _gauge = exporter.register_gauge(alloc, &Key::from_static_name("g"))?;
    let both = b"# TYPE c counter\nc{a=\"1\"} 0\n\n# TYPE g gauge\ng{a=\"1\"} 0\n\n";
    let noted = shows(rt, alloc, exporter, both.as_slice());
    let stays = shows_at(rt, alloc, exporter, 5, both.as_slice());
    let gone = shows_at(
        rt,
        alloc,
        exporter,
        6,
        b"# TYPE g gauge\ng{a=\"1\"} 0\n\n".as_slice(),
    );
    let lent = exporter.lend_counter(alloc, id)?;
    Ok(noted && stays && gone && lent.is_none())
}

/// What is looked at.
#[derive(Clone, Copy)]
enum Look {
    ALentCounter,
    ACounterThatIsOut,
    ALentGauge,
    AFailingSink,
    AnIdleCounter,
}

/// Whether it holds of an exporter.
fn look_at<R: Wait>(
    rt: &R,
    alloc: Global,
    exporter: &mut PrometheusState,
    look: Look,
) -> Result<bool, Fail>
    requires { exporter.old.series ≡ no_cells }
{
    match look {
        Look::ALentCounter => a_lent_counter(rt, alloc, exporter),
        Look::ACounterThatIsOut => a_counter_that_is_out(rt, alloc, exporter),
        Look::ALentGauge => a_lent_gauge(rt, alloc, exporter),
        Look::AFailingSink => a_failing_sink(rt, alloc, exporter),
        Look::AnIdleCounter => an_idle_counter(rt, alloc, exporter),
    }
}

/// Whether it holds of a new exporter with a global label. Here alone an exporter is ended.
fn holds<R: Wait>(rt: &R, alloc: Global, look: Look) -> Result<bool, Fail> {
    let (key, value) = ("a".to_string(alloc)?, "1".to_string(alloc)?);
    let mut exporter = PrometheusBuilder::new(alloc)?
        .add_global_label(alloc, key, value)?
        .idle_timeout(MetricKindMask::COUNTER, Some(5))
        .build_state(alloc)?;
    let held = look_at(rt, alloc, &mut exporter, look);
    exporter.end(rt);
    held
}

#[test]
fn what_is_lent_counts_and_a_sink_that_fails_has_a_prefix(rt: HostRuntime) -> Result<(), Fail> {
    let alloc = rt.alloc();
    assert!(rt;
        holds(&rt, alloc, Look::ALentCounter)? && holds(&rt, alloc, Look::ACounterThatIsOut)?
    );
    assert!(rt; holds(&rt, alloc, Look::ALentGauge)? && holds(&rt, alloc, Look::AFailingSink)?);
    assert!(rt; holds(&rt, alloc, Look::AnIdleCounter)?);
    Ok(())
}
