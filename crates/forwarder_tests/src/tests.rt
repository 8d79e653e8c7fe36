//! With ample memory, a forwarder's first run sends what was counted, and its second one what the first one did; and what a pass
//! registered that was taken back is sent.

ghost use Rattle.std.specs.Prelude.{◌≡◌, IfOk};
ghost use Rattle.std.specs.Arc.{arc_value};

use dsd_exporter::{AggregationMode, BuildError, DogStatsDBuilder, MemoryLink};
use dsd_forwarder::*;
use hash_starts::HashStart;
use metrics_core::{Key, Label, Lcg, Level, Memory, Metadata};
use metrics_facade::{Recorder, RecorderOnceCell};
use std::alloc::Global;
use std::str;
use std::sync::Wait;
use std::test::Fail;

/// Counts once at a recorder.
fn count<R: Wait>(rt: &R, alloc: Global, recorder: &DogStatsDRecorder) -> Result<(), Memory> {
    let metadata = Metadata::new("tests", Level::INFO, None);
    let key = Key::from_static_name("c");
    let mut counter = HeldCounter::new(recorder.register_counter(rt, alloc, &key, &metadata)?);
    counter.increment(rt, 1);
    Ok(())
}

/// Records the values 1 to 5 at a recorder.
fn record<R: Wait>(rt: &R, alloc: Global, recorder: &DogStatsDRecorder) -> Result<(), Fail> {
    let metadata = Metadata::new("tests", Level::INFO, None);
    let key = Key::from_static_name("h");
    let lent = recorder.register_histogram(rt, alloc, &key, &metadata)?;
    let mut histogram = HeldHistogram::new(lent);
    for value in 1..6u8 {
        histogram.record(rt, alloc, value)?;
    }
    Ok(())
}

/// Calls a counter and a gauge.
fn count_and_set<R: Wait>(rt: &R, alloc: Global, recorder: &DogStatsDRecorder) -> Result<(), Fail> {
    let metadata = Metadata::new("tests", Level::INFO, None);
    let key = Key::from_static_name("c");
    let mut counter = HeldCounter::new(recorder.register_counter(rt, alloc, &key, &metadata)?);
    counter.absolute(rt, 42);
    counter.absolute(rt, 108);
    let key = Key::from_static_name("g");
    let mut gauge = HeldGauge::new(recorder.register_gauge(rt, alloc, &key, &metadata)?);
    gauge.set(rt, 3u8)?;
    gauge.increment(rt, 2u8)?;
    gauge.decrement(rt, 1u8)?;
    Ok(())
}

/// Whether the payload at a place has this line at a place.
fn has_line(link: &MemoryLink, payload: usize, place: usize, line: &str) -> bool {
    let Some(sent) = link.sent().get(payload) else {
        return false;
    };
    match str::from_utf8(sent.bytes()) {
        Ok(text) => text.lines().nth(place) == Some(line),
        Err(_) => false,
    }
}

/// What a run of the forwarder is to send.
#[derive(Clone, Copy)]
enum Look {
    /// One counter, and in the next run the exporter's own.
    OwnCounters,
    /// Two of five samples.
    Samples,
    /// A counter and a gauge, as the settings say.
    Settings,
    /// What was registered with a pass.
    ByPass,
}

/// The first run sends the counter alone, and the second one the exporter's own counters behind it.
fn sends_own<R: Wait>(
    rt: &R,
    alloc: Global,
    forwarder: &mut Forwarder,
    link: &mut MemoryLink,
) -> Result<bool, Memory> {
    let mut words = Lcg::new(0);
    forwarder.run_once(rt, alloc, 0, &mut words, link)?;
    let alone = link.sent().len() == 1 && link.sent()[0].bytes() == b"c:1|c\n".as_slice();
    forwarder.run_once(rt, alloc, 0, &mut words, link)?;
    let own =
        "datadog.dogstatsd.client.packets_sent:1|c|#client:rust,client_version:0.9.8,client_transport:udp";
    Ok(alone && has_line(link, 1, 0, "c:0|c") && has_line(link, 1, 5, own))
}

/// The three words behind 0 have the rests 1, 2 and 3 modulo 3, 4 and 5: so the third value takes the second place, and the
/// last two have none.
fn sends_samples<R: Wait>(
    rt: &R,
    alloc: Global,
    forwarder: &mut Forwarder,
    link: &mut MemoryLink,
) -> Result<bool, Memory> {
    forwarder.run_once(rt, alloc, 0, &mut Lcg::new(0), link)?;
    Ok(link.sent().len() == 1 && link.sent()[0].bytes() == b"h:1.0:3.0|d|@0.4\n".as_slice())
}

/// The lines have the prefix, the label of all lines, and the moment in whole seconds.
fn sends_with_settings<R: Wait>(
    rt: &R,
    alloc: Global,
    forwarder: &mut Forwarder,
    link: &mut MemoryLink,
) -> Result<bool, Memory> {
    forwarder.run_once(rt, alloc, 2_500_000_000, &mut Lcg::new(0), link)?;
    let lines = b"p.c:66|c|#e:f|T2\np.g:4.0|g|#e:f|T2\n".as_slice();
    Ok(link.sent().len() == 1 && link.sent()[0].bytes() == lines)
}

fn look_at<R: Wait>(
    rt: &R,
    alloc: Global,
    recorder: &DogStatsDRecorder,
    forwarder: &mut Forwarder,
    link: &mut MemoryLink,
    look: Look,
) -> Result<bool, Fail>
    requires { arc_value recorder.now.state ≡ forwarder.old.state }
{
    match look {
        Look::OwnCounters => {
            count(rt, alloc, recorder)?;
            Ok(sends_own(rt, alloc, forwarder, link)?)
        }
        Look::Samples => {
            record(rt, alloc, recorder)?;
            Ok(sends_samples(rt, alloc, forwarder, link)?)
        }
        Look::Settings => {
            count_and_set(rt, alloc, recorder)?;
            Ok(sends_with_settings(rt, alloc, forwarder, link)?)
        }
        Look::ByPass => Ok(sends_what_a_pass_registered(rt, alloc, recorder, forwarder, link)?),
    }
}

/// A builder with settings of lines.
fn with_settings(alloc: Global, builder: DogStatsDBuilder) -> Result<DogStatsDBuilder, Memory> {
    let mut labels = Vec::new(alloc);
    labels.push(Label::from_static_parts("e", "f"))?;
    let prefix = String::from_str(alloc, "p")?;
    Ok(
        builder
            .with_global_labels(labels)
            .set_global_prefix(prefix)
            .with_aggregation_mode(AggregationMode::Aggressive),
    )
}

/// A recorder and a forwarder: with settings of lines, or with sampling and room for two values.
fn built(alloc: Global, look: Look) -> Result<(DogStatsDRecorder, Forwarder), BuildError>
    ensures { IfOk result (λ made. arc_value made.0.state ≡ made.1.state) }
{
    let Ok(builder) = DogStatsDBuilder::new(alloc) else {
        return Err(BuildError::Memory);
    };
    if let Look::Settings = look {
        let Ok(builder) = with_settings(alloc, builder) else {
            return Err(BuildError::Memory);
        };
        return builder.build(alloc);
    }
    builder
        .with_histogram_sampling(true)
        .with_histogram_reservoir_size(2)
        .build(alloc)
}

/// Whether it holds of a new recorder and its forwarder. Here alone they are dropped.
fn holds<R: Wait>(rt: &R, alloc: Global, look: Look) -> Result<bool, Fail> {
    let (recorder, mut forwarder) = built(alloc, look)?;
    let mut link = MemoryLink::new(alloc, Vec::new(alloc));
    look_at(rt, alloc, &recorder, &mut forwarder, &mut link, look)
}

/// Whether a builder hands on what it was told.
fn hands_on(builder: DogStatsDBuilder) -> bool {
    let limit = builder.get_max_payload_len();
    let interval = builder.get_flush_interval();
    let parts = builder.into_parts();
    limit == 512
        && parts.max_payload_len == 512
        && interval == 7_000_000_000
        && parts.flush_interval == 7_000_000_000
        && parts.write_timeout == 2_000_000_000
        && parts.synchronous
        && !parts.configuration.telemetry
        && !parts.configuration.histograms_as_distributions
}

/// Installs a recorder, and answers whether it is refused since there is one.
fn is_there(alloc: Global, cell: &RecorderOnceCell<DogStatsDRecorder>) -> Result<bool, Memory> {
    let builder = DogStatsDBuilder::new(alloc)?;
    match builder.install(alloc, cell, &mut cell.note()) {
        Ok(_forwarder) => Ok(false),
        Err(BuildError::FailedToInstall) => Ok(true),
        Err(_) => Err(Memory),
    }
}

/// A registration with a pass that was taken back is in the next flush.
fn sends_what_a_pass_registered<R: Wait>(
    rt: &R,
    alloc: Global,
    recorder: &DogStatsDRecorder,
    forwarder: &mut Forwarder,
    link: &mut MemoryLink,
) -> Result<bool, Memory>
    requires { arc_value recorder.now.state ≡ forwarder.old.state }
{
    let mut pass = forwarder.lend_pass()?;
    let key = Key::from_static_name("seen");
    let lent = recorder.register_counter_seen(rt, alloc, &mut pass, &key)?;
    HeldCounter::new(lent).increment(rt, 1);
    let entries = pass.calls();
    forwarder.take_back(pass);
    forwarder.run_once(rt, alloc, 0, &mut Lcg::new(0), link)?;
    Ok(entries == 1 && has_line(link, 0, 0, "seen:1|c"))
}

#[test]
fn a_run_sends_what_the_last_one_did(rt: HostRuntime) -> Result<(), Fail> {
    assert!(rt; holds(&rt, rt.alloc(), Look::OwnCounters)?);
    Ok(())
}

#[test]
fn a_sample_is_sent_with_its_rate(rt: HostRuntime) -> Result<(), Fail> {
    assert!(rt; holds(&rt, rt.alloc(), Look::Samples)?);
    Ok(())
}

#[test]
fn lines_are_as_the_settings_say(rt: HostRuntime) -> Result<(), Fail> {
    assert!(rt; holds(&rt, rt.alloc(), Look::Settings)?);
    Ok(())
}

#[test]
fn what_a_pass_registered_is_sent(rt: HostRuntime) -> Result<(), Fail> {
    assert!(rt; holds(&rt, rt.alloc(), Look::ByPass)?);
    Ok(())
}

#[test]
fn a_builder_hands_on_its_settings(rt: HostRuntime) -> Result<(), Fail> {
    let builder = DogStatsDBuilder::starting_from(rt.alloc(), HashStart::drawn(&rt))?
        .with_write_timeout(2_000_000_000)
        .with_flush_interval(7_000_000_000)
        .with_synchronous_backend()
        .with_telemetry(false)
        .send_histograms_as_distributions(false)
        .with_maximum_payload_length(512)?;
    assert!(rt; hands_on(builder));
    Ok(())
}

#[test]
fn a_second_recorder_is_refused(rt: HostRuntime) -> Result<(), Fail> {
    let cell = RecorderOnceCell::new(rt.alloc());
    let first = is_there(rt.alloc(), &cell)?;
    let second = is_there(rt.alloc(), &cell)?;
    assert!(rt; !first && second);
    Ok(())
}
