//! Streams: payloads one after another, each led by its length, become a page.

ghost use Rattle.std.specs.Prelude.{◌≡◌, ◌≢◌, [], IfErr, IfOk, OnErr, OnOk};
ghost use Rattle.metrics_core.specs.Outside.{Rose, GrewBy, GrewByPrefix};
ghost use Rattle.prom_format.specs.Pages.{page_text};
ghost use Rattle.prom_exporter.specs.Exporter.{AllHome, AreTimely, default_settings, page_families, state_of};
ghost use Rattle.prom_exporter.specs.State.{empty_state};
ghost use Rattle.dsd_receiver.specs.declared.streams.StreamFault.TheVariants.{Cut};
ghost use Rattle.dsd_receiver.specs.Streams.{AreCounted, HasStreamCause, IsIntakeFault, IsReceived, IsTakenIn, IsWritingFault, LeavesStream};

use crate::receiver::{Applied, Receiver};
use dsd_lines::{Dialect, Frames};
use hash_starts::HashStart;
use metrics_core::{Memory, Sink, write_whole};
use prom_exporter::{BuildError, PrometheusBuilder, PrometheusState};
use std::alloc::Global;
use std::sync::Wait;

/// What was received.
#[derive(Clone, Copy, Debug, PartialEq, Eq)]
pub struct Received {
    /// How many payloads.
    pub frames: u64,
    /// How many of their lines are lines.
    pub lines: u64,
    /// How many aren't, and changed nothing.
    pub bad: u64,
}

/// Why a stream became no page.
#[derive(Clone, Copy, Debug, PartialEq, Eq)]
pub enum StreamFault {
    /// The stream ends within a payload, behind so many whole ones.
    Cut { frames: u64 },
    /// A write failed.
    WriteFault,
    /// Memory was refused.
    Memory,
}

/// Receives the payloads of a stream of DogStatsD, each led by its length, at moment 0, and writes the page that an exporter with the default
/// settings shows then to `out`, ended by the line `# EOF`. Nothing is written before all payloads were received. Names, labels and
/// keys are looked up by hashes from a start.
pub fn receive<R: Wait, K: Sink>(
    rt: &R,
    alloc: Global,
    start: HashStart,
    bytes: &[u8],
    out: &mut K,
) -> Result<Received, StreamFault>
    ensures received { OnOk result (IsReceived bytes.now (K.written out.old) (K.written out.new)) }
    ensures counted { IfOk result (AreCounted bytes.now) }
    ensures cause { IfErr result (HasStreamCause bytes.now
        (Rose (K.faults out.old) (K.faults out.new))) }
    ensures leaves { IfErr result (LeavesStream bytes.now (K.written out.old) (K.written out.new)) }
{
    match default_state(alloc, start) {
        Ok(state) => receive_page(rt, alloc, bytes, Receiver::new(alloc, state), out),
        Err(Memory) => Err(StreamFault::Memory),
    }
}

/// An exporter with the default settings and no series.
fn default_state(alloc: Global, start: HashStart) -> Result<PrometheusState, Memory>
    ensures home { IfOk result AllHome }
    ensures empty { IfOk result (λ state. state_of state ≡ empty_state) }
    ensures settings { IfOk result (λ state. state.settings ≡ default_settings) }
{
    let builder = PrometheusBuilder::starting_from(alloc, start)?;
    match builder.build_state(alloc) {
        Ok(state) => Ok(state),
        Err(_) => Err(Memory),
    }
}

/// Receives a stream, and writes the page of what was received. The exporter is ended whatever comes of it.
fn receive_page<R: Wait, K: Sink>(
    rt: &R,
    alloc: Global,
    bytes: &[u8],
    mut receiver: Receiver,
    out: &mut K,
) -> Result<Received, StreamFault>
    requires empty { state_of receiver ≡ empty_state }
    requires settings { receiver.settings ≡ default_settings }
    ensures received { OnOk result (IsReceived bytes.now (K.written out.old) (K.written out.new)) }
    ensures counted { IfOk result (AreCounted bytes.now) }
    ensures cause { IfErr result (HasStreamCause bytes.now
        (Rose (K.faults out.old) (K.faults out.new))) }
    ensures leaves { IfErr result (LeavesStream bytes.now (K.written out.old) (K.written out.new)) }
{
    match receive_stream(rt, alloc, bytes, &mut receiver) {
        Ok(received) => {
            let mut state = receiver.into_state();
            let written = write_page(rt, alloc, &mut state, out);
            state.end(rt);
            match written {
                Ok(()) => Ok(received),
                Err(fault) => Err(fault),
            }
        }
        Err(fault) => {
            receiver.into_state().end(rt);
            Err(fault)
        }
    }
}

/// Receives a stream up to its end, where all of it was received: each payload in order.
fn receive_stream<R: Wait>(
    rt: &R,
    alloc: Global,
    bytes: &[u8],
    receiver: &mut Receiver,
) -> Result<Received, StreamFault>
    requires empty { state_of receiver.old ≡ empty_state }
    ensures received { IfOk result (λ received.
        IsTakenIn bytes.now received (state_of receiver.new)) }
    ensures refused { IfErr result (IsIntakeFault bytes.now) }
    ensures settings { receiver.new.settings ≡ receiver.old.settings }
{
    let mut frames = Frames::new(alloc);
    match frames.feed(bytes) {
        Ok(()) => (),
        Err(Memory) => return Err(StreamFault::Memory),
    }
    let mut received = Received {
        frames: 0,
        lines: 0,
        bad: 0,
    };
    loop {
        match frames.next_frame(alloc) {
            Ok(Some(payload)) => {
                match receiver.apply_payload(rt, alloc, Dialect::DogStatsd, &payload, 0) {
                    Ok(applied) => received = received.and(applied),
                    Err(_) => return Err(StreamFault::Memory),
                }
            }
            Ok(None) => return whole(received, &frames),
            Err(Memory) => return Err(StreamFault::Memory),
        }
    }
}

/// What was received, unless something is left of the stream.
fn whole(received: Received, rest: &Frames) -> Result<Received, StreamFault>
    ensures whole { IfOk result (λ all. (all ≡ received) × (rest.now ≡ [])) }
    ensures cut { IfErr result (λ fault. (fault ≡ Cut received.frames) × (rest.now ≢ [])) }
{
    if rest.is_empty() {
        return Ok(received);
    }
    Err(StreamFault::Cut {
        frames: received.frames,
    })
}

impl Received {
    ghost use Rattle.std.specs.Prelude.{◌≡◌, ◌+◌, ◌<◌, ◌^◌};

    /// The same with a payload more.
    fn and(self, applied: Applied) -> Received
        requires frames { self.frames + 1 < 2 ^ 64 }
        requires lines { self.lines + applied.lines < 2 ^ 64 }
        requires bad { self.bad + applied.bad < 2 ^ 64 }
        ensures frames { result.frames ≡ self.frames + 1 }
        ensures lines { result.lines ≡ self.lines + applied.lines }
        ensures bad { result.bad ≡ self.bad + applied.bad }
    {
        Received {
            frames: self.frames + 1,
            lines: self.lines + applied.lines,
            bad: self.bad + applied.bad,
        }
    }
}

/// Writes the page at moment 0, ended by the line `# EOF`.
fn write_page<R: Wait, K: Sink>(
    rt: &R,
    alloc: Global,
    state: &mut PrometheusState,
    out: &mut K,
) -> Result<(), StreamFault>
    requires home { AllHome state.old }
    requires timely { AreTimely 0 state.old }
    ensures page { OnOk result (GrewBy (K.written out.old) (K.written out.new)
        (page_text (page_families 0 state.old))) }
    ensures prefix { OnErr result (GrewByPrefix (K.written out.old) (K.written out.new)
        (page_text (page_families 0 state.old))) }
    ensures refused { IfErr result (IsWritingFault (Rose (K.faults out.old) (K.faults out.new))) }
{
    match state.render_to_write(rt, alloc, 0, out) {
        Ok(()) => (),
        Err(BuildError::WriteFault) => return Err(StreamFault::WriteFault),
        Err(_) => return Err(StreamFault::Memory),
    }
    match write_whole(out, b"# EOF\n") {
        Ok(()) => Ok(()),
        Err(_) => Err(StreamFault::WriteFault),
    }
}
