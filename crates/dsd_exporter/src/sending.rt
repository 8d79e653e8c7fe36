//! A flush that is sent: its payloads are handed to a link.

ghost use Rattle.std.specs.Prelude.{◌≡◌, ◌+◌, ◌≤◌, ℕ, [], ◌∷◌, List, length, IfOk, OnErr};
ghost use Rattle.metrics_core.specs.Numbers.{in_64_bits};
ghost use Rattle.dsd_writer.specs.Left.{payloads_left};
ghost use Rattle.dsd_writer.specs.Writers.{IsEmptied};
ghost use Rattle.dsd_exporter.specs.Flushing.{Found, Flushes};
ghost use Rattle.dsd_exporter.specs.Sending.{Outcome, HandsOut, Counts, SendsFlush, SendsWritten, WritesFlush, payloads_in};

use crate::flush_state::FlushState;
use crate::link::Link;
use crate::state::State;
use crate::update::TelemetryUpdate;
use dsd_writer::{PayloadWriter, Payloads};
use metrics_core::{Memory, Words};
use std::alloc::Global;
use std::sync::Wait;

/// What came of a flush that was sent.
#[derive(Clone, Copy, Debug, PartialEq, Eq)]
pub struct FlushReport {
    /// The number of payloads whose send answered Ok.
    pub sent: u64,
    /// The number of payloads whose send failed.
    pub unsent: u64,
    /// The number of points that were left out, modulo 2^64: a line with such a point alone passes the limit.
    pub dropped: u64,
}

/// Hands a payload to a link, counts it, and answers whether it was sent.
fn send_payload<L: Link>(payload: &[u8], telemetry: &mut TelemetryUpdate, link: &mut L) -> bool
    ensures handed { HandsOut (payload.now ∷ [])
        (record { payload = payload.now; went = result } ∷ []) (L.aimed link.old)
        (L.sent link.old) (L.sent link.new) (L.faults link.old) (L.faults link.new) telemetry.old telemetry.new }
    ensures aimed { L.aimed link.new ≡ L.aimed link.old }
    ensures never_falls { L.faults link.old ≤ L.faults link.new }
{
    let is_sent = link.send(payload).is_ok();
    if is_sent {
        telemetry.track_packet_send_succeeded(payload.len());
    } else {
        telemetry.track_packet_send_failed(payload.len());
    }
    is_sent
}

/// Hands payloads to a link, each once, in order, and answers how many were sent and how many weren't.
fn send_payloads<L: Link>(
    mut payloads: Payloads<'_>,
    telemetry: &mut TelemetryUpdate,
    link: &mut L,
) -> (u64, u64)
    ensures handed { (outcomes : List Outcome)
        × HandsOut (payloads_left payloads.entry) outcomes (L.aimed link.old)
        (L.sent link.old) (L.sent link.new) (L.faults link.old) (L.faults link.new) telemetry.old telemetry.new × Counts outcomes result }
    ensures all { result.0 + result.1 ≡ length (payloads_left payloads.entry) }
    ensures aimed { L.aimed link.new ≡ L.aimed link.old }
    ensures never_falls { L.faults link.old ≤ L.faults link.new }
{
    let count = payloads.len() as u64;
    let mut sent = 0;
    for _number in 0..count {
        let Some(payload) = payloads.next_payload() else {
            unreachable!()
        };
        let is_sent = send_payload(payload, telemetry, link);
        sent += u64::from(is_sent);
    }
    (sent, count - sent)
}

/// Hands the payloads of a writer to a link, as `send_payloads` does. The writer has no lines then.
fn send_lines<L: Link>(
    writer: &mut PayloadWriter,
    telemetry: &mut TelemetryUpdate,
    link: &mut L,
) -> (u64, u64)
    ensures handed { (outcomes : List Outcome)
        × HandsOut (payloads_in writer.old) outcomes (L.aimed link.old)
        (L.sent link.old) (L.sent link.new) (L.faults link.old) (L.faults link.new) telemetry.old telemetry.new × Counts outcomes result }
    ensures all { result.0 + result.1 ≡ length (payloads_in writer.old) }
    ensures emptied { IsEmptied writer.old writer.new }
    ensures aimed { L.aimed link.new ≡ L.aimed link.old }
    ensures never_falls { L.faults link.old ≤ L.faults link.new }
{
    send_payloads(writer.payloads(), telemetry, link)
}

/// How much a count modulo 2^64 has grown.
fn grown(before: u64, now: u64) -> u64
    ensures { (n : ℕ) → now ≡ in_64_bits (before + n) → result ≡ in_64_bits n }
{
    now.wrapping_sub(before)
}

/// Flushes all series into a writer, as `State::flush` does, and answers how many points were left out, modulo 2^64. The moment
/// is in nanoseconds. Where memory is refused the series before the refused one were flushed.
pub fn write_flush<R: Wait, W: Words>(
    rt: &R,
    alloc: Global,
    state: &mut State,
    flush_state: &mut FlushState,
    writer: &mut PayloadWriter,
    telemetry: &mut TelemetryUpdate,
    moment: u64,
    words: &mut W,
) -> Result<u64, Memory>
    ensures written { IfOk result (WritesFlush moment state.old state.new flush_state.old
        flush_state.new writer.old writer.new telemetry.old telemetry.new
        (W.to_come words.old) (W.to_come words.new)) }
    ensures refused { OnErr result ((found : Found)
        × Flushes moment found state.old state.new flush_state.old flush_state.new writer.old
        writer.new
        telemetry.old telemetry.new (W.to_come words.old) (W.to_come words.new)) }
{
    let before = telemetry.points_left_out();
    state.flush(rt, alloc, flush_state, writer, telemetry, moment, words)?;
    Ok(grown(before, telemetry.points_left_out()))
}

/// Hands the payloads of a flush that was written to a link, each once, in order. Each is counted in the update with its bytes,
/// the length before it included. What is reported as left out is what `write_flush` answered.
pub fn send_written<L: Link>(
    writer: &mut PayloadWriter,
    telemetry: &mut TelemetryUpdate,
    dropped: u64,
    link: &mut L,
) -> FlushReport
    ensures sent { SendsWritten writer.old writer.new telemetry.old telemetry.new (L.aimed link.old)
        (L.sent link.old) (L.sent link.new)
        (L.faults link.old) (L.faults link.new) (result.sent, result.unsent) }
    ensures dropped { result.dropped ≡ dropped }
    ensures aimed { L.aimed link.new ≡ L.aimed link.old }
    ensures never_falls { L.faults link.old ≤ L.faults link.new }
{
    let (sent, unsent) = send_lines(writer, telemetry, link);
    FlushReport {
        sent,
        unsent,
        dropped,
    }
}

/// Flushes all series, as `write_flush` does, and hands each payload that the writer then has to the link, as `send_written`
/// does. Where memory is refused nothing was handed to the link.
pub fn send_flush<R: Wait, L: Link, W: Words>(
    rt: &R,
    alloc: Global,
    state: &mut State,
    flush_state: &mut FlushState,
    writer: &mut PayloadWriter,
    telemetry: &mut TelemetryUpdate,
    moment: u64,
    words: &mut W,
    link: &mut L,
) -> Result<FlushReport, Memory>
    ensures sent { IfOk result (SendsFlush moment state.old state.new flush_state.old
        flush_state.new writer.old writer.new telemetry.old telemetry.new
        (W.to_come words.old) (W.to_come words.new) (L.aimed link.old) (L.sent link.old) (L.sent link.new) (L.faults link.old) (L.faults link.new)) }
    ensures refused { OnErr result ((found : Found)
        × Flushes moment found state.old state.new flush_state.old flush_state.new writer.old
        writer.new
        telemetry.old telemetry.new (W.to_come words.old) (W.to_come words.new)) }
    ensures unused { OnErr result (link.new ≡ link.old) }
    ensures aimed { L.aimed link.new ≡ L.aimed link.old }
    ensures never_falls { L.faults link.old ≤ L.faults link.new }
{
    let dropped = write_flush(
        rt,
        alloc,
        state,
        flush_state,
        writer,
        telemetry,
        moment,
        words,
    )?;
    Ok(send_written(writer, telemetry, dropped, link))
}
