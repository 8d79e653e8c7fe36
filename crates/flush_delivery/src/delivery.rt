//! One flush of a DogStatsD exporter, delivered to a receiver.

ghost use Rattle.std.specs.Prelude.{◌≡◌, ◌+◌, [], false, IfOk, IfErr, flat_map};
ghost use Rattle.metrics_core.specs.Numbers.{in_64_bits};
ghost use Rattle.dsd_lines.specs.Payloads.{payload_lines};
ghost use Rattle.dsd_writer.specs.Left.{payloads_left};
ghost use Rattle.dsd_writer.specs.Writers.{IsEmptied};
ghost use Rattle.prom_exporter.specs.Exporter.{state_of};
ghost use Rattle.flush_delivery.specs.Delivering.{Delivers, IsAppliedOver, IsPlain, IsStoppedOver, IsUndelivered, behind_lines, lines_delivered};

use dsd_exporter::{FlushState, State, TelemetryUpdate};
use dsd_lines::Dialect;
use dsd_receiver::{Applied, ReceiveFault, Receiver};
use dsd_writer::{PayloadWriter, Payloads};
use metrics_core::{Memory, Words};
use std::alloc::Global;
use std::sync::Wait;

/// Flushes a DogStatsD exporter at a moment, in nanoseconds, into a writer without lines and without lengths before payloads, and
/// applies each payload once to a receiver. Lines are counted modulo 2^64. Where the flush is refused, the lines of the series
/// that were flushed stand in the writer, and nothing was applied.
pub fn deliver<R: Wait, W: Words>(
    rt: &R,
    alloc: Global,
    from: &mut State,
    flush_state: &mut FlushState,
    writer: &mut PayloadWriter,
    telemetry: &mut TelemetryUpdate,
    moment: u64,
    words: &mut W,
    to: &mut Receiver,
) -> Result<Applied, ReceiveFault>
    requires plain { IsPlain writer.old }
    ensures delivered { IfOk result (λ applied.
        Delivers moment from.old from.new flush_state.old flush_state.new writer.old writer.new
        telemetry.old telemetry.new (W.to_come words.old) (W.to_come words.new) (state_of to.old) applied (state_of to.new)) }
    ensures refused { IfErr result (λ fault.
        IsUndelivered moment from.old from.new flush_state.old flush_state.new writer.old writer.new
        telemetry.old telemetry.new (W.to_come words.old) (W.to_come words.new) (state_of to.old) fault (state_of to.new)) }
    ensures settings { to.new.settings ≡ to.old.settings }
{
    match from.flush(rt, alloc, flush_state, writer, telemetry, moment, words) {
        Ok(()) => apply_written(rt, alloc, writer, moment, to),
        Err(Memory) => Err(ReceiveFault::Memory {
            flushed: false,
            done: 0,
            registered: false,
            values: 0,
        }),
    }
}

/// Applies the payloads of a writer, which has no lines then.
fn apply_written<R: Wait>(
    rt: &R,
    alloc: Global,
    writer: &mut PayloadWriter,
    moment: u64,
    to: &mut Receiver,
) -> Result<Applied, ReceiveFault>
    requires plain { writer.old.on_stream ≡ false }
    ensures emptied { IsEmptied writer.old writer.new }
    ensures applied { IfOk result (λ applied.
        IsAppliedOver moment (lines_delivered writer.old) (state_of to.old) applied
        (state_of to.new)) }
    ensures refused { IfErr result (λ fault.
        IsStoppedOver moment (lines_delivered writer.old) (state_of to.old) fault (state_of to.new)) }
    ensures settings { to.new.settings ≡ to.old.settings }
{
    apply_payloads(rt, alloc, writer.payloads(), moment, to)
}

/// Applies payloads once each, in order.
fn apply_payloads<R: Wait>(
    rt: &R,
    alloc: Global,
    mut payloads: Payloads<'_>,
    moment: u64,
    to: &mut Receiver,
) -> Result<Applied, ReceiveFault>
    ensures applied { IfOk result (λ applied.
        IsAppliedOver moment (flat_map payload_lines (payloads_left payloads.entry)) (state_of to.old) applied (state_of to.new)) }
    ensures refused { IfErr result (λ fault.
        IsStoppedOver moment (flat_map payload_lines (payloads_left payloads.entry)) (state_of to.old) fault (state_of to.new)) }
    ensures settings { to.new.settings ≡ to.old.settings }
{
    let mut applied = Applied { lines: 0, bad: 0 };
    while let Some(payload) = payloads.next_payload() {
        match to.apply_payload(rt, alloc, Dialect::DogStatsd, payload, moment) {
            Ok(more) => applied = both(applied, more),
            Err(fault) => return Err(behind(applied, fault)),
        }
    }
    Ok(applied)
}

/// The counts of two together, modulo 2^64.
fn both(before: Applied, more: Applied) -> Applied
    ensures lines { result.lines ≡ in_64_bits (before.lines + more.lines) }
    ensures bad { result.bad ≡ in_64_bits (before.bad + more.bad) }
{
    Applied {
        lines: before.lines.wrapping_add(more.lines),
        bad: before.bad.wrapping_add(more.bad),
    }
}

/// A fault behind lines that were applied.
fn behind(applied: Applied, fault: ReceiveFault) -> ReceiveFault
    ensures { result ≡ behind_lines applied fault }
{
    let ReceiveFault::Memory {
        flushed,
        done,
        registered,
        values,
    } = fault;
    let before = applied.lines.wrapping_add(applied.bad);
    ReceiveFault::Memory {
        flushed,
        done: before.wrapping_add(done),
        registered,
        values,
    }
}
