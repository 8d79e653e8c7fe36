//! One payload: it is cut into lines, and these are applied in order.

ghost use Rattle.std.specs.Prelude.{◌≡◌, ◌≤◌, ◌+◌, IfOk, IfErr, length};
ghost use Rattle.dsd_lines.specs.Payloads.{payload_lines};
ghost use Rattle.prom_exporter.specs.Exporter.{AllHome, state_of};
ghost use Rattle.dsd_receiver.specs.Receiving.{IsApplied, IsStopped};

use crate::lines::apply_line;
use crate::{Applied, ReceiveFault};
use dsd_lines::{Dialect, split_line};
use prom_exporter::PrometheusState;
use std::alloc::Global;
use std::sync::Wait;

/// Applies the lines of a payload, read in a dialect, to an exporter.
pub(crate) fn apply_lines<R: Wait>(
    state: &mut PrometheusState,
    rt: &R,
    alloc: Global,
    dialect: Dialect,
    payload: &[u8],
    moment: u64,
) -> Result<Applied, ReceiveFault>
    requires home { AllHome state.old }
    ensures home { AllHome state.new }
    ensures settings { state.new.settings ≡ state.old.settings }
    ensures applied { IfOk result (λ applied.
        IsApplied dialect moment (payload_lines payload.now) (state_of state.old) applied
        (state_of state.new)) }
    ensures refused { IfErr result (λ fault.
        IsStopped dialect moment (payload_lines payload.now) (state_of state.old) fault
        (state_of state.new)) }
    ensures few { IfOk result (λ applied. applied.lines + applied.bad ≤ length payload.now) }
{
    let mut applied = Applied { lines: 0, bad: 0 };
    let mut rest = payload;
    while !rest.is_empty() {
        let (line, behind) = split_line(rest);
        match apply_line(state, rt, alloc, dialect, line, moment) {
            Ok(true) => applied.lines += 1,
            Ok(false) => applied.bad += 1,
            Err(stop) => {
                return Err(ReceiveFault::Memory {
                    flushed: true,
                    done: applied.lines + applied.bad,
                    registered: stop.registered,
                    values: stop.values,
                });
            }
        }
        rest = behind;
    }
    Ok(applied)
}
