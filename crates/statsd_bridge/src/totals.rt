//! What a bridge has heard and not told yet, and the account that tells it.

ghost use Rattle.std.specs.Prelude.{◌≡◌, ◌+◌, IfOk, length, string_bytes};
ghost use Rattle.metrics_core.specs.Numbers.{in_64_bits};
ghost use Rattle.statsd_bridge.specs.Counted.{account_text, cut_counted, heard_counted, left_of, nothing, untold};

use dsd_receiver::Applied;
use metrics_core::Memory;
use std::alloc::Global;

/// How much a bridge has heard since its last account, each modulo 2^64.
#[derive(Clone, Copy, Debug, PartialEq, Eq, Drop)]
pub struct Totals {
    /// Payloads.
    pub datagrams: u64,
    /// Their bytes.
    pub bytes: u64,
    /// Lines of the dialect, which were applied.
    pub lines: u64,
    /// Other lines, which changed nothing.
    pub bad: u64,
    /// Payloads of which not all lines were applied, since memory was refused.
    pub cut: u64,
}

impl Totals {
    /// Nothing was heard.
    pub(crate) fn none() -> Totals
        ensures { result ≡ nothing }
    {
        Totals {
            datagrams: 0,
            bytes: 0,
            lines: 0,
            bad: 0,
            cut: 0,
        }
    }

    /// The same with a payload more, of which all lines were treated.
    pub(crate) fn with_heard(self, payload: &[u8], applied: Applied) -> Totals
        ensures { result ≡ heard_counted payload.now applied.lines applied.bad self }
    {
        Totals {
            datagrams: self.datagrams.wrapping_add(1),
            bytes: self.bytes.wrapping_add(payload.len() as u64),
            lines: self.lines.wrapping_add(applied.lines),
            bad: self.bad.wrapping_add(applied.bad),
            cut: self.cut,
        }
    }

    /// The same with a payload more that was cut.
    pub(crate) fn with_cut(self, payload: &[u8]) -> Totals
        ensures { result ≡ cut_counted payload.now self }
    {
        Totals {
            datagrams: self.datagrams.wrapping_add(1),
            bytes: self.bytes.wrapping_add(payload.len() as u64),
            lines: self.lines,
            bad: self.bad,
            cut: self.cut.wrapping_add(1),
        }
    }

    /// What is still to be told where so many lines of the account were.
    pub(crate) fn untold(self, told: u64) -> Totals
        ensures { result ≡ untold told self }
    {
        Totals {
            datagrams: left_of(0, told, self.datagrams),
            bytes: left_of(1, told, self.bytes),
            lines: left_of(2, told, self.lines),
            bad: left_of(3, told, self.bad),
            cut: left_of(4, told, self.cut),
        }
    }

    /// The account: lines of DogStatsD that tell the totals.
    pub(crate) fn account(&self, alloc: Global) -> Result<String, Memory>
        ensures { IfOk result (λ text. string_bytes text ≡ account_text self.now) }
    {
        Ok(format!(in alloc;
            "bridge_datagrams_total:{}|c\nbridge_bytes_total:{}|c\nbridge_lines_total:{}|c|#outcome:good\nbridge_lines_total:{}|c|#outcome:bad\nbridge_cut_datagrams_total:{}|c\n",
            self.datagrams, self.bytes, self.lines, self.bad, self.cut
        )?)
    }
}

/// A total, unless its line is one of those that were told.
fn left_of(place: u64, told: u64, total: u64) -> u64
    ensures { result ≡ left_of place told total }
{
    if place < told {
        return 0;
    }
    total
}
