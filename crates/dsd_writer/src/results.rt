//! What a write of points answers.

ghost use Rattle.std.specs.Prelude.{◌≡◌, ◌<◌, ◌↔◌, IsTrue};

use std::marker::Model;

/// How many lines a write added, and how many points it left out.
#[derive(Clone, Copy, Debug, PartialEq, Eq)]
pub struct WriteResult {
    payloads_written: u64,
    points_dropped: u64,
}

impl Model for WriteResult {
    ghost use Rattle.dsd_writer.specs.Results.{Written};

    ghost Value = { Written };

    ghost view = { λ result. record { lines = result.payloads_written; left_out = result.points_dropped } };

    ghost inverse = { λ written. record { payloads_written = written.lines; points_dropped = written.left_out } };
}

impl WriteResult {
    /// So many lines, and so many points left out.
    pub(crate) fn new(payloads_written: u64, points_dropped: u64) -> WriteResult
        ensures { result ≡ record { lines = payloads_written; left_out = points_dropped } }
    {
        WriteResult {
            payloads_written,
            points_dropped,
        }
    }

    /// The number of lines that were written.
    pub fn payloads_written(&self) -> u64
        ensures lines { result ≡ self.now.lines }
    {
        self.payloads_written
    }

    /// The number of points that were left out, because a line with the point alone passes the limit.
    pub fn points_dropped(&self) -> u64
        ensures left_out { result ≡ self.now.left_out }
    {
        self.points_dropped
    }

    /// Whether points were left out.
    pub fn any_failures(&self) -> bool
        ensures left_out { IsTrue result ↔ (0 < self.now.left_out) }
    {
        self.points_dropped > 0
    }
}
