//! What a run reports.

/// What a run did. The counts of payloads and values are modulo 2^64.
#[derive(Clone, Copy, Debug, PartialEq, Eq)]
pub struct Report {
    /// The pages written, one for each round.
    pub pages: u64,
    /// The payloads that were sent.
    pub sent: u64,
    /// The payloads that the link refused.
    pub unsent: u64,
    /// The values that were left out of payloads: a line with such a value alone passes the limit.
    pub dropped: u64,
}
