//! The kinds of series, and the names that an exporter gives to single series.

/// The kind of a series.
#[derive(Clone, Copy, Debug, PartialEq, Eq, Hash)]
pub enum MetricKind {
    Counter,
    Gauge,
    Histogram,
}

/// Names one series of one exporter's state. Numbers count all series that were ever made in that state, from 0.
#[derive(Clone, Copy, Debug, PartialEq, Eq, Hash)]
pub struct SeriesId {
    pub kind: MetricKind,
    pub number: u64,
}
