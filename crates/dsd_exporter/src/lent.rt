//! What an exporter lends to those who make calls.

use metrics_core::SeriesId;

/// A series that was lent: the handle of its cell, a pass of the cell, and which series it is.
#[derive(Drop)]
pub struct Lent<H, P> {
    /// The handle of the cell.
    pub handle: H,
    /// The pass, with which calls are made.
    pub pass: P,
    /// The series.
    pub id: SeriesId,
}
