//! What a pass of a counter or a gauge knows. No value of the type here is made.

use legal_history::history::View;
use metrics_core::SeriesCall;

/// What a pass knows of its cell.
pub struct CellView {
    /// The calls.
    pub history: View<SeriesCall>,
    /// Whether the pass's last call has changed the value and is still to be counted.
    pub waits: bool,
    /// How many calls the pass knows to be counted. It is the number itself, and not modulo 2^64.
    pub known: u64,
}
