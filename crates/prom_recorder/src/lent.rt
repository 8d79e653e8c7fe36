//! What a recorder lends of a series.

use metrics_core::Fixed;
use metrics_facade::{Counter, Gauge, Histogram};
use prom_exporter::Lent;
use sample_queue::{PromHistogram, SamplePass};
use series_cells::{CellPass, PromCounter, PromGauge};

/// A counter's handle, with a pass of its cell.
pub type LentCounter = Lent<Counter<PromCounter>, CellPass>;

/// A gauge's handle, with a pass of its cell.
pub type LentGauge = Lent<Gauge<PromGauge>, CellPass>;

/// A histogram's handle, with a pass of its queue.
pub type LentHistogram = Lent<Histogram<PromHistogram>, SamplePass<(Fixed, u64)>>;
