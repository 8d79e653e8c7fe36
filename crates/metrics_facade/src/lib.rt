//! What a service programs against: the calls that change a counter, a gauge or a histogram, the handles that make
//! them, recorders that hand out such handles, and which recorder is the current one.
//!
//! A handle, and a call with the pass of who makes it:
//!
//!     let requests = Counter::from_arc(cell);
//!     requests.increment(&mut pass, 1);
#![tactic(auto)]

mod cells;
mod faults;
mod handles;
mod noop_cell;
mod noop_recorder;
mod once;
mod recorder;
mod scope;

pub use cells::{CounterFn, GaugeFn, HistogramFn};
pub use faults::{OutOfRange, RecordFault};
pub use handles::{Counter, Gauge, Histogram};
pub use noop_cell::NoopCell;
pub use noop_recorder::NoopRecorder;
pub use once::{RecorderOnceCell, SetRecorderError};
pub use once_cell::race::Note;
pub use recorder::{LeadsToRecorder, Recorder};
pub use scope::{
    Current, LocalRecorderGuard, RecorderScope, set_default_local_recorder, set_global_recorder,
    with_local_recorder, with_recorder,
};
