//! The state of a gauge that is flushed.

ghost use Rattle.std.specs.Prelude.{◌≡◌};
ghost use Rattle.flushed_cells.specs.Gauges.{words_of_gauge, changed, is_still};

use crate::gauge_calls::GaugeChange;
use crossbeam_utils::atomic::Words;
use metrics_core::Fixed;

/// What a gauge holds.
#[derive(Clone, Copy, Debug, PartialEq, Eq, Drop)]
pub struct GaugeState {
    /// Its value.
    pub value: Fixed,
    /// The number of updates since the last flush, modulo 2^64.
    pub updates: u64,
}

impl GaugeState {
    /// The state of a new gauge.
    pub const START: GaugeState = GaugeState {
        value: Fixed(0),
        updates: 0,
    };

    /// The state after a change.
    pub fn after(self, change: GaugeChange) -> GaugeState
        ensures { result ≡ changed change self }
    {
        match change {
            GaugeChange::Update(update) => GaugeState {
                value: update.update_value(self.value),
                updates: self.updates.wrapping_add(1),
            },
            GaugeChange::Flush => GaugeState { updates: 0, ..self },
        }
    }

    /// Whether nothing waits, so that a flush would leave the state as it is.
    pub fn is_still(self) -> bool
        ensures { result ≡ is_still self }
    {
        self.updates == 0
    }
}

impl Words<2> for GaugeState {
    ghost words = { words_of_gauge };

    fn to_words(self) -> [u64; 2] {
        [self.value.0.cast_unsigned(), self.updates]
    }

    fn from_words(bits: &[u64; 2]) -> GaugeState {
        let [value, updates] = *bits;
        GaugeState {
            value: Fixed(value.cast_signed()),
            updates,
        }
    }
}
