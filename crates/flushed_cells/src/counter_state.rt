//! The state of a counter that is flushed.

ghost use Rattle.std.specs.Prelude.{◌≡◌};
ghost use Rattle.flushed_cells.specs.Counters.{words_of_counter, incremented, absolute, changed, is_still};

use crate::counter_calls::CounterChange;
use crossbeam_utils::atomic::Words;

/// Which kind of update a counter had last.
#[derive(Clone, Copy, Debug, PartialEq, Eq, Drop)]
pub enum CounterMode {
    /// An increment. A new counter is in this mode too.
    Incremented,
    /// An absolute value.
    Absolute,
}

/// What a counter holds.
#[derive(Clone, Copy, Debug, PartialEq, Eq, Drop)]
pub struct CounterState {
    /// Which kind of update came last.
    pub mode: CounterMode,
    /// The last absolute value, raised by those after it and by increments, modulo 2^64. The next absolute value is compared
    /// with it where the last update was absolute.
    pub total: u64,
    /// What is pending: what the next flush answers.
    pub delta: u64,
    /// The number of updates since the last flush, modulo 2^64.
    pub updates: u64,
}

impl CounterState {
    /// The state of a new counter.
    pub const START: CounterState = CounterState {
        mode: CounterMode::Incremented,
        total: 0,
        delta: 0,
        updates: 0,
    };

    /// The state after a change.
    pub fn after(self, change: CounterChange) -> CounterState
        ensures { result ≡ changed change self }
    {
        match change {
            CounterChange::Increment(value) => self.incremented(value),
            CounterChange::Absolute(value) => self.absolute(value),
            CounterChange::Flush => CounterState {
                delta: 0,
                updates: 0,
                ..self
            },
        }
    }

    /// Whether nothing waits, so that a flush would leave the state as it is.
    pub fn is_still(self) -> bool
        ensures { result ≡ is_still self }
    {
        self.delta == 0 && self.updates == 0
    }

    fn incremented(self, value: u64) -> CounterState
        ensures { result ≡ incremented value self }
    {
        CounterState {
            mode: CounterMode::Incremented,
            total: self.total.wrapping_add(value),
            delta: self.delta.wrapping_add(value),
            updates: self.updates.wrapping_add(1),
        }
    }

    fn absolute(self, value: u64) -> CounterState
        ensures { result ≡ absolute value self }
    {
        let (total, delta) = match self.mode {
            CounterMode::Incremented => (value, 0),
            CounterMode::Absolute => {
                let total = self.total.max(value);
                (total, self.delta.wrapping_add(total - self.total))
            }
        };
        CounterState {
            mode: CounterMode::Absolute,
            total,
            delta,
            updates: self.updates.wrapping_add(1),
        }
    }
}

impl Words<4> for CounterState {
    ghost words = { words_of_counter };

    fn to_words(self) -> [u64; 4] {
        let mode = match self.mode {
            CounterMode::Incremented => 0,
            CounterMode::Absolute => 1,
        };
        [mode, self.total, self.delta, self.updates]
    }

    fn from_words(bits: &[u64; 4]) -> CounterState {
        let [mode, total, delta, updates] = *bits;
        let mode = match mode {
            0 => CounterMode::Incremented,
            _ => CounterMode::Absolute,
        };
        CounterState {
            mode,
            total,
            delta,
            updates,
        }
    }
}
