//! A sample of values that come one after another.

ghost use Rattle.std.specs.Prelude.{◌≡◌, ℕ, ◌<◌, ◌≤◌, length, vec_capacity, IfOk};
ghost use Rattle.metrics_core.specs.Words.{DrawsOne};
ghost use Rattle.metrics_registry.specs.Reservoirs.{empty_reservoir, put_at, sample_rate, with_kept, with_sampled};

use metrics_core::{BILLIONTHS, Fixed, Memory, Words};
use std::alloc::Global;
use std::marker::Model;

/// Keeps a sample of at most so many values of all that come. All its room is taken when it is made.
#[derive(Drop)]
pub struct Reservoir {
    size: u32,
    count: u64,
    values: Vec<Fixed>,
}

impl Model for Reservoir {
    ghost use Rattle.std.specs.Prelude.{◌≡◌, ◌≤◌, min, length, vec_capacity};
    ghost use Rattle.metrics_registry.specs.Reservoirs.{ReservoirText};

    ghost Value = { ReservoirText };

    ghost view = { λ r. record { size = r.size; count = r.count; values = r.values.items } };

    ghost invariant = { λ r. (length r.values.items ≡ min r.count r.size) × (r.size ≤ vec_capacity r.values) };
}

impl Reservoir {
    /// An empty reservoir for at most `size` values; a size of 0 keeps nothing.
    pub fn new(alloc: Global, size: u32) -> Result<Reservoir, Memory>
        ensures { IfOk result (λ made. made ≡ empty_reservoir size) }
    {
        let mut values = Vec::new(alloc);
        values.reserve(size as usize)?;
        Ok(Reservoir {
            size,
            count: 0,
            values,
        })
    }

    /// Takes a value. While there is room it is kept, and no word is drawn. Later one word is drawn, which says at which
    /// place it stands from then on, or that it isn't kept. It takes no memory.
    pub fn push<W: Words>(&mut self, value: Fixed, words: &mut W)
        ensures kept { self.old.count < self.old.size
            → (self.new ≡ with_kept self.old value) × (words.new ≡ words.old) }
        ensures sampled { self.old.size ≤ self.old.count
            → (word : ℕ) × DrawsOne (W.to_come words.old) word (W.to_come words.new) × (self.new ≡ with_sampled self.old word value) }
    {
        let is_room = self.count < u64::from(self.size);
        self.count = self.count.saturating_add(1);
        if is_room {
            let _ = self.values.push(value);
        } else {
            let place = words.next_word() % self.count;
            put(&mut self.values, self.size, place, value);
        }
    }

    /// The values that are kept.
    pub fn values(&self) -> &[Fixed]
        ensures { result.now ≡ self.now.values }
    {
        self.values.as_slice()
    }

    /// Which part of the values that came is kept: 1 while all are, and later the size over their number, rounded down to
    /// billionths, and at least one billionth.
    pub fn sample_rate(&self) -> Fixed
        ensures { result ≡ sample_rate self.now.size self.now.count }
    {
        let size = u64::from(self.size);
        if self.count <= size {
            return Fixed(i64::from(BILLIONTHS));
        }
        let rate = size * u64::from(BILLIONTHS) / self.count;
        Fixed(rate.max(1) as i64)
    }

    /// Forgets all values. It keeps its room.
    pub fn clear(&mut self)
        ensures { self.new ≡ empty_reservoir self.old.size }
    {
        self.values.clear();
        self.count = 0;
    }
}

/// Puts a value at a place, if it is below the size.
fn put(values: &mut Vec<Fixed>, size: u32, place: u64, value: Fixed)
    requires { place < size → place < length values.old.items }
    ensures items { values.new.items ≡ put_at size place values.old.items value }
    ensures capacity { vec_capacity values.new ≡ vec_capacity values.old }
{
    if place < u64::from(size) {
        values[place as usize] = value;
    }
}
