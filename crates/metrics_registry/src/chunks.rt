//! The entries of a bag, in chunks: each value with how often it is there, in ascending order within a chunk and from chunk to
//! chunk.

ghost use Rattle.std.specs.Prelude.{◌≡◌, ℤ, ◌+◌, ◌-◌, ◌^◌, ◌≤◌, ◌<◌, length, slice_get, option_map, IfOk, OnOk, OnErr, if◌then◌else◌};
ghost use Rattle.std.specs.Ordering.{int_eq};
ghost use Rattle.metrics_core.specs.Fixed.{of_billionths};
ghost use Rattle.metrics_registry.specs.Bags.{copies, repeated};
ghost use Rattle.metrics_registry.specs.Chunks.{AreOrdered, IsChunkOf, IsPlace, IsRaised, Rise, entries_of};

use metrics_core::{Fixed, Memory};
use std::alloc::Global;

/// How many entries a chunk takes before it is split.
const LIMIT: usize = 64;

/// Entries of a bag that stand together.
#[derive(Drop)]
pub(crate) struct Chunk {
    /// No value of the chunk is below this, and none of the chunks before it is above.
    least: i64,
    /// Each value, in billionths, with how often it is there.
    entries: Vec<(i64, u64)>,
    /// How many values there are.
    count: u64,
}

impl Chunk {
    /// A chunk of entries.
    fn of(alloc: Global, least: i64, entries: &[(i64, u64)]) -> Result<Chunk, Memory>
        requires { length (repeated entries.now) < 2 ^ 64 }
        ensures { IfOk result (IsChunkOf least entries.now) }
    {
        let mut copied = Vec::with_capacity(alloc, LIMIT)?;
        copied.extend_from_slice(entries)?;
        Ok(Chunk {
            least,
            entries: copied,
            count: count_of(entries),
        })
    }

    /// Raises the count of a value, whose entry is new where there is none.
    fn raise(&mut self, value: i64, count: u64) -> Result<(), Memory>
        requires rise { Rise self.old.entries.items }
        requires counted { self.old.count ≡ length (repeated self.old.entries.items) }
        requires fits { self.old.count + count < 2 ^ 64 }
        ensures least { self.new.least ≡ self.old.least }
        ensures raised { OnOk result (IsRaised value count self.old.entries.items
            self.new.entries.items) }
        ensures counted { OnOk result (self.new.count ≡ self.old.count + count) }
        ensures refused { OnErr result ((self.new.entries.items ≡ self.old.entries.items)
            × (self.new.count ≡ self.old.count)) }
    {
        raise_entry(&mut self.entries, value, count)?;
        self.count += count;
        Ok(())
    }

    /// The value at a rank, counted from 1, among those of the chunk.
    fn value_at(&self, rank: u64) -> Option<Fixed>
        requires { 1 ≤ rank }
        ensures { result ≡ option_map of_billionths
            (slice_get (repeated self.now.entries.items) (rank - 1)) }
    {
        let mut left = rank;
        for (value, count) in self.entries.as_slice() {
            if left <= *count {
                return Some(Fixed(*value));
            }
            left -= *count;
        }
        None
    }
}

/// How many values entries have.
fn count_of(entries: &[(i64, u64)]) -> u64
    requires { length (repeated entries.now) < 2 ^ 64 }
    ensures { result ≡ length (repeated entries.now) }
{
    let mut total = 0;
    for (_, count) in entries {
        total += *count;
    }
    total
}

/// Raises the count of a value among entries in order.
fn raise_entry(entries: &mut Vec<(i64, u64)>, value: i64, count: u64) -> Result<(), Memory>
    requires rise { Rise entries.old.items }
    requires fits { length (repeated entries.old.items) + count < 2 ^ 64 }
    ensures raised { OnOk result (IsRaised value count entries.old.items entries.new.items) }
    ensures refused { OnErr result (entries.new.items ≡ entries.old.items) }
{
    match entries.binary_search_by_key(&value, |entry: &(i64, u64)| entry.0) {
        Ok(place) => entries[place].1 += count,
        Err(place) => entries.insert(place, (value, count))?,
    }
    Ok(())
}

/// The place of the chunk to which a value belongs, the last that begins at it or below. Where all begin above it the first is
/// made to begin there.
fn place_of(alloc: Global, chunks: &mut Vec<Chunk>, value: i64) -> Result<usize, Memory>
    requires { AreOrdered chunks.old.items }
    ensures ordered { AreOrdered chunks.new.items }
    ensures same { repeated (entries_of chunks.new.items) ≡ repeated (entries_of chunks.old.items) }
    ensures place { IfOk result (IsPlace value chunks.new.items) }
{
    let behind = chunks.partition_point(|chunk: &Chunk| chunk.least <= value);
    if behind > 0 {
        return Ok(behind - 1);
    }
    if chunks.is_empty() {
        chunks.push(Chunk {
            least: value,
            entries: Vec::new(alloc),
            count: 0,
        })?;
        return Ok(0);
    }
    chunks[0].least = value;
    Ok(0)
}

/// Splits the chunk at a place into its two halves.
fn split(alloc: Global, chunks: &mut Vec<Chunk>, place: usize) -> Result<(), Memory>
    requires ordered { AreOrdered chunks.old.items }
    requires fits { length (repeated (entries_of chunks.old.items)) < 2 ^ 64 }
    requires within { place < length chunks.old.items }
    ensures ordered { AreOrdered chunks.new.items }
    ensures same { repeated (entries_of chunks.new.items) ≡ repeated (entries_of chunks.old.items) }
{
    let chunk = &chunks[place];
    let half = chunk.entries.len() / 2;
    let (lower, upper) = chunk.entries.as_slice().split_at(half);
    let Some((least, _)) = upper.first() else {
        return Ok(());
    };
    let above = Chunk::of(alloc, *least, upper)?;
    let below = Chunk::of(alloc, chunk.least, lower)?;
    chunks.insert(place + 1, above)?;
    chunks[place] = below;
    Ok(())
}

/// The place of the chunk to which a value belongs. The chunk is split before where it is full.
fn place_with_room(alloc: Global, chunks: &mut Vec<Chunk>, value: i64) -> Result<usize, Memory>
    requires ordered { AreOrdered chunks.old.items }
    requires fits { length (repeated (entries_of chunks.old.items)) < 2 ^ 64 }
    ensures ordered { AreOrdered chunks.new.items }
    ensures same { repeated (entries_of chunks.new.items) ≡ repeated (entries_of chunks.old.items) }
    ensures place { IfOk result (IsPlace value chunks.new.items) }
{
    let place = place_of(alloc, chunks, value)?;
    if chunks[place].entries.len() < LIMIT {
        return Ok(place);
    }
    split(alloc, chunks, place)?;
    place_of(alloc, chunks, value)
}

/// Raises the count of a value. It takes time logarithmic in the distinct values, and where a chunk is split also that of
/// moving the chunks behind it. A refusal may leave a chunk split, and changes no count.
pub(crate) fn raise(
    alloc: Global,
    chunks: &mut Vec<Chunk>,
    value: i64,
    count: u64,
) -> Result<(), Memory>
    requires ordered { AreOrdered chunks.old.items }
    requires fits { length (repeated (entries_of chunks.old.items)) + count < 2 ^ 64 }
    ensures ordered { AreOrdered chunks.new.items }
    ensures raised { OnOk result ((v : ℤ) → copies v (entries_of chunks.new.items)
        ≡ copies v (entries_of chunks.old.items) + (if int_eq v value then count else 0)) }
    ensures refused { OnErr result (repeated (entries_of chunks.new.items) ≡ repeated
        (entries_of chunks.old.items)) }
{
    let place = place_with_room(alloc, chunks, value)?;
    chunks[place].raise(value, count)?;
    Ok(())
}

/// Adds all counts of entries. After a refusal some of them were added.
fn add_entries(alloc: Global, chunks: &mut Vec<Chunk>, entries: &[(i64, u64)]) -> Result<(), Memory>
    requires ordered { AreOrdered chunks.old.items }
    requires fits { length (repeated (entries_of chunks.old.items)) + length
        (repeated entries.now) < 2 ^ 64 }
    ensures ordered { AreOrdered chunks.new.items }
    ensures added { OnOk result ((v : ℤ) → copies v (entries_of chunks.new.items)
        ≡ copies v (entries_of chunks.old.items) + copies v entries.now) }
{
    for (value, count) in entries {
        raise(alloc, chunks, *value, *count)?;
    }
    Ok(())
}

/// Adds all counts of other chunks. After a refusal some of them were added.
pub(crate) fn add_all(
    alloc: Global,
    chunks: &mut Vec<Chunk>,
    others: &[Chunk],
) -> Result<(), Memory>
    requires ordered { AreOrdered chunks.old.items }
    requires fits { length (repeated (entries_of chunks.old.items)) + length
        (repeated (entries_of others.now)) < 2 ^ 64 }
    ensures ordered { AreOrdered chunks.new.items }
    ensures added { OnOk result ((v : ℤ) → copies v (entries_of chunks.new.items)
        ≡ copies v (entries_of chunks.old.items) + copies v (entries_of others.now)) }
{
    for other in others {
        add_entries(alloc, chunks, other.entries.as_slice())?;
    }
    Ok(())
}

/// The value at a rank, counted from 1, among all values in ascending order. It goes over the chunks, and over the entries of
/// one.
pub(crate) fn value_at(chunks: &[Chunk], rank: u64) -> Option<Fixed>
    requires least { 1 ≤ rank }
    requires ordered { AreOrdered chunks.now }
    ensures { result ≡ option_map of_billionths
        (slice_get (repeated (entries_of chunks.now)) (rank - 1)) }
{
    let mut left = rank;
    for chunk in chunks {
        if left <= chunk.count {
            return chunk.value_at(left);
        }
        left -= chunk.count;
    }
    None
}
