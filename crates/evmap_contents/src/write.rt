//! What a writer may write, and what the writes leave.
use std::collections::LinkedList;
use value_bags::BagForm;

/// One write. A list of writes has plain keys and values, and a log of them shares the values.
#[derive(Drop)]
pub enum Write<K, V, M, P> {
    /// Adds a value to the bag of a key.
    Insert(K, V),
    /// The bag of the key is this value alone.
    Update(K, V),
    /// The bag of the key is empty. It is made where there is none.
    Clear(K),
    /// Takes one occurrence of a value out of the bag of a key, where there is one.
    RemoveValue(K, V),
    /// Removes a key. The last key takes its place.
    RemoveEntry(K),
    /// Removes all keys.
    Purge,
    /// Keeps the values of a key that pass the test.
    Retain(K, P),
    /// Gives back memory that the bag of a key doesn't need.
    Fit(K),
    /// Gives back memory that no bag needs.
    FitAll,
    /// Makes room for so many more values of a key. An empty bag is made where there is none.
    Reserve(K, usize),
    /// Removes the entries at these places, one after another: a list from the highest down. The last entry takes the
    /// place of each, and a place past the end removes nothing.
    RemovePlaces(LinkedList<usize>),
    /// The meta of the map.
    SetMeta(M),
    /// The first publish makes the map ready for readers.
    Ready,
}

/// What a list of writes leaves. No value of it is made: a clause reads a linked list as a list.
pub struct Contents<K, V, M> {
    /// The keys in order, each with its bag.
    pub entries: LinkedList<(K, BagForm<V>)>,
    pub meta: M,
    /// Whether the map was published.
    pub ready: bool,
}
