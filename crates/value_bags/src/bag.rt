//! What a clause sees of a bag of values.
use std::collections::LinkedList;

/// What a clause sees of a bag. No value of it is made: a clause reads a linked list as a list.
pub enum BagForm<V> {
    /// A short bag: its values, in the order in which they came.
    Short(LinkedList<V>),
    /// A long bag: each distinct value, with how often it is there.
    Long(LinkedList<(V, u64)>),
}
