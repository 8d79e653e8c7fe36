//! What a pass knows of the history of a shared thing. No value of these types is made.

use std::collections::LinkedList;

/// A call in a history.
pub struct Entry<C> {
    /// The number of the pass that made it.
    pub by: u64,
    /// The call, with its answer.
    pub call: C,
}

/// A pass that was given back to the root.
pub struct Held<C> {
    /// Its number.
    pub by: u64,
    /// The calls that it had made, in order.
    pub calls: LinkedList<C>,
    /// The beginning of the history that it had seen.
    pub seen: LinkedList<Entry<C>>,
}

/// What a pass knows.
pub struct View<C> {
    /// Which pass it is: 0 for the root, and for another pass how many were made before it.
    pub number: u64,
    /// Whether the pass can still make calls: it was not given back.
    pub live: bool,
    /// The beginning of the history that the pass has seen.
    pub seen: LinkedList<Entry<C>>,
    /// The calls that the pass made itself, in order.
    pub mine: LinkedList<C>,
    /// The passes that were given back to it, in order.
    pub joined: LinkedList<Held<C>>,
    /// For the root, how many passes were made, itself included.
    pub made: u64,
    /// For the root, the numbers of the passes that are out.
    pub children: LinkedList<u64>,
    /// For the root, how many passes are out. A pass that was dropped stays out.
    pub out: u64,
}
