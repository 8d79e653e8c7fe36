//! What a thread knows of the published writes.
use evmap_contents::Write;
use std::collections::LinkedList;

/// What a thread knows of the fronts, the lists of published writes. No value of it is made.
pub struct KnownFronts<K, V, M, P> {
    /// The meta that the map was made with, once a front was seen.
    pub made: Option<M>,
    /// The front that it saw last.
    pub seen: LinkedList<Write<K, V, M, P>>,
    /// The front that it was told of last.
    pub told: LinkedList<Write<K, V, M, P>>,
}
