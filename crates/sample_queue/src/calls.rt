//! What stands in a queue of samples, and the calls on it.

/// An item that stands for `count` samples.
#[derive(Clone, Copy, Debug, PartialEq, Eq, Drop)]
pub struct SampleEntry<T> {
    /// What was recorded.
    pub item: T,
    /// How often.
    pub count: u32,
}

/// A call in the history of a queue, with its answer.
pub enum QueueCall<T> {
    /// An entry went to the back.
    Push(SampleEntry<T>),
    /// The front entry was given out: this one.
    Pop(SampleEntry<T>),
}
