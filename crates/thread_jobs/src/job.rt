//! What a thread does by itself with a thing that all threads share.

use std::sync::Wait;

/// A job of one thread. It is done once, and its answer has back what it was given.
pub trait Job: Send + Drop {
    /// The thing that all threads share.
    type Shared: Sync;

    /// What comes of the job.
    type Answer: Send + Drop;

    /// The job can be done with this thing.
    ghost ready: { Self.Shared → Self → Type 0 };

    /// This may come of the job, done with this thing.
    ghost gives: { Self.Shared → Self → Self.Answer → Type 0 };

    /// Does the job.
    fn run<R: Wait>(self, rt: &R, shared: &Self::Shared) -> Self::Answer
        requires { ready shared.now self }
        ensures { gives shared.now self result };
}
