//! What a caller of a queue of samples has.

ghost use Rattle.std.specs.Prelude.{◌≡◌, ◌==◌, ◌<◌, true};

use crate::calls::{QueueCall, SampleEntry};
use crossbeam_queue::SegPass;
use legal_history::history::View;

/// A caller's token of a queue. It knows what its holder has seen of the queue, and the calls that its holder made.
#[derive(Drop)]
pub struct SamplePass<T> {
    pub(crate) seat: SegPass<SampleEntry<T>, View<QueueCall<T>>>,
    pub(crate) root: bool,
    ghost live: { seat.me.view.client.live ≡ true },
    ghost made: { 0 < seat.me.view.client.made },
    ghost root_is: { root ≡ (seat.me.view.client.number == 0) },
}

impl<T> SamplePass<T> {
    ghost use Rattle.sample_queue.specs.Passes.{view_of};

    /// Whether `new` gave this pass.
    pub fn is_root(&self) -> bool
        ensures { result ≡ ((view_of self.now).number == 0) }
    {
        self.root
    }
}
