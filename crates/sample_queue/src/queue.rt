//! A queue of samples that threads share.

ghost use Rattle.std.specs.Prelude.{◌≡◌, [], Ok, IfOk, OnOk, OnErr};
ghost use Rattle.legal_history.specs.History.{Settled, first, lender, child, taker};
ghost use Rattle.cell_lanes.specs.Calls.{Made};
ghost use Rattle.sample_queue.specs.Queues.{Entries, Holds, Puts, GivesOut, AnswersAlone};

use crate::calls::{QueueCall, SampleEntry};
use crate::pass::SamplePass;
use crate::rule::{FirstInFirstOut, Loan, Looks, Pops, Pushes};
use crossbeam_queue::RuledSegQueue;
use legal_history::history::View;
use metrics_core::Memory;
use std::alloc::Global;
use std::sync::Wait;

/// A queue of entries, first in first out.
pub struct SampleQueue<T: Drop> {
    queue: RuledSegQueue<SampleEntry<T>, View<QueueCall<T>>, FirstInFirstOut>,
}

impl<T: Drop> Drop for SampleQueue<T> {
    fn drop(self) {
        let SampleQueue { queue } = self;
        queue.destroy();
    }
}

impl<T: Drop> SampleQueue<T> {
    ghost use Rattle.sample_queue.specs.Passes.{view_of, IsSamplePass};

    /// An empty queue, with its root pass.
    pub fn new(alloc: Global) -> Result<(SampleQueue<T>, SamplePass<T>), Memory>
        ensures pass { IfOk result (λ made. IsSamplePass made.0 made.1) }
        ensures first { IfOk result (λ made. (view_of made.1 ≡ first) × Settled (view_of made.1)) }
    {
        let (queue, seat) = RuledSegQueue::with_rule(alloc)?;
        Ok((SampleQueue { queue }, SamplePass { seat, root: true }))
    }

    /// Puts an entry at the back, all or nothing. A count of 0 puts nothing, and takes no memory.
    pub fn push<R: Wait>(
        &self,
        rt: &R,
        _alloc: Global,
        pass: &mut SamplePass<T>,
        item: T,
        count: u32,
    ) -> Result<(), Memory>
        requires { IsSamplePass self.now pass.old }
        ensures pass { IsSamplePass self.now pass.new }
        ensures call { OnOk result (Puts item count (view_of pass.old) (view_of pass.new)) }
        ensures refused { OnErr result (view_of pass.new ≡ view_of pass.old) }
        ensures none { count ≡ 0 → (result ≡ Ok tt) × (view_of pass.new ≡ view_of pass.old) }
    {
        if count == 0 {
            return Ok(());
        }
        match self
            .queue
            .push_as::<Pushes, R>(rt, &mut pass.seat, SampleEntry { item, count })
        {
            Ok(()) => Ok(()),
            Err(_refused) => Err(Memory),
        }
    }

    /// Takes the front entry with the root pass. None only where the queue was empty at a moment of the call: then the root has
    /// taken out all that it had seen pushed.
    pub fn next<R: Wait>(&self, rt: &R, pass: &mut SamplePass<T>) -> Option<SampleEntry<T>>
        requires pass { IsSamplePass self.now pass.old }
        requires root { (view_of pass.old).number ≡ 0 }
        ensures pass { IsSamplePass self.now pass.new }
        ensures call { GivesOut (view_of pass.old) result (view_of pass.new) }
        ensures alone { AnswersAlone (view_of pass.old) result }
    {
        self.queue.pop_as::<Pops, R>(rt, &mut pass.seat)
    }

    /// With no other pass out, the root has seen the whole history and knows whose each call is. This makes sure of it, and
    /// changes nothing.
    pub fn settle<R: Wait>(&self, rt: &R, pass: &mut SamplePass<T>)
        requires pass { IsSamplePass self.now pass.old }
        requires root { ((view_of pass.old).number ≡ 0) × ((view_of pass.old).out ≡ 0) }
        ensures pass { IsSamplePass self.now pass.new }
        ensures same { view_of pass.new ≡ view_of pass.old }
        ensures settled { Settled (view_of pass.old) }
        ensures items { (items : Entries T) × Holds (view_of pass.old) items }
    {
        self.queue.len_as::<Looks, R>(rt, &mut pass.seat);
    }

    /// Makes no call, and finds what the pass has seen to stand in the history. This changes nothing.
    pub(crate) fn look<R: Wait>(&self, rt: &R, pass: &mut SamplePass<T>)
        requires { IsSamplePass self.now pass.old }
        ensures pass { IsSamplePass self.now pass.new }
        ensures same { view_of pass.new ≡ view_of pass.old }
        ensures none { Made (λ made. made ≡ []) (view_of pass.old) (view_of pass.new) }
    {
        self.queue.len_as::<Looks, R>(rt, &mut pass.seat);
    }

    /// A new pass of this queue, for another caller. It knows what the root knows, and has made no call.
    pub fn split(&self, _alloc: Global, pass: &mut SamplePass<T>) -> Result<SamplePass<T>, Memory>
        requires pass { IsSamplePass self.now pass.old }
        requires root { (view_of pass.old).number ≡ 0 }
        ensures pass { IsSamplePass self.now pass.new }
        ensures refused { OnErr result (view_of pass.new ≡ view_of pass.old) }
        ensures lent { IfOk result (IsSamplePass self.now) }
        ensures child { IfOk result (λ lent. view_of lent ≡ child (view_of pass.old)) }
        ensures root { OnOk result (view_of pass.new ≡ lender (view_of pass.old)) }
    {
        let seat = self.queue.another::<Loan>(&mut pass.seat);
        Ok(SamplePass { seat, root: false })
    }

    /// Takes a pass back. The root then knows what both knew, and the calls of both.
    pub fn join(&self, pass: &mut SamplePass<T>, child: SamplePass<T>)
        requires passes { IsSamplePass self.now pass.old × IsSamplePass self.now child }
        requires root { (view_of pass.old).number ≡ 0 }
        ensures pass { IsSamplePass self.now pass.new }
        ensures call { view_of pass.new ≡ taker (view_of pass.old) (view_of child) }
    {
        let SamplePass { seat, root: _ } = child;
        self.queue.absorb::<Loan>(&mut pass.seat, seat);
    }
}
