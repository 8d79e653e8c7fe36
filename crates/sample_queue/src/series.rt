//! A queue as those who keep and lend it see it, and the lanes that push on it.

use crate::calls::{QueueCall, SampleEntry};
use crate::pass::SamplePass;
use crate::queue::SampleQueue;
use cell_lanes::{OwnedCell, SharedCell};
use metrics_core::{Fixed, Memory, SeriesCall};
use std::alloc::Global;
use std::sync::Wait;

/// What a lane pushes: an item that stands for so many samples. One that stands for none is not pushed.
#[derive(Clone, Copy, Debug, Drop)]
pub struct Sample<T> {
    /// What is recorded.
    pub item: T,
    /// How often.
    pub count: u32,
}

impl Sample<(Fixed, u64)> {
    ghost use Rattle.std.specs.Prelude.{◌≡◌};
    ghost use Rattle.sample_queue.specs.Series.{sample_of_call};

    /// What a record pushes on a histogram: its value and moment, as often as it says. A call of another kind pushes nothing.
    pub fn of_call(call: &SeriesCall) -> Sample<(Fixed, u64)>
        ensures { result ≡ sample_of_call call.now }
    {
        match *call {
            SeriesCall::Record {
                value,
                moment,
                count,
            } => Sample {
                item: (value, moment),
                count,
            },
            SeriesCall::Increment(_)
            | SeriesCall::Absolute(_)
            | SeriesCall::Add(_)
            | SeriesCall::Subtract(_)
            | SeriesCall::Set(_) => Sample {
                item: (Fixed(0), 0),
                count: 0,
            },
        }
    }
}

impl<T: Copy + Drop + Send + Sync> SharedCell for SampleQueue<T> {
    ghost use Rattle.sample_queue.specs.Passes.{IsSamplePass, view_of};
    ghost use Rattle.sample_queue.specs.OneFact.{one_sample_pass};
    ghost use Rattle.sample_queue.specs.Queues.{GivesOut};
    ghost use Rattle.sample_queue.specs.Series.{StandsAsPushes, given_found, pops};

    type Pass = SamplePass<T>;

    type Call = Sample<T>;

    type Entry = QueueCall<T>;

    type Reading = Option<SampleEntry<T>>;

    ghost is_pass = { IsSamplePass };

    ghost is_one_fact = { one_sample_pass };

    ghost view = { view_of };

    ghost stands_as = { StandsAsPushes };

    ghost read_as = { pops };

    ghost reads = { GivesOut };

    ghost readings_stand = { given_found };

    fn make<R: Wait>(
        &self,
        rt: &R,
        alloc: Global,
        pass: &mut SamplePass<T>,
        call: &Sample<T>,
    ) -> Result<(), Memory> {
        if call.count == 0 {
            self.look(rt, pass);
            return Ok(());
        }
        self.push(rt, alloc, pass, call.item, call.count)
    }

    fn read<R: Wait>(&self, rt: &R, pass: &mut SamplePass<T>) -> Option<SampleEntry<T>> {
        self.next(rt, pass)
    }

    fn split(&self, alloc: Global, pass: &mut SamplePass<T>) -> Result<SamplePass<T>, Memory> {
        SampleQueue::split(self, alloc, pass)
    }

    fn join(&self, pass: &mut SamplePass<T>, child: SamplePass<T>) {
        SampleQueue::join(self, pass, child);
    }

    fn settle<R: Wait>(&self, rt: &R, pass: &mut SamplePass<T>) {
        SampleQueue::settle(self, rt, pass);
    }
}

impl<T: Copy + Drop + Send + Sync> SampleQueue<T> {
    ghost use Rattle.std.specs.Prelude.{◌≡◌, IfOk};
    ghost use Rattle.legal_history.specs.History.{Settled, first};

    /// An empty queue as a state keeps it.
    pub fn owned(alloc: Global) -> Result<OwnedCell<SampleQueue<T>>, Memory>
        ensures { IfOk result (λ made. (made.root ≡ first) × Settled made.root) }
    {
        let (queue, root) = SampleQueue::new(alloc)?;
        OwnedCell::new(alloc, queue, root)
    }
}
