//! The rule of a queue of samples, and what its steps tell.

use crate::calls::{QueueCall, SampleEntry};
use crossbeam_queue::protocol::{Join, Lesson, Outcome, Protocol, Split};
use legal_history::history::View;

/// The queue and its passes have one legal history, in which only the root takes entries out.
pub struct FirstInFirstOut;

impl<T> Protocol<SampleEntry<T>, View<QueueCall<T>>> for FirstInFirstOut {
    ghost use Rattle.legal_history.specs.History.{first};
    ghost use Rattle.sample_queue.specs.Queues.{KeepsRooted};

    ghost holds = { λ items views. KeepsRooted items views };

    ghost first = { first };
}

/// An entry goes to the back.
pub struct Pushes;

impl<T> Outcome<SampleEntry<T>, View<QueueCall<T>>> for Pushes {
    ghost use Rattle.std.specs.Prelude.{[]};
    ghost use Rattle.legal_history.specs.Object.{Made};
    ghost use Rattle.sample_queue.specs.Queues.{QueueStep};
    ghost use Rattle.sample_queue.specs.declared.calls.QueueCall.TheVariants.{Push};

    ghost then = { λ v x w. Made QueueStep [] (Push x) v w };
}

/// The front entry is given out, or the queue is found empty.
pub struct Pops;

impl<T> Outcome<SampleEntry<T>, View<QueueCall<T>>> for Pops {
    ghost use Rattle.std.specs.Prelude.{[]};
    ghost use Rattle.legal_history.specs.Object.{Made};
    ghost use Rattle.sample_queue.specs.Queues.{QueueStep};
    ghost use Rattle.sample_queue.specs.declared.calls.QueueCall.TheVariants.{Pop};

    ghost then = { λ v x w. Made QueueStep [] (Pop x) v w };
}

impl<T> Lesson<SampleEntry<T>, View<QueueCall<T>>> for Pops {
    ghost use Rattle.sample_queue.specs.Queues.{Finds};

    ghost fact = { λ v items. Finds v items };
}

/// A look that changes nothing.
pub struct Looks;

impl<T> Lesson<SampleEntry<T>, View<QueueCall<T>>> for Looks {
    ghost use Rattle.std.specs.Prelude.{[]};
    ghost use Rattle.legal_history.specs.Object.{Told};
    ghost use Rattle.sample_queue.specs.Queues.{QueueStep};

    ghost fact = { λ v items. Told QueueStep [] v items };
}

/// A pass is lent, or given back.
pub struct Loan;

impl<T> Split<View<QueueCall<T>>> for Loan {
    ghost use Rattle.legal_history.specs.History.{lender, child};

    ghost left = { lender };

    ghost right = { child };
}

impl<T> Join<View<QueueCall<T>>> for Loan {
    ghost use Rattle.legal_history.specs.History.{taker, nobody};

    ghost both = { taker };

    ghost spent = { nobody };
}
