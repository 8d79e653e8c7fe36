//! Laws of queues.

ghost use Rattle.std.specs.Prelude.{◌≡◌, ◌++◌, []};
ghost use Rattle.legal_history.specs.declared.history.View.{View};
ghost use Rattle.sample_queue.specs.declared.calls.QueueCall.{QueueCall};
ghost use Rattle.sample_queue.specs.Queues.{Calls, Entries, Leaves, Holds, FoundEmpty, HasTakenAll, pushed, popped};

/// What was given out is a beginning of what was pushed, each entry once and in order, and the queue holds the rest.
pub fn first_in_first_out<T>()
    ensures { (cs : Calls T) (es : Entries T) → Leaves cs es → pushed cs ≡ popped cs ++ es }
{}

/// The calls of a history determine what a queue holds after them.
pub fn one_queue_after_calls<T>()
    ensures { (cs : Calls T) (es fs : Entries T) → Leaves cs es → Leaves cs fs → es ≡ fs }
{}

/// A pass that found the queue empty has taken out all that it has seen pushed, each entry once and in order, and nothing is left of it.
pub fn what_was_seen_pushed_was_taken_out<T>()
    ensures { (v : View (QueueCall T)) → FoundEmpty v → HasTakenAll v × Holds v [] }
{}
