//! One legal history for every kind of thing that threads share.
//!
//! A shared thing (a counter, a gauge, a queue) has callers, and each caller has a pass. There is one list of calls,
//! the history, in which each call stands once, with the number of the pass that made it. A pass knows a beginning of
//! the history, and each of its calls goes behind all that it knew. The root pass lends new passes and takes them
//! back; with none out it knows the whole history, and whose each call is.
//!
//! No value of the types here is made while a program runs: they are what contracts say of passes.
//!
//! What a kind of shared thing gives:
//!
//! - the type of its calls, each with its answer, and the object of one thread: a relation `Step call before after`
//!   (`specs/Object.antt`);
//! - a rule, `Keeps Step start shared views`, kept by what is shared and by the views of all passes. It holds at the
//!   start by `opens`;
//! - for a call, one step that takes what is shared from `x` to `y` where `Step call x y` holds: `turn` keeps the rule,
//!   and tells the caller `Made`. A step that only looks is `tells` (nothing changes) or `looks` (the pass has then
//!   seen the history). A pass is lent by `lender` and `child`, which `forks` keeps, and taken back by `taker` and
//!   `nobody`, which `merges` keeps (all in `proofs/Objects.antt`). Each needs that the pass is live, and lending and
//!   taking back need the root, whose number is 0.
//!
//! What follows for all kinds, from what their steps tell: where the calls of a pass stand (`specs/Places.antt`), and
//! that the calls that lanes made side by side stand in one order, each lane's in its own (`specs/Order.antt`).
//!
//! A law is a function whose contract says it, as `a_call_stands_last`; a proof above cites it.
#![tactic(auto)]

pub mod history;
pub mod laws;
