//! Two pieces of work, side by side or in order.

use std::thread::{Threads, join_mut};

/// Calls both, side by side where that is asked for, and else one after the other. Answers what they answered.
pub(crate) fn join_if<R: Threads, F: FnMut() -> A + Send, G: FnMut() -> B, A: Send, B>(
    rt: &R,
    beside: bool,
    f: &mut F,
    g: &mut G,
) -> (A, B)
    requires { F.pre f.old × G.pre g.old }
    ensures { F.step f.old result.0 f.new × G.step g.old result.1 g.new }
{
    if beside {
        return join_mut(rt, f, g);
    }
    let first = f();
    (first, g())
}
