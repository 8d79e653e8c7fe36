//! Doing jobs side by side.

ghost use Rattle.std.specs.Prelude.{All, IfOk};
ghost use Rattle.std.specs.List.{AllZip};

use crate::job::Job;
use std::alloc::AllocError;
use std::sync::Wait;
use std::thread::{Threads, join, map_vec};

/// Does two jobs beside each other, and answers what came of each.
pub fn both_beside<R: Threads + Wait + Sync, J: Job>(
    rt: &R,
    shared: &J::Shared,
    one: J,
    other: J,
) -> (J::Answer, J::Answer)
    requires { J.ready shared.now one × J.ready shared.now other }
    ensures { J.gives shared.now one result.0 × J.gives shared.now other result.1 }
{
    join(rt, || one.run(rt, shared), || other.run(rt, shared))
}

/// Does all jobs beside each other, each in a thread of its own, and answers what came of them, in their order. Where memory is
/// refused some jobs may not have been done, and what came of the others is let go.
pub fn all_beside<R: Threads + Wait + Sync, J: Job>(
    rt: &R,
    shared: &J::Shared,
    jobs: Vec<J>,
) -> Result<Vec<J::Answer>, AllocError>
    requires { All (J.ready shared.now) jobs.items }
    ensures { IfOk result (λ answers. AllZip (J.gives shared.now) jobs.items answers.items) }
{
    map_vec(
        rt,
        jobs,
        &|job: J| -> J::Answer
            requires { J.ready shared.now job }
            ensures { J.gives shared.entry.now job result }
        { job.run(rt, shared) },
    )
}
