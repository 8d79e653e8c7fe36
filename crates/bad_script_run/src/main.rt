//! A run of the program as `metrics_drive` has it, over a script that is not valid: it must end with 3. Where the status were lost, it would end
//! with 0 or 1; where a word behind the first were dropped, with 2.
#![tactic(auto)]

use metrics_core::{Reading, Writing};
use program_words::{Ended, run_program};

/// Answers the words of the command line over the standard streams.
fn main(rt: HostRuntime) -> Ended {
    let mut source = Reading::new(rt.stdin());
    let mut out = Writing::new(rt.stdout());
    let mut err = Writing::new(rt.stderr());
    run_program(&rt, rt.alloc(), &mut source, &mut out, &mut err)
}
