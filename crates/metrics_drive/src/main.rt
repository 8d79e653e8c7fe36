//! The program: it plays a script of rounds on both exporters, writes a page and sends a flush for each round; or it serves the page of a
//! script over HTTP; or it makes one page of several.
#![tactic(auto)]

use metrics_core::{Reading, Writing};
use program_words::{Ended, run_program};

/// Answers the words of the command line over the standard streams.
fn main(rt: HostRuntime) -> Ended {
    let mut source = Reading::new(rt.stdin());
    let mut out = Writing::new(rt.stdout());
    let mut err = Writing::new(rt.stderr());
    run_program(&rt, rt.alloc(), &mut source, &mut out, &mut err)
}
