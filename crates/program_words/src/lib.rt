//! What the program does with the words behind its name. It answers those that ask for its help text or its version. All others are those
//! of a run: a script is read from a source and played, a page for each round written and a flush sent; or the page of a script is served;
//! or a generated script is played; or pages are read from a source, and the one page that they become is written; or payloads are read, and
//! the page that they make is written; or rules and pages are read, and what fires is written. A run ends with a status and a line that says
//! why.
//!
//! An answer over devices in memory:
//!
//!     let status = answer(rt, alloc, &["drive"], &mut source, &mut out, &mut err, &mut link, &Free, &mut listener);
#![tactic(auto)]

mod agent;
mod answering;
mod bench_words;
mod command;
mod driving;
mod examples;
mod program;
mod reading;
mod relaying;
mod running;
mod say;
mod serving;
mod serving_lines;
mod serving_words;
mod statuses;
mod texts;

pub use answering::answer;
pub use driving::drive;
pub use examples::{basic_example, described_example, empty_example, sampled_example};
pub use program::{Ended, answer_over_sockets, run_program};
pub use relaying::relay;
pub use running::run;
pub use serving::{ServeScriptFault, serve_script};
pub use statuses::Status;
