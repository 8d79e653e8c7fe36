//! The play of scripts: for each round setup lines are carried out on both exporters, the calls of its lanes are made side by side, a page
//! is written and a flush is sent; or a script is played without pages and its page is served; or a generated script is played.
//!
//! A play of a script that was read, whose payloads go to a link that is aimed at their address:
//!
//!     let report = play_script(rt, alloc, start, &Free, &to, script, &mut out, &mut link)?;
#![tactic(auto)]

mod agent;
mod benching;
mod both;
mod flushes;
mod gates;
mod guesses;
mod lane_lines;
mod lanes;
mod page;
mod play;
mod report;
mod serving;
mod set_up;
mod settings;

pub use agent::default_agent;
pub use benching::bench;
pub use gates::{Free, Gate};
pub use play::play_script;
pub use report::Report;
pub use serving::play_and_serve;
