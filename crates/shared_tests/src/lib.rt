//! Tests of what threads use in turns: that turns come to all threads, and what a shared recorder does beside running threads.
#![tactic(auto)]

#[cfg(test)]
mod beside;
#[cfg(test)]
mod recorder;
#[cfg(test)]
mod turns;
