//! Tests of the cells that threads share, and of lanes over them: what threads do, outside vectors, and that calls succeed.
//! Laws over the clauses of the crates of cells stand here too.
#![tactic(auto)]

#[cfg(test)]
mod answers;
#[cfg(test)]
mod flushed;
#[cfg(test)]
mod hooks;
#[cfg(test)]
mod lanes;
pub mod laws;
#[cfg(test)]
mod queues;
#[cfg(test)]
mod values;
