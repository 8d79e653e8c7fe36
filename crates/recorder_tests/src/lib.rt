//! Tests of recorders and their handles.
#![tactic(auto)]

#[cfg(test)]
mod idle_series;
#[cfg(test)]
mod passes;
#[cfg(test)]
mod prometheus;
