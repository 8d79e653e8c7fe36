//! Tests of the crates from addresses up to pages, scripts and distributions: what no clause says of them. Each call is made
//! once at concrete types and with ample memory, and is compared with vectors from outside. Laws over their clauses stand here
//! too.
//!
//! What a test costs is mostly its proof. So values are made in one function and looked at by reference in others, tables are
//! constants, and tests assert a `bool`.
#![tactic(auto)]

#[cfg(test)]
mod addresses;
#[cfg(test)]
mod bags;
#[cfg(test)]
mod devices;
#[cfg(test)]
mod handles;
#[cfg(test)]
mod held_keys;
#[cfg(test)]
mod keys;
#[cfg(test)]
mod kinds;
pub mod laws;
#[cfg(test)]
mod native;
#[cfg(test)]
mod pages;
#[cfg(test)]
mod reservoirs;
#[cfg(test)]
mod scripts;
#[cfg(test)]
mod series;
#[cfg(test)]
mod starts;
#[cfg(test)]
mod texts;
#[cfg(test)]
mod values;
#[cfg(test)]
mod windows;
