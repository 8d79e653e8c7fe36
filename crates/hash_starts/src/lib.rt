//! Where the hashes of a map begin. A map keyed by texts from outside hashes from a start that nobody can know, so that nobody
//! can make many texts that stand in one chain of it.
//!
//! A map of names that strangers choose:
//!
//!     let mut names: IndexMap<String, usize, HashStart> = IndexMap::with_hasher(alloc, HashStart::drawn(rt));
#![tactic(auto)]

mod start;

pub use start::HashStart;
