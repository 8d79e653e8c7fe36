//! Tests of the multi-value map, of its bags, of what its writes leave, and of descriptions in it: of what no clause says.
#![tactic(auto)]

#[cfg(test)]
mod asking;
#[cfg(test)]
mod bag_tests;
#[cfg(test)]
mod contents_tests;
#[cfg(test)]
mod description_tests;
#[cfg(test)]
mod making_tests;
#[cfg(test)]
mod reading_tests;
#[cfg(test)]
mod thread_tests;
