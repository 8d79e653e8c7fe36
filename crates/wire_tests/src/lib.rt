//! Worked examples of what goes over the wire: DogStatsD payloads, the addresses that they go to, and the answers to requests.
#![tactic(auto)]

#[cfg(test)]
mod address_tests;
#[cfg(test)]
mod answer_tests;
#[cfg(test)]
mod link_tests;
#[cfg(test)]
mod payload_tests;
#[cfg(test)]
mod serving_tests;
#[cfg(test)]
mod slow_peer_tests;
