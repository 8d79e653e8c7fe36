//! Worked examples of a service that sends its metrics to a DogStatsD agent: what a forwarder's runs send, and which recorder
//! becomes that of a program.
#![tactic(auto)]

#[cfg(test)]
mod beside;
#[cfg(test)]
mod tests;
