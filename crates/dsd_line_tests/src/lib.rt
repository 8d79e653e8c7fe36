//! Tests of lines and streams as a receiver reads them, with rows from outside: what the lines of DogStatsD's and StatsD's
//! documentation say, and lines that break one rule each.
#![tactic(auto)]

#[cfg(test)]
mod rows;
