//! Tests of the exporter and of runs of scripts over it, of what no contract says.
#![tactic(auto)]

#[cfg(test)]
mod exporter;
#[cfg(test)]
mod lanes;
#[cfg(test)]
mod sockets;
