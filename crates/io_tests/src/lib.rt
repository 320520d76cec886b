//! Tests of the folders and sinks: the fakes in memory, and the adapters that reach the system.
#![tactic(auto)]

#[cfg(test)]
mod adapters;
