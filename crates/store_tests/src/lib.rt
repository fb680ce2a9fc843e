//! Tests of the stores, in memory and of a real directory, of their clocks, sources of identifiers and sinks.
//!
//! - `memory`: places, and the store in memory: its calls, its images, its planned failures.
//! - `directory`: the store of a real directory, and the machine.
#![tactic(auto)]

#[cfg(test)]
mod directory;
#[cfg(test)]
mod memory;
