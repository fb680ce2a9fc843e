//! Tests of the Avro crates: worked rows, and tables of faults. Their bytes are put together by hand from the Avro
//! specification's grammar.
//!
//! - `containers`: headers, blocks and numbers.
//! - `schemas`: schemas read and written.
//! - `values`: values of every kind, decoded, passed over and encoded.
#![tactic(auto)]

#[cfg(test)]
mod containers;
#[cfg(test)]
mod schemas;
#[cfg(test)]
mod values;
