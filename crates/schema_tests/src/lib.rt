//! Tests of the crates of schemas: a worked row, and tables. Their values are put together by hand from the Iceberg
//! specification's tables.
//!
//! - `schemas`, `specs`: JSON trees of schemas and of partition specs, read and written.
//! - `mapping`: Avro schemas of types.
//! - `partitions`: types of partitions.
//! - `projections`: projections of files' schemas.
//! - `tables`: the schemas that they work on.
#![tactic(auto)]

#[cfg(test)]
mod mapping;
#[cfg(test)]
mod partitions;
#[cfg(test)]
mod projections;
#[cfg(test)]
mod schemas;
#[cfg(test)]
mod specs;
#[cfg(test)]
mod tables;
