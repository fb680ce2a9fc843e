//! Tests of the manifest crates: tables, whose bytes and schemas are put together by hand from the Avro specification's
//! "Binary Encoding" and the Iceberg specification's "Manifests", "Manifest Lists" and Appendix A, "Avro".
//!
//! - `columns`: what is wrong with a file's schema, where it has the columns, and the schemas that are written.
//! - `rows`, `files`, `entries`: records read and written.
//! - `lists`, `manifests`: whole files of them; `made` has some manifests.
//! - `parts`: what a file's schema has of a partition.
#![tactic(auto)]

#[cfg(test)]
mod columns;
#[cfg(test)]
mod entries;
#[cfg(test)]
mod files;
#[cfg(test)]
mod lists;
#[cfg(test)]
mod made;
#[cfg(test)]
mod manifests;
#[cfg(test)]
mod parts;
#[cfg(test)]
mod rows;
