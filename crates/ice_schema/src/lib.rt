//! Iceberg's schemas: how they map to Avro's, the types of partitions, and how a file's rows project to a schema.
//! Their types are those of `schema_types`, and their JSON trees are read and written by `schema_trees`.
#![tactic(auto)]

mod fault;
mod kinds;
mod mapping;
mod names;
mod partitions;
mod projecting;
mod projection;
mod sizes;
mod sources;

pub use fault::PartErr;
pub use kinds::NullBranch;
pub use mapping::{optional_field, to_avro};
pub use partitions::partition_type;
pub use projecting::{project_type, projects};
pub use projection::{Nullness, Projection, Source, SourceList};
pub use schema_trees::{JsonErr, read_schema, read_spec, schema_tree, spec_tree};
pub use schema_types::{
    ColType, Column, ColumnList, PartField, PartFieldList, PartType, Schema, SchemaList, Spec,
    SpecField, SpecFieldList, Transform,
};
pub use sizes::decimal_sizes_are_least;
