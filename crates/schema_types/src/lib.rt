//! Iceberg's types, schemas and partition specs, as values.
#![tactic(auto)]

mod copying;
mod known;
mod types;

pub use types::{
    ColType, Column, ColumnList, PartField, PartFieldList, PartType, Schema, SchemaList, Spec,
    SpecField, SpecFieldList, Transform,
};
