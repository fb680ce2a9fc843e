//! The JSON trees of Iceberg's schemas and partition specs: read with the first fault at its path, and written.
#![tactic(auto)]

mod attribute;
mod calls;
mod fault;
mod met;
mod nesting;
mod path;
mod schema_reading;
mod schema_writing;
mod spec_reading;
mod spec_writing;
mod type_words;
mod words;

pub use calls::{read_schema, read_spec, schema_tree, spec_tree};
pub use fault::JsonErr;
pub use nesting::limit_is_enough;
