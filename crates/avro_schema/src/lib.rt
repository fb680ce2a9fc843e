//! Apache Avro schemas: the types, and their JSON form.
#![tactic(auto)]

mod attribute;
mod calls;
mod copying;
mod fault;
mod known;
mod limits;
mod logical;
mod names;
mod path;
mod primitive;
mod reading;
mod schema;
mod scope;
mod text;
mod writing;
mod written;

pub use attribute::{array_at, id_at, text_at};
pub use calls::{is_within_limits, read_schema, write_schema};
pub use fault::{SchemaCause, SchemaErr};
pub use limits::is_within;
pub use path::{index_path, key_path};
pub use schema::{Field, FieldList, Logical, Schema, SchemaList};
pub use text::{Bytes, Text, TextList};
pub use writing::{put_text, string};
