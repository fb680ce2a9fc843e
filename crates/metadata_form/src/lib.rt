//! What is wrong with the form of a JSON tree as table metadata (Iceberg table specification, format version 2): the
//! first cause, at the path of the first place that shows it. Keys of objects are taken in byte order, items of arrays
//! in their order.
#![tactic(auto)]

mod fault;
mod fields;
mod float;
mod form;
mod key;
mod path;
mod rules;
mod tree;

pub use fault::{Fault, MetaCause};
pub use form::{int, is_branch_text};
pub use path::{fault_at, in_item, in_member};
pub use tree::form_fault;
