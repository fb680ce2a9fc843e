//! JSON trees: typed looks at the fields of an object, and edits that change one field and keep the others.
#![tactic(auto)]

mod edits;
mod fields;
mod taken;

pub use edits::{add, add_within, object_at, set};
pub use fields::{items, members, signed, signed_or_zero, text_or_empty, unsigned_or_zero};
pub use taken::{Taken, items_or_none, object_or_empty, take};
