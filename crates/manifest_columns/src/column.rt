//! Columns.

use crate::name::{Name, RecordName};

/// What the values of a column are.
#[derive(Clone, Copy, Debug)]
pub enum Kind {
    Bool,
    Int,
    Long,
    /// A string.
    Text,
    Bytes,
    /// A list of longs, whose items have the id.
    Longs {
        element: i32,
    },
    /// A list of ints, whose items have the id.
    Ints {
        element: i32,
    },
    /// Ints, each with a long, under the ids of the two: an array of records of this name.
    IntLongs {
        key: i32,
        value: i32,
        record: RecordName,
    },
    /// Ints, each with bytes, in the same way.
    IntBytes {
        key: i32,
        value: i32,
        record: RecordName,
    },
    /// A list of field summaries, whose items have the id and are records of this name.
    Summaries {
        element: i32,
        record: RecordName,
    },
    /// A record of this name, whose columns are a table of their own.
    Record {
        record: RecordName,
    },
}

/// A column of a record: its field id, its name in a written schema, what its values are, and whether it may lack, which
/// then counts as null.
#[derive(Clone, Copy, Debug)]
pub struct Column {
    pub id: i32,
    pub name: Name,
    pub kind: Kind,
    pub may_lack: bool,
}
