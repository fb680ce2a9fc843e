use crate::text::{Text, TextList};
use sqlite_items::{Boxed, Items};

/// What a value of an Avro type means beyond its type: the Avro specification's "Logical Types".
///
/// Plain goes with each type, Date with int, TimeMicros and TimestampMicros with long, Decimal with
/// bytes and fixed, Uuid with string and with a fixed of 16 bytes.
#[derive(Clone, Copy, Debug, PartialEq, Eq)]
pub enum Logical {
    Plain,
    Date,
    TimeMicros,
    TimestampMicros { adjust_to_utc: bool },
    Decimal { precision: u32, scale: u32 },
    Uuid,
}

/// Fields of a record, in order.
pub type FieldList = Items<Field>;

/// Branches of a union, in order.
pub type SchemaList = Items<Schema>;

/// An Avro schema with each reference to a name replaced by the type that it names: the Avro
/// specification's "Primitive Types" and "Complex Types". The ids are those that the Iceberg
/// specification's "Avro" mapping of types puts beside them.
#[cycle(schema)]
#[derive(Debug, Drop)]
pub enum Schema {
    Null,
    Bool,
    Int(Logical),
    Long(Logical),
    Float4,
    Float8,
    Blob(Logical),
    Str(Logical),
    /// A fixed of `size` bytes.
    Fix {
        name: Text,
        size: u32,
        logical: Logical,
    },
    /// An enum.
    Choice {
        name: Text,
        symbols: TextList,
    },
    /// An array; `is_map` where its logical type is `map`, its items being records of key and value.
    List {
        item: Boxed<Schema>,
        element_id: Option<i32>,
        is_map: bool,
    },
    /// A map with string keys.
    Pairs {
        value: Boxed<Schema>,
        key_id: Option<i32>,
        value_id: Option<i32>,
    },
    /// A record.
    Fields {
        name: Text,
        fields: FieldList,
    },
    Union {
        branches: SchemaList,
    },
}

/// A field of a record.
#[cycle(schema)]
#[derive(Debug, Drop)]
pub struct Field {
    pub name: Text,
    pub schema: Schema,
    pub field_id: Option<i32>,
}
