use avro_schema::Text;
use sqlite_items::{Boxed, Items};

/// A type of a column (Iceberg table specification, "Schemas and Data Types").
#[cycle(types)]
#[derive(Debug, Drop)]
pub enum ColType {
    Boolean,
    Int,
    Long,
    Float,
    Double,
    /// A number of at most `precision` decimal digits, `scale` of them behind the point.
    Decimal {
        precision: u32,
        scale: u32,
    },
    Date,
    Time,
    /// A moment without a time zone.
    Timestamp,
    /// A moment in UTC.
    Timestamptz,
    Str,
    Uuid,
    /// So many bytes.
    Fixed(u32),
    Binary,
    Struct(ColumnList),
    /// `required` says whether no element is null.
    List {
        element_id: i32,
        required: bool,
        element: Boxed<ColType>,
    },
    /// `required` says whether no value is null; a key never is.
    Map {
        key_id: i32,
        key: Boxed<ColType>,
        value_id: i32,
        required: bool,
        value: Boxed<ColType>,
    },
}

/// A column of a table, or a field of a struct.
#[cycle(types)]
#[derive(Debug, Drop)]
pub struct Column {
    pub id: i32,
    pub name: Text,
    /// Whether its value is never null.
    pub required: bool,
    pub ty: ColType,
}

/// The columns of a table or the fields of a struct, in order.
pub type ColumnList = Items<Column>;

/// A schema of a table: its `schema-id` and its columns.
#[derive(Debug, Drop)]
pub struct Schema {
    pub id: i32,
    pub columns: ColumnList,
}

/// Schemas in order.
pub type SchemaList = Items<Schema>;

/// How a partition value is made from a column's value (Iceberg table specification, "Partition Transforms").
#[derive(Clone, Copy, Debug, PartialEq, Eq)]
pub enum Transform {
    Identity,
    /// A hash value modulo so many buckets.
    Bucket(u32),
    /// A value cut to this width.
    Truncate(u32),
    Year,
    Month,
    Day,
    Hour,
    /// Always null.
    Void,
    /// One that this program doesn't know.
    Unknown,
}

/// A field of a partition spec (Iceberg table specification, "Partitioning").
#[derive(Debug, Drop)]
pub struct SpecField {
    pub field_id: i32,
    /// The id of the column that its values are made from.
    pub source_id: i32,
    pub name: Text,
    pub transform: Transform,
}

/// Fields of a partition spec, in order.
pub type SpecFieldList = Items<SpecField>;

/// A partition spec: its `spec-id` and its fields.
#[derive(Debug, Drop)]
pub struct Spec {
    pub id: i32,
    pub fields: SpecFieldList,
}

/// A field of a partition type.
#[derive(Debug, Drop)]
pub struct PartField {
    pub field_id: i32,
    pub name: Text,
    pub ty: ColType,
    /// How its values are made. A manifest may have those of `Day` as plain ints, and those of `Void` count as null.
    pub transform: Transform,
}

/// Fields of a partition type, in order.
pub type PartFieldList = Items<PartField>;

/// The type of a spec's partition values: the spec's fields in order, each with the type of its values and how they are
/// made.
#[derive(Debug, Drop)]
pub struct PartType {
    pub fields: PartFieldList,
}
