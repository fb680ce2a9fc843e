//! What is wrong with the schema of a file.

ghost use Rattle.std.specs.Prelude.{◌≡◌, None, option_map, false};
ghost use Rattle.std.specs.Option.{option_copied};
ghost use Rattle.avro_schema.specs.declared.schema.Schema.{out-Schema};
ghost use Rattle.manifest_columns.specs.Faults.{is_of, is_faulty, own_fault, smaller, flat_fault, pair_fault, item_fault, record_under, summary_fault, type_fault, inner_fault, field_fault, schema_fault};

use crate::column::{Column, Kind};
use crate::places::schema_of;
use crate::shapes::{fields_of, has_kind, item_fields, item_under, type_of};
use crate::tables::summary_columns;
use avro_schema::{Field, Schema};

/// What can be wrong with a field of a file's schema: it lacks where it may not, or it has another type than its column's.
#[derive(Clone, Copy, Debug)]
pub enum Fault {
    Lacks,
    Bad,
}

fn is_of(kind: Kind, values: Option<&Schema>) -> bool
    ensures { result ≡ is_of kind (option_copied values.entry) }
{
    match values {
        None => false,
        Some(schema) => has_kind(kind, schema),
    }
}

fn is_faulty(fault: Fault, kind: Kind, may_lack: bool, found: Option<&Schema>) -> bool
    ensures { result ≡ is_faulty fault kind may_lack (option_copied found.entry) }
{
    match (fault, found) {
        (Fault::Lacks, None) => !may_lack,
        (Fault::Lacks, Some(_)) => false,
        (Fault::Bad, None) => false,
        (Fault::Bad, Some(schema)) => !is_of(kind, type_of(may_lack, schema)),
    }
}

fn own_fault(
    fault: Fault,
    id: i32,
    kind: Kind,
    may_lack: bool,
    found: Option<&Schema>,
) -> Option<i32>
    ensures { result ≡ own_fault fault id kind may_lack (option_copied found.entry) }
{
    if is_faulty(fault, kind, may_lack, found) {
        Some(id)
    } else {
        None
    }
}

/// The smaller of two ids, where there are any.
pub fn smaller(first: Option<i32>, second: Option<i32>) -> Option<i32>
    ensures { result ≡ smaller first second }
{
    match (first, second) {
        (None, second) => second,
        (Some(a), None) => Some(a),
        (Some(a), Some(b)) => { if b < a { Some(b) } else { Some(a) } }
    }
}

fn flat_fault(fault: Fault, columns: &[Column], fields: &[Field]) -> Option<i32>
    ensures { result ≡ flat_fault fault None columns.now fields.now }
{
    let mut least = None;
    for column in columns {
        let found = schema_of(fields, column.id);
        let own = own_fault(fault, column.id, column.kind, column.may_lack, found);
        least = smaller(least, own);
    }
    least
}

fn pair_fault(
    fault: Fault,
    key: i32,
    value: i32,
    kind: Kind,
    fields: Option<&[Field]>,
) -> Option<i32>
    ensures { result ≡ pair_fault fault key value kind (option_map (λ fields. fields.now) fields.entry) }
{
    match fields {
        None => None,
        Some(fields) => smaller(
            own_fault(fault, key, Kind::Int, false, schema_of(fields, key)),
            own_fault(fault, value, kind, false, schema_of(fields, value)),
        ),
    }
}

fn item_fault(fault: Fault, id: i32, kind: Kind, schema: &Schema) -> Option<i32>
    ensures { result ≡ item_fault fault id kind (out-Schema schema.now) }
{
    match schema {
        Schema::List { .. } => own_fault(fault, id, kind, false, item_under(id, schema)),
        _ => None,
    }
}

fn record_under(item: Option<&Schema>) -> Option<&[Field]>
    ensures { option_map (λ fields. fields.now) result ≡ record_under (option_copied item.entry) }
{
    match item {
        None => None,
        Some(schema) => fields_of(schema),
    }
}

fn summary_fault(fault: Fault, fields: Option<&[Field]>) -> Option<i32>
    ensures { result ≡ summary_fault fault (option_map (λ fields. fields.now) fields.entry) }
{
    match fields {
        None => None,
        Some(fields) => flat_fault(fault, &summary_columns(), fields),
    }
}

fn type_fault(fault: Fault, kind: Kind, schema: &Schema) -> Option<i32>
    ensures { result ≡ type_fault fault kind (out-Schema schema.now) }
{
    match kind {
        Kind::Longs { element } => item_fault(fault, element, Kind::Long, schema),
        Kind::Ints { element } => item_fault(fault, element, Kind::Int, schema),
        Kind::IntLongs { key, value, .. } => {
            pair_fault(fault, key, value, Kind::Long, item_fields(schema))
        }
        Kind::IntBytes { key, value, .. } => {
            pair_fault(fault, key, value, Kind::Bytes, item_fields(schema))
        }
        Kind::Summaries { element, record } => smaller(
            item_fault(fault, element, Kind::Record { record }, schema),
            summary_fault(fault, record_under(item_under(element, schema))),
        ),
        Kind::Bool | Kind::Int | Kind::Long | Kind::Text | Kind::Bytes | Kind::Record { .. } =>
            None,
    }
}

fn inner_fault(fault: Fault, kind: Kind, values: Option<&Schema>) -> Option<i32>
    ensures { result ≡ inner_fault fault kind (option_copied values.entry) }
{
    match values {
        None => None,
        Some(schema) => type_fault(fault, kind, schema),
    }
}

fn field_fault(fault: Fault, column: Column, found: Option<&Schema>) -> Option<i32>
    ensures { result ≡ field_fault fault column (option_copied found.entry) }
{
    let values = match found {
        None => None,
        Some(schema) => type_of(column.may_lack, schema),
    };
    smaller(
        own_fault(fault, column.id, column.kind, column.may_lack, found),
        inner_fault(fault, column.kind, values),
    )
}

/// The smallest id of the columns, and of what lies within their lists, that has the fault in a record with these fields.
pub fn least_fault(fault: Fault, columns: &[Column], fields: &[Field]) -> Option<i32>
    ensures { result ≡ schema_fault fault None columns.now fields.now }
{
    let mut least = None;
    for column in columns {
        let found = schema_of(fields, column.id);
        least = smaller(least, field_fault(fault, *column, found));
    }
    least
}
