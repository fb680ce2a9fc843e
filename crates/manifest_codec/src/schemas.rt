//! What the schema of a file must have.

ghost use Rattle.std.specs.Prelude.{◌≡◌, Err, Ok, None, IfOk, Result, MatchOption};
ghost use Rattle.avro_schema.specs.declared.schema.Schema.{Schema, out-Schema};
ghost use Rattle.manifest_columns.specs.Shapes.{fields_of};
ghost use Rattle.manifest_columns.specs.declared.faults.Fault.TheVariants.{Lacks as lacks, Bad as bad};
ghost use Rattle.manifest_columns.specs.Faults.{schema_fault};
ghost use Rattle.manifest_codec.specs.Schemas.{cause_of, checked, fields_fault, text_schema, FieldsAre, Opens, SchemaIs};
ghost use Rattle.serde_json.specs.Read.{read as read_text};

use crate::container::Container;
use crate::fault::{ManifestCause, ManifestErr};
use avro_container::read_header;
use avro_schema::{Field, Schema, SchemaCause, SchemaErr, read_schema};
use manifest_columns::{Column, Fault, fields_of, least_fault};
use serde_json::Value;
use std::alloc::Global;

/// Where the faults of a file's schema stand: at the file metadata.
const SCHEMA_PLACE: usize = 4;

pub(crate) fn at_schema(cause: ManifestCause) -> ManifestErr
    ensures { result ≡ ManifestErr.Bad 4 cause }
{
    ManifestErr::Bad {
        at: SCHEMA_PLACE,
        cause,
    }
}

fn cause_of(cause: SchemaCause) -> ManifestCause
    ensures { result ≡ cause_of cause }
{
    match cause {
        SchemaCause::TooDeep | SchemaCause::TooWide => ManifestCause::SchemaSize,
        SchemaCause::BadForm | SchemaCause::UnknownName | SchemaCause::Recursive => {
            ManifestCause::BadSchema
        }
    }
}

// The schema that the text spells.
fn text_schema(alloc: Global, text: &str) -> Result<Schema, ManifestErr>
    ensures { SchemaIs (text_schema (read_text text.now)) result }
{
    let tree = match Value::from_str(alloc, text) {
        Ok(tree) => tree,
        Err(e) => {
            if e.is_memory() {
                return Err(ManifestErr::Memory);
            }
            return Err(at_schema(ManifestCause::BadSchema));
        }
    };
    match read_schema(alloc, &tree) {
        Ok(schema) => Ok(schema),
        Err(SchemaErr::Memory) => Err(ManifestErr::Memory),
        Err(SchemaErr::Bad { path: _, cause }) => Err(at_schema(cause_of(cause))),
    }
}

/// What is wrong with a record's fields: first one that lacks, then one of another type.
pub(crate) fn fields_fault(lacks: Option<i32>, bad: Option<i32>) -> Option<ManifestCause>
    ensures { result ≡ fields_fault lacks bad }
{
    match (lacks, bad) {
        (Some(id), _) => Some(ManifestCause::LacksField(id)),
        (None, Some(id)) => Some(ManifestCause::BadField(id)),
        (None, None) => None,
    }
}

fn columns_fault(columns: &[Column], fields: &[Field]) -> Option<ManifestCause>
    ensures { result ≡ fields_fault (schema_fault lacks None columns.now fields.now) (schema_fault bad None columns.now fields.now) }
{
    fields_fault(
        least_fault(Fault::Lacks, columns, fields),
        least_fault(Fault::Bad, columns, fields),
    )
}

/// The fields of a schema that is a record with these columns.
pub(crate) fn checked<'a>(
    columns: &[Column],
    schema: &'a Schema,
) -> Result<&'a [Field], ManifestErr>
    ensures { FieldsAre (checked columns.now (fields_of (out-Schema schema.now))) result }
{
    let Some(fields) = fields_of(schema) else {
        return Err(at_schema(ManifestCause::BadSchema));
    };
    match columns_fault(columns, fields) {
        None => Ok(fields),
        Some(cause) => Err(at_schema(cause)),
    }
}

/// The file's header, and its schema.
#[tactic(auto, unfolding(crate::specs::Schemas::head_at))]
pub(crate) fn open(alloc: Global, bytes: &[u8]) -> Result<Container, ManifestErr>
    ensures { Opens bytes.now result }
{
    let header = read_header(alloc, bytes)?;
    let schema = text_schema(alloc, header.schema_text.as_str())?;
    Ok(Container { header, schema })
}
