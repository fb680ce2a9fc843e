ghost use Rattle.std.specs.Prelude.{◌≡◌, ◌≤◌, ◌↔◌, IsTrue, IfOk};
ghost use Rattle.serde_json.specs.View.{view};
ghost use Rattle.avro_schema.specs.declared.schema.Schema.{Schema};
ghost use Rattle.avro_schema.specs.Form.{form_of, depth, width};
ghost use Rattle.avro_schema.specs.Reading.{Gives, schema_of};
ghost use Rattle.avro_schema.specs.Spelling.{SpellsSchema, SpellsNone, OnFault};
ghost use Rattle.avro_schema.specs.Writable.{IsWritable};
ghost use Rattle.avro_schema.specs.Writing.{written_schema};

use crate::fault::SchemaErr;
use crate::limits::{is_within, room_behind};
use crate::names::Names;
use crate::reading::read_type;
use crate::schema::Schema;
use crate::scope::Scope;
use crate::writing::write_type;
use crate::written::WrittenNames;
use serde_json::Value;
use std::alloc::{AllocError, Global};

/// At most so many types may lie within one another.
const MOST_TYPES: u32 = 32;

/// At most so many record fields there may be in all.
const MOST_FIELDS: u32 = 4096;

/// The schema that a JSON tree spells (Apache Avro specification, "Schema Declaration").
///
/// References to names are followed, and count as the types that they name. `Bad` has the path of the
/// first fault; an object's type comes first, then the name that it defines, then what lies within it.
pub fn read_schema(alloc: Global, tree: &Value) -> Result<Schema, SchemaErr>
    // What is read is spelled so, within the limits.
    ensures found { IfOk result (SpellsSchema (view tree.now)) }
    // What is spelled so is read, unless memory runs out.
    ensures only { (s : Schema) → SpellsSchema (view tree.now) s → Gives result (Ok s) }
    // A fault comes only where the tree spells no schema, or a limit is passed.
    ensures none { OnFault result (SpellsNone (view tree.now)) }
    // The first fault, its path and its cause.
    ensures fault { Gives result (schema_of (view tree.now)) }
{
    let mut scope = Scope {
        names: Names::new(alloc),
        room: MOST_FIELDS,
    };
    read_type(alloc, tree, "", MOST_TYPES, &mut scope)
}

/// The JSON tree that is written for a schema. A type whose name was written before is that name alone,
/// and a record field whose schema is a union that begins with null has the default null. Its text has
/// its keys in byte order and no blanks.
#[tactic(auto, unfolding(crate::specs::Writing::written_schema))]
pub fn write_schema(alloc: Global, schema: &Schema) -> Result<Value, AllocError>
    ensures written { IfOk result (λ v. view v ≡ written_schema schema.now) }
    // It is one of the spellings of the schema, where names, logical types and limits are kept.
    ensures spelled { IfOk result (λ v. IsWritable schema.now → SpellsSchema (view v) schema.now) }
    // So it is read as that schema.
    ensures again { IfOk result (λ v. IsWritable schema.now → schema_of (view v) ≡ Ok schema.now) }
{
    let mut written = WrittenNames::new(alloc);
    write_type(alloc, schema, &mut written)
}

/// Whether the schema is within the limits: at most 32 types within one another, and at most 4,096
/// record fields in all.
pub fn is_within_limits(schema: &Schema) -> bool
    ensures { IsTrue result ↔ ((depth (form_of schema.now) ≤ 32) × (width (form_of schema.now) ≤ 4096)) }
{
    is_within(schema, MOST_TYPES) && room_behind(schema, MOST_FIELDS).is_some()
}
