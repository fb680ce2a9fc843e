// Primitive types.
ghost use Rattle.std.specs.Prelude.{◌≡◌};
ghost use Rattle.serde_json.specs.View.{view};
ghost use Rattle.avro_schema.specs.Primitive.{primitive, is_primitive};

use crate::logical::{bytes_logical, int_logical, long_logical, string_logical};
use crate::schema::Schema;
use serde_json::Value;

/// The primitive type of this name, with the attributes of the tree that names it.
#[tactic(auto, unfolding(crate::specs::Primitive::primitive))]
pub(crate) fn primitive(name: &str, tree: &Value) -> Option<Schema>
    ensures { result ≡ primitive name.now (view tree.now) }
{
    if name == "null" {
        Some(Schema::Null)
    } else if name == "boolean" {
        Some(Schema::Bool)
    } else if name == "int" {
        Some(Schema::Int(int_logical(tree)))
    } else if name == "long" {
        Some(Schema::Long(long_logical(tree)))
    } else if name == "float" {
        Some(Schema::Float4)
    } else if name == "double" {
        Some(Schema::Float8)
    } else if name == "bytes" {
        Some(Schema::Blob(bytes_logical(tree)))
    } else if name == "string" {
        Some(Schema::Str(string_logical(tree)))
    } else {
        None
    }
}

#[tactic(auto, unfolding(crate::specs::Primitive::is_primitive))]
pub(crate) fn is_primitive(name: &str) -> bool
    ensures { result ≡ is_primitive name.now }
{
    primitive(name, &Value::Null).is_some()
}
