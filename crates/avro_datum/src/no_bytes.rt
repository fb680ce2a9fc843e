//! Values that are spelled by no bytes, of which any number can be passed over at once.

ghost use Rattle.std.specs.Prelude.{◌≡◌, map};
ghost use Rattle.avro_schema.specs.Form.{form_of, field_form, forms_of};
ghost use Rattle.avro_datum.specs.NoBytes.{takes_none, all_take_none};

use avro_schema::{Field, Schema};

/// Whether values of the schema are spelled by no bytes: nulls, fixeds of no bytes, and records of such fields. It takes no
/// longer than passing over one value does.
#[cycle(no_bytes)]
#[tactic(auto, unfolding(crate::specs::Reading::read, avro_pieces::specs::Pieces::bool_at, avro_pieces::specs::Pieces::int_at, avro_pieces::specs::Pieces::position_at, avro_container::specs::Reading::number_at, avro_container::specs::Reading::length_at, avro_container::specs::Reading::bytes_at, avro_container::specs::Reading::blob_at, avro_container::specs::Reading::string_at, avro_container::specs::Reading::head_at, avro_container::specs::Reading::blocks_at, avro_container::specs::LongReading::long_at, avro_container::specs::LongReading::unsigned_at, avro_container::specs::LongReading::groups_at))]
pub(crate) fn takes_none(schema: &Schema) -> bool
    ensures { result ≡ takes_none (form_of schema.now) }
{
    match schema {
        Schema::Null => true,
        Schema::Fix { size, .. } => *size == 0,
        Schema::Fields { fields, .. } => all_take_none(fields.as_slice()),
        Schema::Bool | Schema::Float4 | Schema::Float8 => false,
        Schema::Int(_) | Schema::Long(_) | Schema::Blob(_) | Schema::Str(_) => false,
        Schema::Choice { .. } | Schema::List { .. } | Schema::Pairs { .. } => false,
        Schema::Union { .. } => false,
    }
}

#[cycle(no_bytes)]
fn all_take_none(fields: &[Field]) -> bool
    ensures { result ≡ all_take_none (forms_of (map field_form fields.now)) }
{
    for field in fields {
        if !takes_none(&field.schema) {
            return false;
        }
    }
    true
}
