//! What all written files have.

ghost use Rattle.std.specs.Prelude.{◌≡◌, ◌≤◌, IfOk, IsUtf8, Some};
ghost use Rattle.serde_json.specs.Read.{read};
ghost use Rattle.avro_schema.specs.Form.{form_of, depth};
ghost use Rattle.avro_schema.specs.Writing.{written_schema};
ghost use Rattle.manifest_writing.specs.Files.{schema_text};

use avro_container::{Bytes, Text};
use avro_schema::{Schema, write_schema};
use std::alloc::{AllocError, Global};

/// The text of a schema: compact JSON with its keys in byte order.
#[tactic(auto, using(crate::proofs::Tame::no_float, crate::proofs::Tame::text_reads), unfolding(crate::specs::Files::schema_text))]
pub(crate) fn schema_text(alloc: Global, schema: &Schema) -> Result<Bytes, AllocError>
    ensures text { IfOk result (λ b. b ≡ schema_text schema.now) }
    ensures utf8 { IfOk result (λ b. IsUtf8 b) }
    ensures reads { IfOk result (λ b. depth (form_of schema.now) ≤ 32 → read b ≡ Some (written_schema schema.now)) }
{
    let tree = write_schema(alloc, schema)?;
    Ok(Bytes::new(tree.to_vec(alloc)?))
}

/// A key of the metadata.
pub(crate) fn key(alloc: Global, name: &str) -> Result<Text, AllocError>
    ensures { IfOk result (λ t. t ≡ name.now) }
{
    Ok(Text::new(String::from_str(alloc, name)?))
}
