//! The places and the text of versions and drafts.
ghost use Rattle.std.specs.Prelude.{◌≡◌, ◌<◌, ◌≤◌, ◌++◌, ◌∷◌, [], length, take, IfOk, string_bytes, IsUtf8};
ghost use Rattle.commit_history.specs.Versions.{folder, number_in};
ghost use Rattle.commit_versions.specs.Names.{version_name, draft_name, unslashed, version_text_of};

use ice_store::{Place, Text};
use std::alloc::{AllocError, Global};
use uuid::Uuid;

/// The folder of a table's metadata files.
pub fn metadata_folder(_alloc: Global, table: &Place) -> Result<Place, AllocError>
    ensures { IfOk result (λ p. p ≡ table.now ++ folder ∷ []) }
{
    table.child(b"metadata")
}

/// The place of the version file with this number.
pub fn version_place(alloc: Global, table: &Place, number: u64) -> Result<Place, AllocError>
    requires { 0 < number }
    ensures number { IfOk result (λ p. number_in table.now p ≡ number) }
    ensures place { IfOk result (λ p. p ≡ table.now ++ folder ∷ version_name number ∷ []) }
{
    let name = name_of_version(alloc, number)?;
    metadata_folder(alloc, table)?.child(name.as_bytes())
}

/// The place of a new metadata file, which is named by an identifier and is no version file.
pub fn draft_place(alloc: Global, table: &Place, id: u128) -> Result<Place, AllocError>
    ensures plain { IfOk result (λ p. number_in table.now p ≡ 0) }
    ensures place { IfOk result (λ p. p ≡ table.now ++ folder ∷ draft_name id ∷ []) }
{
    let name = name_of_draft(alloc, id)?;
    metadata_folder(alloc, table)?.child(&name)
}

/// The text of a version file's place, as a metadata log has it: the location, which loses its ending slashes,
/// `/metadata/` and the name.
pub fn version_text(alloc: Global, location: &Text, number: u64) -> Result<Text, AllocError>
    requires { IsUtf8 location.now }
    ensures text { IfOk result (λ t. t ≡ version_text_of location.now number) }
    ensures utf8 { IfOk result (λ t. IsUtf8 t) }
{
    let front = without_slashes(location.inner());
    let name = name_of_version(alloc, number)?;
    let mut text = front.to_vec(alloc)?;
    text.extend_from_slice(b"/metadata/")?;
    text.extend_from_slice(name.as_bytes())?;
    Ok(Text::new(text))
}

fn name_of_version(alloc: Global, number: u64) -> Result<String, AllocError>
    ensures { IfOk result (λ name. string_bytes name ≡ version_name number) }
{
    format!(in alloc; "v{number}.metadata.json")
}

fn name_of_draft(alloc: Global, id: u128) -> Result<Vec<u8>, AllocError>
    ensures { IfOk result (λ name. name.items ≡ draft_name id) }
{
    let mut buffer = Uuid::encode_buffer();
    let text = Uuid::from_u128(id).hyphenated().encode_lower(&mut buffer);
    let mut name = text.as_bytes().to_vec(alloc)?;
    name.extend_from_slice(b".metadata.json")?;
    Ok(name)
}

fn without_slashes(text: &[u8]) -> &[u8]
    ensures { result.now ≡ unslashed text.now }
{
    let mut end = text.len();
    while end > 0 && text[end - 1] == b'/' {
        end -= 1;
    }
    &text[..end]
}
