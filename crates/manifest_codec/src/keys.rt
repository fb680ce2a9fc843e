//! What the metadata of a manifest's file says.

ghost use Rattle.std.specs.Prelude.{◌≡◌, codes, option_map, IfOk};
ghost use Rattle.avro_container.specs.Container.{Pair, value_of};
ghost use Rattle.manifest_codec.specs.Keys.{HasKeys, IsParsed, NumberIs, as_text, text_at, text_in};

use crate::manifest::{EntryList, Manifest};
use avro_container::{Bytes, MetaList, Text as Key};
use avro_schema::Text;
use itoa::Buffer;
use std::alloc::{AllocError, Global};

// The value of a key, of equal keys the last one's.
fn value_of<'a>(meta: &'a [(Key, Bytes)], key: &str) -> Option<&'a [u8]>
    ensures { option_map (λ v. v.now) result ≡ value_of key.now meta.now }
{
    let found = meta
        .iter()
        .rev()
        .find(|pair| pair.0.as_str().as_bytes() == key.as_bytes());
    match found {
        None => None,
        Some(pair) => Some(pair.1.inner().as_slice()),
    }
}

fn as_text(bytes: &[u8]) -> &str
    ensures { result.now ≡ as_text bytes.now }
{
    match str::from_utf8(bytes) {
        Ok(text) => text,
        Err(_) => "",
    }
}

fn text_in(value: Option<&[u8]>) -> &str
    ensures { result.now ≡ text_in (option_map (λ v. v.now) value.entry) }
{
    match value {
        None => "",
        Some(bytes) => as_text(bytes),
    }
}

// The text of a key, empty where the key lacks or its value isn't UTF-8.
fn text_at<'a>(meta: &'a MetaList, key: &str) -> &'a str
    ensures { result.now ≡ text_at key.now meta.now }
{
    text_in(value_of(meta.inner().as_slice(), key))
}

fn copied(alloc: Global, meta: &MetaList, key: &str) -> Result<Text, AllocError>
    ensures { IfOk result (λ t. t ≡ text_at key.now meta.now) }
{
    Ok(Text::new(String::from_str(alloc, text_at(meta, key))?))
}

fn parsed(text: &str) -> i32
    ensures { IsParsed text.now result }
{
    match text.parse::<i32>() {
        Ok(number) => number,
        Err(_) => 0,
    }
}

// The number that the text is in decimal, as it is written; 0 where it is none.
#[tactic(auto, using(crate::proofs::Numbers::no_number))]
fn number_in(text: &str) -> i32
    ensures { NumberIs text.now result }
{
    let number = parsed(text);
    if Buffer::new().format(number) == text {
        number
    } else {
        0
    }
}

/// The manifest of these entries in a file with this metadata.
pub(crate) fn with_keys(
    alloc: Global,
    meta: &MetaList,
    entries: EntryList,
) -> Result<Manifest, AllocError>
    ensures keys { IfOk result (λ m. HasKeys meta.now m) }
    ensures entries { IfOk result (λ m. m.entries ≡ entries) }
{
    Ok(Manifest {
        spec_id: number_in(text_at(meta, "partition-spec-id")),
        is_deletes: text_at(meta, "content") == "deletes",
        schema_text: copied(alloc, meta, "schema")?,
        schema_id: copied(alloc, meta, "schema-id")?,
        spec_text: copied(alloc, meta, "partition-spec")?,
        entries,
    })
}
