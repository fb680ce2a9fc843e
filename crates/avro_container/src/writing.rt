//! Headers written (Apache Avro 1.11, "Object Container Files").

ghost use Rattle.std.specs.Prelude.{◌≡◌, ◌≤◌, ◌+◌, ◌++◌, length, vec_len, map, codes, IsTrue, ◌↔◌, All, IfSome, IsSomeAnd, IfOk, OnOk, OnErr};
ghost use Rattle.std.specs.List.{IsDistinct, list_all, list_any};
ghost use Rattle.std.specs.Str.{IsUtf8, bytes_eq, is_utf8};
ghost use Rattle.avro_container.specs.Growth.{Grows};
ghost use Rattle.avro_container.specs.Writing.{written_text, written_each, written_blocks};
ghost use Rattle.avro_container.specs.Container.{value_of};
ghost use Rattle.avro_container.specs.ContainerWriting.{AppendsHeader, IsInOrder, with_codec, written_pair, written_header};
ghost use Rattle.avro_container.specs.Lent.{pair_seen};

use crate::long::put_long;
use crate::parts::is_text;
use crate::text::MetaList;
use std::alloc::{AllocError, Global};

const MAGIC: [u8; 4] = [0x4F, 0x62, 0x6A, 1];

const CODEC: &[u8] = b"avro.codec";

const NO_CODEC: &[u8] = b"null";

/// A pair of the metadata, lent.
#[derive(Clone, Copy)]
struct LentPair<'a> {
    key: &'a [u8],
    value: &'a [u8],
}

fn put_text(text: &[u8], to: &mut Vec<u8>) -> Result<(), AllocError>
    ensures ok { OnOk result (to.new.items ≡ to.old.items ++ written_text text.now) }
    ensures grows { Grows to.old.items to.new.items }
{
    // No memory holds a text of more bytes.
    let Ok(len) = i64::try_from(text.len()) else {
        return Err(AllocError);
    };
    put_long(len, to)?;
    to.extend_from_slice(text)
}

fn put_pairs(pairs: &[LentPair], to: &mut Vec<u8>) -> Result<(), AllocError>
    ensures ok { OnOk result (to.new.items ≡ to.old.items ++ written_each written_pair (map pair_seen pairs.now)) }
    ensures grows { Grows to.old.items to.new.items }
{
    for pair in pairs {
        put_text(pair.key, to)?;
        put_text(pair.value, to)?;
    }
    Ok(())
}

/// Whether the metadata name a codec.
fn names_codec(meta: &MetaList) -> bool
    ensures { result ≡ list_any (λ e. bytes_eq e.0 (codes "avro.codec")) meta.now }
{
    meta.inner()
        .iter()
        .any(|pair| pair.0.as_str().as_bytes() == CODEC)
}

/// The pairs with a codec, which is `null` where none is named.
fn lent_pairs<'a>(alloc: Global, meta: &'a MetaList) -> Result<Vec<LentPair<'a>>, AllocError>
    ensures pairs { IfOk result (λ v. map pair_seen v.items ≡ with_codec meta.now) }
    ensures count { IfOk result (λ v. vec_len v ≤ length meta.now + 1) }
{
    let mut pairs = Vec::new(alloc);
    if !names_codec(meta) {
        pairs.push(LentPair {
            key: CODEC,
            value: NO_CODEC,
        })?;
    }
    for pair in meta.inner() {
        pairs.push(LentPair {
            key: pair.0.as_str().as_bytes(),
            value: pair.1.inner().as_slice(),
        })?;
    }
    Ok(pairs)
}

/// The metadata as they are written.
fn ordered_pairs<'a>(alloc: Global, meta: &'a MetaList) -> Result<Vec<LentPair<'a>>, AllocError>
    ensures order { IfOk result (λ v. IsInOrder meta.now (map pair_seen v.items)) }
    ensures count { IfOk result (λ v. vec_len v ≤ length meta.now + 1) }
{
    let mut pairs = lent_pairs(alloc, meta)?;
    pairs.sort_by_key(|pair| pair.key)?;
    Ok(pairs)
}

fn put_map(pairs: &[LentPair], to: &mut Vec<u8>) -> Result<(), AllocError>
    requires { length pairs.now ≤ 16777216 }
    ensures ok { OnOk result (to.new.items ≡ to.old.items ++ written_blocks written_pair (map pair_seen pairs.now)) }
    ensures grows { Grows to.old.items to.new.items }
{
    if !pairs.is_empty() {
        put_long(pairs.len() as i64, to)?;
        put_pairs(pairs, to)?;
    }
    put_long(0, to)
}

fn put_header(pairs: &[LentPair], sync: &[u8; 16], to: &mut Vec<u8>) -> Result<(), AllocError>
    requires { length pairs.now ≤ 16777216 }
    ensures ok { OnOk result (to.new.items ≡ to.old.items ++ written_header (map pair_seen pairs.now) sync.now) }
    ensures grows { Grows to.old.items to.new.items }
{
    to.extend_from_slice(&MAGIC)?;
    put_map(pairs, to)?;
    to.extend_from_slice(sync)
}

/// Whether each key is UTF-8.
pub fn keys_are_text(meta: &MetaList) -> bool
    ensures { IsTrue result ↔ All (λ e. IsUtf8 e.0) meta.now }
{
    all_keys_pass(meta)
}

fn all_keys_pass(meta: &MetaList) -> bool
    ensures { result ≡ list_all (λ e. is_utf8 e.0) meta.now }
{
    meta.inner()
        .iter()
        .all(|pair| is_text(pair.0.as_str().as_bytes()))
}

/// Writes a header at the end: the metadata in one block, in the byte order of their keys, with the codec `null`.
///
/// `keys_are_text` is the test of `utf8`: a key that isn't UTF-8 would make a header that isn't read again.
pub fn write_header(meta: &MetaList, sync: &[u8; 16], to: &mut Vec<u8>) -> Result<(), AllocError>
    requires keys { IsDistinct bytes_eq (map (λ e. e.0) meta.now) }
    requires utf8 { All (λ e. IsUtf8 e.0) meta.now }
    requires schema { IsSomeAnd (value_of (codes "avro.schema") meta.now) IsUtf8 }
    requires codec { IfSome (value_of (codes "avro.codec") meta.now) (λ c. c ≡ codes "null") }
    requires few { length meta.now ≤ 16777215 }
    ensures written { OnOk result (AppendsHeader meta.now sync.now to.old.items to.new.items) }
    ensures err { OnErr result (to.new.items ≡ to.old.items) }
{
    let pairs = ordered_pairs(*to.allocator(), meta)?;
    let len = to.len();
    match put_header(&pairs, sync, to) {
        Ok(()) => Ok(()),
        Err(e) => {
            to.truncate(len);
            Err(e)
        }
    }
}
