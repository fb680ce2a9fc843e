//! Values read.

ghost use Rattle.std.specs.Prelude.{◌≡◌, IfOk, OnOk, ◌<◌, ◌≤◌, ◌+◌, ◌-◌, suc, length, drop, map, vec_len, vec_capacity};
ghost use Rattle.avro_schema.specs.Form.{boolean as of_boolean, int as of_int, long as of_long, float4 as of_float4, float8 as of_float8, bytes as of_bytes, string as of_string, fixed as of_fixed, choice as of_choice, array as of_array, pairs as of_pairs, fields as of_fields, union, form_of, field_form, forms_of};
ghost use Rattle.avro_container.specs.Reading.{string_at, items_at, blocks_at};
ghost use Rattle.avro_datum.specs.Spelling.{most_items};
ghost use Rattle.avro_datum.specs.Reading.{Makes, Adds, entry_at, listed, read, read_all};
ghost use Rattle.avro_pieces.specs.Pieces.{causes};

use crate::datum::{Datum, DatumList, PairList};
use crate::fault::DatumErr;
use crate::limits::most_items;
use avro_pieces::{
    DatumCause, blob, block_head, int, is_sized, number, part, position, short_blob, text_of, truth,
};
use avro_schema::{Bytes, Field, Schema, Text};
use sqlite_items::{Boxed, Items};
use std::alloc::{AllocError, Global};

#[inline(always)]
#[tactic(auto, unfolding(avro_container::specs::Reading::string_at))]
fn string(alloc: Global, bytes: &[u8], at: usize) -> Result<(Text, usize), DatumErr>
    requires { at ≤ length bytes.now }
    ensures { Makes bytes.now result (string_at causes (drop at bytes.now)) }
{
    let Some((found, end)) = short_blob(bytes, at) else {
        return any_string(alloc, bytes, at);
    };
    let Some(text) = text_of(found) else {
        return Err(DatumErr::Bad {
            at,
            cause: DatumCause::BadUtf8,
        });
    };
    Ok((Text::new(String::from_str(alloc, text)?), end))
}

#[inline(never)]
#[tactic(auto, unfolding(avro_container::specs::Reading::string_at))]
fn any_string(alloc: Global, bytes: &[u8], at: usize) -> Result<(Text, usize), DatumErr>
    requires { at ≤ length bytes.now }
    ensures { Makes bytes.now result (string_at causes (drop at bytes.now)) }
{
    let (found, end) = blob(bytes, at)?;
    let Some(text) = text_of(found) else {
        return Err(DatumErr::Bad {
            at,
            cause: DatumCause::BadUtf8,
        });
    };
    Ok((Text::new(String::from_str(alloc, text)?), end))
}

fn copied(alloc: Global, bytes: &[u8]) -> Result<Bytes, AllocError>
    ensures { IfOk result (λ b. b ≡ bytes.now) }
{
    Ok(Bytes::new(Vec::from_slice(alloc, bytes)?))
}

fn four(bytes: &[u8]) -> [u8; 4]
    requires { length bytes.now ≡ 4 }
    ensures { result ≡ bytes.now }
{
    let mut found = [0; 4];
    found.copy_from_slice(bytes);
    found
}

fn eight(bytes: &[u8]) -> [u8; 8]
    requires { length bytes.now ≡ 8 }
    ensures { result ≡ bytes.now }
{
    let mut found = [0; 8];
    found.copy_from_slice(bytes);
    found
}

// The kinds that hold no values of their own. Each is a function apart: a function pays at its start for what each of its
// arms may need.

#[inline(never)]
#[tactic(auto, unfolding(crate::specs::Reading::read))]
fn truth_value(bytes: &[u8], at: usize) -> Result<(Datum, usize), DatumErr>
    requires { at ≤ length bytes.now }
    ensures { Makes bytes.now result (read of_boolean (drop at bytes.now)) }
{
    let (found, end) = truth(bytes, at)?;
    Ok((Datum::Bool(found), end))
}

#[inline(never)]
#[tactic(auto, unfolding(crate::specs::Reading::read))]
fn int_value(bytes: &[u8], at: usize) -> Result<(Datum, usize), DatumErr>
    requires { at ≤ length bytes.now }
    ensures { Makes bytes.now result (read of_int (drop at bytes.now)) }
{
    let (n, end) = int(bytes, at)?;
    Ok((Datum::Int(n), end))
}

#[inline(never)]
#[tactic(auto, unfolding(crate::specs::Reading::read))]
fn long_value(bytes: &[u8], at: usize) -> Result<(Datum, usize), DatumErr>
    requires { at ≤ length bytes.now }
    ensures { Makes bytes.now result (read of_long (drop at bytes.now)) }
{
    let (n, end) = number(bytes, at)?;
    Ok((Datum::Long(n), end))
}

#[inline(never)]
#[tactic(auto, unfolding(crate::specs::Reading::read))]
fn float_value(bytes: &[u8], at: usize) -> Result<(Datum, usize), DatumErr>
    requires { at ≤ length bytes.now }
    ensures { Makes bytes.now result (read of_float4 (drop at bytes.now)) }
{
    let (found, end) = part(bytes, at, 4)?;
    Ok((Datum::Float4(four(found)), end))
}

#[inline(never)]
#[tactic(auto, unfolding(crate::specs::Reading::read))]
fn double_value(bytes: &[u8], at: usize) -> Result<(Datum, usize), DatumErr>
    requires { at ≤ length bytes.now }
    ensures { Makes bytes.now result (read of_float8 (drop at bytes.now)) }
{
    let (found, end) = part(bytes, at, 8)?;
    Ok((Datum::Float8(eight(found)), end))
}

#[inline(never)]
#[tactic(auto, unfolding(crate::specs::Reading::read))]
fn bytes_value(alloc: Global, bytes: &[u8], at: usize) -> Result<(Datum, usize), DatumErr>
    requires { at ≤ length bytes.now }
    ensures { Makes bytes.now result (read of_bytes (drop at bytes.now)) }
{
    let (found, end) = blob(bytes, at)?;
    Ok((Datum::Blob(copied(alloc, found)?), end))
}

#[inline(never)]
#[tactic(auto, unfolding(crate::specs::Reading::read))]
fn string_value(alloc: Global, bytes: &[u8], at: usize) -> Result<(Datum, usize), DatumErr>
    requires { at ≤ length bytes.now }
    ensures { Makes bytes.now result (read of_string (drop at bytes.now)) }
{
    let (text, end) = string(alloc, bytes, at)?;
    Ok((Datum::Str(text), end))
}

#[inline(never)]
#[tactic(auto, unfolding(crate::specs::Reading::read))]
fn fixed_value(
    alloc: Global,
    size: usize,
    bytes: &[u8],
    at: usize,
) -> Result<(Datum, usize), DatumErr>
    requires { at ≤ length bytes.now }
    ensures { Makes bytes.now result (read (of_fixed size) (drop at bytes.now)) }
{
    let (found, end) = part(bytes, at, size)?;
    Ok((Datum::Fix(copied(alloc, found)?), end))
}

#[inline(never)]
#[tactic(auto, unfolding(crate::specs::Reading::read))]
fn enum_value(count: usize, bytes: &[u8], at: usize) -> Result<(Datum, usize), DatumErr>
    requires { at ≤ length bytes.now }
    ensures { Makes bytes.now result (read (of_choice count) (drop at bytes.now)) }
{
    let (n, end) = position(count, bytes, at, DatumCause::BadEnum)?;
    Ok((Datum::Choice(n), end))
}

/// A value.
#[cycle(decode)]
#[inline(never)]
pub(crate) fn value(
    alloc: Global,
    schema: &Schema,
    bytes: &[u8],
    at: usize,
) -> Result<(Datum, usize), DatumErr>
    requires { at ≤ length bytes.now }
    ensures { Makes bytes.now result (read (form_of schema.now) (drop at bytes.now)) }
{
    value_here(alloc, schema, bytes, at)
}

/// The same in its place.
#[cycle(decode)]
#[inline(always)]
#[tactic(auto, unfolding(crate::specs::Reading::read))]
fn value_here(
    alloc: Global,
    schema: &Schema,
    bytes: &[u8],
    at: usize,
) -> Result<(Datum, usize), DatumErr>
    requires { at ≤ length bytes.now }
    ensures { Makes bytes.now result (read (form_of schema.now) (drop at bytes.now)) }
{
    match schema {
        Schema::Null => Ok((Datum::Null, at)),
        Schema::Bool => truth_value(bytes, at),
        Schema::Int(_) => int_value(bytes, at),
        Schema::Long(_) => long_value(bytes, at),
        Schema::Float4 => float_value(bytes, at),
        Schema::Float8 => double_value(bytes, at),
        Schema::Blob(_) => bytes_value(alloc, bytes, at),
        Schema::Str(_) => string_value(alloc, bytes, at),
        Schema::Fix { size, .. } => fixed_value(alloc, *size as usize, bytes, at),
        Schema::Choice { symbols, .. } => enum_value(symbols.as_slice().len(), bytes, at),
        Schema::List { item, .. } => array(alloc, item.get(), bytes, at),
        Schema::Pairs { value: inner, .. } => pair_list(alloc, inner.get(), bytes, at),
        Schema::Fields { fields, .. } => record(alloc, fields.as_slice(), bytes, at),
        Schema::Union { branches } => branch_value(alloc, branches.as_slice(), bytes, at),
    }
}

/// A record.
#[cycle(decode)]
#[inline(never)]
#[tactic(auto, unfolding(crate::specs::Reading::read))]
pub(crate) fn record(
    alloc: Global,
    fields: &[Field],
    bytes: &[u8],
    at: usize,
) -> Result<(Datum, usize), DatumErr>
    requires { at ≤ length bytes.now }
    ensures { Makes bytes.now result (read (of_fields (forms_of (map field_form fields.now))) (drop at bytes.now)) }
{
    let (items, end) = all(alloc, fields, bytes, at)?;
    Ok((Datum::Fields(items), end))
}

/// A record's fields.
#[cycle(decode)]
#[tactic(auto, unfolding(crate::specs::Reading::read))]
fn all(
    alloc: Global,
    fields: &[Field],
    bytes: &[u8],
    at: usize,
) -> Result<(DatumList, usize), DatumErr>
    requires { at ≤ length bytes.now }
    ensures { Makes bytes.now result (read_all (forms_of (map field_form fields.now)) (drop at bytes.now)) }
{
    let mut items = Vec::with_capacity(alloc, fields.len())?;
    let mut end = at;
    for field in fields {
        end = add(alloc, &field.schema, bytes, end, &mut items)?;
    }
    Ok((Items::from_vec(items), end))
}

/// A value, put at the end of a list that has room for it.
///
/// The kinds that rows are mostly made of are made in the place where they stay: a value is slow to move. Each is a function
/// of its own here too, though in its place, so that a kind pays for its own variables alone.
#[cycle(decode)]
#[inline(always)]
#[tactic(auto, unfolding(crate::specs::Reading::read))]
fn add(
    alloc: Global,
    schema: &Schema,
    bytes: &[u8],
    at: usize,
    to: &mut Vec<Datum>,
) -> Result<usize, DatumErr>
    requires within { at ≤ length bytes.now }
    requires room { vec_len to.old < vec_capacity to.old }
    ensures value { Adds bytes.now to.old.items to.new.items result (listed (read (form_of schema.now) (drop at bytes.now))) }
    ensures count { OnOk result (vec_len to.new ≡ vec_len to.old + 1) }
    ensures capacity { vec_capacity to.new ≡ vec_capacity to.old }
{
    match schema {
        Schema::Long(_) => add_long(bytes, at, to),
        Schema::Str(_) => add_text(alloc, bytes, at, to),
        Schema::Union { branches } => add_branch(alloc, branches.as_slice(), bytes, at, to),
        _ => add_other(alloc, schema, bytes, at, to),
    }
}

#[inline(always)]
#[tactic(auto, unfolding(crate::specs::Reading::read))]
fn add_long(bytes: &[u8], at: usize, to: &mut Vec<Datum>) -> Result<usize, DatumErr>
    requires within { at ≤ length bytes.now }
    requires room { vec_len to.old < vec_capacity to.old }
    ensures value { Adds bytes.now to.old.items to.new.items result (listed (read of_long (drop at bytes.now))) }
    ensures count { OnOk result (vec_len to.new ≡ vec_len to.old + 1) }
    ensures capacity { vec_capacity to.new ≡ vec_capacity to.old }
{
    let (n, end) = number(bytes, at)?;
    to.push_reserved(Datum::Long(n));
    Ok(end)
}

#[inline(always)]
#[tactic(auto, unfolding(crate::specs::Reading::read))]
fn add_text(alloc: Global, bytes: &[u8], at: usize, to: &mut Vec<Datum>) -> Result<usize, DatumErr>
    requires within { at ≤ length bytes.now }
    requires room { vec_len to.old < vec_capacity to.old }
    ensures value { Adds bytes.now to.old.items to.new.items result (listed (read of_string (drop at bytes.now))) }
    ensures count { OnOk result (vec_len to.new ≡ vec_len to.old + 1) }
    ensures capacity { vec_capacity to.new ≡ vec_capacity to.old }
{
    let (text, end) = string(alloc, bytes, at)?;
    to.push_reserved(Datum::Str(text));
    Ok(end)
}

#[cycle(decode)]
#[inline(always)]
#[tactic(auto, unfolding(crate::specs::Reading::read))]
fn add_branch(
    alloc: Global,
    branches: &[Schema],
    bytes: &[u8],
    at: usize,
    to: &mut Vec<Datum>,
) -> Result<usize, DatumErr>
    requires within { at ≤ length bytes.now }
    requires room { vec_len to.old < vec_capacity to.old }
    ensures value { Adds bytes.now to.old.items to.new.items result (listed (read (union (forms_of (map form_of branches.now))) (drop at bytes.now))) }
    ensures count { OnOk result (vec_len to.new ≡ vec_len to.old + 1) }
    ensures capacity { vec_capacity to.new ≡ vec_capacity to.old }
{
    let (item, end) = one(alloc, branches, bytes, at)?;
    to.push_reserved(item);
    Ok(end)
}

#[cycle(decode)]
#[inline(always)]
#[tactic(auto, unfolding(crate::specs::Reading::read))]
fn add_other(
    alloc: Global,
    schema: &Schema,
    bytes: &[u8],
    at: usize,
    to: &mut Vec<Datum>,
) -> Result<usize, DatumErr>
    requires within { at ≤ length bytes.now }
    requires room { vec_len to.old < vec_capacity to.old }
    ensures value { Adds bytes.now to.old.items to.new.items result (listed (read (form_of schema.now) (drop at bytes.now))) }
    ensures count { OnOk result (vec_len to.new ≡ vec_len to.old + 1) }
    ensures capacity { vec_capacity to.new ≡ vec_capacity to.old }
{
    let (item, end) = value_here(alloc, schema, bytes, at)?;
    to.push_reserved(item);
    Ok(end)
}

/// A branch of a union.
#[cycle(decode)]
#[inline(always)]
#[tactic(auto, using(crate::proofs::Schemas::count_branches, crate::proofs::Schemas::nth_branch), unfolding(crate::specs::Reading::read))]
fn one(
    alloc: Global,
    branches: &[Schema],
    bytes: &[u8],
    at: usize,
) -> Result<(Datum, usize), DatumErr>
    requires { at ≤ length bytes.now }
    ensures { Makes bytes.now result (read (union (forms_of (map form_of branches.now))) (drop at bytes.now)) }
{
    let (branch, end) = position(branches.len(), bytes, at, DatumCause::BadBranch)?;
    let (inner, end) = boxed(alloc, &branches[branch as usize], bytes, end)?;
    Ok((Datum::Branch(branch, inner), end))
}

/// The same by a call, where it is no field of a record.
#[cycle(decode)]
#[inline(never)]
fn branch_value(
    alloc: Global,
    branches: &[Schema],
    bytes: &[u8],
    at: usize,
) -> Result<(Datum, usize), DatumErr>
    requires { at ≤ length bytes.now }
    ensures { Makes bytes.now result (read (union (forms_of (map form_of branches.now))) (drop at bytes.now)) }
{
    one(alloc, branches, bytes, at)
}

/// A value in a box, with the same kinds made in their place.
#[cycle(decode)]
#[inline(never)]
#[tactic(auto, unfolding(crate::specs::Reading::read))]
fn boxed(
    alloc: Global,
    schema: &Schema,
    bytes: &[u8],
    at: usize,
) -> Result<(Boxed<Datum>, usize), DatumErr>
    requires { at ≤ length bytes.now }
    ensures { Makes bytes.now result (read (form_of schema.now) (drop at bytes.now)) }
{
    match schema {
        Schema::Null => Ok((Boxed::new(alloc, Datum::Null)?, at)),
        Schema::Long(_) => boxed_long(alloc, bytes, at),
        Schema::Str(_) => boxed_text(alloc, bytes, at),
        _ => boxed_other(alloc, schema, bytes, at),
    }
}

#[inline(always)]
#[tactic(auto, unfolding(crate::specs::Reading::read))]
fn boxed_long(alloc: Global, bytes: &[u8], at: usize) -> Result<(Boxed<Datum>, usize), DatumErr>
    requires { at ≤ length bytes.now }
    ensures { Makes bytes.now result (read of_long (drop at bytes.now)) }
{
    let (n, end) = number(bytes, at)?;
    Ok((Boxed::new(alloc, Datum::Long(n))?, end))
}

#[inline(always)]
#[tactic(auto, unfolding(crate::specs::Reading::read))]
fn boxed_text(alloc: Global, bytes: &[u8], at: usize) -> Result<(Boxed<Datum>, usize), DatumErr>
    requires { at ≤ length bytes.now }
    ensures { Makes bytes.now result (read of_string (drop at bytes.now)) }
{
    let (text, end) = string(alloc, bytes, at)?;
    Ok((Boxed::new(alloc, Datum::Str(text))?, end))
}

#[cycle(decode)]
#[inline(never)]
#[tactic(auto, unfolding(crate::specs::Reading::read))]
fn boxed_other(
    alloc: Global,
    schema: &Schema,
    bytes: &[u8],
    at: usize,
) -> Result<(Boxed<Datum>, usize), DatumErr>
    requires { at ≤ length bytes.now }
    ensures { Makes bytes.now result (read (form_of schema.now) (drop at bytes.now)) }
{
    let (inner, end) = value(alloc, schema, bytes, at)?;
    Ok((Boxed::new(alloc, inner)?, end))
}

/// An array.
#[cycle(decode)]
#[inline(never)]
#[tactic(auto, unfolding(crate::specs::Reading::read))]
fn array(alloc: Global, item: &Schema, bytes: &[u8], at: usize) -> Result<(Datum, usize), DatumErr>
    requires { at ≤ length bytes.now }
    ensures { Makes bytes.now result (read (of_array (form_of item.now)) (drop at bytes.now)) }
{
    let (items, end) = blocks(alloc, item, bytes, at)?;
    Ok((Datum::List(items), end))
}

/// An array's blocks.
#[cycle(decode)]
fn blocks(
    alloc: Global,
    item: &Schema,
    bytes: &[u8],
    at: usize,
) -> Result<(DatumList, usize), DatumErr>
    requires { at ≤ length bytes.now }
    ensures { Makes bytes.now result (blocks_at causes (read (form_of item.now)) (suc (length (drop at bytes.now))) most_items (drop at bytes.now)) }
{
    let mut items = Items::new(alloc);
    let mut end = at;
    let mut room = most_items();
    // Each block has a byte at least, so these turns are enough.
    let turns = bytes.len() - at + 1;
    for _ in 0..turns {
        let (head, from) = block_head(bytes, end, room)?;
        if head.count == 0 {
            return Ok((items, from));
        }
        let after = some(alloc, item, head.count, bytes, from, &mut items)?;
        if !is_sized(head.size, after.saturating_sub(from)) {
            return Err(DatumErr::Bad {
                at: from,
                cause: DatumCause::BadSize,
            });
        }
        room -= head.count;
        end = after;
    }
    Err(DatumErr::Bad {
        at: bytes.len(),
        cause: DatumCause::Short,
    })
}

/// So many items, put at the end of a list.
#[cycle(decode)]
#[tactic(auto, using(avro_container::proofs::Loops::items_next, avro_container::proofs::Loops::items_done))]
fn some(
    alloc: Global,
    item: &Schema,
    count: u64,
    bytes: &[u8],
    at: usize,
    to: &mut DatumList,
) -> Result<usize, DatumErr>
    requires { at ≤ length bytes.now }
    ensures { Adds bytes.now to.old to.new result (items_at (read (form_of item.now)) count (drop at bytes.now)) }
{
    let mut end = at;
    for _ in 0..count {
        let (found, after) = value(alloc, item, bytes, end)?;
        to.push(found)?;
        end = after;
    }
    Ok(end)
}

/// A map.
#[cycle(decode)]
#[inline(never)]
#[tactic(auto, unfolding(crate::specs::Reading::read))]
fn pair_list(
    alloc: Global,
    inner: &Schema,
    bytes: &[u8],
    at: usize,
) -> Result<(Datum, usize), DatumErr>
    requires { at ≤ length bytes.now }
    ensures { Makes bytes.now result (read (of_pairs (form_of inner.now)) (drop at bytes.now)) }
{
    let (items, end) = pair_blocks(alloc, inner, bytes, at)?;
    Ok((Datum::Pairs(items), end))
}

/// A map's blocks.
#[cycle(decode)]
fn pair_blocks(
    alloc: Global,
    inner: &Schema,
    bytes: &[u8],
    at: usize,
) -> Result<(PairList, usize), DatumErr>
    requires { at ≤ length bytes.now }
    ensures { Makes bytes.now result (blocks_at causes (entry_at (read (form_of inner.now))) (suc (length (drop at bytes.now))) most_items (drop at bytes.now)) }
{
    let mut items = Items::new(alloc);
    let mut end = at;
    let mut room = most_items();
    // Each block has a byte at least, so these turns are enough.
    let turns = bytes.len() - at + 1;
    for _ in 0..turns {
        let (head, from) = block_head(bytes, end, room)?;
        if head.count == 0 {
            return Ok((items, from));
        }
        let after = pairs(alloc, inner, head.count, bytes, from, &mut items)?;
        if !is_sized(head.size, after.saturating_sub(from)) {
            return Err(DatumErr::Bad {
                at: from,
                cause: DatumCause::BadSize,
            });
        }
        room -= head.count;
        end = after;
    }
    Err(DatumErr::Bad {
        at: bytes.len(),
        cause: DatumCause::Short,
    })
}

/// So many keys with their values, put at the end of a list.
#[cycle(decode)]
#[tactic(auto, using(avro_container::proofs::Loops::items_next, avro_container::proofs::Loops::items_done))]
fn pairs(
    alloc: Global,
    inner: &Schema,
    count: u64,
    bytes: &[u8],
    at: usize,
    to: &mut PairList,
) -> Result<usize, DatumErr>
    requires { at ≤ length bytes.now }
    ensures { Adds bytes.now to.old to.new result (items_at (entry_at (read (form_of inner.now))) count (drop at bytes.now)) }
{
    let mut end = at;
    for _ in 0..count {
        let (found, after) = entry(alloc, inner, bytes, end)?;
        to.push(found)?;
        end = after;
    }
    Ok(end)
}

/// A key and its value.
#[cycle(decode)]
#[tactic(auto, unfolding(crate::specs::Reading::entry_at))]
fn entry(
    alloc: Global,
    inner: &Schema,
    bytes: &[u8],
    at: usize,
) -> Result<((Text, Datum), usize), DatumErr>
    requires { at ≤ length bytes.now }
    ensures { Makes bytes.now result (entry_at (read (form_of inner.now)) (drop at bytes.now)) }
{
    let (key, end) = string(alloc, bytes, at)?;
    let (found, end) = value(alloc, inner, bytes, end)?;
    Ok(((key, found), end))
}
