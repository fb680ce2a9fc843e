//! Values passed over, without taking memory.
//!
//! The place where a value ends is handed back in registers, and a fault through `fault`: a `Result` of the two would go
//! through memory at each call.

ghost use Rattle.std.specs.Prelude.{◌≡◌, ◌≤◌, suc, length, drop, map};
ghost use Rattle.avro_schema.specs.Form.{boolean as of_boolean, int as of_int, long as of_long, float4 as of_float4, float8 as of_float8, bytes as of_bytes, string as of_string, fixed as of_fixed, choice as of_choice, array as of_array, pairs as of_pairs, fields as of_fields, union, form_of, field_form, forms_of};
ghost use Rattle.avro_container.specs.Reading.{string_at, items_at, blocks_at};
ghost use Rattle.avro_datum.specs.Spelling.{most_items};
ghost use Rattle.avro_datum.specs.Reading.{Ends, told, entry_at, read, read_all};
ghost use Rattle.avro_pieces.specs.Pieces.{causes};

use crate::limits::most_items;
use crate::no_bytes::takes_none;
use avro_pieces::{
    DatumCause, SkipErr, blob, block_head, int, is_sized, number, part, position, short_blob,
    short_position, text_of, truth,
};
use avro_schema::{Field, Schema};

#[inline(always)]
#[tactic(auto, unfolding(avro_container::specs::Reading::string_at))]
fn past_string(bytes: &[u8], at: usize, fault: &mut SkipErr) -> Option<usize>
    requires { at ≤ length bytes.now }
    ensures { Ends bytes.now (told result fault.new) (string_at causes (drop at bytes.now)) }
{
    let Some((found, end)) = short_blob(bytes, at) else {
        return past_any_string(bytes, at, fault);
    };
    if text_of(found).is_none() {
        *fault = SkipErr {
            at,
            cause: DatumCause::BadUtf8,
        };
        return None;
    }
    Some(end)
}

#[inline(never)]
#[tactic(auto, unfolding(avro_container::specs::Reading::string_at))]
fn past_any_string(bytes: &[u8], at: usize, fault: &mut SkipErr) -> Option<usize>
    requires { at ≤ length bytes.now }
    ensures { Ends bytes.now (told result fault.new) (string_at causes (drop at bytes.now)) }
{
    let (found, end) = match blob(bytes, at) {
        Ok(found) => found,
        Err(e) => {
            *fault = e;
            return None;
        }
    };
    if text_of(found).is_some() {
        return Some(end);
    }
    *fault = SkipErr {
        at,
        cause: DatumCause::BadUtf8,
    };
    None
}

// The kinds that hold no values of their own. Each is a function apart, as in `decoding`.

#[inline(never)]
#[tactic(auto, unfolding(crate::specs::Reading::read))]
fn past_truth(bytes: &[u8], at: usize, fault: &mut SkipErr) -> Option<usize>
    requires { at ≤ length bytes.now }
    ensures { Ends bytes.now (told result fault.new) (read of_boolean (drop at bytes.now)) }
{
    match truth(bytes, at) {
        Ok((_found, end)) => Some(end),
        Err(e) => {
            *fault = e;
            None
        }
    }
}

#[inline(never)]
#[tactic(auto, unfolding(crate::specs::Reading::read))]
fn past_int(bytes: &[u8], at: usize, fault: &mut SkipErr) -> Option<usize>
    requires { at ≤ length bytes.now }
    ensures { Ends bytes.now (told result fault.new) (read of_int (drop at bytes.now)) }
{
    match int(bytes, at) {
        Ok((_found, end)) => Some(end),
        Err(e) => {
            *fault = e;
            None
        }
    }
}

#[inline(always)]
#[tactic(auto, unfolding(crate::specs::Reading::read))]
fn past_long(bytes: &[u8], at: usize, fault: &mut SkipErr) -> Option<usize>
    requires { at ≤ length bytes.now }
    ensures { Ends bytes.now (told result fault.new) (read of_long (drop at bytes.now)) }
{
    match number(bytes, at) {
        Ok((_found, end)) => Some(end),
        Err(e) => {
            *fault = e;
            None
        }
    }
}

#[inline(never)]
#[tactic(auto, unfolding(crate::specs::Reading::read))]
fn past_bytes(bytes: &[u8], at: usize, fault: &mut SkipErr) -> Option<usize>
    requires { at ≤ length bytes.now }
    ensures { Ends bytes.now (told result fault.new) (read of_bytes (drop at bytes.now)) }
{
    match blob(bytes, at) {
        Ok((_found, end)) => Some(end),
        Err(e) => {
            *fault = e;
            None
        }
    }
}

#[inline(always)]
#[tactic(auto, unfolding(crate::specs::Reading::read))]
fn past_text(bytes: &[u8], at: usize, fault: &mut SkipErr) -> Option<usize>
    requires { at ≤ length bytes.now }
    ensures { Ends bytes.now (told result fault.new) (read of_string (drop at bytes.now)) }
{
    past_string(bytes, at, fault)
}

#[inline(never)]
#[tactic(auto, unfolding(crate::specs::Reading::read))]
fn past_fixed(size: usize, bytes: &[u8], at: usize, fault: &mut SkipErr) -> Option<usize>
    requires { at ≤ length bytes.now }
    ensures { Ends bytes.now (told result fault.new) (read (of_fixed size) (drop at bytes.now)) }
{
    match part(bytes, at, size) {
        Ok((_found, end)) => Some(end),
        Err(e) => {
            *fault = e;
            None
        }
    }
}

#[inline(never)]
#[tactic(auto, unfolding(crate::specs::Reading::read))]
fn past_enum(count: usize, bytes: &[u8], at: usize, fault: &mut SkipErr) -> Option<usize>
    requires { at ≤ length bytes.now }
    ensures { Ends bytes.now (told result fault.new) (read (of_choice count) (drop at bytes.now)) }
{
    match position(count, bytes, at, DatumCause::BadEnum) {
        Ok((_found, end)) => Some(end),
        Err(e) => {
            *fault = e;
            None
        }
    }
}

#[inline(never)]
#[tactic(auto, unfolding(crate::specs::Reading::read))]
fn past_float(bytes: &[u8], at: usize, fault: &mut SkipErr) -> Option<usize>
    requires { at ≤ length bytes.now }
    ensures { Ends bytes.now (told result fault.new) (read of_float4 (drop at bytes.now)) }
{
    match part(bytes, at, 4) {
        Ok((_found, end)) => Some(end),
        Err(e) => {
            *fault = e;
            None
        }
    }
}

#[inline(never)]
#[tactic(auto, unfolding(crate::specs::Reading::read))]
fn past_double(bytes: &[u8], at: usize, fault: &mut SkipErr) -> Option<usize>
    requires { at ≤ length bytes.now }
    ensures { Ends bytes.now (told result fault.new) (read of_float8 (drop at bytes.now)) }
{
    match part(bytes, at, 8) {
        Ok((_found, end)) => Some(end),
        Err(e) => {
            *fault = e;
            None
        }
    }
}

/// A value.
#[cycle(skip)]
#[inline(always)]
#[tactic(auto, unfolding(crate::specs::Reading::read))]
pub(crate) fn past(schema: &Schema, bytes: &[u8], at: usize, fault: &mut SkipErr) -> Option<usize>
    requires { at ≤ length bytes.now }
    ensures { Ends bytes.now (told result fault.new) (read (form_of schema.now) (drop at bytes.now)) }
{
    match schema {
        Schema::Null => Some(at),
        Schema::Bool => past_truth(bytes, at, fault),
        Schema::Int(_) => past_int(bytes, at, fault),
        Schema::Long(_) => past_long(bytes, at, fault),
        Schema::Float4 => past_float(bytes, at, fault),
        Schema::Float8 => past_double(bytes, at, fault),
        Schema::Blob(_) => past_bytes(bytes, at, fault),
        Schema::Str(_) => past_text(bytes, at, fault),
        Schema::Fix { size, .. } => past_fixed(*size as usize, bytes, at, fault),
        Schema::Choice { symbols, .. } => past_enum(symbols.as_slice().len(), bytes, at, fault),
        Schema::List { item, .. } => past_array(item.get(), bytes, at, fault),
        Schema::Pairs { value: inner, .. } => past_map(inner.get(), bytes, at, fault),
        Schema::Fields { fields, .. } => past_record(fields.as_slice(), bytes, at, fault),
        Schema::Union { branches } => past_union(branches.as_slice(), bytes, at, fault),
    }
}

#[cycle(skip)]
#[inline(never)]
#[tactic(auto, unfolding(crate::specs::Reading::read))]
fn past_record(fields: &[Field], bytes: &[u8], at: usize, fault: &mut SkipErr) -> Option<usize>
    requires { at ≤ length bytes.now }
    ensures { Ends bytes.now (told result fault.new) (read (of_fields (forms_of (map field_form fields.now))) (drop at bytes.now)) }
{
    past_all(fields, bytes, at, fault)
}

#[cycle(skip)]
#[inline(never)]
#[tactic(auto, unfolding(crate::specs::Reading::read))]
fn past_array(item: &Schema, bytes: &[u8], at: usize, fault: &mut SkipErr) -> Option<usize>
    requires { at ≤ length bytes.now }
    ensures { Ends bytes.now (told result fault.new) (read (of_array (form_of item.now)) (drop at bytes.now)) }
{
    past_blocks(item, bytes, at, fault)
}

#[cycle(skip)]
#[inline(never)]
#[tactic(auto, unfolding(crate::specs::Reading::read))]
fn past_map(inner: &Schema, bytes: &[u8], at: usize, fault: &mut SkipErr) -> Option<usize>
    requires { at ≤ length bytes.now }
    ensures { Ends bytes.now (told result fault.new) (read (of_pairs (form_of inner.now)) (drop at bytes.now)) }
{
    past_pair_blocks(inner, bytes, at, fault)
}

#[cycle(skip)]
#[inline(never)]
fn past_union(branches: &[Schema], bytes: &[u8], at: usize, fault: &mut SkipErr) -> Option<usize>
    requires { at ≤ length bytes.now }
    ensures { Ends bytes.now (told result fault.new) (read (union (forms_of (map form_of branches.now))) (drop at bytes.now)) }
{
    past_branch(branches, bytes, at, fault)
}

#[cycle(skip)]
#[tactic(auto, unfolding(crate::specs::Reading::read))]
fn past_all(fields: &[Field], bytes: &[u8], at: usize, fault: &mut SkipErr) -> Option<usize>
    requires { at ≤ length bytes.now }
    ensures { Ends bytes.now (told result fault.new) (read_all (forms_of (map field_form fields.now)) (drop at bytes.now)) }
{
    let mut end = at;
    for field in fields {
        end = past_field(&field.schema, bytes, end, fault)?;
    }
    Some(end)
}

/// A value of a field: `past` with unions, which most fields are, in their place.
#[cycle(skip)]
#[inline(always)]
fn past_field(schema: &Schema, bytes: &[u8], at: usize, fault: &mut SkipErr) -> Option<usize>
    requires { at ≤ length bytes.now }
    ensures { Ends bytes.now (told result fault.new) (read (form_of schema.now) (drop at bytes.now)) }
{
    match schema {
        Schema::Union { branches } => past_branch(branches.as_slice(), bytes, at, fault),
        _ => past(schema, bytes, at, fault),
    }
}

#[cycle(skip)]
#[inline(always)]
#[tactic(auto, using(crate::proofs::Schemas::count_branches, crate::proofs::Schemas::nth_branch), unfolding(crate::specs::Reading::read))]
fn past_branch(branches: &[Schema], bytes: &[u8], at: usize, fault: &mut SkipErr) -> Option<usize>
    requires { at ≤ length bytes.now }
    ensures { Ends bytes.now (told result fault.new) (read (union (forms_of (map form_of branches.now))) (drop at bytes.now)) }
{
    let Some(branch) = short_position(branches.len(), bytes, at) else {
        return past_any_branch(branches, bytes, at, fault);
    };
    past(&branches[branch as usize], bytes, at + 1, fault)
}

#[cycle(skip)]
#[inline(never)]
#[tactic(auto, using(crate::proofs::Schemas::count_branches, crate::proofs::Schemas::nth_branch), unfolding(crate::specs::Reading::read))]
fn past_any_branch(
    branches: &[Schema],
    bytes: &[u8],
    at: usize,
    fault: &mut SkipErr,
) -> Option<usize>
    requires { at ≤ length bytes.now }
    ensures { Ends bytes.now (told result fault.new) (read (union (forms_of (map form_of branches.now))) (drop at bytes.now)) }
{
    let (branch, end) = match position(branches.len(), bytes, at, DatumCause::BadBranch) {
        Ok(found) => found,
        Err(e) => {
            *fault = e;
            return None;
        }
    };
    let end = past(&branches[branch as usize], bytes, end, fault)?;
    Some(end)
}

#[cycle(skip)]
fn past_blocks(item: &Schema, bytes: &[u8], at: usize, fault: &mut SkipErr) -> Option<usize>
    requires { at ≤ length bytes.now }
    ensures { Ends bytes.now (told result fault.new) (blocks_at causes (read (form_of item.now)) (suc (length (drop at bytes.now))) most_items (drop at bytes.now)) }
{
    let mut end = at;
    let mut room = most_items();
    // Each block has a byte at least, so these turns are enough.
    let turns = bytes.len() - at + 1;
    for _ in 0..turns {
        let (head, from) = match block_head(bytes, end, room) {
            Ok(found) => found,
            Err(e) => {
                *fault = e;
                return None;
            }
        };
        if head.count == 0 {
            return Some(from);
        }
        let after = past_some(item, head.count, bytes, from, fault)?;
        if !is_sized(head.size, after.saturating_sub(from)) {
            *fault = SkipErr {
                at: from,
                cause: DatumCause::BadSize,
            };
            return None;
        }
        room -= head.count;
        end = after;
    }
    *fault = SkipErr {
        at: bytes.len(),
        cause: DatumCause::Short,
    };
    None
}

#[cycle(skip)]
fn past_some(
    item: &Schema,
    count: u64,
    bytes: &[u8],
    at: usize,
    fault: &mut SkipErr,
) -> Option<usize>
    requires { at ≤ length bytes.now }
    ensures { Ends bytes.now (told result fault.new) (items_at (read (form_of item.now)) count (drop at bytes.now)) }
{
    // Any number of items of no bytes may be claimed by a few bytes.
    if takes_none(item) {
        return Some(at);
    }
    let mut end = at;
    for _ in 0..count {
        end = past(item, bytes, end, fault)?;
    }
    Some(end)
}

#[cycle(skip)]
fn past_pair_blocks(inner: &Schema, bytes: &[u8], at: usize, fault: &mut SkipErr) -> Option<usize>
    requires { at ≤ length bytes.now }
    ensures { Ends bytes.now (told result fault.new) (blocks_at causes (entry_at (read (form_of inner.now))) (suc (length (drop at bytes.now))) most_items (drop at bytes.now)) }
{
    let mut end = at;
    let mut room = most_items();
    // Each block has a byte at least, so these turns are enough.
    let turns = bytes.len() - at + 1;
    for _ in 0..turns {
        let (head, from) = match block_head(bytes, end, room) {
            Ok(found) => found,
            Err(e) => {
                *fault = e;
                return None;
            }
        };
        if head.count == 0 {
            return Some(from);
        }
        let after = past_pairs(inner, head.count, bytes, from, fault)?;
        if !is_sized(head.size, after.saturating_sub(from)) {
            *fault = SkipErr {
                at: from,
                cause: DatumCause::BadSize,
            };
            return None;
        }
        room -= head.count;
        end = after;
    }
    *fault = SkipErr {
        at: bytes.len(),
        cause: DatumCause::Short,
    };
    None
}

#[cycle(skip)]
fn past_pairs(
    inner: &Schema,
    count: u64,
    bytes: &[u8],
    at: usize,
    fault: &mut SkipErr,
) -> Option<usize>
    requires { at ≤ length bytes.now }
    ensures { Ends bytes.now (told result fault.new) (items_at (entry_at (read (form_of inner.now))) count (drop at bytes.now)) }
{
    let mut end = at;
    for _ in 0..count {
        end = past_entry(inner, bytes, end, fault)?;
    }
    Some(end)
}

#[cycle(skip)]
#[tactic(auto, unfolding(crate::specs::Reading::entry_at))]
fn past_entry(inner: &Schema, bytes: &[u8], at: usize, fault: &mut SkipErr) -> Option<usize>
    requires { at ≤ length bytes.now }
    ensures { Ends bytes.now (told result fault.new) (entry_at (read (form_of inner.now)) (drop at bytes.now)) }
{
    let end = past_string(bytes, at, fault)?;
    let end = past(inner, bytes, end, fault)?;
    Some(end)
}
