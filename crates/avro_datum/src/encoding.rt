//! Values written.

ghost use Rattle.std.specs.Prelude.{◌≡◌, ◌++◌, [], ◌∷◌, ◌<◌, ◌≤◌, ℤ, pos, length, map, OnOk};
ghost use Rattle.std.specs.List.{AllByRecursion};
ghost use Rattle.avro_schema.specs.Form.{boolean as of_boolean, int as of_int, long as of_long, float4 as of_float4, float8 as of_float8, bytes as of_bytes, string as of_string, array as of_array, pairs as of_pairs, fields as of_fields, union, form_of, field_form, forms_of};
ghost use Rattle.avro_container.specs.Growth.{Grows};
ghost use Rattle.avro_container.specs.Long.{written_long};
ghost use Rattle.avro_container.specs.Writing.{written_text, written_each, written_blocks};
ghost use Rattle.avro_datum.specs.Spelling.{most_items, truth_byte};
ghost use Rattle.avro_datum.specs.Writing.{IsOf, AreOf, IsOfNth, IsEntry, written, written_all, written_nth, written_entry};

use crate::datum::Datum;
use avro_container::write_long;
use avro_schema::{Field, Schema, Text};
use std::alloc::AllocError;

#[inline(always)]
fn put_long(n: i64, to: &mut Vec<u8>) -> Result<(), AllocError>
    ensures ok { OnOk result (to.new.items ≡ to.old.items ++ written_long n) }
    ensures grows { Grows to.old.items to.new.items }
{
    write_long(n, to)
}

#[inline(always)]
fn put_count(n: u64, to: &mut Vec<u8>) -> Result<(), AllocError>
    requires { n < 9223372036854775808 }
    ensures ok { OnOk result (to.new.items ≡ to.old.items ++ written_long (pos n)) }
    ensures grows { Grows to.old.items to.new.items }
{
    put_long(n as i64, to)
}

#[inline(never)]
fn put_truth(found: bool, to: &mut Vec<u8>) -> Result<(), AllocError>
    ensures ok { OnOk result (to.new.items ≡ to.old.items ++ truth_byte found ∷ []) }
    ensures grows { Grows to.old.items to.new.items }
{
    if found {
        to.push(1)?;
    } else {
        to.push(0)?;
    }
    Ok(())
}

#[inline(always)]
fn put_text(text: &[u8], to: &mut Vec<u8>) -> Result<(), AllocError>
    ensures ok { OnOk result (to.new.items ≡ to.old.items ++ written_text text.now) }
    ensures grows { Grows to.old.items to.new.items }
{
    // No memory holds a text of more bytes.
    let Ok(len) = i64::try_from(text.len()) else {
        return Err(AllocError);
    };
    put_long(len, to)?;
    to.extend_from_slice(text)
}

// The kinds that hold no values of their own.

#[inline(always)]
#[tactic(auto, unfolding(crate::specs::Writing::IsOf, crate::specs::Writing::written))]
fn put_bool(datum: &Datum, to: &mut Vec<u8>) -> Result<(), AllocError>
    requires { IsOf of_boolean datum.now }
    ensures ok { OnOk result (to.new.items ≡ to.old.items ++ written of_boolean datum.now) }
    ensures grows { Grows to.old.items to.new.items }
{
    match datum {
        Datum::Bool(found) => put_truth(*found, to),
        _ => unreachable!(),
    }
}

#[inline(always)]
#[tactic(auto, unfolding(crate::specs::Writing::IsOf, crate::specs::Writing::written))]
fn put_int(datum: &Datum, to: &mut Vec<u8>) -> Result<(), AllocError>
    requires { IsOf of_int datum.now }
    ensures ok { OnOk result (to.new.items ≡ to.old.items ++ written of_int datum.now) }
    ensures grows { Grows to.old.items to.new.items }
{
    match datum {
        Datum::Int(n) => put_long(*n as i64, to),
        _ => unreachable!(),
    }
}

#[inline(always)]
#[tactic(auto, unfolding(crate::specs::Writing::IsOf, crate::specs::Writing::written))]
fn put_number(datum: &Datum, to: &mut Vec<u8>) -> Result<(), AllocError>
    requires { IsOf of_long datum.now }
    ensures ok { OnOk result (to.new.items ≡ to.old.items ++ written of_long datum.now) }
    ensures grows { Grows to.old.items to.new.items }
{
    match datum {
        Datum::Long(n) => put_long(*n, to),
        _ => unreachable!(),
    }
}

#[inline(never)]
#[tactic(auto, unfolding(crate::specs::Writing::IsOf, crate::specs::Writing::written))]
fn put_float(datum: &Datum, to: &mut Vec<u8>) -> Result<(), AllocError>
    requires { IsOf of_float4 datum.now }
    ensures ok { OnOk result (to.new.items ≡ to.old.items ++ written of_float4 datum.now) }
    ensures grows { Grows to.old.items to.new.items }
{
    match datum {
        Datum::Float4(found) => to.extend_from_slice(found),
        _ => unreachable!(),
    }
}

#[inline(never)]
#[tactic(auto, unfolding(crate::specs::Writing::IsOf, crate::specs::Writing::written))]
fn put_double(datum: &Datum, to: &mut Vec<u8>) -> Result<(), AllocError>
    requires { IsOf of_float8 datum.now }
    ensures ok { OnOk result (to.new.items ≡ to.old.items ++ written of_float8 datum.now) }
    ensures grows { Grows to.old.items to.new.items }
{
    match datum {
        Datum::Float8(found) => to.extend_from_slice(found),
        _ => unreachable!(),
    }
}

#[inline(never)]
#[tactic(auto, unfolding(crate::specs::Writing::IsOf, crate::specs::Writing::written))]
fn put_bytes(datum: &Datum, to: &mut Vec<u8>) -> Result<(), AllocError>
    requires { IsOf of_bytes datum.now }
    ensures ok { OnOk result (to.new.items ≡ to.old.items ++ written of_bytes datum.now) }
    ensures grows { Grows to.old.items to.new.items }
{
    match datum {
        Datum::Blob(found) => put_text(found.as_slice(), to),
        _ => unreachable!(),
    }
}

#[inline(always)]
#[tactic(auto, unfolding(crate::specs::Writing::IsOf, crate::specs::Writing::written))]
fn put_string(datum: &Datum, to: &mut Vec<u8>) -> Result<(), AllocError>
    requires { IsOf of_string datum.now }
    ensures ok { OnOk result (to.new.items ≡ to.old.items ++ written of_string datum.now) }
    ensures grows { Grows to.old.items to.new.items }
{
    match datum {
        Datum::Str(text) => put_text(text.as_str().as_bytes(), to),
        _ => unreachable!(),
    }
}

/// A value.
#[cycle(encode)]
#[inline(always)]
#[tactic(auto, unfolding(crate::specs::Writing::IsOf, crate::specs::Writing::written))]
pub(crate) fn put(schema: &Schema, datum: &Datum, to: &mut Vec<u8>) -> Result<(), AllocError>
    requires { IsOf (form_of schema.now) datum.now }
    ensures ok { OnOk result (to.new.items ≡ to.old.items ++ written (form_of schema.now) datum.now) }
    ensures grows { Grows to.old.items to.new.items }
{
    match schema {
        Schema::Null => Ok(()),
        Schema::Bool => put_bool(datum, to),
        Schema::Int(_) => put_int(datum, to),
        Schema::Long(_) => put_number(datum, to),
        Schema::Float4 => put_float(datum, to),
        Schema::Float8 => put_double(datum, to),
        Schema::Blob(_) => put_bytes(datum, to),
        Schema::Str(_) => put_string(datum, to),
        Schema::Fix { .. } => match datum {
            Datum::Fix(found) => to.extend_from_slice(found.as_slice()),
            _ => unreachable!(),
        },
        Schema::Choice { .. } => match datum {
            Datum::Choice(n) => put_count(u64::from(*n), to),
            _ => unreachable!(),
        },
        Schema::List { item, .. } => put_array(item.get(), datum, to),
        Schema::Pairs { value, .. } => put_map(value.get(), datum, to),
        Schema::Fields { fields, .. } => put_record(fields.as_slice(), datum, to),
        Schema::Union { branches } => put_union(branches.as_slice(), datum, to),
    }
}

#[cycle(encode)]
#[inline(always)]
#[tactic(auto, unfolding(crate::specs::Writing::IsOf, crate::specs::Writing::written))]
fn put_array(item: &Schema, datum: &Datum, to: &mut Vec<u8>) -> Result<(), AllocError>
    requires { IsOf (of_array (form_of item.now)) datum.now }
    ensures ok { OnOk result (to.new.items ≡ to.old.items ++ written (of_array (form_of item.now)) datum.now) }
    ensures grows { Grows to.old.items to.new.items }
{
    match datum {
        Datum::List(items) => put_blocks(item, items.as_slice(), to),
        _ => unreachable!(),
    }
}

#[cycle(encode)]
#[inline(always)]
#[tactic(auto, unfolding(crate::specs::Writing::IsOf, crate::specs::Writing::written))]
fn put_map(inner: &Schema, datum: &Datum, to: &mut Vec<u8>) -> Result<(), AllocError>
    requires { IsOf (of_pairs (form_of inner.now)) datum.now }
    ensures ok { OnOk result (to.new.items ≡ to.old.items ++ written (of_pairs (form_of inner.now)) datum.now) }
    ensures grows { Grows to.old.items to.new.items }
{
    match datum {
        Datum::Pairs(items) => put_pair_blocks(inner, items.as_slice(), to),
        _ => unreachable!(),
    }
}

#[cycle(encode)]
#[inline(always)]
#[tactic(auto, unfolding(crate::specs::Writing::IsOf, crate::specs::Writing::written))]
fn put_record(fields: &[Field], datum: &Datum, to: &mut Vec<u8>) -> Result<(), AllocError>
    requires { IsOf (of_fields (forms_of (map field_form fields.now))) datum.now }
    ensures ok { OnOk result (to.new.items ≡ to.old.items ++ written (of_fields (forms_of (map field_form fields.now))) datum.now) }
    ensures grows { Grows to.old.items to.new.items }
{
    match datum {
        Datum::Fields(items) => put_all(fields, items.as_slice(), to),
        _ => unreachable!(),
    }
}

#[cycle(encode)]
#[inline(always)]
#[tactic(auto, unfolding(crate::specs::Writing::IsOf, crate::specs::Writing::written))]
fn put_union(branches: &[Schema], datum: &Datum, to: &mut Vec<u8>) -> Result<(), AllocError>
    requires { IsOf (union (forms_of (map form_of branches.now))) datum.now }
    ensures ok { OnOk result (to.new.items ≡ to.old.items ++ written (union (forms_of (map form_of branches.now))) datum.now) }
    ensures grows { Grows to.old.items to.new.items }
{
    match datum {
        Datum::Branch(branch, inner) => put_one(branches, *branch, inner.get(), to),
        _ => unreachable!(),
    }
}

/// A record's fields.
#[cycle(encode)]
#[inline(never)]
#[tactic(auto, unfolding(crate::specs::Writing::IsOf, crate::specs::Writing::written))]
fn put_all(fields: &[Field], items: &[Datum], to: &mut Vec<u8>) -> Result<(), AllocError>
    requires { AreOf (forms_of (map field_form fields.now)) items.now }
    ensures ok { OnOk result (to.new.items ≡ to.old.items ++ written_all (forms_of (map field_form fields.now)) items.now) }
    ensures grows { Grows to.old.items to.new.items }
{
    let mut rest = items;
    for field in fields {
        let Some((item, after)) = rest.split_first() else {
            unreachable!()
        };
        put_field(&field.schema, item, to)?;
        rest = after;
    }
    Ok(())
}

/// A value of a field: `put` with unions, which most fields are, in their place.
#[cycle(encode)]
#[inline(always)]
#[tactic(auto, unfolding(crate::specs::Writing::IsOf, crate::specs::Writing::written))]
fn put_field(schema: &Schema, datum: &Datum, to: &mut Vec<u8>) -> Result<(), AllocError>
    requires { IsOf (form_of schema.now) datum.now }
    ensures ok { OnOk result (to.new.items ≡ to.old.items ++ written (form_of schema.now) datum.now) }
    ensures grows { Grows to.old.items to.new.items }
{
    match schema {
        Schema::Union { branches } => match datum {
            Datum::Branch(branch, inner) => {
                put_branch(branches.as_slice(), *branch, inner.get(), to)
            }
            _ => unreachable!(),
        },
        _ => put(schema, datum, to),
    }
}

/// A branch of a union.
#[cycle(encode)]
#[inline(always)]
#[tactic(auto, using(crate::proofs::Puts::nth_within, crate::proofs::Puts::nth_is_at, crate::proofs::Puts::nth_written), unfolding(crate::specs::Writing::IsOf, crate::specs::Writing::written))]
fn put_branch(
    branches: &[Schema],
    branch: u32,
    inner: &Datum,
    to: &mut Vec<u8>,
) -> Result<(), AllocError>
    requires { IsOfNth (forms_of (map form_of branches.now)) branch inner.now }
    ensures ok { OnOk result (to.new.items ≡ to.old.items ++ (written_long (pos branch) ++ written_nth (forms_of (map form_of branches.now)) branch inner.now)) }
    ensures grows { Grows to.old.items to.new.items }
{
    put_count(u64::from(branch), to)?;
    put(&branches[branch as usize], inner, to)
}

/// The same by a call, where it is no field of a record.
#[cycle(encode)]
#[inline(never)]
fn put_one(
    branches: &[Schema],
    branch: u32,
    inner: &Datum,
    to: &mut Vec<u8>,
) -> Result<(), AllocError>
    requires { IsOfNth (forms_of (map form_of branches.now)) branch inner.now }
    ensures ok { OnOk result (to.new.items ≡ to.old.items ++ (written_long (pos branch) ++ written_nth (forms_of (map form_of branches.now)) branch inner.now)) }
    ensures grows { Grows to.old.items to.new.items }
{
    put_branch(branches, branch, inner, to)
}

/// An array.
#[cycle(encode)]
#[inline(never)]
#[tactic(auto, unfolding(crate::specs::Writing::IsOf, crate::specs::Writing::written))]
fn put_blocks(item: &Schema, items: &[Datum], to: &mut Vec<u8>) -> Result<(), AllocError>
    requires each { AllByRecursion (IsOf (form_of item.now)) items.now }
    requires few { length items.now ≤ most_items }
    ensures ok { OnOk result (to.new.items ≡ to.old.items ++ written_blocks (written (form_of item.now)) items.now) }
    ensures grows { Grows to.old.items to.new.items }
{
    if !items.is_empty() {
        put_long(items.len() as i64, to)?;
        put_each(item, items, to)?;
    }
    put_long(0, to)
}

#[cycle(encode)]
#[tactic(auto, unfolding(crate::specs::Writing::IsOf, crate::specs::Writing::written))]
fn put_each(item: &Schema, items: &[Datum], to: &mut Vec<u8>) -> Result<(), AllocError>
    requires { AllByRecursion (IsOf (form_of item.now)) items.now }
    ensures ok { OnOk result (to.new.items ≡ to.old.items ++ written_each (written (form_of item.now)) items.now) }
    ensures grows { Grows to.old.items to.new.items }
{
    for found in items {
        put(item, found, to)?;
    }
    Ok(())
}

/// A map.
#[cycle(encode)]
#[inline(never)]
#[tactic(auto, unfolding(crate::specs::Writing::IsOf, crate::specs::Writing::written))]
fn put_pair_blocks(
    inner: &Schema,
    items: &[(Text, Datum)],
    to: &mut Vec<u8>,
) -> Result<(), AllocError>
    requires each { AllByRecursion (IsEntry (IsOf (form_of inner.now))) items.now }
    requires few { length items.now ≤ most_items }
    ensures ok { OnOk result (to.new.items ≡ to.old.items ++ written_blocks (written_entry (written (form_of inner.now))) items.now) }
    ensures grows { Grows to.old.items to.new.items }
{
    if !items.is_empty() {
        put_long(items.len() as i64, to)?;
        put_pairs(inner, items, to)?;
    }
    put_long(0, to)
}

#[cycle(encode)]
#[tactic(auto, unfolding(crate::specs::Writing::IsOf, crate::specs::Writing::written))]
fn put_pairs(inner: &Schema, items: &[(Text, Datum)], to: &mut Vec<u8>) -> Result<(), AllocError>
    requires { AllByRecursion (IsEntry (IsOf (form_of inner.now))) items.now }
    ensures ok { OnOk result (to.new.items ≡ to.old.items ++ written_each (written_entry (written (form_of inner.now))) items.now) }
    ensures grows { Grows to.old.items to.new.items }
{
    for found in items {
        put_entry(inner, found, to)?;
    }
    Ok(())
}

/// A key and its value.
#[cycle(encode)]
#[tactic(auto, unfolding(crate::specs::Writing::IsEntry, crate::specs::Writing::written_entry))]
fn put_entry(inner: &Schema, found: &(Text, Datum), to: &mut Vec<u8>) -> Result<(), AllocError>
    requires { IsEntry (IsOf (form_of inner.now)) found.now }
    ensures ok { OnOk result (to.new.items ≡ to.old.items ++ written_entry (written (form_of inner.now)) found.now) }
    ensures grows { Grows to.old.items to.new.items }
{
    put_text(found.0.as_str().as_bytes(), to)?;
    put(inner, &found.1, to)?;
    Ok(())
}
