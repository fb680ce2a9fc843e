//! The public calls.

ghost use Rattle.std.specs.Prelude.{◌≡◌, ◌≤◌, ◌++◌, ℕ, List, length, drop, IfOk, OnOk, OnErr, Ok};
ghost use Rattle.avro_schema.specs.Form.{form_of};
ghost use Rattle.avro_datum.specs.Spelling.{Spells, IsSpelledAt, NoneAt, ValuesAreApart};
ghost use Rattle.avro_datum.specs.Reading.{Makes, Ends, OnFault, read};
ghost use Rattle.avro_datum.specs.Writing.{IsOf, written};
ghost use Rattle.avro_datum.specs.declared.datum.Datum.{Datum};

use crate::datum::Datum;
use crate::decoding::{record, value};
use crate::encoding::put;
use crate::fault::DatumErr;
use crate::skipping::past;
use avro_pieces::{DatumCause, SkipErr};
use avro_schema::Schema;
use std::alloc::{AllocError, Global};

// The place, or the end of the bytes where it lies past it.
#[inline(always)]
#[tactic(auto, using(std::proofs::lemmas::List::drop_all))]
fn within(bytes: &[u8], at: usize) -> usize
    ensures end { result ≤ length bytes.now }
    ensures rest { drop result bytes.now ≡ drop at bytes.now }
{
    if at > bytes.len() { bytes.len() } else { at }
}

// A row, which most values are that are read here, is slow to move, and so doesn't pass through `value`.
#[inline(always)]
fn value_from(
    alloc: Global,
    schema: &Schema,
    bytes: &[u8],
    at: usize,
) -> Result<(Datum, usize), DatumErr>
    ensures { Makes bytes.now result (read (form_of schema.now) (drop at bytes.now)) }
{
    let from = within(bytes, at);
    match schema {
        Schema::Fields { fields, .. } => record(alloc, fields.as_slice(), bytes, from),
        _ => value(alloc, schema, bytes, from),
    }
}

/// The value that begins at `at`, and where it ends. An `at` past the end reads as at the end.
#[inline(always)]
pub fn decode(
    alloc: Global,
    schema: &Schema,
    bytes: &[u8],
    at: usize,
) -> Result<(Datum, usize), DatumErr>
    ensures found { IfOk result (λ x. IsSpelledAt (form_of schema.now) x.0 bytes.now at x.1) }
    ensures of_schema { IfOk result (λ x. IsOf (form_of schema.now) x.0) }
    ensures none { OnFault result (NoneAt (form_of schema.now) bytes.now at) }
    // Which fault it is, and where.
    ensures exact { Makes bytes.now result (read (form_of schema.now) (drop at bytes.now)) }
{
    value_from(alloc, schema, bytes, at)
}

#[inline(always)]
fn past_from(schema: &Schema, bytes: &[u8], at: usize) -> Result<usize, SkipErr>
    ensures { Ends bytes.now result (read (form_of schema.now) (drop at bytes.now)) }
{
    let mut fault = SkipErr {
        at,
        cause: DatumCause::Short,
    };
    match past(schema, bytes, within(bytes, at), &mut fault) {
        Some(end) => Ok(end),
        None => Err(fault),
    }
}

/// Where the value ends that begins at `at`. It ends where `decode` ends, and refuses as `decode` does.
#[inline(always)]
pub fn skip(schema: &Schema, bytes: &[u8], at: usize) -> Result<usize, SkipErr>
    ensures found { IfOk result (λ end. (d : Datum) × IsSpelledAt (form_of schema.now) d bytes.now at end) }
    ensures none { OnErr result (NoneAt (form_of schema.now) bytes.now at) }
    // Which fault it is, and where.
    ensures exact { Ends bytes.now result (read (form_of schema.now) (drop at bytes.now)) }
{
    past_from(schema, bytes, at)
}

/// Writes the written spelling of the value at the end: shortest numbers, and arrays and maps in at most one block.
#[inline(always)]
pub fn encode(schema: &Schema, datum: &Datum, to: &mut Vec<u8>) -> Result<(), AllocError>
    requires { IsOf (form_of schema.now) datum.now }
    ensures written { OnOk result (to.new.items ≡ to.old.items ++ written (form_of schema.now) datum.now) }
    ensures err { OnErr result (to.new.items ≡ to.old.items) }
    ensures spells { OnOk result (Spells (form_of schema.now) datum.now (written (form_of schema.now) datum.now)) }
    // What is written is read again, whatever follows it.
    ensures again { OnOk result ((rest : List ℕ) → read (form_of schema.now) (written (form_of schema.now) datum.now ++ rest) ≡ Ok (datum.now, rest)) }
{
    let len = to.len();
    match put(schema, datum, to) {
        Ok(()) => Ok(()),
        Err(e) => {
            to.truncate(len);
            Err(e)
        }
    }
}

/// No spelling of a value under a schema begins another, and each stands for one value.
pub fn values_are_apart()
    ensures { ValuesAreApart }
{}
