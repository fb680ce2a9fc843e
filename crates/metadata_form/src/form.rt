//! The form of each value in metadata.
ghost use Rattle.std.specs.Prelude.{◌≡◌, IfOk, map, codes, option_map, option_and_then, is_some};
ghost use Rattle.serde_json.specs.Data.{null, put};
ghost use Rattle.serde_json.specs.View.{view, members_view};
ghost use Rattle.serde_json.specs.Find.{as_array, as_object};
ghost use Rattle.metadata_json.specs.Fields.{list_of};
ghost use Rattle.metadata_form.specs.Form.{misfit, int, is_natural_in, unless_minus_one, is_uuid, is_branch_text, is_ref_type, items_fault, array_fault, members_fault, object_fault, text_fault, int_fault, is_object_fault, incomplete_fault_in, summary_fault};

use crate::path::{in_item, in_member, itself, itself_unless};
use ice_store::Text;
use serde_json::{Map, Value};
use std::alloc::{AllocError, Global};
use std::cmp::Ordering;
use uuid::Uuid;

/// The form of a value.
#[derive(Clone, Copy)]
pub enum Form {
    /// A text.
    Text,
    /// A text that reads as an identifier.
    Uuid,
    /// A whole number of 32 bits.
    Int,
    /// A whole number from 0 to 2^31 - 1.
    Count,
    /// A whole number of 64 bits.
    Long,
    /// Milliseconds since 1970-01-01 UTC, from 0 to 2^63 - 1.
    Moment,
    /// A whole number of 64 bits other than -1, which stands for no snapshot.
    SnapshotId,
    /// `branch` or `tag`, in any letter case.
    RefType,
    /// An object of texts.
    Texts,
    /// An object of texts with an `operation`.
    Summary,
    /// An array of whole numbers of 32 bits.
    Ints,
    /// An array of objects.
    Objects,
}

/// The whole number of 32 bits that a value is.
pub fn int(value: &Value) -> Option<i32>
    ensures { result ≡ int (view value.now) }
{
    match value.as_i64() {
        Some(n) if n >= i32::MIN as i64 && n <= i32::MAX as i64 => Some(n as i32),
        _ => None,
    }
}

fn is_natural(value: Option<i64>) -> bool
    ensures { result ≡ is_natural_in value }
{
    match value {
        Some(n) => n >= 0,
        None => false,
    }
}

fn is_count(value: Option<i32>) -> bool
    ensures { result ≡ is_natural_in value }
{
    match value {
        Some(n) => n >= 0,
        None => false,
    }
}

#[tactic(auto, unfolding(crate::specs::Form::is_uuid))]
fn is_uuid(text: &str) -> bool
    ensures { result ≡ is_uuid text.now }
{
    Uuid::try_parse(text).is_ok()
}

/// Whether a text is `branch`, in any letter case.
#[tactic(auto, unfolding(crate::specs::Form::is_branch_text))]
pub fn is_branch_text(text: &str) -> bool
    ensures { result ≡ is_branch_text text.now }
{
    text.eq_ignore_ascii_case("branch")
}

#[tactic(auto, unfolding(crate::specs::Form::is_ref_type))]
fn is_ref_type(text: &str) -> bool
    ensures { result ≡ is_ref_type text.now }
{
    is_branch_text(text) || text.eq_ignore_ascii_case("tag")
}

fn is_id_of_snapshot(value: Option<i64>) -> bool
    ensures { result ≡ is_some (option_and_then unless_minus_one value) }
{
    match value {
        Some(id) => id != -1,
        None => false,
    }
}

/// The items of an array.
pub(crate) fn items_of(value: &Value) -> Option<&[Value]>
    ensures { option_map (λ v. map view v.now) result ≡ option_map list_of (as_array (view value.now)) }
{
    match value.as_array() {
        Some(items) => Some(items.as_slice()),
        None => None,
    }
}

fn first_without_int(alloc: Global, items: &[Value]) -> Result<Option<Text>, AllocError>
    ensures { IfOk result (λ o. o ≡ items_fault int_fault 0 (map view items.now)) }
{
    for (i, item) in items.iter().enumerate() {
        if let Some(on) = itself_unless(alloc, int(item).is_some()) {
            return Ok(Some(in_item(alloc, i, &on)?));
        }
    }
    Ok(None)
}

fn ints_fault(alloc: Global, value: &Value) -> Result<Option<Text>, AllocError>
    ensures { IfOk result (λ o. o ≡ array_fault int_fault (view value.now)) }
{
    match items_of(value) {
        Some(items) => first_without_int(alloc, items),
        None => Ok(Some(itself(alloc))),
    }
}

fn first_without_object(alloc: Global, items: &[Value]) -> Result<Option<Text>, AllocError>
    ensures { IfOk result (λ o. o ≡ items_fault is_object_fault 0 (map view items.now)) }
{
    for (i, item) in items.iter().enumerate() {
        if let Some(on) = itself_unless(alloc, item.as_object().is_some()) {
            return Ok(Some(in_item(alloc, i, &on)?));
        }
    }
    Ok(None)
}

fn objects_fault(alloc: Global, value: &Value) -> Result<Option<Text>, AllocError>
    ensures { IfOk result (λ o. o ≡ array_fault is_object_fault (view value.now)) }
{
    match items_of(value) {
        Some(items) => first_without_object(alloc, items),
        None => Ok(Some(itself(alloc))),
    }
}

fn first_without_text(
    alloc: Global,
    members: &Map<String, Value>,
) -> Result<Option<Text>, AllocError>
    ensures { IfOk result (λ o. o ≡ members_fault text_fault (members_view members.now.entries)) }
{
    for (key, value) in members.iter() {
        if let Some(on) = itself_unless(alloc, value.as_str().is_some()) {
            return Ok(Some(in_member(alloc, key.as_str(), &on)?));
        }
    }
    Ok(None)
}

fn texts_fault(alloc: Global, value: &Value) -> Result<Option<Text>, AllocError>
    ensures { IfOk result (λ o. o ≡ object_fault text_fault (view value.now)) }
{
    match value.as_object() {
        Some(members) => first_without_text(alloc, members),
        None => Ok(Some(itself(alloc))),
    }
}

// The first fault of a summary that has no `operation`, which counts in its place.
fn first_of_incomplete(
    alloc: Global,
    members: &Map<String, Value>,
) -> Result<Option<Text>, AllocError>
    ensures { IfOk result (λ o. o ≡ members_fault text_fault
        (put (codes "operation") null (members_view members.now.entries))) }
{
    for (key, value) in members.iter() {
        match "operation".as_bytes().cmp(key.as_bytes()) {
            Ordering::Less => break,
            Ordering::Equal => return Ok(Some(in_member(alloc, key.as_str(), &itself(alloc))?)),
            Ordering::Greater => {}
        }
        if let Some(on) = itself_unless(alloc, value.as_str().is_some()) {
            return Ok(Some(in_member(alloc, key.as_str(), &on)?));
        }
    }
    Ok(Some(in_member(alloc, "operation", &itself(alloc))?))
}

fn incomplete_fault(alloc: Global, value: &Value) -> Result<Option<Text>, AllocError>
    ensures { IfOk result (λ o. o ≡ incomplete_fault_in (as_object (view value.now))) }
{
    match value.as_object() {
        Some(members) => first_of_incomplete(alloc, members),
        None => Ok(Some(itself(alloc))),
    }
}

#[tactic(auto, unfolding(crate::specs::Form::summary_fault))]
fn summary_fault(alloc: Global, value: &Value) -> Result<Option<Text>, AllocError>
    ensures { IfOk result (λ o. o ≡ summary_fault (view value.now)) }
{
    if value.get("operation").is_some() {
        texts_fault(alloc, value)
    } else {
        incomplete_fault(alloc, value)
    }
}

/// The first place in a value that isn't of this form.
#[tactic(auto, unfolding(crate::specs::Form::misfit))]
pub(crate) fn misfit(alloc: Global, form: Form, value: &Value) -> Result<Option<Text>, AllocError>
    ensures { IfOk result (λ o. o ≡ misfit form (view value.now)) }
{
    let holds = match form {
        Form::Text => value.as_str().is_some(),
        Form::Uuid => value.as_str().is_some_and(is_uuid),
        Form::Int => int(value).is_some(),
        Form::Count => is_count(int(value)),
        Form::Long => value.as_i64().is_some(),
        Form::Moment => is_natural(value.as_i64()),
        Form::SnapshotId => is_id_of_snapshot(value.as_i64()),
        Form::RefType => value.as_str().is_some_and(is_ref_type),
        Form::Texts => return texts_fault(alloc, value),
        Form::Summary => return summary_fault(alloc, value),
        Form::Ints => return ints_fault(alloc, value),
        Form::Objects => return objects_fault(alloc, value),
    };
    Ok(itself_unless(alloc, holds))
}
