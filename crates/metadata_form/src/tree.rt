//! What is wrong with the form of a tree as metadata.
ghost use Rattle.std.specs.Prelude.{◌≡◌, IfOk, map, codes, option_map};
ghost use Rattle.serde_json.specs.View.{view};
ghost use Rattle.metadata_form.specs.Form.{items_fault};
ghost use Rattle.metadata_form.specs.Fault.{fault_at, other_version, version_fault, list_fault, lists_fault, form_fault};

use crate::fault::{Fault, MetaCause};
use crate::float::first_float;
use crate::path::{fault_at, in_item, in_member, itself};
use crate::rules::metadata_fault;
use ice_store::Text;
use metadata_json::items;
use serde_json::{Number, Value};
use std::alloc::{AllocError, Global};

// A format version that is a whole number other than 2.
fn other_version(tree: &Value) -> Option<i128>
    ensures { result ≡ other_version (view tree.now) }
{
    let version = tree
        .get("format-version")
        .and_then(Value::as_number)
        .and_then(Number::as_i128);
    match version {
        Some(n) => if n == 2 { None } else { Some(n) },
        None => None,
    }
}

fn version_fault(alloc: Global, version: i128) -> Result<Fault, AllocError>
    ensures { IfOk result (λ f. f ≡ version_fault version) }
{
    let path = Text::copy_of(alloc, b"format-version")?;
    Ok(Fault {
        path,
        cause: MetaCause::Version(version),
    })
}

fn list_fault(alloc: Global, snapshot: &Value) -> Result<Option<Text>, AllocError>
    ensures { IfOk result (λ o. o ≡ list_fault (view snapshot.now)) }
{
    match snapshot.get("manifest-list") {
        Some(_) => Ok(None),
        None => Ok(Some(in_member(alloc, "manifest-list", &itself(alloc))?)),
    }
}

fn first_without_list(alloc: Global, snapshots: &[Value]) -> Result<Option<Text>, AllocError>
    ensures { IfOk result (λ o. o ≡ items_fault list_fault 0 (map view snapshots.now)) }
{
    for (i, snapshot) in snapshots.iter().enumerate() {
        if let Some(on) = list_fault(alloc, snapshot)? {
            return Ok(Some(in_item(alloc, i, &on)?));
        }
    }
    Ok(None)
}

#[tactic(auto, unfolding(crate::specs::Fault::lists_fault))]
fn lists_fault(alloc: Global, tree: &Value) -> Result<Option<Text>, AllocError>
    ensures { IfOk result (λ o. o ≡ lists_fault (view tree.now)) }
{
    match first_without_list(alloc, items(tree, "snapshots"))? {
        Some(on) => Ok(Some(in_member(alloc, "snapshots", &on)?)),
        None => Ok(None),
    }
}

// A fault of this cause where there is a path.
fn fault_if(alloc: Global, cause: MetaCause, on: Option<Text>) -> Result<Option<Fault>, AllocError>
    ensures { IfOk result (λ o. o ≡ option_map (fault_at cause) on) }
{
    match on {
        Some(on) => Ok(Some(fault_at(alloc, cause, on)?)),
        None => Ok(None),
    }
}

/// The first cause for which a tree isn't of the form of metadata, at its first path.
#[tactic(auto, unfolding(crate::specs::Fault::form_fault))]
pub fn form_fault(alloc: Global, tree: &Value) -> Result<Option<Fault>, AllocError>
    ensures { IfOk result (λ o. o ≡ form_fault (view tree.now)) }
{
    if let Some(on) = first_float(alloc, tree)? {
        return Ok(Some(fault_at(alloc, MetaCause::Fraction, on)?));
    }
    if let Some(version) = other_version(tree) {
        return Ok(Some(version_fault(alloc, version)?));
    }
    if let Some(on) = metadata_fault(alloc, tree)? {
        return Ok(Some(fault_at(alloc, MetaCause::Field, on)?));
    }
    let on = lists_fault(alloc, tree)?;
    fault_if(alloc, MetaCause::NoManifestList, on)
}
