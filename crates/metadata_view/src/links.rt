//! What is wrong with the refs and parents of a tree.
ghost use Rattle.std.specs.Prelude.{◌≡◌, codes, IfOk, option_map};
ghost use Rattle.serde_json.specs.View.{view, members_view};
ghost use Rattle.metadata_json.specs.Fields.{members_at};
ghost use Rattle.metadata_form.specs.Fault.{fault_at};
ghost use Rattle.metadata_form.specs.declared.fault.MetaCause.TheVariants.{DoubleId};
ghost use Rattle.metadata_view.specs.Index.{IsIndex};
ghost use Rattle.metadata_view.specs.Fault.{links_fault};
ghost use Rattle.metadata_view.specs.Links.{snapshot_path, double_path, is_main, main_agrees, current_fault, is_whole_ref, first_broken, refs_fault, ref_fault, return_path};

use crate::index::{Index, has};
use crate::steps::first_return;
use crate::typed::{current, main_ref};
use crate::types::Snapshot;
use ice_store::Text;
use metadata_form::{Fault, MetaCause, fault_at, in_item, in_member};
use metadata_json::{members, signed_or_zero};
use serde_json::{Map, Value};
use std::alloc::{AllocError, Global};

// The path of a field of a snapshot.
fn snapshot_path(alloc: Global, place: usize, key: &str) -> Result<Text, AllocError>
    ensures { IfOk result (λ t. t ≡ snapshot_path place key.now) }
{
    let field = in_member(alloc, key, &Text::new(Vec::new(alloc)))?;
    let item = in_item(alloc, place, &field)?;
    in_member(alloc, "snapshots", &item)
}

/// The fault of a snapshot whose id an earlier one has.
#[tactic(auto, unfolding(crate::specs::Links::double_path))]
pub fn double_id(alloc: Global, place: usize) -> Result<Fault, AllocError>
    ensures { IfOk result (λ f. f ≡ fault_at DoubleId (double_path place)) }
{
    let path = snapshot_path(alloc, place, "snapshot-id")?;
    fault_at(alloc, MetaCause::DoubleId, path)
}

fn is_main(name: &str) -> bool
    ensures { result ≡ is_main name.now }
{
    name == "main"
}

fn main_agrees(main: Option<&Value>, current: Option<i64>) -> bool
    ensures { result ≡ main_agrees (option_map (λ v. view v.now) main.entry) current }
{
    match (main, current) {
        (None, _) => true,
        (Some(_), None) => false,
        (Some(main), Some(id)) => signed_or_zero(main, "snapshot-id") == id,
    }
}

fn current_fault(
    alloc: Global,
    index: &Index,
    snapshots: &[Snapshot],
    main: Option<&Value>,
    current: Option<i64>,
) -> Result<Option<Text>, AllocError>
    requires { IsIndex index.now snapshots.now }
    ensures { IfOk result (λ o. o ≡ current_fault snapshots.now (option_map (λ v. view v.now) main.entry) current) }
{
    match (main, current) {
        (None, Some(id)) => if has(index, snapshots, id) {
            Ok(None)
        } else {
            let itself = Text::new(Vec::new(alloc));
            Ok(Some(in_member(alloc, "current-snapshot-id", &itself)?))
        },
        (None, None) => Ok(None),
        (Some(_), _) => Ok(None),
    }
}

fn is_whole_ref(
    index: &Index,
    snapshots: &[Snapshot],
    agrees: bool,
    name: &str,
    value: &Value,
) -> bool
    requires { IsIndex index.now snapshots.now }
    ensures { result ≡ is_whole_ref snapshots.now agrees name.now (view value.now) }
{
    has(index, snapshots, signed_or_zero(value, "snapshot-id")) && (agrees || !is_main(name))
}

#[tactic(auto, unfolding(crate::specs::Links::first_broken))]
fn first_broken(
    alloc: Global,
    index: &Index,
    snapshots: &[Snapshot],
    agrees: bool,
    refs: &Map<String, Value>,
) -> Result<Option<Text>, AllocError>
    requires { IsIndex index.now snapshots.now }
    ensures { IfOk result (λ o. o ≡ first_broken snapshots.now agrees (members_view refs.now.entries)) }
{
    for (name, value) in refs.iter() {
        if !is_whole_ref(index, snapshots, agrees, name.as_str(), value) {
            let itself = Text::new(Vec::new(alloc));
            return Ok(Some(in_member(alloc, name.as_str(), &itself)?));
        }
    }
    Ok(None)
}

fn broken_in(
    alloc: Global,
    index: &Index,
    snapshots: &[Snapshot],
    agrees: bool,
    tree: &Value,
) -> Result<Option<Text>, AllocError>
    requires { IsIndex index.now snapshots.now }
    ensures { IfOk result (λ o. o ≡ first_broken snapshots.now agrees (members_at (codes "refs") (view tree.now))) }
{
    match members(tree, "refs") {
        Some(refs) => first_broken(alloc, index, snapshots, agrees, refs),
        None => Ok(None),
    }
}

fn refs_fault(
    alloc: Global,
    index: &Index,
    snapshots: &[Snapshot],
    tree: &Value,
) -> Result<Option<Text>, AllocError>
    requires { IsIndex index.now snapshots.now }
    ensures { IfOk result (λ o. o ≡ refs_fault snapshots.now (view tree.now)) }
{
    let agrees = main_agrees(main_ref(tree), current(tree));
    match broken_in(alloc, index, snapshots, agrees, tree)? {
        Some(on) => Ok(Some(in_member(alloc, "refs", &on)?)),
        None => Ok(None),
    }
}

#[tactic(auto, unfolding(crate::specs::Links::ref_fault))]
fn ref_fault(
    alloc: Global,
    index: &Index,
    snapshots: &[Snapshot],
    tree: &Value,
) -> Result<Option<Text>, AllocError>
    requires { IsIndex index.now snapshots.now }
    ensures { IfOk result (λ o. o ≡ ref_fault snapshots.now (view tree.now)) }
{
    match current_fault(alloc, index, snapshots, main_ref(tree), current(tree))? {
        Some(on) => Ok(Some(on)),
        None => refs_fault(alloc, index, snapshots, tree),
    }
}

#[tactic(auto, unfolding(crate::specs::Links::return_path))]
fn return_path(alloc: Global, place: usize) -> Result<Text, AllocError>
    ensures { IfOk result (λ t. t ≡ return_path place) }
{
    snapshot_path(alloc, place, "parent-snapshot-id")
}

/// The first thing that is wrong with refs and parents.
#[tactic(auto, unfolding(crate::specs::Fault::links_fault))]
pub fn links_fault(
    alloc: Global,
    index: &Index,
    snapshots: &[Snapshot],
    tree: &Value,
) -> Result<Option<Fault>, AllocError>
    requires { IsIndex index.now snapshots.now }
    ensures { IfOk result (λ o. o ≡ links_fault snapshots.now (view tree.now)) }
{
    if let Some(on) = ref_fault(alloc, index, snapshots, tree)? {
        return Ok(Some(fault_at(alloc, MetaCause::BrokenRef, on)?));
    }
    match first_return(alloc, snapshots, index)? {
        Some(place) => {
            let on = return_path(alloc, place)?;
            Ok(Some(fault_at(alloc, MetaCause::BrokenParent, on)?))
        }
        None => Ok(None),
    }
}
