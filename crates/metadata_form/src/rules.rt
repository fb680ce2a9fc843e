//! The fields of table metadata.
ghost use Rattle.std.specs.Prelude.{◌≡◌, IfOk, map, option_map};
ghost use Rattle.serde_json.specs.View.{view, members_view};
ghost use Rattle.metadata_json.specs.Fields.{items_at};
ghost use Rattle.metadata_form.specs.Form.{items_fault, array_fault, members_fault, object_fault};
ghost use Rattle.metadata_form.specs.declared.fields.Need.TheVariants.{Required, Optional};
ghost use Rattle.metadata_form.specs.declared.key.Key.TheVariants.{BlobMetadata};
ghost use Rattle.metadata_form.specs.Fields.{is_id, has_id, names_item, name_fault, found_fault, member_fault, record_fault, blob_fields, ref_fields, statistics_fault, rule_fault, rules_fault, metadata_rules, metadata_fault};

use crate::fields::{
    Field, Need, blob_fields, field_fault, fields_fault, metadata_log_fields,
    partition_statistics_fields, record_fault, records_fault, ref_fields, snapshot_fields,
    snapshot_log_fields, statistics_fields, within,
};
use crate::form::{Form, int, items_of};
use crate::key::Key;
use crate::path::{in_item, in_member, itself, itself_unless};
use ice_store::Text;
use metadata_json::{items, signed};
use serde_json::{Map, Value};
use std::alloc::{AllocError, Global};

/// What has to hold of table metadata.
#[derive(Clone, Copy)]
pub enum Rule {
    /// A field is as it needs to be.
    Holds(Field),
    /// `current-schema-id` names a schema.
    CurrentSchema,
    /// `default-spec-id` names a partition spec.
    DefaultSpec,
    MetadataLog,
    PartitionStatistics,
    Refs,
    SnapshotLog,
    Snapshots,
    Statistics,
}

const METADATA_RULES: [Rule; 21] = [
    Rule::CurrentSchema,
    Rule::Holds(Field {
        key: Key::CurrentSnapshotId,
        need: Need::Optional,
        form: Form::Long,
    }),
    Rule::Holds(Field {
        key: Key::DefaultSortOrderId,
        need: Need::Required,
        form: Form::Int,
    }),
    Rule::DefaultSpec,
    Rule::Holds(Field {
        key: Key::FormatVersion,
        need: Need::Required,
        form: Form::Int,
    }),
    Rule::Holds(Field {
        key: Key::LastColumnId,
        need: Need::Required,
        form: Form::Int,
    }),
    Rule::Holds(Field {
        key: Key::LastPartitionId,
        need: Need::Required,
        form: Form::Int,
    }),
    Rule::Holds(Field {
        key: Key::LastSequenceNumber,
        need: Need::Required,
        form: Form::Long,
    }),
    Rule::Holds(Field {
        key: Key::LastUpdatedMs,
        need: Need::Required,
        form: Form::Moment,
    }),
    Rule::Holds(Field {
        key: Key::Location,
        need: Need::Required,
        form: Form::Text,
    }),
    Rule::MetadataLog,
    Rule::Holds(Field {
        key: Key::PartitionSpecs,
        need: Need::Required,
        form: Form::Objects,
    }),
    Rule::PartitionStatistics,
    Rule::Holds(Field {
        key: Key::Properties,
        need: Need::Optional,
        form: Form::Texts,
    }),
    Rule::Refs,
    Rule::Holds(Field {
        key: Key::Schemas,
        need: Need::Required,
        form: Form::Objects,
    }),
    Rule::SnapshotLog,
    Rule::Snapshots,
    Rule::Holds(Field {
        key: Key::SortOrders,
        need: Need::Required,
        form: Form::Objects,
    }),
    Rule::Statistics,
    Rule::Holds(Field {
        key: Key::TableUuid,
        need: Need::Required,
        form: Form::Uuid,
    }),
];

// Table Metadata Fields, in byte order of their keys.
fn metadata_rules() -> &'static [Rule]
    ensures { result.now ≡ metadata_rules }
{
    &METADATA_RULES
}

fn is_id(id: i32, found: Option<i64>) -> bool
    ensures { result ≡ is_id id found }
{
    match found {
        Some(other) => other == id as i64,
        None => false,
    }
}

fn has_id(name: &str, id: i32, items: &[Value]) -> bool
    ensures { result ≡ has_id name.now id (map view items.now) }
{
    for item in items {
        if is_id(id, signed(item, name)) {
            return true;
        }
    }
    false
}

fn names_item(name: &str, items: &[Value], id: Option<i32>) -> bool
    ensures { result ≡ names_item name.now (map view items.now) id }
{
    match id {
        Some(id) => has_id(name, id, items),
        None => false,
    }
}

fn name_found(alloc: Global, name: &str, items: &[Value], found: Option<&Value>) -> Option<Text>
    ensures { result ≡ found_fault Required (name_fault name.now (map view items.now)) (option_map (λ v. view v.now) found.entry) }
{
    match found {
        Some(value) => itself_unless(alloc, names_item(name, items, int(value))),
        None => Some(itself(alloc)),
    }
}

// A field that is the id, under this name, of an item of a list.
fn id_fault(
    alloc: Global,
    key: Key,
    list: &str,
    name: &str,
    tree: &Value,
) -> Result<Option<Text>, AllocError>
    ensures { IfOk result (λ o. o ≡ member_fault key Required (name_fault name.now (items_at list.now (view tree.now))) (view tree.now)) }
{
    let found = name_found(alloc, name, items(tree, list), tree.get(key.name()));
    within(alloc, key, found)
}

fn records_found(
    alloc: Global,
    fields: &[Field],
    found: Option<&Value>,
) -> Result<Option<Text>, AllocError>
    ensures { IfOk result (λ o. o ≡ found_fault Optional (array_fault (record_fault fields.now)) (option_map (λ v. view v.now) found.entry)) }
{
    match found {
        Some(value) => if value.is_null() {
            Ok(None)
        } else {
            records_fault(alloc, fields, value)
        },
        None => Ok(None),
    }
}

// An optional field that is an array of objects with these fields.
fn list_fault(
    alloc: Global,
    key: Key,
    fields: &[Field],
    tree: &Value,
) -> Result<Option<Text>, AllocError>
    ensures { IfOk result (λ o. o ≡ member_fault key Optional (array_fault (record_fault fields.now)) (view tree.now)) }
{
    let found = records_found(alloc, fields, tree.get(key.name()))?;
    within(alloc, key, found)
}

fn blobs_found(alloc: Global, found: Option<&Value>) -> Result<Option<Text>, AllocError>
    ensures { IfOk result (λ o. o ≡ found_fault Required (array_fault (record_fault blob_fields)) (option_map (λ v. view v.now) found.entry)) }
{
    match found {
        Some(value) => records_fault(alloc, blob_fields(), value),
        None => Ok(Some(itself(alloc))),
    }
}

fn blobs_fault(alloc: Global, tree: &Value) -> Result<Option<Text>, AllocError>
    ensures { IfOk result (λ o. o ≡ member_fault BlobMetadata Required (array_fault (record_fault blob_fields)) (view tree.now)) }
{
    let found = blobs_found(alloc, tree.get("blob-metadata"))?;
    within(alloc, Key::BlobMetadata, found)
}

#[tactic(auto, unfolding(crate::specs::Fields::statistics_fault))]
fn statistics_fault(alloc: Global, tree: &Value) -> Result<Option<Text>, AllocError>
    ensures { IfOk result (λ o. o ≡ statistics_fault (view tree.now)) }
{
    if tree.as_object().is_none() {
        return Ok(Some(itself(alloc)));
    }
    match blobs_fault(alloc, tree)? {
        Some(on) => Ok(Some(on)),
        None => fields_fault(alloc, statistics_fields(), tree),
    }
}

fn first_of_statistics(alloc: Global, items: &[Value]) -> Result<Option<Text>, AllocError>
    ensures { IfOk result (λ o. o ≡ items_fault statistics_fault 0 (map view items.now)) }
{
    for (i, item) in items.iter().enumerate() {
        if let Some(on) = statistics_fault(alloc, item)? {
            return Ok(Some(in_item(alloc, i, &on)?));
        }
    }
    Ok(None)
}

fn files_fault(alloc: Global, value: &Value) -> Result<Option<Text>, AllocError>
    ensures { IfOk result (λ o. o ≡ array_fault statistics_fault (view value.now)) }
{
    match items_of(value) {
        Some(items) => first_of_statistics(alloc, items),
        None => Ok(Some(itself(alloc))),
    }
}

fn first_of_refs(alloc: Global, members: &Map<String, Value>) -> Result<Option<Text>, AllocError>
    ensures { IfOk result (λ o. o ≡ members_fault (record_fault ref_fields)
        (members_view members.now.entries)) }
{
    for (key, value) in members.iter() {
        if let Some(on) = record_fault(alloc, ref_fields(), value)? {
            return Ok(Some(in_member(alloc, key.as_str(), &on)?));
        }
    }
    Ok(None)
}

fn refs_fault(alloc: Global, value: &Value) -> Result<Option<Text>, AllocError>
    ensures { IfOk result (λ o. o ≡ object_fault (record_fault ref_fields) (view value.now)) }
{
    match value.as_object() {
        Some(members) => first_of_refs(alloc, members),
        None => Ok(Some(itself(alloc))),
    }
}

// An optional map of refs.
fn optional_refs(alloc: Global, found: Option<&Value>) -> Result<Option<Text>, AllocError>
    ensures { IfOk result (λ o. o ≡ found_fault Optional (object_fault (record_fault ref_fields)) (option_map (λ v. view v.now) found.entry)) }
{
    match found {
        Some(value) => if value.is_null() {
            Ok(None)
        } else {
            refs_fault(alloc, value)
        },
        None => Ok(None),
    }
}

// An optional list of statistics files.
fn optional_files(alloc: Global, found: Option<&Value>) -> Result<Option<Text>, AllocError>
    ensures { IfOk result (λ o. o ≡ found_fault Optional (array_fault statistics_fault) (option_map (λ v. view v.now) found.entry)) }
{
    match found {
        Some(value) => if value.is_null() {
            Ok(None)
        } else {
            files_fault(alloc, value)
        },
        None => Ok(None),
    }
}

#[tactic(auto, unfolding(crate::specs::Fields::rule_fault))]
fn rule_fault(alloc: Global, rule: &Rule, tree: &Value) -> Result<Option<Text>, AllocError>
    ensures { IfOk result (λ o. o ≡ rule_fault rule.now (view tree.now)) }
{
    match rule {
        Rule::Holds(field) => field_fault(alloc, field, tree),
        Rule::CurrentSchema => {
            id_fault(alloc, Key::CurrentSchemaId, "schemas", "schema-id", tree)
        }
        Rule::DefaultSpec => {
            id_fault(
                alloc,
                Key::DefaultSpecId,
                "partition-specs",
                "spec-id",
                tree,
            )
        }
        Rule::MetadataLog => list_fault(alloc, Key::MetadataLog, metadata_log_fields(), tree),
        Rule::PartitionStatistics => list_fault(
            alloc,
            Key::PartitionStatistics,
            partition_statistics_fields(),
            tree,
        ),
        Rule::Refs => within(alloc, Key::Refs, optional_refs(alloc, tree.get("refs"))?),
        Rule::SnapshotLog => list_fault(alloc, Key::SnapshotLog, snapshot_log_fields(), tree),
        Rule::Snapshots => list_fault(alloc, Key::Snapshots, snapshot_fields(), tree),
        Rule::Statistics => within(
            alloc,
            Key::Statistics,
            optional_files(alloc, tree.get("statistics"))?,
        ),
    }
}

#[tactic(auto, unfolding(crate::specs::Fields::rules_fault))]
fn rules_fault(alloc: Global, rules: &[Rule], tree: &Value) -> Result<Option<Text>, AllocError>
    ensures { IfOk result (λ o. o ≡ rules_fault rules.now (view tree.now)) }
{
    for rule in rules {
        if let Some(on) = rule_fault(alloc, rule, tree)? {
            return Ok(Some(on));
        }
    }
    Ok(None)
}

/// The first field of metadata that isn't as it has to be, a `manifest-list` that lacks aside.
#[tactic(auto, unfolding(crate::specs::Fields::metadata_fault))]
pub(crate) fn metadata_fault(alloc: Global, tree: &Value) -> Result<Option<Text>, AllocError>
    ensures { IfOk result (λ o. o ≡ metadata_fault (view tree.now)) }
{
    if tree.as_object().is_some() {
        rules_fault(alloc, metadata_rules(), tree)
    } else {
        Ok(Some(itself(alloc)))
    }
}
