//! The fields of the objects in metadata.
ghost use Rattle.std.specs.Prelude.{◌≡◌, IfOk, map, option_map};
ghost use Rattle.serde_json.specs.Find.{get};
ghost use Rattle.serde_json.specs.View.{view};
ghost use Rattle.metadata_form.specs.Form.{misfit, items_fault, array_fault};
ghost use Rattle.metadata_form.specs.Key.{name_of};
ghost use Rattle.metadata_form.specs.Path.{in_member};
ghost use Rattle.metadata_form.specs.Fields.{found_fault, field_fault, fields_fault, record_fault, snapshot_fields, ref_fields, snapshot_log_fields, metadata_log_fields, statistics_fields, blob_fields, partition_statistics_fields};

use crate::form::{Form, items_of, misfit};
use crate::key::Key;
use crate::path::{in_item, in_member, itself};
use ice_store::Text;
use serde_json::Value;
use std::alloc::{AllocError, Global};

/// Whether a field may lack.
#[derive(Clone, Copy)]
pub enum Need {
    Required,
    /// It may lack, and counts as lacking where it is null.
    Optional,
    /// It may lack here, and isn't null.
    NotNull,
}

/// A field of an object.
#[derive(Clone, Copy)]
pub struct Field {
    pub key: Key,
    pub need: Need,
    pub form: Form,
}

const SNAPSHOT_FIELDS: [Field; 7] = [
    Field {
        key: Key::ManifestList,
        need: Need::NotNull,
        form: Form::Text,
    },
    Field {
        key: Key::ParentSnapshotId,
        need: Need::Optional,
        form: Form::Long,
    },
    Field {
        key: Key::SchemaId,
        need: Need::Optional,
        form: Form::Int,
    },
    Field {
        key: Key::SequenceNumber,
        need: Need::Required,
        form: Form::Long,
    },
    Field {
        key: Key::SnapshotId,
        need: Need::Required,
        form: Form::SnapshotId,
    },
    Field {
        key: Key::Summary,
        need: Need::Required,
        form: Form::Summary,
    },
    Field {
        key: Key::TimestampMs,
        need: Need::Required,
        form: Form::Moment,
    },
];

// Snapshots.
pub(crate) fn snapshot_fields() -> &'static [Field]
    ensures { result.now ≡ snapshot_fields }
{
    &SNAPSHOT_FIELDS
}

const REF_FIELDS: [Field; 5] = [
    Field {
        key: Key::MaxRefAgeMs,
        need: Need::Optional,
        form: Form::Moment,
    },
    Field {
        key: Key::MaxSnapshotAgeMs,
        need: Need::Optional,
        form: Form::Moment,
    },
    Field {
        key: Key::MinSnapshotsToKeep,
        need: Need::Optional,
        form: Form::Count,
    },
    Field {
        key: Key::SnapshotId,
        need: Need::Required,
        form: Form::Long,
    },
    Field {
        key: Key::Kind,
        need: Need::Required,
        form: Form::RefType,
    },
];

// Snapshot References.
pub(crate) fn ref_fields() -> &'static [Field]
    ensures { result.now ≡ ref_fields }
{
    &REF_FIELDS
}

const SNAPSHOT_LOG_FIELDS: [Field; 2] = [
    Field {
        key: Key::SnapshotId,
        need: Need::Required,
        form: Form::Long,
    },
    Field {
        key: Key::TimestampMs,
        need: Need::Required,
        form: Form::Long,
    },
];

// Table Metadata Fields: `snapshot-log`.
pub(crate) fn snapshot_log_fields() -> &'static [Field]
    ensures { result.now ≡ snapshot_log_fields }
{
    &SNAPSHOT_LOG_FIELDS
}

const METADATA_LOG_FIELDS: [Field; 2] = [
    Field {
        key: Key::MetadataFile,
        need: Need::Required,
        form: Form::Text,
    },
    Field {
        key: Key::TimestampMs,
        need: Need::Required,
        form: Form::Long,
    },
];

// Table Metadata Fields: `metadata-log`.
pub(crate) fn metadata_log_fields() -> &'static [Field]
    ensures { result.now ≡ metadata_log_fields }
{
    &METADATA_LOG_FIELDS
}

const STATISTICS_FIELDS: [Field; 5] = [
    Field {
        key: Key::FileFooterSizeInBytes,
        need: Need::Required,
        form: Form::Long,
    },
    Field {
        key: Key::FileSizeInBytes,
        need: Need::Required,
        form: Form::Long,
    },
    Field {
        key: Key::KeyMetadata,
        need: Need::Optional,
        form: Form::Text,
    },
    Field {
        key: Key::SnapshotId,
        need: Need::Required,
        form: Form::Long,
    },
    Field {
        key: Key::StatisticsPath,
        need: Need::Required,
        form: Form::Text,
    },
];

// Table Statistics.
pub(crate) fn statistics_fields() -> &'static [Field]
    ensures { result.now ≡ statistics_fields }
{
    &STATISTICS_FIELDS
}

const BLOB_FIELDS: [Field; 5] = [
    Field {
        key: Key::Fields,
        need: Need::Required,
        form: Form::Ints,
    },
    Field {
        key: Key::Properties,
        need: Need::Optional,
        form: Form::Texts,
    },
    Field {
        key: Key::SequenceNumber,
        need: Need::Required,
        form: Form::Long,
    },
    Field {
        key: Key::SnapshotId,
        need: Need::Required,
        form: Form::Long,
    },
    Field {
        key: Key::Kind,
        need: Need::Required,
        form: Form::Text,
    },
];

// Table Statistics: blob metadata.
pub(crate) fn blob_fields() -> &'static [Field]
    ensures { result.now ≡ blob_fields }
{
    &BLOB_FIELDS
}

const PARTITION_STATISTICS_FIELDS: [Field; 3] = [
    Field {
        key: Key::FileSizeInBytes,
        need: Need::Required,
        form: Form::Long,
    },
    Field {
        key: Key::SnapshotId,
        need: Need::Required,
        form: Form::Long,
    },
    Field {
        key: Key::StatisticsPath,
        need: Need::Required,
        form: Form::Text,
    },
];

// Partition Statistics.
pub(crate) fn partition_statistics_fields() -> &'static [Field]
    ensures { result.now ≡ partition_statistics_fields }
{
    &PARTITION_STATISTICS_FIELDS
}

/// The path in a member, where there is a fault within it.
pub(crate) fn within(
    alloc: Global,
    key: Key,
    found: Option<Text>,
) -> Result<Option<Text>, AllocError>
    ensures { IfOk result (λ o. o ≡ option_map (in_member (name_of key)) found) }
{
    match found {
        Some(on) => Ok(Some(in_member(alloc, key.name(), &on)?)),
        None => Ok(None),
    }
}

fn found_fault(
    alloc: Global,
    need: Need,
    form: Form,
    found: Option<&Value>,
) -> Result<Option<Text>, AllocError>
    ensures { IfOk result (λ o. o ≡ found_fault need (misfit form) (option_map (λ v. view v.now) found.entry)) }
{
    match found {
        None => match need {
            Need::Required => Ok(Some(itself(alloc))),
            Need::Optional => Ok(None),
            Need::NotNull => Ok(None),
        },
        Some(value) => match need {
            Need::Required => misfit(alloc, form, value),
            Need::Optional => if value.is_null() {
                Ok(None)
            } else {
                misfit(alloc, form, value)
            },
            Need::NotNull => misfit(alloc, form, value),
        },
    }
}

#[tactic(auto, unfolding(crate::specs::Fields::field_fault))]
pub(crate) fn field_fault(
    alloc: Global,
    field: &Field,
    tree: &Value,
) -> Result<Option<Text>, AllocError>
    ensures { IfOk result (λ o. o ≡ field_fault field.now (view tree.now)) }
{
    let found = found_fault(alloc, field.need, field.form, tree.get(field.key.name()))?;
    within(alloc, field.key, found)
}

/// The first of these fields of an object that isn't as it has to be.
#[tactic(auto, unfolding(crate::specs::Fields::fields_fault))]
pub(crate) fn fields_fault(
    alloc: Global,
    fields: &[Field],
    tree: &Value,
) -> Result<Option<Text>, AllocError>
    ensures { IfOk result (λ o. o ≡ fields_fault fields.now (view tree.now)) }
{
    for field in fields {
        if let Some(on) = field_fault(alloc, field, tree)? {
            return Ok(Some(on));
        }
    }
    Ok(None)
}

#[tactic(auto, unfolding(crate::specs::Fields::record_fault))]
pub(crate) fn record_fault(
    alloc: Global,
    fields: &[Field],
    tree: &Value,
) -> Result<Option<Text>, AllocError>
    ensures { IfOk result (λ o. o ≡ record_fault fields.now (view tree.now)) }
{
    if tree.as_object().is_some() {
        fields_fault(alloc, fields, tree)
    } else {
        Ok(Some(itself(alloc)))
    }
}

fn first_of_records(
    alloc: Global,
    fields: &[Field],
    items: &[Value],
) -> Result<Option<Text>, AllocError>
    ensures { IfOk result (λ o. o ≡ items_fault (record_fault fields.now) 0 (map view items.now)) }
{
    for (i, item) in items.iter().enumerate() {
        if let Some(on) = record_fault(alloc, fields, item)? {
            return Ok(Some(in_item(alloc, i, &on)?));
        }
    }
    Ok(None)
}

/// The first place in a value that is no array of objects with these fields.
pub(crate) fn records_fault(
    alloc: Global,
    fields: &[Field],
    value: &Value,
) -> Result<Option<Text>, AllocError>
    ensures { IfOk result (λ o. o ≡ array_fault (record_fault fields.now) (view value.now)) }
{
    match items_of(value) {
        Some(items) => first_of_records(alloc, fields, items),
        None => Ok(Some(itself(alloc))),
    }
}
