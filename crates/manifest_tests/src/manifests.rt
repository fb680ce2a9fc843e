//! Manifests as files.

use crate::made::{DATA, DATA_FILES, DELETES, NULL_NUMBERS};
use avro_container::ContainerCause;
use avro_schema::Text;
use ice_schema::{ColType, PartField, PartType, Transform, partition_type, read_schema, read_spec};
use manifest_codec::{
    Manifest, ManifestCause, ManifestErr, manifests_are_spelled, read_manifest,
    spelled_manifests_are_read,
};
use manifest_entries::Entry;
use manifest_files::DataFile;
use serde_json::Value;
use sqlite_items::Items;
use std::alloc::{AllocError, Global};
use std::test::Fail;

/// The partition type of a manifest whose files have no partition.
fn unpartitioned(alloc: Global) -> PartType {
    PartType {
        fields: Items::new(alloc),
    }
}

/// The partition type that the keys of a manifest tell.
fn told(alloc: Global, manifest: &Manifest) -> Result<PartType, Fail> {
    let schema = Value::from_str(alloc, manifest.schema_text.as_str())?;
    let spec = format!(in alloc;
        "{{\"spec-id\":0,\"fields\":{}}}",
        manifest.spec_text.as_str()
    )?;
    let spec = Value::from_str(alloc, spec.as_str())?;
    let mut schemas = Items::new(alloc);
    schemas.push(read_schema(alloc, &schema)?)?;
    Ok(partition_type(alloc, &read_spec(alloc, &spec)?, &schemas)?)
}

/// What an entry says, but for its lists and its partition.
fn line(alloc: Global, entry: &Entry) -> Result<String, AllocError> {
    let file = &entry.data_file;
    format!(in alloc;
        "{} {:?} {:?} {:?} {:?} {:?} {} {} {} {}",
        entry.at,
        entry.status,
        entry.snapshot_id,
        entry.sequence_number,
        entry.file_sequence_number,
        file.content,
        file.path.as_str(),
        file.format.as_str(),
        file.record_count,
        file.file_size_in_bytes
    )
}

/// The entries of a manifest, a line each.
fn lines(alloc: Global, manifest: &Manifest) -> Result<String, AllocError> {
    let mut lines = String::new(alloc);
    for entry in manifest.entries.as_slice() {
        lines.push_str(line(alloc, entry)?.as_str())?;
        lines.push('\n')?;
    }
    Ok(lines)
}

const NULL_LINES: &str = "\
4622 Added None None None Rows /warehouse/db/t/data/é-00000.parquet PARQUET 1000 8589934592
4753 Existing Some(30) Some(3) Some(3) Rows /warehouse/db/t/data/é-00001.parquet PARQUET 1001 8589934593
4825 Deleted Some(70) Some(2) Some(2) Rows /warehouse/db/t/data/é-00002.parquet PARQUET 1002 8589934594
";

#[test]
fn null_numbers_stay_null(rt: HostRuntime) -> Result<(), Fail> {
    manifests_are_spelled();
    spelled_manifests_are_read();
    let manifest = read_manifest(rt.alloc(), NULL_NUMBERS, &unpartitioned(rt.alloc()))?;
    assert_eq!(rt; lines(rt.alloc(), &manifest)?.as_str(), NULL_LINES);
    assert_eq!(rt; (manifest.spec_id, manifest.is_deletes), (0, false));
    assert_eq!(rt;
        (manifest.schema_id.as_str(), manifest.spec_text.as_str()),
        ("0", "[]")
    );
    Ok(())
}

const DELETE_LINES: &str = "\
4511 Added Some(70) None None Positions /warehouse/db/t/data/é-00000.parquet avro 1000 8589934592
4760 Added Some(71) Some(5) None Equalities /warehouse/db/t/data/é-00003.parquet Orc 1003 8589934595
4882 Existing Some(72) Some(5) None Positions /warehouse/db/t/data/é-00000.parquet avro 1000 8589934592
";

/// Their partitions: a long that the file has as an int, and a day.
const DELETE_PARTS: [&str; 3] = [
    "Fields(Items { items: [Long(-5), Int(19000)] })",
    "Fields(Items { items: [Null, Int(19001)] })",
    "Fields(Items { items: [Long(-7), Int(19002)] })",
];

#[test]
fn fields_in_another_order(rt: HostRuntime) -> Result<(), Fail> {
    let mut fields = Items::new(rt.alloc());
    for (field_id, transform, ty) in [
        (1011, Transform::Identity, ColType::Long),
        (1007, Transform::Day, ColType::Date),
    ] {
        let name = Text::new(String::new(rt.alloc()));
        fields.push(PartField {
            field_id,
            name,
            ty,
            transform,
        })?;
    }
    let manifest = read_manifest(rt.alloc(), DELETES, &PartType { fields })?;
    assert_eq!(rt; lines(rt.alloc(), &manifest)?.as_str(), DELETE_LINES);
    assert_eq!(rt; (manifest.spec_id, manifest.is_deletes), (3, true));
    for (entry, wanted) in manifest.entries.as_slice().iter().zip(DELETE_PARTS) {
        let partition = format!(in rt.alloc(); "{:?}", entry.data_file.partition)?;
        assert_eq!(rt; partition.as_str(), wanted);
    }
    Ok(())
}

/// The partition and the lists of an entry's file.
fn lists(alloc: Global, file: &DataFile) -> Result<String, AllocError> {
    format!(in alloc;
        "{:?} {:?} {:?} {:?} {:?} {:?} {:?} {:?}",
        file.partition,
        file.column_sizes,
        file.value_counts,
        file.null_value_counts,
        file.nan_value_counts,
        file.lower_bounds,
        file.upper_bounds,
        file.split_offsets
    )
}

#[test]
fn partitions_of_each_type(rt: HostRuntime) -> Result<(), Fail> {
    let plain = read_manifest(rt.alloc(), DATA, &unpartitioned(rt.alloc()))?;
    let part = told(rt.alloc(), &plain)?;
    let manifest = read_manifest(rt.alloc(), DATA, &part)?;
    assert_eq!(rt;
        (manifest.schema_id.as_str(), manifest.entries.len()),
        ("", 5)
    );
    for (entry, wanted) in manifest.entries.as_slice().iter().zip(DATA_FILES) {
        assert_eq!(rt; lists(rt.alloc(), &entry.data_file)?.as_str(), wanted);
    }
    Ok(())
}

/// Places and the bytes that are put there, and the cause and the place of the fault then: the version, the length of the
/// name of the codec, the status, content, count of records and size of an entry, and the marker behind the entries.
const SPOILT: [(usize, u8, ManifestCause, usize); 8] = [
    (3, 2, ManifestCause::Container(ContainerCause::BadMagic), 0),
    (
        4598,
        b'm',
        ManifestCause::Container(ContainerCause::Codec),
        4597,
    ),
    (4622, 6, ManifestCause::BadField(0), 4622),
    (4753, 1, ManifestCause::BadField(0), 4753),
    (4760, 6, ManifestCause::BadField(134), 4753),
    (4807, 0xD1, ManifestCause::BadField(103), 4753),
    (4809, 0x81, ManifestCause::BadField(104), 4753),
    (
        4975,
        0,
        ManifestCause::Container(ContainerCause::BadSync),
        4960,
    ),
];

/// The cause and the place of what is wrong with the bytes.
fn fault(alloc: Global, bytes: &[u8]) -> Option<(ManifestCause, usize)> {
    match read_manifest(alloc, bytes, &unpartitioned(alloc)) {
        Err(ManifestErr::Bad { at, cause }) => Some((cause, at)),
        _ => None,
    }
}

#[test]
fn spoilt_manifests(rt: HostRuntime) -> Result<(), Fail> {
    for (place, byte, cause, at) in SPOILT {
        let mut bytes = Vec::from_slice(rt.alloc(), NULL_NUMBERS)?;
        if let Some(found) = bytes.get_mut(place) {
            *found = byte;
        }
        assert_eq!(rt; fault(rt.alloc(), bytes.as_slice()), Some((cause, at)));
    }
    Ok(())
}

/// Parts of the schema and what stands in their place, and the fault of the schema then.
const SCHEMAS: [(&[u8], &[u8], ManifestCause); 3] = [
    (
        b"\"field-id\":2}",
        b"\"field-id\":9}",
        ManifestCause::LacksField(2),
    ),
    (
        b"\"field-id\":101}",
        b"\"field-id\":901}",
        ManifestCause::LacksField(101),
    ),
    (
        b"\"string\",\"doc\":\"Loc",
        b"\"double\",\"doc\":\"Loc",
        ManifestCause::BadField(100),
    ),
];

/// The bytes of the manifest with one part put otherwise.
fn changed(alloc: Global, part: &[u8], other: &[u8]) -> Result<Vec<u8>, AllocError> {
    let mut bytes = Vec::new(alloc);
    let mut skipped = 0usize;
    for at in 0..NULL_NUMBERS.len() {
        if NULL_NUMBERS[at..].starts_with(part) {
            bytes.extend_from_slice(other)?;
            skipped = part.len();
        }
        if skipped == 0 {
            bytes.push(NULL_NUMBERS[at])?;
        } else {
            skipped -= 1;
        }
    }
    Ok(bytes)
}

#[test]
fn schemas_of_other_records(rt: HostRuntime) -> Result<(), Fail> {
    for (part, other, cause) in SCHEMAS {
        let bytes = changed(rt.alloc(), part, other)?;
        assert_eq!(rt; fault(rt.alloc(), bytes.as_slice()), Some((cause, 4)));
    }
    Ok(())
}
