//! Manifests read.

ghost use Rattle.std.specs.Prelude.{◌≡◌, length, IfOk};
ghost use Rattle.avro_schema.specs.declared.schema.Schema.{out-Schema};
ghost use Rattle.manifest_columns.specs.Faults.{record_under};
ghost use Rattle.manifest_columns.specs.Places.{schema_of};
ghost use Rattle.manifest_columns.specs.Shapes.{fields_of};
ghost use Rattle.manifest_columns.specs.Slots.{known_fields};
ghost use Rattle.manifest_columns.specs.declared.faults.Fault.TheVariants.{Lacks as lacks, Bad as bad};
ghost use Rattle.manifest_codec.specs.Faults.{OnFault};
ghost use Rattle.manifest_codec.specs.Objects.{objects_from, IsWithin};
ghost use Rattle.manifest_codec.specs.Schemas.{file_at, FieldsAre};
ghost use Rattle.manifest_codec.specs.Spelling.{ManifestsAreSpelled};
ghost use Rattle.manifest_codec.specs.Whole.{SpelledManifestsAreRead};
ghost use Rattle.manifest_codec.specs.Manifests.{GivesEntries, GivesEntry, GivesManifest, NoManifest, checked_entry, entry_fault, file_record, manifest_fault, manifest_slots, part_record};

use crate::container::Container;
use crate::fault::{ManifestCause, ManifestErr};
use crate::keys::with_keys;
use crate::manifest::{EntryList, Manifest};
use crate::objects::{Progress, first_place, next_object};
use crate::schemas::{at_schema, fields_fault, open};
use avro_datum::Datum;
use avro_schema::{Field, Schema};
use ice_schema::PartType;
use manifest_cells::{FieldErr, fields_in};
use manifest_columns::{
    Fault, data_file_columns, entry_columns, fields_of, least_fault, schema_of, smaller,
};
use manifest_entries::{Entry, EntrySlots, entry_of, entry_slots};
use manifest_parts::{part_fault, part_slots};
use sqlite_items::Items;
use std::alloc::{AllocError, Global};

// The fields of the record under an id, none where it is no record.
fn record_under(fields: &[Field], id: i32) -> &[Field]
    ensures { result.now ≡ known_fields (record_under (schema_of id fields.now)) }
{
    let found = match schema_of(fields, id) {
        None => None,
        Some(schema) => fields_of(schema),
    };
    match found {
        None => &[],
        Some(fields) => fields,
    }
}

// The fields of an entry's data file.
fn file_record(fields: &[Field]) -> &[Field]
    ensures { result.now ≡ file_record fields.now }
{
    record_under(fields, 2)
}

// The fields of its partition.
fn part_record(fields: &[Field]) -> &[Field]
    ensures { result.now ≡ part_record fields.now }
{
    record_under(file_record(fields), 102)
}

// The smallest id of the columns of an entry and of its data file that has the fault.
fn entry_fault(fault: Fault, fields: &[Field]) -> Option<i32>
    ensures { result ≡ entry_fault fault fields.now }
{
    smaller(
        least_fault(fault, &entry_columns(), fields),
        least_fault(fault, &data_file_columns(), file_record(fields)),
    )
}

// What is wrong with the fields of an entry.
fn manifest_fault(
    alloc: Global,
    part: &PartType,
    fields: &[Field],
) -> Result<Option<ManifestCause>, AllocError>
    ensures { IfOk result (λ cause. cause ≡ manifest_fault part.now.fields fields.now) }
{
    let lacks = entry_fault(Fault::Lacks, fields);
    let bad = smaller(
        entry_fault(Fault::Bad, fields),
        part_fault(alloc, part_record(fields), part)?,
    );
    Ok(fields_fault(lacks, bad))
}

// The fields of a schema that is a record with the columns of an entry and the fields of the partition type.
fn checked_entry<'a>(
    alloc: Global,
    part: &PartType,
    schema: &'a Schema,
) -> Result<&'a [Field], ManifestErr>
    ensures { FieldsAre (checked_entry part.now.fields (fields_of (out-Schema schema.now))) result }
{
    let Some(fields) = fields_of(schema) else {
        return Err(at_schema(ManifestCause::BadSchema));
    };
    match manifest_fault(alloc, part, fields)? {
        None => Ok(fields),
        Some(cause) => Err(at_schema(cause)),
    }
}

// Where records with these fields have those of an entry, once for a file.
fn slots_in(alloc: Global, part: &PartType, fields: &[Field]) -> Result<EntrySlots, AllocError>
    ensures slots { IfOk result (λ slots. slots ≡ manifest_slots part.now.fields fields.now) }
    ensures width { IfOk result (λ slots. length slots.file ≡ 17) }
{
    let parts = part_slots(alloc, part_record(fields), part)?;
    entry_slots(alloc, fields, file_record(fields), parts)
}

// The entry that an object stands for.
fn entry_in(
    alloc: Global,
    slots: &EntrySlots,
    datum: &Datum,
    at: usize,
) -> Result<Entry, ManifestErr>
    requires { length slots.now.file ≡ 17 }
    ensures { GivesEntry slots.now at datum.now result }
{
    match entry_of(alloc, slots, fields_in(datum), at) {
        Ok(entry) => Ok(entry),
        Err(FieldErr::Memory) => Err(ManifestErr::Memory),
        Err(FieldErr::BadField(id)) => {
            Err(ManifestErr::Bad {
                at,
                cause: ManifestCause::BadField(id),
            })
        }
    }
}

// The entries from a place on.
#[tactic(auto, using(crate::proofs::OfEntries::one_entry))]
fn entries_from(
    alloc: Global,
    file: &Container,
    slots: &EntrySlots,
    bytes: &[u8],
    mut place: Progress,
) -> Result<EntryList, ManifestErr>
    requires width { length slots.now.file ≡ 17 }
    requires within { IsWithin bytes.now place }
    ensures { GivesEntries slots.now (objects_from file.now bytes.now place) result }
{
    let mut entries = Items::new(alloc);
    while let Some((at, datum)) = next_object(alloc, file, bytes, &mut place)? {
        entries.push(entry_in(alloc, slots, &datum, at)?)?;
    }
    Ok(entries)
}

/// The entries of a manifest, each with the place where it begins, in order, and its keys. Partitions are read as values of
/// the partition type.
pub fn read_manifest(alloc: Global, bytes: &[u8], part: &PartType) -> Result<Manifest, ManifestErr>
    // Exactly the entries and keys of the file, or its first fault.
    ensures exact { GivesManifest part.now.fields (file_at (checked_entry part.now.fields) bytes.now) result }
    // A fault comes only where the bytes are no manifest under this partition type.
    ensures none { OnFault result (NoManifest part.now.fields bytes.now) }
{
    let file = open(alloc, bytes)?;
    let fields = checked_entry(alloc, part, &file.schema)?;
    let slots = slots_in(alloc, part, fields)?;
    let place = first_place(bytes, file.header.end);
    let entries = entries_from(alloc, &file, &slots, bytes, place)?;
    let manifest = with_keys(alloc, &file.header.meta, entries)?;
    Ok(manifest)
}

/// What is read as a manifest is spelled as one: a header whose schema is a record with the columns of an entry and whose
/// metadata has the keys, and blocks of records that stand for the entries.
#[tactic(auto, using(crate::proofs::Spelled::manifests_spelled))]
pub fn manifests_are_spelled()
    ensures { ManifestsAreSpelled }
{}

/// What spells a manifest is read as that manifest, each entry with the place where it begins.
pub fn spelled_manifests_are_read()
    ensures { SpelledManifestsAreRead }
{}
