//! Manifest lists.

ghost use Rattle.std.specs.Prelude.{◌≡◌, ◌<◌, All, map, IfOk, OnOk, IsUtf8, IsSomeAnd, Some, codes};
ghost use Rattle.serde_json.specs.Read.{read};
ghost use Rattle.avro_container.specs.Container.{value_of};
ghost use Rattle.avro_schema.specs.Writing.{written_schema};
ghost use Rattle.manifest_writing.specs.Files.{Puts, PutsAll, schema_text};
ghost use Rattle.manifest_writing.specs.Laws.{IsSpelled, ReadRowsAreWritable, ReadsBack};
ghost use Rattle.manifest_writing.specs.Lists.{IntsFit, IsWritable, LongsFit, WritesList, list_meta, list_schema, row_bytes};

use crate::files::{key, schema_text};
use avro_container::{Bytes, MetaList};
use avro_datum::{Datum, encode};
use avro_schema::Schema;
use manifest_blocks::{Blocks, WriteErr, begin, count_object, finish};
use manifest_rows::{ManifestRow, row_fields, row_schema};
use std::alloc::{AllocError, Global};

// A law for proofs: the ints of a row are in the range of their type.
fn ints_fit(row: &ManifestRow)
    ensures { IntsFit row.now }
{
    let (_spec, _added) = (row.partition_spec_id, row.added_files_count);
    let (_existing, _deleted) = (row.existing_files_count, row.deleted_files_count);
}

// The same of its longs.
fn longs_fit(row: &ManifestRow)
    ensures { LongsFit row.now }
{
    let (_sequence, _least) = (row.sequence_number, row.min_sequence_number);
    let (_snapshot, _added) = (row.added_snapshot_id, row.added_rows_count);
    let (_existing, _deleted) = (row.existing_rows_count, row.deleted_rows_count);
}

// Puts a row into its block.
fn put_row(
    alloc: Global,
    schema: &Schema,
    row: &ManifestRow,
    sync: &[u8; 16],
    blocks: &mut Blocks,
) -> Result<(), WriteErr>
    requires schema { schema.now ≡ list_schema }
    requires row { IsWritable row.now }
    requires room { blocks.old.count < 64000 }
    ensures puts { Puts sync.now (row_bytes row.now) blocks.old blocks.new result }
    ensures room { OnOk result (blocks.new.count < 64000) }
    ensures spelled { OnOk result (IsSpelled row.now) }
{
    ints_fit(row);
    longs_fit(row);
    let record = Datum::Fields(row_fields(alloc, row)?);
    encode(schema, &record, &mut blocks.body)?;
    count_object(blocks, sync)
}

// Puts each row into its block.
fn put_rows(
    alloc: Global,
    schema: &Schema,
    rows: &[ManifestRow],
    sync: &[u8; 16],
    blocks: &mut Blocks,
) -> Result<(), WriteErr>
    requires schema { schema.now ≡ list_schema }
    requires rows { All IsWritable rows.now }
    requires room { blocks.old.count < 64000 }
    ensures puts { PutsAll sync.now (map row_bytes rows.now) blocks.old blocks.new result }
    ensures room { OnOk result (blocks.new.count < 64000) }
    ensures spelled { OnOk result (All IsSpelled rows.now) }
{
    for row in rows {
        put_row(alloc, schema, row, sync, blocks)?;
    }
    Ok(())
}

// The metadata of a list, whose text is read as the tree of the schema.
#[tactic(auto, using(crate::proofs::ReadBack::list_reads))]
fn list_meta(alloc: Global, schema: &Schema) -> Result<MetaList, AllocError>
    requires { schema.now ≡ list_schema }
    ensures meta { IfOk result (λ m. m ≡ list_meta) }
    ensures utf8 { IfOk result (λ m. IsSomeAnd (value_of (codes "avro.schema") m) IsUtf8) }
    ensures reads { OnOk result (read (schema_text list_schema) ≡ Some (written_schema list_schema)) }
{
    let mut pairs = Vec::new(alloc);
    pairs.push((key(alloc, "avro.schema")?, schema_text(alloc, schema)?))?;
    Ok(MetaList::new(pairs))
}

/// A manifest list of the rows, in order, with this marker behind its header and each of its blocks. Where a row begins in the
/// file that it was read from is not written.
pub fn write_list(alloc: Global, rows: &[ManifestRow], sync: &[u8; 16]) -> Result<Bytes, WriteErr>
    requires { All IsWritable rows.now }
    // The written spelling; `TooLarge` where one of its blocks would be.
    ensures written { WritesList rows.now sync.now result }
    // It is read as these rows, each with the place where it begins.
    ensures read_back { IfOk result (ReadsBack rows.now) }
{
    let schema = row_schema(alloc)?;
    let meta = list_meta(alloc, &schema)?;
    let mut blocks = begin(alloc, &meta, sync)?;
    put_rows(alloc, &schema, rows, sync, &mut blocks)?;
    finish(blocks, sync)
}

/// Rows that were read may be written: `write_list` takes what was read of a list.
pub fn read_rows_are_writable()
    ensures { ReadRowsAreWritable }
{}
