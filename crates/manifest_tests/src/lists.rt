//! Manifest lists as files.

ghost use Rattle.std.specs.Prelude.{IfOk};
ghost use Rattle.manifest_writing.specs.Lists.{IsWritable};

use avro_schema::Text;
use manifest_codec::{
    ManifestCause, ManifestErr, lists_are_spelled, read_list, spelled_lists_are_read,
};
use manifest_rows::ManifestRow;
use manifest_writing::write_list;
use std::alloc::{AllocError, Global};
use std::process::Abort;
use std::test::Fail;

/// A list of two equal rows of deletes: /m, 7 bytes, spec 1, sequences 4 and 3, snapshot 9, one new file with two rows. The
/// bytes were written by a Python program, after the Avro specification.
const TWO_ROWS: &[u8] =
    b"Obj\x01\x04\x14avro.codec\x08null\x16avro.schema\xc6\x14{\"fields\":[{\"field-id\":500,\"name\":\"manifest_pat\
    h\",\"type\":\"string\"},{\"field-id\":501,\"name\":\"manifest_length\",\"type\":\"long\"},{\"field-id\":502,\
    \"name\":\"partition_spec_id\",\"type\":\"int\"},{\"field-id\":517,\"name\":\"content\",\"type\":\"int\"},{\"f\
    ield-id\":515,\"name\":\"sequence_number\",\"type\":\"long\"},{\"field-id\":516,\"name\":\"min_sequence_number\
    \",\"type\":\"long\"},{\"field-id\":503,\"name\":\"added_snapshot_id\",\"type\":\"long\"},{\"field-id\":504,\"\
    name\":\"added_files_count\",\"type\":\"int\"},{\"field-id\":505,\"name\":\"existing_files_count\",\"type\":\"\
    int\"},{\"field-id\":506,\"name\":\"deleted_files_count\",\"type\":\"int\"},{\"field-id\":512,\"name\":\"added\
    _rows_count\",\"type\":\"long\"},{\"field-id\":513,\"name\":\"existing_rows_count\",\"type\":\"long\"},{\"fiel\
    d-id\":514,\"name\":\"deleted_rows_count\",\"type\":\"long\"},{\"default\":null,\"field-id\":507,\"name\":\"pa\
    rtitions\",\"type\":[\"null\",{\"element-id\":508,\"items\":{\"fields\":[{\"field-id\":509,\"name\":\"contains\
    _null\",\"type\":\"boolean\"},{\"default\":null,\"field-id\":518,\"name\":\"contains_nan\",\"type\":[\"null\",\
    \"boolean\"]},{\"default\":null,\"field-id\":510,\"name\":\"lower_bound\",\"type\":[\"null\",\"bytes\"]},{\"de\
    fault\":null,\"field-id\":511,\"name\":\"upper_bound\",\"type\":[\"null\",\"bytes\"]}],\"name\":\"r508\",\"typ\
    e\":\"record\"},\"type\":\"array\"}]},{\"default\":null,\"field-id\":519,\"name\":\"key_metadata\",\"type\":[\
    \"null\",\"bytes\"]}],\"name\":\"manifest_file\",\"type\":\"record\"}\x00\x00\x01\x02\x03\x04\x05\x06\x07\x08\
    \x09\x0a\x0b\x0c\x0d\x0e\x0f\x04D\x04/m\x0e\x02\x02\x08\x06\x12\x02\x00\x00\x04\x00\x00\x00\x00\x04/m\x0e\x02\
    \x02\x08\x06\x12\x02\x00\x00\x04\x00\x00\x00\x00\x00\x01\x02\x03\x04\x05\x06\x07\x08\x09\x0a\x0b\x0c\x0d\x0e\
    \x0f";

#[test]
fn rows_of_a_list(rt: HostRuntime) -> Result<(), Fail> {
    lists_are_spelled();
    spelled_lists_are_read();
    let rows = read_list(rt.alloc(), TWO_ROWS)?;
    let there = match rows.as_slice() {
        [a, b] => a.at == 1369 && b.at == 1386 && a.manifest_path.as_str() == "/m" && b.is_deletes,
        _ => false,
    };
    assert!(rt; there);
    Ok(())
}

#[test]
fn a_list_that_is_cut(rt: HostRuntime) -> Result<(), Fail> {
    let cut = &TWO_ROWS[..TWO_ROWS.len() - 1];
    let at = match read_list(rt.alloc(), cut) {
        Err(
            ManifestErr::Bad {
                at,
                cause: ManifestCause::Container(_),
            },
        ) => at,
        _ => 0,
    };
    assert_eq!(rt; at, 1418);
    Ok(())
}

/// A row of that list, which begins elsewhere.
fn row_of_deletes(alloc: Global) -> Result<ManifestRow, AllocError>
    ensures { IfOk result IsWritable }
{
    Ok(ManifestRow {
        manifest_path: Text::new(String::from_str(alloc, "/m")?),
        manifest_length: 7,
        partition_spec_id: 1,
        is_deletes: true,
        sequence_number: 4,
        min_sequence_number: 3,
        added_snapshot_id: 9,
        added_files_count: 1,
        existing_files_count: 0,
        deleted_files_count: 0,
        added_rows_count: 2,
        existing_rows_count: 0,
        deleted_rows_count: 0,
        partitions: None,
        key_metadata: None,
        at: 5,
    })
}

#[test]
fn a_list_is_written(rt: HostRuntime) -> Result<(), Fail> {
    let rows = [row_of_deletes(rt.alloc())?, row_of_deletes(rt.alloc())?];
    let sync = [0, 1, 2, 3, 4, 5, 6, 7, 8, 9, 10, 11, 12, 13, 14, 15];
    let written = write_list(rt.alloc(), &rows, &sync)?;
    assert!(rt; written.inner().as_slice() == TWO_ROWS);
    Ok(())
}
