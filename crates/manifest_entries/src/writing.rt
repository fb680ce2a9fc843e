//! The record of an entry.

ghost use Rattle.std.specs.Prelude.{◌≡◌, IfOk};
ghost use Rattle.avro_datum.specs.declared.datum.Datum.TheVariants.{Int as of_int};
ghost use Rattle.manifest_files.specs.Files.{CountsFit};
ghost use Rattle.manifest_entries.specs.Entries.{status_number};
ghost use Rattle.manifest_entries.specs.Written.{entry_fields, EntriesAreReadBack};

use crate::entry::{Entry, EntryStatus};
use avro_datum::{Datum, DatumList};
use manifest_cells::optional_long;
use manifest_files::file_fields;
use sqlite_items::Items;
use std::alloc::{AllocError, Global};

fn status(status: EntryStatus) -> Datum
    ensures { result ≡ of_int (status_number status) }
{
    Datum::Int(match status {
        EntryStatus::Existing => 0,
        EntryStatus::Added => 1,
        EntryStatus::Deleted => 2,
    })
}

/// The fields of an entry's record, in the order in which they are written. A number that lacks is written as null.
pub fn entry_fields(alloc: Global, entry: &Entry) -> Result<DatumList, AllocError>
    requires { CountsFit entry.now.data_file }
    ensures { IfOk result (λ ds. ds ≡ entry_fields entry.now) }
{
    let mut items = Items::new(alloc);
    items.push(status(entry.status))?;
    items.push(optional_long(alloc, entry.snapshot_id)?)?;
    items.push(optional_long(alloc, entry.sequence_number)?)?;
    items.push(optional_long(alloc, entry.file_sequence_number)?)?;
    items.push(Datum::Fields(file_fields(alloc, &entry.data_file)?))?;
    Ok(items)
}

/// The record of an entry that was read, under the written schema, stands for that entry.
pub fn entries_are_read_back()
    ensures { EntriesAreReadBack }
{}
