//! What a file holds, read and written.

ghost use Rattle.std.specs.Prelude.{◌≡◌, Some};
ghost use Rattle.std.specs.Option.{option_copied};
ghost use Rattle.avro_datum.specs.declared.datum.Datum.TheVariants.{Int as of_int};
ghost use Rattle.manifest_cells.specs.Cells.{SetsValue};
ghost use Rattle.manifest_files.specs.Files.{file_content_number};

use crate::file::Content;
use avro_datum::Datum;

/// What a file holds: 0 rows, 1 position deletes, 2 equality deletes.
pub(crate) fn set_file_content(found: Option<&Datum>, to: &mut Content) -> bool
    ensures { SetsValue (λ x. Some (of_int (file_content_number x))) (option_copied found.entry) result to.new }
{
    match found {
        Some(Datum::Int(0)) => {
            *to = Content::Rows;
            true
        }
        Some(Datum::Int(1)) => {
            *to = Content::Positions;
            true
        }
        Some(Datum::Int(2)) => {
            *to = Content::Equalities;
            true
        }
        _ => false,
    }
}

/// The number of what a file holds.
pub(crate) fn file_content(content: Content) -> Datum
    ensures { result ≡ of_int (file_content_number content) }
{
    Datum::Int(match content {
        Content::Rows => 0,
        Content::Positions => 1,
        Content::Equalities => 2,
    })
}
