//! Reports: the line of the column names, and a line for each result row.
ghost use Rattle.std.specs.Prelude.{◌≡◌, ◌++◌, map, IfOk, OnOk};
ghost use Rattle.std.specs.List.{flat_map};
ghost use Rattle.std.specs.Fmt.{decimal, signed_decimal};
ghost use Rattle.run_answers.specs.Escapes.{escape, escaped};
ghost use Rattle.run_answers.specs.Reports.{behind_tab, cells_text, line, report_text, id_cell as cell_of};

use crate::escape::escape_of;
use ice_store::{Items, Text, TextList};
use itoa::Buffer;
use std::alloc::{AllocError, Global};

/// The rows of a report: a list of cells each.
pub type CellRows = Items<TextList>;

/// The text of a report: the line of the column names and one line for each row. Cells are separated by one tab, each
/// line ends with a line feed, and in each cell a backslash, a tab and a line feed are written as escapes.
pub fn report(alloc: Global, columns: &TextList, rows: &CellRows) -> Result<Text, AllocError>
    ensures { IfOk result (λ text. text ≡ report_text columns.now rows.now) }
{
    let mut out = Vec::new(alloc);
    push_line(&mut out, columns)?;
    push_lines(&mut out, rows.inner())?;
    Ok(Text::new(out))
}

/// The column names of a report.
pub fn columns(alloc: Global, names: &[&str]) -> Result<TextList, AllocError>
    ensures { IfOk result (λ columns. columns ≡ map (λ name. name.now) names.now) }
{
    let mut columns = Items::empty(alloc);
    for name in names {
        columns.push(Text::copy_of(alloc, name.as_bytes())?)?;
    }
    Ok(columns)
}

/// The cell of a snapshot's id.
pub fn id_cell(alloc: Global, id: i64) -> Result<Text, AllocError>
    ensures { IfOk result (λ cell. cell ≡ signed_decimal id) }
{
    Text::copy_of(alloc, Buffer::new().format(id).as_bytes())
}

/// The cell of an id that may lack, which is `null` then.
pub fn optional_id_cell(alloc: Global, id: Option<i64>) -> Result<Text, AllocError>
    ensures { IfOk result (λ cell. cell ≡ cell_of id) }
{
    match id {
        Some(id) => id_cell(alloc, id),
        None => Text::copy_of(alloc, b"null"),
    }
}

/// The cell of a count, or of a moment in milliseconds since 1970 UTC.
pub fn number_cell(alloc: Global, number: u64) -> Result<Text, AllocError>
    ensures { IfOk result (λ cell. cell ≡ decimal number) }
{
    Text::copy_of(alloc, Buffer::new().format(number).as_bytes())
}

fn push_lines(out: &mut Vec<u8>, rows: &[TextList]) -> Result<(), AllocError>
    ensures { OnOk result (out.new.items ≡ out.old.items ++ flat_map line rows.now) }
{
    for row in rows {
        push_line(out, row)?;
    }
    Ok(())
}

#[tactic(auto, unfolding(crate::specs::Reports::line))]
fn push_line(out: &mut Vec<u8>, cells: &TextList) -> Result<(), AllocError>
    ensures { OnOk result (out.new.items ≡ out.old.items ++ line cells.now) }
{
    push_cells(out, cells.inner())?;
    out.push(b'\n')?;
    Ok(())
}

#[tactic(auto, unfolding(crate::specs::Reports::cells_text))]
fn push_cells(out: &mut Vec<u8>, cells: &[Text]) -> Result<(), AllocError>
    ensures { OnOk result (out.new.items ≡ out.old.items ++ cells_text cells.now) }
{
    match cells {
        [] => Ok(()),
        [first, rest @ ..] => {
            push_escaped(out, first.inner())?;
            push_rest(out, rest)
        }
    }
}

fn push_rest(out: &mut Vec<u8>, cells: &[Text]) -> Result<(), AllocError>
    ensures { OnOk result (out.new.items ≡ out.old.items ++ flat_map behind_tab cells.now) }
{
    for cell in cells {
        push_behind_tab(out, cell)?;
    }
    Ok(())
}

fn push_behind_tab(out: &mut Vec<u8>, cell: &Text) -> Result<(), AllocError>
    ensures { OnOk result (out.new.items ≡ out.old.items ++ behind_tab cell.now) }
{
    out.push(b'\t')?;
    push_escaped(out, cell.inner())
}

#[tactic(auto, unfolding(crate::specs::Escapes::escaped))]
fn push_escaped(out: &mut Vec<u8>, text: &[u8]) -> Result<(), AllocError>
    ensures { OnOk result (out.new.items ≡ out.old.items ++ escaped text.now) }
{
    for byte in text {
        push_byte(out, *byte)?;
    }
    Ok(())
}

fn push_byte(out: &mut Vec<u8>, byte: u8) -> Result<(), AllocError>
    ensures { OnOk result (out.new.items ≡ out.old.items ++ escape byte) }
{
    match escape_of(byte) {
        Some(written) => out.extend_from_slice(written)?,
        None => out.push(byte)?,
    }
    Ok(())
}
