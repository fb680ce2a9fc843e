//! The reports of the ref procedures (after Iceberg's Spark procedures).
ghost use Rattle.std.specs.Prelude.{◌≡◌, ◌∷◌, [], map, IfOk};
ghost use Rattle.run_refs.specs.Reports.{ancestor_row, branch_columns, move_report, list_report, ref_row, snapshot_columns};
ghost use Rattle.run_answers.specs.Reports.{report_text};

use crate::ancestors::Ancestor;
use crate::goal::Goal;
use ice_store::{Items, Text, TextList};
use run_answers::{CellRows, columns, id_cell, number_cell, optional_id_cell, report};
use std::alloc::{AllocError, Global};

fn ref_row(alloc: Global, previous: Option<i64>, id: i64) -> Result<Vec<Text>, AllocError>
    ensures { IfOk result (λ row. row.items ≡ ref_row previous id) }
{
    let mut row = Vec::new(alloc);
    row.push(optional_id_cell(alloc, previous)?)?;
    row.push(id_cell(alloc, id)?)?;
    Ok(row)
}

fn branch_row(
    alloc: Global,
    branch: &Text,
    previous: Option<i64>,
    id: i64,
) -> Result<Vec<Text>, AllocError>
    ensures { IfOk result (λ row. row.items ≡ branch.now ∷ ref_row previous id) }
{
    let mut row = Vec::new(alloc);
    row.push(branch.copy()?)?;
    row.push(optional_id_cell(alloc, previous)?)?;
    row.push(id_cell(alloc, id)?)?;
    Ok(row)
}

fn one_row(alloc: Global, names: &[&str], row: Vec<Text>) -> Result<Text, AllocError>
    ensures { IfOk result (λ text. text ≡ report_text (map (λ name. name.now) names.now) (row.items ∷ [])) }
{
    let names = columns(alloc, names)?;
    let mut rows = Items::empty(alloc);
    rows.push(Items::new(row))?;
    report(alloc, &names, &rows)
}

fn report_snapshots(alloc: Global, previous: Option<i64>, id: i64) -> Result<Text, AllocError>
    ensures { IfOk result (λ text. text ≡ report_text snapshot_columns (ref_row previous id ∷ [])) }
{
    let row = ref_row(alloc, previous, id)?;
    one_row(alloc, &["previous_snapshot_id", "current_snapshot_id"], row)
}

fn report_branch(
    alloc: Global,
    branch: &Text,
    previous: Option<i64>,
    id: i64,
) -> Result<Text, AllocError>
    ensures { IfOk result (λ text. text ≡ report_text branch_columns ((branch.now ∷ ref_row previous id) ∷ [])) }
{
    let row = branch_row(alloc, branch, previous, id)?;
    one_row(
        alloc,
        &["branch_updated", "previous_ref", "updated_ref"],
        row,
    )
}

/// Where a ref was and where it is now; of a branch with its name.
pub(crate) fn report_move(
    alloc: Global,
    goal: &Goal,
    previous: Option<i64>,
    id: i64,
) -> Result<Text, AllocError>
    ensures { IfOk result (λ text. text ≡ move_report goal.now previous id) }
{
    match goal {
        Goal::FastForward { branch, .. } => report_branch(alloc, branch, previous, id),
        _ => report_snapshots(alloc, previous, id),
    }
}

fn ancestor_row(alloc: Global, ancestor: &Ancestor) -> Result<TextList, AllocError>
    ensures { IfOk result (λ row. row ≡ ancestor_row ancestor.now) }
{
    let mut row = Vec::new(alloc);
    row.push(id_cell(alloc, ancestor.id)?)?;
    row.push(number_cell(alloc, ancestor.ms)?)?;
    Ok(Items::new(row))
}

fn ancestor_rows(alloc: Global, ancestors: &[Ancestor]) -> Result<CellRows, AllocError>
    ensures { IfOk result (λ rows. rows ≡ map ancestor_row ancestors.now) }
{
    let mut rows = Items::empty(alloc);
    for ancestor in ancestors {
        rows.push(ancestor_row(alloc, ancestor)?)?;
    }
    Ok(rows)
}

/// Each snapshot of a walk with its moment.
pub fn report_ancestors(alloc: Global, ancestors: &[Ancestor]) -> Result<Text, AllocError>
    ensures { IfOk result (λ text. text ≡ list_report ancestors.now) }
{
    let names = columns(alloc, &["snapshot_id", "timestamp"])?;
    let rows = ancestor_rows(alloc, ancestors)?;
    report(alloc, &names, &rows)
}
