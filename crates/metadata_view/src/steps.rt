//! Whether a walk of parents comes back. Following n steps at once takes few passes over a table of steps: the table
//! of two steps comes from that of one, the table of four from that of two, and so on.
ghost use Rattle.std.specs.Prelude.{◌≡◌, map, length, IfOk};
ghost use Rattle.metadata_view.specs.Index.{IsIndex};
ghost use Rattle.metadata_view.specs.Steps.{step_from, steps_from, parents_among, first_some};
ghost use Rattle.metadata_view.specs.Walk.{first_return};

use crate::index::{Index, place_of};
use crate::types::Snapshot;
use std::alloc::{AllocError, Global};

fn step_from(steps: &[Option<usize>], from: Option<usize>) -> Option<usize>
    ensures { result ≡ step_from steps.now from }
{
    match from {
        Some(i) => if i < steps.len() { steps[i] } else { None },
        None => None,
    }
}

// One more step from each of these places.
fn steps_on(
    alloc: Global,
    steps: &[Option<usize>],
    places: &[Option<usize>],
) -> Result<Vec<Option<usize>>, AllocError>
    ensures { IfOk result (λ v. v.items ≡ map (step_from steps.now) places.now) }
{
    let mut found = Vec::with_capacity(alloc, places.len())?;
    for place in places {
        found.push(step_from(steps, *place))?;
    }
    Ok(found)
}

// n steps from each place to which the table leads: by its lowest bit, and then by its other bits over the table of
// two steps.
fn steps_of(
    alloc: Global,
    table: Vec<Option<usize>>,
    n: usize,
) -> Result<Vec<Option<usize>>, AllocError>
    ensures { IfOk result (λ v. v.items ≡ map (steps_from table.items n) table.items) }
{
    let mut places = steps_copy(alloc, &table)?;
    let mut steps = table;
    let mut left = n;
    while left > 0 {
        if left % 2 == 1 {
            places = steps_on(alloc, &steps, &places)?;
        }
        steps = steps_on(alloc, &steps, &steps)?;
        left /= 2;
    }
    Ok(places)
}

fn steps_copy(alloc: Global, steps: &[Option<usize>]) -> Result<Vec<Option<usize>>, AllocError>
    ensures { IfOk result (λ v. v.items ≡ steps.now) }
{
    steps.to_vec(alloc)
}

fn parents(
    alloc: Global,
    snapshots: &[Snapshot],
    index: &Index,
) -> Result<Vec<Option<usize>>, AllocError>
    requires { IsIndex index.now snapshots.now }
    ensures { IfOk result (λ v. v.items ≡ parents_among snapshots.now snapshots.now) }
{
    let mut found = Vec::with_capacity(alloc, snapshots.len())?;
    for snapshot in snapshots {
        found.push(place_of(index, snapshots, snapshot.parent))?;
    }
    Ok(found)
}

fn first_some(places: &[Option<usize>]) -> Option<usize>
    ensures { result ≡ first_some 0 places.now }
{
    for (i, place) in places.iter().enumerate() {
        if place.is_some() {
            return Some(i);
        }
    }
    None
}

/// The place of the first snapshot whose walk comes back.
pub(crate) fn first_return(
    alloc: Global,
    snapshots: &[Snapshot],
    index: &Index,
) -> Result<Option<usize>, AllocError>
    requires { IsIndex index.now snapshots.now }
    ensures { IfOk result (λ o. o ≡ first_return snapshots.now 0 snapshots.now) }
{
    let table = parents(alloc, snapshots, index)?;
    let ends = steps_of(alloc, table, snapshots.len())?;
    Ok(first_some(&ends))
}
