//! Field summaries, read and written.

ghost use Rattle.std.specs.Prelude.{◌≡◌, [], ◌∷◌, IfOk, map};
ghost use Rattle.std.specs.Option.{option_copied, option_map};
ghost use Rattle.manifest_cells.specs.Cells.{Reads, Sets, record_cells, records_in, listed_as};
ghost use Rattle.manifest_cells.specs.Written.{optional, array_of};
ghost use Rattle.manifest_rows.specs.Rows.{summary_cells};
ghost use Rattle.manifest_rows.specs.Written.{summary_record};

use crate::row::{FieldSummary, FieldSummaryList};
use avro_datum::{Datum, DatumList};
use manifest_cells::{
    bool_of, fields_in, held, items_in, null, optional_bool, optional_bool_of, optional_bytes,
    optional_bytes_of, some,
};
use manifest_columns::PlaceList;
use sqlite_items::Items;
use std::alloc::{AllocError, Global};

fn summary(
    null: Option<&Datum>,
    lower: Option<&Datum>,
    upper: Option<&Datum>,
    nan: Option<&Datum>,
) -> Result<Option<FieldSummary>, AllocError>
    ensures { IfOk result (λ r. Reads summary_cells (option_copied null.entry ∷ option_copied lower.entry ∷ option_copied upper.entry ∷ option_copied nan.entry ∷ []) r) }
{
    let Some(contains_null) = bool_of(null) else {
        return Ok(None);
    };
    let Some(lower_bound) = optional_bytes_of(lower)? else {
        return Ok(None);
    };
    let Some(upper_bound) = optional_bytes_of(upper)? else {
        return Ok(None);
    };
    let Some(contains_nan) = optional_bool_of(nan) else {
        return Ok(None);
    };
    Ok(Some(FieldSummary {
        contains_null,
        contains_nan,
        lower_bound,
        upper_bound,
    }))
}

fn summary_of(item: &Datum, places: &[Option<usize>]) -> Result<Option<FieldSummary>, AllocError>
    ensures { IfOk result (λ r. Reads summary_cells (record_cells places.now item.now) r) }
{
    let fields = fields_in(item);
    match places {
        [null, lower, upper, nan] => summary(
            held(fields, *null),
            held(fields, *lower),
            held(fields, *upper),
            held(fields, *nan),
        ),
        _ => Ok(None),
    }
}

fn summaries_of(
    alloc: Global,
    items: &[Datum],
    places: &[Option<usize>],
) -> Result<Option<FieldSummaryList>, AllocError>
    ensures { IfOk result (λ r. Reads (map summary_cells) (map (record_cells places.now) items.now) r) }
{
    let mut summaries = Items::new(alloc);
    for item in items {
        let Some(summary) = summary_of(item, places)? else {
            return Ok(None);
        };
        summaries.push(summary)?;
    }
    Ok(Some(summaries))
}

fn summaries_in(
    alloc: Global,
    items: &[Datum],
    places: &PlaceList,
) -> Result<Option<FieldSummaryList>, AllocError>
    ensures { IfOk result (λ r. Reads (map summary_cells) (map (record_cells places.now) items.now) r) }
{
    summaries_of(alloc, items, places.as_slice())
}

/// The summaries that a list stands for, which may lack; `places` are those of 509, 510, 511 and 518 in its records.
#[tactic(auto, using(manifest_cells::proofs::Whole::no_records, manifest_cells::proofs::Whole::no_single))]
pub(crate) fn set_summaries(
    alloc: Global,
    found: Option<&Datum>,
    places: &PlaceList,
    to: &mut Option<FieldSummaryList>,
) -> Result<bool, AllocError>
    ensures { IfOk result (λ fits. Sets (listed_as summary_cells) (records_in places.now (option_copied found.entry)) fits to.new) }
{
    let Some(list) = found else {
        *to = None;
        return Ok(true);
    };
    let Some(items) = items_in(list) else {
        return Ok(false);
    };
    let Some(summaries) = summaries_in(alloc, items, places)? else {
        return Ok(false);
    };
    *to = Some(summaries);
    Ok(true)
}

fn summary_record(alloc: Global, summary: &FieldSummary) -> Result<Datum, AllocError>
    ensures { IfOk result (λ d. d ≡ summary_record summary.now) }
{
    let mut fields = Items::new(alloc);
    fields.push(Datum::Bool(summary.contains_null))?;
    fields.push(optional_bool(alloc, summary.contains_nan)?)?;
    fields.push(optional_bytes(alloc, &summary.lower_bound)?)?;
    fields.push(optional_bytes(alloc, &summary.upper_bound)?)?;
    Ok(Datum::Fields(fields))
}

fn summary_records(alloc: Global, summaries: &[FieldSummary]) -> Result<DatumList, AllocError>
    ensures { IfOk result (λ ds. ds ≡ map summary_record summaries.now) }
{
    let mut items = Items::new(alloc);
    for summary in summaries {
        items.push(summary_record(alloc, summary)?)?;
    }
    Ok(items)
}

/// The list that is written for summaries.
pub(crate) fn summary_list(
    alloc: Global,
    summaries: &Option<FieldSummaryList>,
) -> Result<Datum, AllocError>
    ensures { IfOk result (λ d. d ≡ optional (option_map (array_of summary_record) summaries.now)) }
{
    match summaries {
        None => null(alloc),
        Some(summaries) => {
            let items = summary_records(alloc, summaries.as_slice())?;
            some(alloc, Datum::List(items))
        }
    }
}
