//! Partitions.

ghost use Rattle.std.specs.Prelude.{◌≡◌, Some, IfOk, map, if◌then◌else◌};
ghost use Rattle.std.specs.Option.{option_copied};
ghost use Rattle.avro_datum.specs.declared.datum.Datum.{out-Datum};
ghost use Rattle.avro_datum.specs.declared.datum.Datum.TheVariants.{Int as of_int, Long as of_long};
ghost use Rattle.manifest_cells.specs.Cells.{SetsValue};
ghost use Rattle.manifest_files.specs.Partitions.{all_there, scalar, part_value, part_in, partition_of, partition_in, written_scalar, written_value, written_partition};

use avro_datum::{Datum, DatumList};
use manifest_cells::{fields_in, held, null, some};
use sqlite_items::Items;
use std::alloc::{AllocError, Global};

/// Where the partition records of a file have a field of the partition type, and how its values count.
#[derive(Debug, Drop)]
pub struct PartSlot {
    pub place: Option<usize>,
    /// Whether the field's transform is void: each value counts as null.
    pub is_void: bool,
    /// Whether the field's type is long: an int is taken as the long.
    pub is_long: bool,
}

/// Slots of the fields of a partition type, in their order.
pub type PartSlotList = Items<PartSlot>;

fn widened(is_long: bool, n: i32) -> Datum
    ensures { result ≡ (if is_long then of_long n else of_int n) }
{
    if is_long {
        Datum::Long(i64::from(n))
    } else {
        Datum::Int(n)
    }
}

/// A value of a partition, none where it is a list, a map, a record or a union.
fn scalar(is_long: bool, value: &Datum) -> Result<Option<Datum>, AllocError>
    ensures { IfOk result (λ r. r ≡ scalar is_long value.now (out-Datum value.now)) }
{
    Ok(Some(match value {
        Datum::Null => Datum::Null,
        Datum::Bool(b) => Datum::Bool(*b),
        Datum::Int(n) => widened(is_long, *n),
        Datum::Long(n) => Datum::Long(*n),
        Datum::Float4(bytes) => Datum::Float4(*bytes),
        Datum::Float8(bytes) => Datum::Float8(*bytes),
        Datum::Blob(bytes) => Datum::Blob(bytes.copy()?),
        Datum::Str(text) => Datum::Str(text.copy()?),
        Datum::Fix(bytes) => Datum::Fix(bytes.copy()?),
        Datum::Choice(n) => Datum::Choice(*n),
        Datum::List(_) | Datum::Pairs(_) | Datum::Fields(_) | Datum::Branch(_, _) => {
            return Ok(None);
        }
    }))
}

fn part_value(slot: &PartSlot, found: Option<&Datum>) -> Result<Option<Datum>, AllocError>
    ensures { IfOk result (λ r. r ≡ part_value slot.now (option_copied found.entry)) }
{
    match found {
        None => Ok(Some(Datum::Null)),
        Some(value) => {
            if slot.is_void {
                Ok(Some(Datum::Null))
            } else {
                let value = scalar(slot.is_long, value)?;
                Ok(value)
            }
        }
    }
}

fn part_in(fields: &[Datum], slot: &PartSlot) -> Result<Option<Datum>, AllocError>
    ensures { IfOk result (λ r. r ≡ part_in fields.now slot.now) }
{
    part_value(slot, held(fields, slot.place))
}

fn part_values(
    alloc: Global,
    fields: &[Datum],
    slots: &[PartSlot],
) -> Result<Option<DatumList>, AllocError>
    ensures { IfOk result (λ r. r ≡ all_there (map (part_in fields.now) slots.now)) }
{
    let mut values = Items::new(alloc);
    for slot in slots {
        let Some(value) = part_in(fields, slot)? else {
            return Ok(None);
        };
        values.push(value)?;
    }
    Ok(Some(values))
}

fn partition_of(
    alloc: Global,
    datum: &Datum,
    slots: &[PartSlot],
) -> Result<Option<Datum>, AllocError>
    ensures { IfOk result (λ r. r ≡ partition_of slots.now (out-Datum datum.now)) }
{
    match datum {
        Datum::Fields(fields) => {
            let Some(values) = part_values(alloc, fields.as_slice(), slots)? else {
                return Ok(None);
            };
            Ok(Some(Datum::Fields(values)))
        }
        _ => Ok(None),
    }
}

/// The values of the partition type's fields.
pub(crate) fn set_partition(
    alloc: Global,
    found: Option<&Datum>,
    slots: &[PartSlot],
    to: &mut Datum,
) -> Result<bool, AllocError>
    ensures { IfOk result (λ fits. SetsValue (λ x. Some x) (partition_in slots.now (option_copied found.entry)) fits to.new) }
{
    let Some(datum) = found else {
        return Ok(false);
    };
    let Some(partition) = partition_of(alloc, datum, slots)? else {
        return Ok(false);
    };
    *to = partition;
    Ok(true)
}

fn written_scalar(value: Option<Datum>) -> Option<Datum>
    ensures { result ≡ written_scalar value }
{
    match value {
        None => None,
        Some(Datum::Null) => None,
        Some(other) => Some(other),
    }
}

fn written_value(alloc: Global, value: &Datum) -> Result<Datum, AllocError>
    ensures { IfOk result (λ d. d ≡ written_value value.now) }
{
    match written_scalar(scalar(false, value)?) {
        None => null(alloc),
        Some(value) => some(alloc, value),
    }
}

fn written_values(alloc: Global, values: &[Datum]) -> Result<DatumList, AllocError>
    ensures { IfOk result (λ ds. ds ≡ map written_value values.now) }
{
    let mut items = Items::new(alloc);
    for value in values {
        items.push(written_value(alloc, value)?)?;
    }
    Ok(items)
}

/// The record that is written for a partition.
pub(crate) fn written_partition(alloc: Global, partition: &Datum) -> Result<Datum, AllocError>
    ensures { IfOk result (λ d. d ≡ written_partition partition.now) }
{
    Ok(Datum::Fields(written_values(alloc, fields_in(partition))?))
}
