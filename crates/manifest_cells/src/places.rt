//! What stands in a place, and what lies within a value.

ghost use Rattle.std.specs.Prelude.{◌≡◌};
ghost use Rattle.std.specs.Option.{option_copied, option_map};
ghost use Rattle.avro_datum.specs.declared.datum.Datum.{out-Datum};
ghost use Rattle.manifest_cells.specs.Cells.{held, inside, not_null, fields_in, items_in};

use avro_datum::Datum;

fn not_null(inner: &Datum) -> Option<&Datum>
    ensures { option_copied result ≡ not_null inner.now (out-Datum inner.now) }
{
    match inner {
        Datum::Null => None,
        other => Some(other),
    }
}

fn inside(datum: &Datum) -> Option<&Datum>
    ensures { option_copied result ≡ inside datum.now (out-Datum datum.now) }
{
    match datum {
        Datum::Null => None,
        Datum::Branch(_, inner) => not_null(inner.get()),
        other => Some(other),
    }
}

/// What a record holds in a place: none where it has no such field, or null there.
#[tactic(auto, unfolding(crate::specs::Cells::plain))]
pub fn held(items: &[Datum], place: Option<usize>) -> Option<&Datum>
    ensures { option_copied result ≡ held items.now place }
{
    inside(items.get(place?)?)
}

/// The fields of a record, none of another value.
pub fn fields_in(datum: &Datum) -> &[Datum]
    ensures { result.now ≡ fields_in (out-Datum datum.now) }
{
    match datum {
        Datum::Fields(fields) => fields.as_slice(),
        _ => &[],
    }
}

/// The items of an array.
pub fn items_in(datum: &Datum) -> Option<&[Datum]>
    ensures { option_map (λ items. items.now) result ≡ items_in (out-Datum datum.now) }
{
    match datum {
        Datum::List(items) => Some(items.as_slice()),
        _ => None,
    }
}
