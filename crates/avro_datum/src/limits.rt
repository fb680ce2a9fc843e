//! Limits on values.

ghost use Rattle.std.specs.Prelude.{◌≡◌};
ghost use Rattle.avro_datum.specs.Spelling.{most_items};

/// How many items an array or a map has at most.
#[inline(always)]
pub(crate) fn most_items() -> u64
    ensures { result ≡ most_items }
{
    16777216
}
