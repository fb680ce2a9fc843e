// Logical types.
ghost use Rattle.std.specs.Prelude.{◌≡◌};
ghost use Rattle.serde_json.specs.View.{view};
ghost use Rattle.avro_schema.specs.Logical.{has_logical, int_logical, long_logical, decimal_of, bytes_logical, string_logical, fixed_logical};

use crate::attribute::{flag_at, text_at, u32_of};
use crate::schema::Logical;
use serde_json::Value;

#[tactic(auto, unfolding(crate::specs::Logical::has_logical))]
pub(crate) fn has_logical(tree: &Value, word: &str) -> bool
    ensures { result ≡ has_logical word.now (view tree.now) }
{
    match text_at(tree, "logicalType") {
        Some(found) => found == word,
        None => false,
    }
}

#[tactic(auto, unfolding(crate::specs::Logical::int_logical))]
pub(crate) fn int_logical(tree: &Value) -> Logical
    ensures { result ≡ int_logical (view tree.now) }
{
    if has_logical(tree, "date") {
        Logical::Date
    } else {
        Logical::Plain
    }
}

#[tactic(auto, unfolding(crate::specs::Logical::long_logical))]
pub(crate) fn long_logical(tree: &Value) -> Logical
    ensures { result ≡ long_logical (view tree.now) }
{
    if has_logical(tree, "time-micros") {
        Logical::TimeMicros
    } else if has_logical(tree, "timestamp-micros") {
        Logical::TimestampMicros {
            adjust_to_utc: flag_at(tree, "adjust-to-utc"),
        }
    } else {
        Logical::Plain
    }
}

#[tactic(auto, unfolding(crate::specs::Logical::decimal_of))]
fn decimal_of(tree: &Value) -> Logical
    ensures { result ≡ decimal_of (view tree.now) }
{
    let scale = match tree.get("scale") {
        Some(scale) => u32_of(scale),
        None => Some(0),
    };
    let precision = match tree.get("precision") {
        Some(precision) => u32_of(precision),
        None => None,
    };
    match (precision, scale) {
        (Some(precision), Some(scale)) => Logical::Decimal { precision, scale },
        _ => Logical::Plain,
    }
}

#[tactic(auto, unfolding(crate::specs::Logical::bytes_logical))]
pub(crate) fn bytes_logical(tree: &Value) -> Logical
    ensures { result ≡ bytes_logical (view tree.now) }
{
    if has_logical(tree, "decimal") {
        decimal_of(tree)
    } else {
        Logical::Plain
    }
}

#[tactic(auto, unfolding(crate::specs::Logical::string_logical))]
pub(crate) fn string_logical(tree: &Value) -> Logical
    ensures { result ≡ string_logical (view tree.now) }
{
    if has_logical(tree, "uuid") {
        Logical::Uuid
    } else {
        Logical::Plain
    }
}

/// The logical type of a fixed of so many bytes.
#[tactic(auto, unfolding(crate::specs::Logical::fixed_logical))]
pub(crate) fn fixed_logical(size: u32, tree: &Value) -> Logical
    ensures { result ≡ fixed_logical size (view tree.now) }
{
    if has_logical(tree, "decimal") {
        decimal_of(tree)
    } else if has_logical(tree, "uuid") && size == 16 {
        Logical::Uuid
    } else {
        Logical::Plain
    }
}
