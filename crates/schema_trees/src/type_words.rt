// Texts that name a primitive type.
ghost use Rattle.std.specs.Prelude.{◌≡◌, IfOk};
ghost use Rattle.schema_trees.specs.TypeWords.{plain, fixed_from, fixed_of, decimal_from, behind_space, numbers_of, decimal_of, primitive};

use crate::words::{number_before, number_of};
use schema_types::ColType;
use std::alloc::{AllocError, Global};

#[tactic(auto, unfolding(crate::specs::TypeWords::plain))]
fn plain(word: &str) -> Option<ColType>
    ensures { result ≡ plain word.now }
{
    if word == "boolean" {
        Some(ColType::Boolean)
    } else if word == "int" {
        Some(ColType::Int)
    } else if word == "long" {
        Some(ColType::Long)
    } else if word == "float" {
        Some(ColType::Float)
    } else if word == "double" {
        Some(ColType::Double)
    } else if word == "date" {
        Some(ColType::Date)
    } else if word == "time" {
        Some(ColType::Time)
    } else if word == "timestamp" {
        Some(ColType::Timestamp)
    } else if word == "timestamptz" {
        Some(ColType::Timestamptz)
    } else if word == "string" {
        Some(ColType::Str)
    } else if word == "uuid" {
        Some(ColType::Uuid)
    } else if word == "binary" {
        Some(ColType::Binary)
    } else {
        None
    }
}

fn fixed_from(word: &str, length: Option<u32>) -> Option<ColType>
    ensures { result ≡ fixed_from word.now length }
{
    match length {
        Some(length) => if word == "fixed" {
            Some(ColType::Fixed(length))
        } else {
            None
        },
        None => None,
    }
}

fn fixed_of(alloc: Global, text: &str) -> Result<Option<ColType>, AllocError>
    ensures { IfOk result (λ o. o ≡ fixed_of text.now) }
{
    match text.split_once('[') {
        Some((word, rest)) => Ok(fixed_from(word, number_before(alloc, rest, ']')?)),
        None => Ok(None),
    }
}

fn decimal_from(precision: Option<u32>, scale: Option<u32>) -> Option<ColType>
    ensures { result ≡ decimal_from precision scale }
{
    match precision {
        Some(precision) => match scale {
            Some(scale) => if precision > 38 {
                None
            } else {
                Some(ColType::Decimal { precision, scale })
            },
            None => None,
        },
        None => None,
    }
}

fn behind_space(text: &str) -> &str
    ensures { result.now ≡ behind_space text.now }
{
    match text.strip_prefix(' ') {
        Some(rest) => rest,
        None => text,
    }
}

fn numbers_of(alloc: Global, text: &str) -> Result<Option<ColType>, AllocError>
    ensures { IfOk result (λ o. o ≡ numbers_of text.now) }
{
    match text.split_once(',') {
        Some((digits, rest)) => {
            let precision = number_of(alloc, digits)?;
            let scale = number_before(alloc, behind_space(rest), ')')?;
            Ok(decimal_from(precision, scale))
        }
        None => Ok(None),
    }
}

fn decimal_of(alloc: Global, text: &str) -> Result<Option<ColType>, AllocError>
    ensures { IfOk result (λ o. o ≡ decimal_of text.now) }
{
    match text.split_once('(') {
        Some((word, rest)) => if word == "decimal" {
            numbers_of(alloc, rest)
        } else {
            Ok(None)
        },
        None => Ok(None),
    }
}

/// The primitive type that a text names (Iceberg table specification, "Primitive Types").
#[tactic(auto, unfolding(crate::specs::TypeWords::primitive))]
pub(crate) fn primitive(alloc: Global, text: &str) -> Result<Option<ColType>, AllocError>
    ensures { IfOk result (λ o. o ≡ primitive text.now) }
{
    if let Some(ty) = plain(text) {
        return Ok(Some(ty));
    }
    if let Some(ty) = fixed_of(alloc, text)? {
        return Ok(Some(ty));
    }
    decimal_of(alloc, text)
}
