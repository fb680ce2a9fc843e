//! The value of one argument. Each reader is total: it answers none, or a default, where the value isn't of its form,
//! which the check of the arguments has ruled out.
ghost use Rattle.std.specs.Prelude.{◌≡◌, [], IfOk, option_copied, map};
ghost use Rattle.call_syntax.specs.Values.{place_of, place_value, needed_place, text_value, needed_text, long_value, needed_long, int_value, count_value, needed_count, flag_value, moment_value, long_or_zero, ids_value, pairs_value, option_values};

use crate::command::{IdList, OptionValues};
use call_arguments::{
    LARGEST_INT, OptionName, count_of, flag_option, int_of, long_of, number_option,
};
use call_moments::moment_of;
use call_text::ArgValue;
use ice_store::{Items, LARGEST_LONG, Place, PlaceErr, Text};
use std::alloc::{AllocError, Global};

// the place that a text names
fn place_of(alloc: Global, text: &Text) -> Result<Option<Place>, AllocError>
    ensures { IfOk result (λ p. p ≡ place_of text.now) }
{
    match Place::read(alloc, text) {
        Ok(place) => Ok(Some(place)),
        Err(PlaceErr::Bad { .. }) => Ok(None),
        Err(PlaceErr::Memory) => Err(AllocError),
    }
}

pub(crate) fn place_value(
    alloc: Global,
    value: Option<&ArgValue>,
) -> Result<Option<Place>, AllocError>
    ensures { IfOk result (λ p. p ≡ place_value (option_copied value.entry)) }
{
    match value {
        Some(ArgValue::Str(text)) => place_of(alloc, text),
        _ => Ok(None),
    }
}

// the place without parts
fn root(alloc: Global) -> Result<Place, AllocError>
    ensures { IfOk result (λ p. p ≡ []) }
{
    let slash = Text::copy_of(alloc, b"/")?;
    match Place::read(alloc, &slash) {
        Ok(root) => Ok(root),
        Err(_) => Err(AllocError),
    }
}

/// The place of an argument that must stand.
pub(crate) fn needed_place(alloc: Global, value: Option<&ArgValue>) -> Result<Place, AllocError>
    ensures { IfOk result (λ p. p ≡ needed_place (option_copied value.entry)) }
{
    match place_value(alloc, value)? {
        Some(place) => Ok(place),
        None => root(alloc),
    }
}

pub(crate) fn text_value(value: Option<&ArgValue>) -> Result<Option<Text>, AllocError>
    ensures { IfOk result (λ t. t ≡ text_value (option_copied value.entry)) }
{
    match value {
        Some(ArgValue::Str(text)) => Ok(Some(text.copy()?)),
        _ => Ok(None),
    }
}

/// The text of an argument that must stand.
pub(crate) fn needed_text(alloc: Global, value: Option<&ArgValue>) -> Result<Text, AllocError>
    ensures { IfOk result (λ t. t ≡ needed_text (option_copied value.entry)) }
{
    match text_value(value)? {
        Some(text) => Ok(text),
        None => Text::copy_of(alloc, b""),
    }
}

pub(crate) fn long_value(value: Option<&ArgValue>) -> Option<i64>
    ensures { result ≡ long_value (option_copied value.entry) }
{
    match value {
        Some(ArgValue::Number(number)) => long_of(number.inner()),
        _ => None,
    }
}

/// The number of an argument that must stand.
pub(crate) fn needed_long(value: Option<&ArgValue>) -> i64
    ensures { result ≡ needed_long (option_copied value.entry) }
{
    long_value(value).unwrap_or(0)
}

pub(crate) fn int_value(value: Option<&ArgValue>) -> Option<i32>
    ensures { result ≡ int_value (option_copied value.entry) }
{
    match value {
        Some(ArgValue::Number(number)) => int_of(number.inner()),
        _ => None,
    }
}

/// A number from 0 on.
pub(crate) fn count_value(value: Option<&ArgValue>) -> Option<u64>
    ensures { result ≡ count_value (option_copied value.entry) }
{
    match value {
        Some(ArgValue::Number(number)) => count_of(0, LARGEST_LONG, number.inner()),
        _ => None,
    }
}

/// The number from 0 on of an argument that must stand.
pub(crate) fn needed_count(value: Option<&ArgValue>) -> u64
    ensures { result ≡ needed_count (option_copied value.entry) }
{
    count_value(value).unwrap_or(0)
}

/// Whether an argument is given as TRUE.
pub(crate) fn flag_value(value: Option<&ArgValue>) -> bool
    ensures { result ≡ flag_value (option_copied value.entry) }
{
    match value {
        Some(ArgValue::Bool(flag)) => *flag,
        _ => false,
    }
}

pub(crate) fn moment_value(value: Option<&ArgValue>) -> Option<u64>
    ensures { result ≡ moment_value (option_copied value.entry) }
{
    match value {
        Some(ArgValue::Moment(text)) => moment_of(text.inner()),
        _ => None,
    }
}

fn long_or_zero(number: &Text) -> i64
    ensures { result ≡ long_or_zero number.now }
{
    long_of(number.inner()).unwrap_or(0)
}

fn longs(alloc: Global, numbers: &[Text]) -> Result<Vec<i64>, AllocError>
    ensures { IfOk result (λ v. v.items ≡ map long_or_zero numbers.now) }
{
    numbers
        .iter()
        .map(|number| long_or_zero(number))
        .collect(alloc)
}

pub(crate) fn ids_value(alloc: Global, value: Option<&ArgValue>) -> Result<IdList, AllocError>
    ensures { IfOk result (λ ids. ids ≡ ids_value (option_copied value.entry)) }
{
    match value {
        Some(ArgValue::Array(numbers)) => Ok(Items::new(longs(alloc, numbers.inner())?)),
        _ => Ok(Items::empty(alloc)),
    }
}

fn pairs_value(value: Option<&ArgValue>) -> &[(Text, Text)]
    ensures { result.now ≡ pairs_value (option_copied value.entry) }
{
    match value {
        Some(ArgValue::Map(pairs)) => pairs.inner(),
        _ => &[],
    }
}

#[tactic(auto, unfolding(crate::specs::Values::option_values))]
fn options_in(pairs: &[(Text, Text)]) -> OptionValues
    ensures { result ≡ option_values pairs.now }
{
    OptionValues {
        target: number_option(pairs, OptionName::TargetFileSizeBytes),
        min_size: number_option(pairs, OptionName::MinFileSizeBytes),
        max_size: number_option(pairs, OptionName::MaxFileSizeBytes),
        min_files: number_option(pairs, OptionName::MinInputFiles).unwrap_or(5),
        max_group: number_option(pairs, OptionName::MaxFileGroupSizeBytes).unwrap_or(
            107_374_182_400,
        ),
        all: flag_option(pairs, OptionName::RewriteAll).unwrap_or(false),
        partial: flag_option(pairs, OptionName::PartialProgressEnabled).unwrap_or(false),
        max_commits: number_option(pairs, OptionName::PartialProgressMaxCommits).unwrap_or(10),
        concurrent: number_option(pairs, OptionName::MaxConcurrentFileGroupRewrites).unwrap_or(5),
        threshold: number_option(pairs, OptionName::DeleteFileThreshold).unwrap_or(LARGEST_INT),
        keep_sequence: flag_option(pairs, OptionName::UseStartingSequenceNumber).unwrap_or(true),
        dangling: flag_option(pairs, OptionName::RemoveDanglingDeletes).unwrap_or(false),
    }
}

/// The options of a rewrite, those that aren't given at their defaults.
pub(crate) fn option_values(value: Option<&ArgValue>) -> OptionValues
    ensures { result ≡ option_values (pairs_value (option_copied value.entry)) }
{
    options_in(pairs_value(value))
}
