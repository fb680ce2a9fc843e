//! Whether a value is of the form that a line of the table asks for. NULL is of every form, since it counts as left out.
ghost use Rattle.std.specs.Prelude.{◌≡◌, IfOk, is_some, is_none, option_copied};
ghost use Rattle.std.specs.List.{list_all};
ghost use Rattle.call_arguments.specs.Forms.{is_place, is_long, fits_text, fits_number, fits_flag, fits_moment, fits_array, bad_option, bad_key, fits_map, fits};

use crate::number::{LARGEST_INT, count_of, int_of, long_of};
use crate::options::{first_bad_option, options_of};
use crate::table::Form;
use call_moments::moment_of;
use call_text::ArgValue;
use ice_store::{LARGEST_LONG, Place, PlaceErr, Text};
use std::alloc::{AllocError, Global};

// how many rows are generated at most
const MOST_ROWS: u64 = 10_000_000;

fn is_place(alloc: Global, text: &Text) -> Result<bool, AllocError>
    ensures { IfOk result (λ b. b ≡ is_place text.now) }
{
    match Place::read(alloc, text) {
        Ok(_) => Ok(true),
        Err(PlaceErr::Bad { .. }) => Ok(false),
        Err(PlaceErr::Memory) => Err(AllocError),
    }
}

fn fits_text(alloc: Global, form: Form, text: &Text) -> Result<bool, AllocError>
    ensures { IfOk result (λ b. b ≡ fits_text form text.now) }
{
    match form {
        Form::Place | Form::PlaceUnderTable => is_place(alloc, text),
        Form::Text => Ok(true),
        Form::Strategy => Ok(text.inner().as_slice() == b"binpack".as_slice()),
        _ => Ok(false),
    }
}

fn is_long(text: &Text) -> bool
    ensures { result ≡ is_long text.now }
{
    long_of(text.inner()).is_some()
}

fn fits_number(form: Form, text: &Text) -> bool
    ensures { result ≡ fits_number form text.now }
{
    match form {
        Form::Long => is_long(text),
        Form::LongFrom0 => count_of(0, LARGEST_LONG, text.inner()).is_some(),
        Form::RowCount => count_of(1, MOST_ROWS, text.inner()).is_some(),
        Form::Int => int_of(text.inner()).is_some(),
        Form::IntFrom1 => count_of(1, LARGEST_INT, text.inner()).is_some(),
        _ => false,
    }
}

fn fits_flag(form: Form) -> bool
    ensures { result ≡ fits_flag form }
{
    match form {
        Form::Boolean => true,
        _ => false,
    }
}

fn fits_moment(form: Form, text: &Text) -> bool
    ensures { result ≡ fits_moment form text.now }
{
    match form {
        Form::Timestamp => moment_of(text.inner()).is_some(),
        _ => false,
    }
}

fn are_longs(numbers: &[Text]) -> bool
    ensures { result ≡ list_all is_long numbers.now }
{
    numbers.iter().all(|number| is_long(number))
}

fn fits_array(form: Form, numbers: &[Text]) -> bool
    ensures { result ≡ fits_array form numbers.now }
{
    match form {
        Form::Longs => are_longs(numbers),
        _ => false,
    }
}

// the key of the first bad option of a map, where a map of options is asked for
fn bad_key(form: Form, pairs: &[(Text, Text)]) -> Option<&Text>
    ensures { option_copied result ≡ bad_key form pairs.now }
{
    match form {
        Form::Options(rewrite) => first_bad_option(options_of(rewrite), pairs),
        _ => None,
    }
}

fn fits_map(form: Form, pairs: &[(Text, Text)]) -> bool
    ensures { result ≡ fits_map form pairs.now }
{
    match form {
        Form::Options(_) => bad_key(form, pairs).is_none(),
        _ => false,
    }
}

/// The name of the first bad option of a value, where a map of options is asked for.
pub(crate) fn bad_option(form: Form, value: &ArgValue) -> Option<&Text>
    ensures { option_copied result ≡ bad_option form value.now }
{
    match value {
        ArgValue::Map(pairs) => bad_key(form, pairs.inner()),
        _ => None,
    }
}

/// Whether a value is of a form, the call's other arguments aside.
pub(crate) fn fits(alloc: Global, form: Form, value: &ArgValue) -> Result<bool, AllocError>
    ensures { IfOk result (λ b. b ≡ fits form value.now) }
{
    match value {
        ArgValue::Str(text) => fits_text(alloc, form, text),
        ArgValue::Number(number) => Ok(fits_number(form, number)),
        ArgValue::Bool(_) => Ok(fits_flag(form)),
        ArgValue::Null => Ok(true),
        ArgValue::Moment(text) => Ok(fits_moment(form, text)),
        ArgValue::Map(pairs) => Ok(fits_map(form, pairs.inner())),
        ArgValue::Array(numbers) => Ok(fits_array(form, numbers.inner())),
    }
}
