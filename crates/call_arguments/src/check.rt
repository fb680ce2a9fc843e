//! The first wrong argument of a call, and the first required one that lacks.
ghost use Rattle.std.specs.Prelude.{◌≡◌, ◌<◌, ◌^◌, [], length, IfOk, Some, None, option_copied, option_and_then, find, slice_get, if◌then◌else◌};
ghost use Rattle.std.specs.List.{list_any};
ghost use Rattle.call_arguments.specs.declared.table.ArgLine.{ArgLine as TheLine};
ghost use Rattle.call_arguments.specs.Table.{same_letters, argument_name, arguments_of, is_by_name, line_for, same_argument};
ghost use Rattle.call_arguments.specs.Check.{is_null, goes_by, stands_for, value_from, value_of, is_given, is_within, is_under_table, stays_within, stands_beside, is_right, own_name, is_repeated, right_line, wrong_name, first_wrong, must_stand, lacks, first_lacking, bad_argument, GivenAreRight, NoneLack};

use crate::form::{bad_option, fits};
use crate::procedure::{Procedure, same_letters};
use crate::table::{ArgLine, ArgName, Form, Presence, arguments_of};
use call_text::{Arg, ArgValue};
use ice_store::{Place, PlaceErr, Text};
use std::alloc::{AllocError, Global};

fn is_called(line: ArgLine, name: &Text) -> bool
    ensures { result ≡ same_letters name.now (argument_name line.name) }
{
    same_letters(name.inner(), line.name.spelling().as_bytes())
}

fn line_named(procedure: Procedure, name: &Text) -> Option<&'static ArgLine>
    ensures { option_copied result ≡ find (λ (l : TheLine). same_letters name.now (argument_name l.name)) (arguments_of procedure) }
{
    arguments_of(procedure)
        .iter()
        .find(|line| is_called(**line, name))
}

fn is_by_name(presence: Presence) -> bool
    ensures { result ≡ is_by_name presence }
{
    match presence {
        Presence::ByName => true,
        _ => false,
    }
}

fn line_at(procedure: Procedure, place: usize) -> Option<ArgLine>
    ensures { result ≡ option_and_then (λ (l : TheLine). if is_by_name l.presence then None else Some l) (slice_get (arguments_of procedure) place) }
{
    let line = arguments_of(procedure).get(place).copied()?;
    if is_by_name(line.presence) {
        None
    } else {
        Some(line)
    }
}

// the line that an argument goes by: the one of its name, or of its place where it has no name
fn line_for(procedure: Procedure, place: usize, name: &Option<Text>) -> Option<ArgLine>
    ensures { result ≡ line_for procedure place name.now }
{
    match name {
        Some(name) => line_named(procedure, name).copied(),
        None => line_at(procedure, place),
    }
}

fn same_argument(a: ArgName, b: ArgName) -> bool
    ensures { result ≡ same_argument a b }
{
    a.spelling() == b.spelling()
}

fn is_null(value: &ArgValue) -> bool
    ensures { result ≡ is_null value.now }
{
    match value {
        ArgValue::Null => true,
        _ => false,
    }
}

fn goes_by(line: Option<ArgLine>, name: ArgName) -> bool
    ensures { result ≡ goes_by line name }
{
    match line {
        Some(line) => same_argument(line.name, name),
        None => false,
    }
}

fn stands_for(procedure: Procedure, place: usize, arg: &Arg, name: ArgName) -> bool
    ensures { result ≡ stands_for procedure place arg.now name }
{
    goes_by(line_for(procedure, place, &arg.name), name) && !is_null(&arg.value)
}

/// The value that is given for an argument; NULL counts as left out.
pub fn value_of<'a>(procedure: Procedure, args: &'a [Arg], name: ArgName) -> Option<&'a ArgValue>
    ensures { option_copied result ≡ value_of procedure args.now name }
{
    let mut place = 0;
    let mut rest = args;
    while let [arg, after @ ..] = rest {
        if stands_for(procedure, place, arg, name) {
            return Some(&arg.value);
        }
        place += 1;
        rest = after;
    }
    None
}

fn is_given(procedure: Procedure, args: &[Arg], name: ArgName) -> bool
    ensures { result ≡ is_given procedure args.now name }
{
    value_of(procedure, args, name).is_some()
}

// whether this is a place under the table's; where the table's text names no place, nothing is said
fn is_within(alloc: Global, table: &Text, location: &Text) -> Result<bool, AllocError>
    ensures { IfOk result (λ b. b ≡ is_within table.now location.now) }
{
    let table = match Place::read(alloc, table) {
        Ok(table) => table,
        Err(PlaceErr::Bad { .. }) => return Ok(true),
        Err(PlaceErr::Memory) => return Err(AllocError),
    };
    match Place::read(alloc, location) {
        Ok(location) => Ok(location.under(&table)),
        Err(PlaceErr::Bad { .. }) => Ok(false),
        Err(PlaceErr::Memory) => Err(AllocError),
    }
}

fn is_under_table(
    alloc: Global,
    table: Option<&ArgValue>,
    location: &Text,
) -> Result<bool, AllocError>
    ensures { IfOk result (λ b. b ≡ is_under_table (option_copied table.entry) location.now) }
{
    match table {
        Some(ArgValue::Str(table)) => is_within(alloc, table, location),
        _ => Ok(true),
    }
}

fn stays_within(
    alloc: Global,
    procedure: Procedure,
    args: &[Arg],
    form: Form,
    value: &ArgValue,
) -> Result<bool, AllocError>
    ensures { IfOk result (λ b. b ≡ stays_within procedure args.now form value.now) }
{
    match form {
        Form::PlaceUnderTable => match value {
            ArgValue::Str(location) => {
                is_under_table(alloc, value_of(procedure, args, ArgName::Table), location)
            }
            _ => Ok(true),
        },
        _ => Ok(true),
    }
}

fn stands_beside(procedure: Procedure, args: &[Arg], presence: Presence, value: &ArgValue) -> bool
    ensures { result ≡ stands_beside procedure args.now presence value.now }
{
    match presence {
        Presence::Without(other) => is_null(value) || !is_given(procedure, args, other),
        _ => true,
    }
}

fn is_right(
    alloc: Global,
    procedure: Procedure,
    args: &[Arg],
    line: ArgLine,
    value: &ArgValue,
) -> Result<bool, AllocError>
    ensures { IfOk result (λ b. b ≡ is_right procedure args.now line value.now) }
{
    let fits = fits(alloc, line.form, value)?;
    let within = stays_within(alloc, procedure, args, line.form, value)?;
    Ok(fits && within && stands_beside(procedure, args, line.presence, value))
}

fn is_repeated(seen: &[ArgLine], line: ArgLine) -> bool
    ensures { result ≡ is_repeated seen.now line }
{
    seen.iter()
        .any(|other| same_argument(other.name, line.name))
}

// the line of an argument that isn't wrong, behind arguments that went by `seen`
fn right_line(
    alloc: Global,
    procedure: Procedure,
    args: &[Arg],
    seen: &[ArgLine],
    arg: &Arg,
) -> Result<Option<ArgLine>, AllocError>
    ensures { IfOk result (λ l. l ≡ right_line procedure args.now seen.now arg.now) }
{
    let Some(line) = line_for(procedure, seen.len(), &arg.name) else {
        return Ok(None);
    };
    if is_repeated(seen, line) || !is_right(alloc, procedure, args, line, &arg.value)? {
        return Ok(None);
    }
    Ok(Some(line))
}

// how an argument is called for which the table has no line
fn own_name(alloc: Global, place: usize, name: &Option<Text>) -> Result<Text, AllocError>
    requires { place < 2 ^ 63 }
    ensures { IfOk result (λ t. t ≡ own_name place name.now) }
{
    match name {
        Some(name) => name.copy(),
        None => {
            let number = place + 1;
            let text = format!(in alloc; "#{number}")?;
            Text::copy_of(alloc, text.as_bytes())
        }
    }
}

fn spelling_of(alloc: Global, line: ArgLine) -> Result<Text, AllocError>
    ensures { IfOk result (λ t. t ≡ argument_name line.name) }
{
    Text::copy_of(alloc, line.name.spelling().as_bytes())
}

fn wrong_name(
    alloc: Global,
    procedure: Procedure,
    seen: &[ArgLine],
    arg: &Arg,
) -> Result<Text, AllocError>
    requires { length seen.now < 2 ^ 63 }
    ensures { IfOk result (λ t. t ≡ wrong_name procedure seen.now arg.now) }
{
    let Some(line) = line_for(procedure, seen.len(), &arg.name) else {
        return own_name(alloc, seen.len(), &arg.name);
    };
    if is_repeated(seen, line) {
        return spelling_of(alloc, line);
    }
    match bad_option(line.form, &arg.value) {
        Some(key) => key.copy(),
        None => spelling_of(alloc, line),
    }
}

fn first_wrong(
    alloc: Global,
    procedure: Procedure,
    args: &[Arg],
) -> Result<Option<Text>, AllocError>
    ensures { IfOk result (λ name. name ≡ first_wrong procedure args.now [] args.now) }
{
    let mut seen = Vec::new(alloc);
    let mut rest = args;
    while let [arg, after @ ..] = rest {
        match right_line(alloc, procedure, args, &seen, arg)? {
            Some(line) => seen.push(line)?,
            None => return Ok(Some(wrong_name(alloc, procedure, &seen, arg)?)),
        }
        rest = after;
    }
    Ok(None)
}

fn must_stand(procedure: Procedure, args: &[Arg], presence: Presence) -> bool
    ensures { result ≡ must_stand procedure args.now presence }
{
    match presence {
        Presence::Required => true,
        Presence::Unless(other) => !is_given(procedure, args, other),
        _ => false,
    }
}

fn lacks(procedure: Procedure, args: &[Arg], line: ArgLine) -> bool
    ensures { result ≡ lacks procedure args.now line }
{
    must_stand(procedure, args, line.presence) && !is_given(procedure, args, line.name)
}

fn lacking(procedure: Procedure, args: &[Arg]) -> Option<&'static ArgLine>
    ensures { option_copied result ≡ find (lacks procedure args.now) (arguments_of procedure) }
{
    arguments_of(procedure)
        .iter()
        .find(|line| lacks(procedure, args, **line))
}

/// The name of the argument for which the arguments of a procedure are refused: of the first wrong one as they are
/// written, or else of the first required one that lacks, in the table's order. An unknown argument or option has its
/// name as written, one past the last place `#` and its number from 1, every other the table's spelling.
pub fn bad_argument(
    alloc: Global,
    procedure: Procedure,
    args: &[Arg],
) -> Result<Option<Text>, AllocError>
    ensures { IfOk result (λ name. name ≡ bad_argument procedure args.now) }
{
    if let Some(name) = first_wrong(alloc, procedure, args)? {
        return Ok(Some(name));
    }
    match lacking(procedure, args) {
        Some(line) => Ok(Some(spelling_of(alloc, *line)?)),
        None => Ok(None),
    }
}

/// What an accepted call has: each value that is given is right for the line of its argument, and no required argument
/// lacks. So whoever reads a value of an accepted call needs no default for it.
pub fn accepted_arguments()
    ensures given { GivenAreRight }
    ensures required { NoneLack }
{}
