//! The text that is written for a statement.
//!
//! A list is written as its first item and then each further one behind a comma.
ghost use Rattle.std.specs.Prelude.{◌≡◌, ◌++◌, IfOk, OnOk, drop};
ghost use Rattle.std.specs.List.{flat_map};
ghost use Rattle.call_text.specs.declared.token.Token.TheVariants as tokens;
ghost use Rattle.call_text.specs.Statement.{Spells};
ghost use Rattle.call_text.specs.Writing.{escape, token_text, piece_text, name_token, pair_pieces, number_pieces, value_pieces, lead_pieces, arg_pieces, head_pieces, written, pair_text, number_text, arg_text, CanBeWritten};

use crate::call::{Arg, ArgValue, Call};
use crate::word::is_plain;
use ice_store::Text;
use std::alloc::{AllocError, Global};

// a character of a string
fn push_escape(out: &mut Vec<u8>, b: u8) -> Result<(), AllocError>
    ensures { OnOk result (out.new.items ≡ out.old.items ++ escape b) }
{
    match b {
        b'\'' => out.extend_from_slice(b"\\'")?,
        b'\\' => out.extend_from_slice(b"\\\\")?,
        b'\n' => out.extend_from_slice(b"\\n")?,
        b'\t' => out.extend_from_slice(b"\\t")?,
        _ => out.push(b)?,
    }
    Ok(())
}

fn push_content(out: &mut Vec<u8>, text: &[u8]) -> Result<(), AllocError>
    ensures { OnOk result (out.new.items ≡ out.old.items ++ flat_map escape text.now) }
{
    for b in text {
        push_escape(out, *b)?;
    }
    Ok(())
}

// a string in `'`
#[tactic(auto, unfolding(crate::specs::Writing::token_text))]
fn push_string(out: &mut Vec<u8>, text: &Text) -> Result<(), AllocError>
    ensures { OnOk result (out.new.items ≡ out.old.items ++ token_text (tokens.Str text.now)) }
{
    out.push(b'\'')?;
    push_content(out, text.inner())?;
    out.push(b'\'')?;
    Ok(())
}

// an identifier, in backquotes where it needs them
#[tactic(auto, unfolding(crate::specs::Writing::token_text, crate::specs::Writing::name_token))]
fn push_name(out: &mut Vec<u8>, name: &Text) -> Result<(), AllocError>
    ensures { OnOk result (out.new.items ≡ out.old.items ++ token_text (name_token name.now)) }
{
    let bytes = name.inner().as_slice();
    if is_plain(bytes) {
        out.extend_from_slice(bytes)?;
    } else {
        out.push(b'`')?;
        out.extend_from_slice(bytes)?;
        out.push(b'`')?;
    }
    Ok(())
}

#[tactic(auto, unfolding(crate::specs::Writing::token_text, crate::specs::Writing::piece_text))]
fn push_pair_behind_comma(out: &mut Vec<u8>, pair: &(Text, Text)) -> Result<(), AllocError>
    ensures { OnOk result (out.new.items ≡ out.old.items ++ flat_map piece_text (pair_pieces pair.now)) }
{
    out.extend_from_slice(b", ")?;
    push_string(out, &pair.0)?;
    out.extend_from_slice(b", ")?;
    push_string(out, &pair.1)
}

fn push_pairs_behind(out: &mut Vec<u8>, pairs: &[(Text, Text)]) -> Result<(), AllocError>
    ensures { OnOk result (out.new.items ≡ out.old.items ++ flat_map pair_text pairs.now) }
{
    for pair in pairs {
        push_pair_behind_comma(out, pair)?;
    }
    Ok(())
}

#[tactic(auto, unfolding(crate::specs::Writing::token_text, crate::specs::Writing::piece_text))]
fn push_first_pair(out: &mut Vec<u8>, pair: &(Text, Text)) -> Result<(), AllocError>
    ensures { OnOk result (out.new.items ≡ out.old.items ++ flat_map piece_text (drop 1 (pair_pieces pair.now))) }
{
    push_string(out, &pair.0)?;
    out.extend_from_slice(b", ")?;
    push_string(out, &pair.1)
}

fn push_pairs(out: &mut Vec<u8>, pairs: &[(Text, Text)]) -> Result<(), AllocError>
    ensures { OnOk result (out.new.items ≡ out.old.items ++ flat_map piece_text (drop 1 (flat_map pair_pieces pairs.now))) }
{
    match pairs {
        [] => Ok(()),
        [first, rest @ ..] => {
            push_first_pair(out, first)?;
            push_pairs_behind(out, rest)?;
            Ok(())
        }
    }
}

#[tactic(auto, unfolding(crate::specs::Writing::token_text, crate::specs::Writing::piece_text))]
fn push_number_behind_comma(out: &mut Vec<u8>, number: &Text) -> Result<(), AllocError>
    ensures { OnOk result (out.new.items ≡ out.old.items ++ number_text number.now) }
{
    out.extend_from_slice(b", ")?;
    out.extend_from_slice(number.inner())?;
    Ok(())
}

fn push_numbers_behind(out: &mut Vec<u8>, numbers: &[Text]) -> Result<(), AllocError>
    ensures { OnOk result (out.new.items ≡ out.old.items ++ flat_map number_text numbers.now) }
{
    for number in numbers {
        push_number_behind_comma(out, number)?;
    }
    Ok(())
}

#[tactic(auto, unfolding(crate::specs::Writing::token_text, crate::specs::Writing::piece_text))]
fn push_first_number(out: &mut Vec<u8>, number: &Text) -> Result<(), AllocError>
    ensures { OnOk result (out.new.items ≡ out.old.items ++ flat_map piece_text (drop 1 (number_pieces number.now))) }
{
    out.extend_from_slice(number.inner())?;
    Ok(())
}

fn push_numbers(out: &mut Vec<u8>, numbers: &[Text]) -> Result<(), AllocError>
    ensures { OnOk result (out.new.items ≡ out.old.items ++ flat_map piece_text (drop 1 (flat_map number_pieces numbers.now))) }
{
    match numbers {
        [] => Ok(()),
        [first, rest @ ..] => {
            push_first_number(out, first)?;
            push_numbers_behind(out, rest)?;
            Ok(())
        }
    }
}

#[tactic(auto, unfolding(crate::specs::Writing::token_text, crate::specs::Writing::piece_text, crate::specs::Writing::value_pieces))]
fn push_value(out: &mut Vec<u8>, value: &ArgValue) -> Result<(), AllocError>
    ensures { OnOk result (out.new.items ≡ out.old.items ++ flat_map piece_text (value_pieces value.now)) }
{
    match value {
        ArgValue::Str(text) => push_string(out, text),
        ArgValue::Number(number) => {
            out.extend_from_slice(number.inner())?;
            Ok(())
        }
        ArgValue::Bool(true) => {
            out.extend_from_slice(b"TRUE")?;
            Ok(())
        }
        ArgValue::Bool(false) => {
            out.extend_from_slice(b"FALSE")?;
            Ok(())
        }
        ArgValue::Null => {
            out.extend_from_slice(b"NULL")?;
            Ok(())
        }
        ArgValue::Moment(text) => {
            out.extend_from_slice(b"TIMESTAMP ")?;
            push_string(out, text)
        }
        ArgValue::Map(pairs) => {
            out.extend_from_slice(b"map(")?;
            push_pairs(out, pairs.inner())?;
            out.push(b')')?;
            Ok(())
        }
        ArgValue::Array(numbers) => {
            out.extend_from_slice(b"array(")?;
            push_numbers(out, numbers.inner())?;
            out.push(b')')?;
            Ok(())
        }
    }
}

// `name => `, or nothing
#[tactic(auto, unfolding(crate::specs::Writing::token_text, crate::specs::Writing::piece_text))]
fn push_lead(out: &mut Vec<u8>, name: &Option<Text>) -> Result<(), AllocError>
    ensures { OnOk result (out.new.items ≡ out.old.items ++ flat_map piece_text (lead_pieces name.now)) }
{
    match name {
        None => Ok(()),
        Some(name) => {
            push_name(out, name)?;
            out.extend_from_slice(b" => ")?;
            Ok(())
        }
    }
}

fn push_arg(out: &mut Vec<u8>, arg: &Arg) -> Result<(), AllocError>
    ensures { OnOk result (out.new.items ≡ out.old.items ++ flat_map piece_text (lead_pieces arg.now.name ++ value_pieces arg.now.value)) }
{
    push_lead(out, &arg.name)?;
    push_value(out, &arg.value)
}

#[tactic(auto, unfolding(crate::specs::Writing::token_text, crate::specs::Writing::piece_text, crate::specs::Writing::arg_pieces))]
fn push_arg_behind_comma(out: &mut Vec<u8>, arg: &Arg) -> Result<(), AllocError>
    ensures { OnOk result (out.new.items ≡ out.old.items ++ arg_text arg.now) }
{
    out.extend_from_slice(b", ")?;
    push_arg(out, arg)
}

fn push_args_behind(out: &mut Vec<u8>, args: &[Arg]) -> Result<(), AllocError>
    ensures { OnOk result (out.new.items ≡ out.old.items ++ flat_map arg_text args.now) }
{
    for arg in args {
        push_arg_behind_comma(out, arg)?;
    }
    Ok(())
}

fn push_args(out: &mut Vec<u8>, args: &[Arg]) -> Result<(), AllocError>
    ensures { OnOk result (out.new.items ≡ out.old.items ++ flat_map piece_text (drop 1 (flat_map arg_pieces args.now))) }
{
    match args {
        [] => Ok(()),
        [first, rest @ ..] => {
            push_arg(out, first)?;
            push_args_behind(out, rest)?;
            Ok(())
        }
    }
}

// `CALL catalog.system.procedure(`
#[tactic(auto, unfolding(crate::specs::Writing::token_text, crate::specs::Writing::piece_text))]
fn push_head(out: &mut Vec<u8>, call: &Call) -> Result<(), AllocError>
    ensures { OnOk result (out.new.items ≡ out.old.items ++ flat_map piece_text (head_pieces call.now)) }
{
    out.extend_from_slice(b"CALL ")?;
    push_name(out, &call.catalog)?;
    out.extend_from_slice(b".system.")?;
    push_name(out, &call.procedure)?;
    out.push(b'(')?;
    Ok(())
}

/// The text that is written for a call: without a semicolon, with the words `system`, `map` and `array` in lower case
/// and all others in upper case. It spells the call, so `read_statement` reads the same call again.
///
/// A call that `read_statement` gave can be written.
pub fn write_statement(alloc: Global, call: &Call) -> Result<Text, AllocError>
    requires { CanBeWritten call.now }
    // It is the one text that the definition gives.
    ensures text { IfOk result (λ text. text ≡ written call.now) }
    // It spells the call.
    ensures again { IfOk result (λ text. Spells text call.now) }
{
    let mut out = Vec::new(alloc);
    push_head(&mut out, call)?;
    push_args(&mut out, call.args.inner())?;
    out.push(b')')?;
    Ok(Text::new(out))
}
