//! Numbers: a sign, 1 to 39 digits, an ending `L`.
ghost use Rattle.std.specs.Prelude.{◌≡◌, ◌≤◌, length, IfOk};
ghost use Rattle.std.specs.Option.{option_map};
ghost use Rattle.std.specs.List.{position, position_or_len};
ghost use Rattle.call_text.specs.Characters.{is_no_digit};
ghost use Rattle.call_text.specs.Cutting.{long_mark_len, number_len, number_of, sign_len};

use crate::token::Token;
use ice_store::Text;
use std::alloc::{AllocError, Global};

const MOST_DIGITS: usize = 39;

fn digits_end(bytes: &[u8]) -> Option<usize>
    ensures { result ≡ position is_no_digit bytes.now }
{
    bytes.iter().position(|b| !b.is_ascii_digit())
}

// how many digits stand in front
#[tactic(auto, using(crate::proofs::Positions::position_or))]
fn digits_len(bytes: &[u8]) -> usize
    ensures value { result ≡ position_or_len is_no_digit bytes.now }
    ensures within { result ≤ length bytes.now }
{
    digits_end(bytes).unwrap_or(bytes.len())
}

fn sign_len(bytes: &[u8]) -> usize
    ensures value { result ≡ sign_len bytes.now }
    ensures within { result ≤ length bytes.now }
{
    match bytes {
        [b'-', ..] => 1,
        _ => 0,
    }
}

fn long_mark_len(bytes: &[u8]) -> usize
    ensures value { result ≡ long_mark_len bytes.now }
    ensures within { result ≤ length bytes.now }
{
    match bytes {
        [b'L' | b'l', ..] => 1,
        _ => 0,
    }
}

#[tactic(auto, unfolding(crate::specs::Cutting::number_len))]
fn number_len(bytes: &[u8]) -> usize
    ensures value { result ≡ number_len bytes.now }
    ensures within { result ≤ length bytes.now }
{
    let sign = sign_len(bytes);
    let digits = digits_len(&bytes[sign..]).min(MOST_DIGITS);
    if digits == 0 {
        0
    } else {
        sign + digits + long_mark_len(&bytes[sign + digits..])
    }
}

/// The number in front. `None` where no digit stands behind the sign.
pub fn number(alloc: Global, bytes: &[u8]) -> Result<Option<(Token, &[u8])>, AllocError>
    ensures { IfOk result (λ found. option_map (λ x. (x.0, x.1.now)) found ≡ number_of bytes.now) }
{
    let len = number_len(bytes);
    if len == 0 {
        return Ok(None);
    }
    let (front, rest) = bytes.split_at(len);
    let text = Text::copy_of(alloc, front)?;
    Ok(Some((Token::Number(text), rest)))
}
