//! Identifiers: without backquotes, and between two of them.
ghost use Rattle.std.specs.Prelude.{◌≡◌, ◌≤◌, length, IfOk};
ghost use Rattle.std.specs.Option.{option_map};
ghost use Rattle.std.specs.List.{before_first, list_all, position, position_or_len};
ghost use Rattle.call_text.specs.Characters.{begins_word, continues_word, ends_word, first_is, is_backquote};
ghost use Rattle.call_text.specs.Spelling.{is_plain};
ghost use Rattle.call_text.specs.Cutting.{from_first, quoted_of};

use ice_store::Text;
use std::alloc::{AllocError, Global};

pub fn begins_word(b: u8) -> bool
    ensures { result ≡ begins_word b }
{
    b.is_ascii_alphabetic() || b == b'_'
}

fn ends_word(b: u8) -> bool
    ensures { result ≡ ends_word b }
{
    !(b.is_ascii_alphanumeric() || b == b'_')
}

fn begins_as_word(name: &[u8]) -> bool
    ensures { result ≡ first_is begins_word name.now }
{
    match name {
        [] => false,
        [first, ..] => begins_word(*first),
    }
}

fn goes_on_as_word(name: &[u8]) -> bool
    ensures { result ≡ list_all continues_word name.now }
{
    name.iter().all(|b| !ends_word(*b))
}

/// Whether a name is an identifier as it stands, without backquotes: a letter or `_`, then letters, digits and `_`.
pub fn is_plain(name: &[u8]) -> bool
    ensures { result ≡ is_plain name.now }
{
    begins_as_word(name) && goes_on_as_word(name)
}

fn word_end(bytes: &[u8]) -> Option<usize>
    ensures { result ≡ position ends_word bytes.now }
{
    bytes.iter().position(|b| ends_word(*b))
}

// how many bytes of an identifier stand in front
#[tactic(auto, using(crate::proofs::Positions::position_or))]
fn word_len(bytes: &[u8]) -> usize
    ensures value { result ≡ position_or_len ends_word bytes.now }
    ensures within { result ≤ length bytes.now }
{
    word_end(bytes).unwrap_or(bytes.len())
}

/// The identifier without backquotes in front, and the bytes behind it.
pub fn word(alloc: Global, bytes: &[u8]) -> Result<(Text, &[u8]), AllocError>
    ensures { IfOk result (λ x. (x.0 ≡ before_first ends_word bytes.now) × (x.1.now ≡ from_first ends_word bytes.now)) }
{
    let (front, rest) = bytes.split_at(word_len(bytes));
    Ok((Text::copy_of(alloc, front)?, rest))
}

fn quoted_end(bytes: &[u8]) -> Option<usize>
    ensures { result ≡ position is_backquote bytes.now }
{
    bytes.iter().position(|b| *b == b'`')
}

// how many bytes stand before the next backquote
#[tactic(auto, using(crate::proofs::Positions::position_or))]
fn quoted_len(bytes: &[u8]) -> usize
    ensures value { result ≡ position_or_len is_backquote bytes.now }
    ensures within { result ≤ length bytes.now }
{
    quoted_end(bytes).unwrap_or(bytes.len())
}

/// The identifier behind a backquote, up to the next one. `None` where it is empty or doesn't end.
pub fn quoted(alloc: Global, bytes: &[u8]) -> Result<Option<(Text, &[u8])>, AllocError>
    ensures { IfOk result (λ found. option_map (λ x. (x.0, x.1.now)) found ≡ quoted_of bytes.now) }
{
    let len = quoted_len(bytes);
    if 0 < len && len < bytes.len() {
        let text = Text::copy_of(alloc, &bytes[..len])?;
        Ok(Some((text, &bytes[len + 1..])))
    } else {
        Ok(None)
    }
}
