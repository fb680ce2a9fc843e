//! The token at the front of some bytes.
ghost use Rattle.std.specs.Prelude.{◌≡◌, IfOk, IfSome, IfNone};
ghost use Rattle.std.specs.Option.{option_map};
ghost use Rattle.call_text.specs.Spelling.{IsFirstToken, HasNoToken};
ghost use Rattle.call_text.specs.Cutting.{mark_of, token_of};

use crate::number::number;
use crate::string::string;
use crate::token::Token;
use crate::word::{begins_word, quoted, word};
use std::alloc::{AllocError, Global};

// the mark of this byte, and of the next one for `=>`
fn mark(b: u8, rest: &[u8]) -> Option<(Token, &[u8])>
    ensures { option_map (λ x. (x.0, x.1.now)) result ≡ mark_of b rest.now }
{
    match b {
        b'.' => Some((Token::Dot, rest)),
        b',' => Some((Token::Comma, rest)),
        b'(' => Some((Token::Open, rest)),
        b')' => Some((Token::Close, rest)),
        b';' => Some((Token::Semicolon, rest)),
        b'=' => match rest {
            [b'>', after @ ..] => Some((Token::Arrow, after)),
            _ => None,
        },
        _ => None,
    }
}

// by the first byte
#[tactic(auto, unfolding(crate::specs::Cutting::token_of))]
fn cut_token(alloc: Global, bytes: &[u8]) -> Result<Option<(Token, &[u8])>, AllocError>
    ensures { IfOk result (λ found. option_map (λ x. (x.0, x.1.now)) found ≡ token_of bytes.now) }
{
    let [first, rest @ ..] = bytes else {
        return Ok(None);
    };
    let first = *first;
    if begins_word(first) {
        let (text, rest) = word(alloc, bytes)?;
        Ok(Some((Token::Word(text), rest)))
    } else if first == b'`' {
        let found = quoted(alloc, rest)?;
        Ok(found.map(|(text, rest)| (Token::Quoted(text), rest)))
    } else if first == b'\'' || first == b'"' {
        let found = string(alloc, first, rest)?;
        Ok(found.map(|(text, rest)| (Token::Str(text), rest)))
    } else if first == b'-' || first.is_ascii_digit() {
        number(alloc, bytes)
    } else {
        Ok(mark(first, rest))
    }
}

/// The first token of the bytes by the longest match, and the bytes behind it. `None` where they begin no token; a
/// blank begins none.
pub fn next_token(alloc: Global, bytes: &[u8]) -> Result<Option<(Token, &[u8])>, AllocError>
    // What is found is the first token, and stands behind it.
    ensures token { IfOk result (λ found. IfSome found (λ x. IsFirstToken bytes.now x.0 x.1.now)) }
    // Where nothing is found, the bytes begin no token.
    ensures none { IfOk result (λ found. IfNone found (HasNoToken bytes.now)) }
    // The same as a function; `longest_match` says that it is the same.
    ensures cut { IfOk result (λ found. option_map (λ x. (x.0, x.1.now)) found ≡ token_of bytes.now) }
{
    cut_token(alloc, bytes)
}
