//! Strings, and the escapes in them.
ghost use Rattle.std.specs.Prelude.{◌≡◌, IfOk, false};
ghost use Rattle.std.specs.Option.{option_map};
ghost use Rattle.call_text.specs.Characters.{unescaped};
ghost use Rattle.call_text.specs.Cutting.{string_of};

use ice_store::Text;
use std::alloc::{AllocError, Global};

fn unescaped(letter: u8) -> Option<u8>
    ensures { result ≡ unescaped letter }
{
    match letter {
        b'\'' | b'"' | b'\\' => Some(letter),
        b'n' => Some(b'\n'),
        b't' => Some(b'\t'),
        _ => None,
    }
}

/// The content of a string behind its first quote. `None` where it doesn't end, or has an escape that is none.
pub fn string(alloc: Global, quote: u8, bytes: &[u8]) -> Result<Option<(Text, &[u8])>, AllocError>
    ensures { IfOk result (λ found. option_map (λ x. (x.0, x.1.now)) found ≡ string_of quote false bytes.now) }
{
    let mut content = Vec::new(alloc);
    let mut escape = false;
    let mut rest = bytes;
    while let [b, after @ ..] = rest {
        let b = *b;
        rest = after;
        if escape {
            match unescaped(b) {
                Some(c) => content.push(c)?,
                None => return Ok(None),
            }
            escape = false;
        } else if b == quote {
            return Ok(Some((Text::new(content), rest)));
        } else if b == b'\\' {
            escape = true;
        } else {
            content.push(b)?;
        }
    }
    Ok(None)
}
