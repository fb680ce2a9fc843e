//! The words of the language.
ghost use Rattle.std.specs.Prelude.{◌≡◌};
ghost use Rattle.call_text.specs.Keywords.{is_keyword, spelling};

use ice_store::Text;

/// A word of the language. It is an identifier without backquotes, in any letter case.
#[derive(Clone, Copy, Debug)]
pub enum Keyword {
    Call,
    System,
    True,
    False,
    Null,
    Timestamp,
    Map,
    Array,
}

#[tactic(auto, unfolding(crate::specs::Keywords::spelling))]
fn spelling(keyword: Keyword) -> &'static [u8]
    ensures { result.now ≡ spelling keyword }
{
    match keyword {
        Keyword::Call => b"call",
        Keyword::System => b"system",
        Keyword::True => b"true",
        Keyword::False => b"false",
        Keyword::Null => b"null",
        Keyword::Timestamp => b"timestamp",
        Keyword::Map => b"map",
        Keyword::Array => b"array",
    }
}

/// Whether an identifier without backquotes is this word.
pub fn is_keyword(keyword: Keyword, word: &Text) -> bool
    ensures { result ≡ is_keyword keyword word.now }
{
    word.inner().eq_ignore_ascii_case(spelling(keyword))
}
