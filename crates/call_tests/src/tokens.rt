use call_text::{Token, is_plain, next_token};
use ice_store::Text;
use std::alloc::{AllocError, Global};
use std::test::Fail;

// the token's form, its text, and how many bytes stand behind it
fn first(alloc: Global, bytes: &str) -> Result<Option<(&'static str, Text, usize)>, AllocError> {
    let nothing = Text::new(Vec::new(alloc));
    Ok(match next_token(alloc, bytes.as_bytes())? {
        None => None,
        Some((token, rest)) => {
            let (form, text) = match token {
                Token::Word(text) => ("word", text),
                Token::Quoted(text) => ("quoted", text),
                Token::Str(text) => ("string", text),
                Token::Number(text) => ("number", text),
                Token::Dot => (".", nothing),
                Token::Comma => (",", nothing),
                Token::Open => ("(", nothing),
                Token::Close => (")", nothing),
                Token::Arrow => ("=>", nothing),
                Token::Semicolon => (";", nothing),
            };
            Some((form, text, rest.len()))
        }
    })
}

#[test]
fn first_tokens_are_the_longest(rt: HostRuntime) -> Result<(), Fail> {
    for (bytes, form, text, behind) in [
        ("_a1.b", "word", "_a1", 2),
        ("`a b`c", "quoted", "a b", 1),
        ("'a\"\\'\\\\\\n'b", "string", "a\"'\\\n", 1),
        ("\"it's\" ", "string", "it's", 1),
        ("''", "string", "", 0),
        ("-12Lx", "number", "-12L", 1),
        (
            "1234567890123456789012345678901234567890",
            "number",
            "123456789012345678901234567890123456789",
            1,
        ),
        (".,", ".", "", 1),
        (",", ",", "", 0),
        ("()", "(", "", 1),
        (")", ")", "", 0),
        ("=>=", "=>", "", 1),
        (";", ";", "", 0),
    ] {
        let found = first(rt.alloc(), bytes)?;
        assert!(rt;
            match &found {
                Some((is_form, is_text, is_behind)) => {
                    *is_form == form
                        && is_text.inner().as_slice() == text.as_bytes()
                        && *is_behind == behind
                }
                None => false,
            },
            "{bytes}"
        );
    }
    Ok(())
}

#[test]
fn other_bytes_begin_no_token(rt: HostRuntime) -> Result<(), Fail> {
    for bytes in [
        "", " a", "-", "-a", "=", "= >", "'a", "'a\\'", "'\\x'", "``", "`a", "+1", "é",
    ] {
        assert!(rt; first(rt.alloc(), bytes)?.is_none(), "{bytes}");
    }
    Ok(())
}

#[test]
fn plain_names_need_no_backquotes(rt: HostRuntime) -> Result<(), Fail> {
    for (name, plain) in [
        ("a", true),
        ("_", true),
        ("Z9_", true),
        ("", false),
        ("9a", false),
        ("a-b", false),
        ("a b", false),
        ("é", false),
    ] {
        assert_eq!(rt; is_plain(name.as_bytes()), plain, "{name}");
    }
    Ok(())
}
