//! A token.
use ice_store::Text;

/// A token of a statement.
#[derive(Debug, Drop)]
pub enum Token {
    /// An identifier without backquotes.
    Word(Text),
    /// An identifier between backquotes, without them.
    Quoted(Text),
    /// A string's content, its escapes undone.
    Str(Text),
    /// A number's text, with its sign and its ending `L`.
    Number(Text),
    Dot,
    Comma,
    Open,
    Close,
    /// `=>`
    Arrow,
    Semicolon,
}
