//! A statement as it stands in its text.
use ice_store::{Items, Text, TextList};

/// Pairs of texts, in the order in which they stand.
pub type PairTexts = Items<(Text, Text)>;

/// The arguments of a statement, in the order in which they stand.
pub type ArgList = Items<Arg>;

/// A value as it stands in a statement.
#[derive(Debug, Drop)]
pub enum ArgValue {
    /// A string's content, its escapes undone.
    Str(Text),
    /// The text of a number's token.
    Number(Text),
    Bool(bool),
    Null,
    /// The content of the string behind `TIMESTAMP`.
    Moment(Text),
    /// `map('key', 'value', ..)`, the pairs in order.
    Map(PairTexts),
    /// `array(1, 2, ..)`, the texts of its numbers in order.
    Array(TextList),
}

/// An argument: by name, or by its place where it has none.
#[derive(Debug, Drop)]
pub struct Arg {
    pub name: Option<Text>,
    pub value: ArgValue,
}

/// A statement: `CALL catalog.system.procedure(arguments)`.
#[derive(Debug, Drop)]
pub struct Call {
    pub catalog: Text,
    pub procedure: Text,
    pub args: ArgList,
}
