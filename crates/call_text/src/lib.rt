//! Statements as texts: after the `CALL` form of Iceberg's Spark procedures.
//!
//! - `token`, `next`: the tokens of a statement, cut off one by one by the longest match; their forms are defined in
//!   `specs/Spelling.antt`.
//! - `word`, `string`, `number`: identifiers, strings and numbers, the tokens that are more than a mark.
//! - `token_laws`: the token that is cut off is the first one by the longest match.
//! - `call`: a statement as it stands, with nothing said yet of its procedure or the types of its values.
//! - `read`, `write`: a text is read as a statement, and a statement written as a text.
//! - `keyword`: the words of the language.
//! - `state`, `value_state`: how far a statement, and a value in it, was read.
//! - `error`: why a text isn't read.
//! - `laws`: what the definitions exclude, and that every statement that is read can be written.
//!
//! The grammar is defined in `specs/Grammar.antt`, production by production.
#![tactic(auto)]

mod call;
mod error;
mod keyword;
mod laws;
mod next;
mod number;
mod read;
mod state;
mod string;
mod token;
mod token_laws;
mod value_state;
mod word;
mod write;

pub use call::{Arg, ArgList, ArgValue, Call, PairTexts};
pub use error::SyntaxErr;
pub use laws::{read_calls_can_be_written, statements_are_unambiguous};
pub use next::next_token;
pub use read::read_statement;
pub use token::Token;
pub use token_laws::longest_match;
pub use word::is_plain;
pub use write::write_statement;
