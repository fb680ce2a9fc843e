//! The statement language: statements as they stand (of `call_text`), and what they ask for.
//!
//! - `command`: what a statement asks for, by procedure.
//! - `value`: the value of one argument.
//! - `typing`: a statement is typed as its command, or the argument is named for which it is refused.
#![tactic(auto)]

mod command;
mod typing;
mod value;

pub use call_arguments::Procedure;
pub use call_text::{
    Arg, ArgList, ArgValue, Call, PairTexts, SyntaxErr, read_statement, write_statement,
};
pub use command::{Command, IdList, OptionValues, Target};
pub use typing::{ArgErr, typed};
