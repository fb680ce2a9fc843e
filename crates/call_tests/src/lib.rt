//! Tests of the statement language: what is read, written again, typed and refused.
//!
//! - `tokens`: the first token of a text.
//! - `statements`: statements read, written and refused.
//! - `commands`: calls typed as commands, and the names for which they are refused.
#![tactic(auto)]

#[cfg(test)]
mod commands;
#[cfg(test)]
mod statements;
#[cfg(test)]
mod tokens;
