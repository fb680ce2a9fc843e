//! How far a value was read.
ghost use Rattle.std.specs.Prelude.{◌≡◌, IfOk};
ghost use Rattle.call_text.specs.Steps.{begun_by_word, value_step};

use crate::call::{ArgValue, PairTexts};
use crate::keyword::{Keyword, is_keyword};
use crate::token::Token;
use ice_store::{Items, Text, TextList};
use std::alloc::{AllocError, Global};

/// How far a value was read, with what was read of it.
#[derive(Debug, Drop)]
pub enum ValueState {
    Nothing,
    TimestampWord,
    MapWord,
    MapOpen,
    MapKey(PairTexts, Text),
    MapKeyComma(PairTexts, Text),
    MapPairs(PairTexts),
    MapPairsComma(PairTexts),
    ArrayWord,
    ArrayOpen,
    ArrayNumbers(TextList),
    ArrayNumbersComma(TextList),
    Whole(ArgValue),
}

/// Where a value stands behind its first token, an identifier without backquotes. `None` where none begins so.
#[tactic(auto, unfolding(crate::specs::Steps::begun_by, crate::specs::Keywords::keyword_of, crate::specs::Keywords::spelling))]
pub fn begun_by_word(word: &Text) -> Option<ValueState>
    ensures { result ≡ begun_by_word word.now }
{
    if is_keyword(Keyword::Call, word) || is_keyword(Keyword::System, word) {
        None
    } else if is_keyword(Keyword::True, word) {
        Some(ValueState::Whole(ArgValue::Bool(true)))
    } else if is_keyword(Keyword::False, word) {
        Some(ValueState::Whole(ArgValue::Bool(false)))
    } else if is_keyword(Keyword::Null, word) {
        Some(ValueState::Whole(ArgValue::Null))
    } else if is_keyword(Keyword::Timestamp, word) {
        Some(ValueState::TimestampWord)
    } else if is_keyword(Keyword::Map, word) {
        Some(ValueState::MapWord)
    } else if is_keyword(Keyword::Array, word) {
        Some(ValueState::ArrayWord)
    } else {
        None
    }
}

// the first token of a value
#[tactic(auto, unfolding(crate::specs::Steps::value_step))]
fn step_from_nothing(token: Token) -> Option<ValueState>
    ensures { result ≡ value_step ValueState.Nothing token }
{
    match token {
        Token::Word(word) => begun_by_word(&word),
        Token::Str(text) => Some(ValueState::Whole(ArgValue::Str(text))),
        Token::Number(text) => Some(ValueState::Whole(ArgValue::Number(text))),
        _ => None,
    }
}

// the first token in a map's brackets
#[tactic(auto, unfolding(crate::specs::Steps::value_step))]
fn step_from_map(alloc: Global, token: Token) -> Option<ValueState>
    ensures { result ≡ value_step ValueState.MapOpen token }
{
    match token {
        Token::Str(key) => Some(ValueState::MapKey(Items::empty(alloc), key)),
        Token::Close => Some(ValueState::Whole(ArgValue::Map(Items::empty(alloc)))),
        _ => None,
    }
}

// the value behind a key and its comma
#[tactic(auto, unfolding(crate::specs::Steps::value_step))]
fn step_from_key(
    pairs: PairTexts,
    key: Text,
    token: Token,
) -> Result<Option<ValueState>, AllocError>
    ensures { IfOk result (λ next. next ≡ value_step (ValueState.MapKeyComma pairs key) token) }
{
    match token {
        Token::Str(value) => {
            let mut pairs = pairs;
            pairs.push((key, value))?;
            Ok(Some(ValueState::MapPairs(pairs)))
        }
        _ => Ok(None),
    }
}

// the first token in an array's brackets
#[tactic(auto, unfolding(crate::specs::Steps::value_step))]
fn step_from_array(alloc: Global, token: Token) -> Result<Option<ValueState>, AllocError>
    ensures { IfOk result (λ next. next ≡ value_step ValueState.ArrayOpen token) }
{
    match token {
        Token::Number(number) => {
            let mut numbers = Items::empty(alloc);
            numbers.push(number)?;
            Ok(Some(ValueState::ArrayNumbers(numbers)))
        }
        Token::Close => Ok(Some(ValueState::Whole(ArgValue::Array(Items::empty(alloc))))),
        _ => Ok(None),
    }
}

// the number behind a comma
#[tactic(auto, unfolding(crate::specs::Steps::value_step))]
fn step_from_numbers(numbers: TextList, token: Token) -> Result<Option<ValueState>, AllocError>
    ensures { IfOk result (λ next. next ≡ value_step (ValueState.ArrayNumbersComma numbers) token) }
{
    match token {
        Token::Number(number) => {
            let mut numbers = numbers;
            numbers.push(number)?;
            Ok(Some(ValueState::ArrayNumbers(numbers)))
        }
        _ => Ok(None),
    }
}

impl ValueState {
    /// One token further. `None` where no value goes on so.
    #[tactic(auto, unfolding(crate::specs::Steps::value_step))]
    pub fn step(self, alloc: Global, token: Token) -> Result<Option<ValueState>, AllocError>
        ensures { IfOk result (λ next. next ≡ value_step self token) }
    {
        match self {
            ValueState::Nothing => Ok(step_from_nothing(token)),
            ValueState::TimestampWord => match token {
                Token::Str(text) => Ok(Some(ValueState::Whole(ArgValue::Moment(text)))),
                _ => Ok(None),
            },
            ValueState::MapWord => match token {
                Token::Open => Ok(Some(ValueState::MapOpen)),
                _ => Ok(None),
            },
            ValueState::MapOpen => Ok(step_from_map(alloc, token)),
            ValueState::MapKey(pairs, key) => match token {
                Token::Comma => Ok(Some(ValueState::MapKeyComma(pairs, key))),
                _ => Ok(None),
            },
            ValueState::MapKeyComma(pairs, key) => step_from_key(pairs, key, token),
            ValueState::MapPairs(pairs) => match token {
                Token::Comma => Ok(Some(ValueState::MapPairsComma(pairs))),
                Token::Close => Ok(Some(ValueState::Whole(ArgValue::Map(pairs)))),
                _ => Ok(None),
            },
            ValueState::MapPairsComma(pairs) => match token {
                Token::Str(key) => Ok(Some(ValueState::MapKey(pairs, key))),
                _ => Ok(None),
            },
            ValueState::ArrayWord => match token {
                Token::Open => Ok(Some(ValueState::ArrayOpen)),
                _ => Ok(None),
            },
            ValueState::ArrayOpen => step_from_array(alloc, token),
            ValueState::ArrayNumbers(numbers) => match token {
                Token::Comma => Ok(Some(ValueState::ArrayNumbersComma(numbers))),
                Token::Close => Ok(Some(ValueState::Whole(ArgValue::Array(numbers)))),
                _ => Ok(None),
            },
            ValueState::ArrayNumbersComma(numbers) => step_from_numbers(numbers, token),
            ValueState::Whole(_) => Ok(None),
        }
    }
}
