//! How far a statement was read.
ghost use Rattle.std.specs.Prelude.{◌≡◌, IfOk};
ghost use Rattle.call_text.specs.Steps.{argument_step, behind_comma, finished, state_step, with_arg};

use crate::call::{Arg, ArgValue, Call};
use crate::keyword::{Keyword, is_keyword};
use crate::token::Token;
use crate::value_state::{ValueState, begun_by_word};
use ice_store::{Items, Text};
use std::alloc::{AllocError, Global};

/// How far a statement was read, with what was read of it.
#[derive(Debug, Drop)]
pub enum State {
    Start,
    /// Behind `CALL`.
    Called,
    Catalog(Text),
    CatalogDot(Text),
    System(Text),
    SystemDot(Text),
    Procedure(Text, Text),
    /// Behind the opening bracket.
    First(Call),
    /// Behind the first word in the brackets, which is a name or begins a value.
    FirstWord(Call, Text),
    /// Behind the comma after a named argument.
    NextName(Call),
    /// Behind an argument's name.
    Named(Call, Text),
    /// In an argument's value, with its name where it has one.
    Value(Call, Option<Text>, ValueState),
    /// Behind the closing bracket.
    Closed(Call),
    /// Behind the semicolon.
    Ended(Call),
}

// one argument more
fn with_arg(call: Call, name: Option<Text>, value: ArgValue) -> Result<Call, AllocError>
    ensures { IfOk result (λ c. c ≡ with_arg call name value) }
{
    let Call {
        catalog,
        procedure,
        args,
    } = call;
    let mut args = args;
    args.push(Arg { name, value })?;
    Ok(Call {
        catalog,
        procedure,
        args,
    })
}

// behind the comma after an argument: after a named one names follow, and after another one values
fn argument_comma(call: Call, name: Option<Text>, value: ArgValue) -> Result<State, AllocError>
    ensures { IfOk result (λ s. s ≡ behind_comma name (with_arg call name value)) }
{
    let named = name.is_some();
    let call = with_arg(call, name, value)?;
    if named {
        Ok(State::NextName(call))
    } else {
        Ok(State::Value(call, None, ValueState::Nothing))
    }
}

// one token further in an argument
#[tactic(auto, unfolding(crate::specs::Steps::argument_step, crate::specs::Steps::value_step))]
fn argument_step(
    alloc: Global,
    call: Call,
    name: Option<Text>,
    state: ValueState,
    token: Token,
) -> Result<Option<State>, AllocError>
    ensures { IfOk result (λ next. next ≡ argument_step call name state token) }
{
    match state {
        ValueState::Whole(value) => match token {
            Token::Comma => Ok(Some(argument_comma(call, name, value)?)),
            Token::Close => Ok(Some(State::Closed(with_arg(call, name, value)?))),
            _ => Ok(None),
        },
        state => match state.step(alloc, token)? {
            Some(next) => Ok(Some(State::Value(call, name, next))),
            None => Ok(None),
        },
    }
}

// the word `CALL`
#[tactic(auto, unfolding(crate::specs::Steps::state_step))]
fn step_from_start(token: Token) -> Option<State>
    ensures { result ≡ state_step State.Start token }
{
    match token {
        Token::Word(word) => {
            if is_keyword(Keyword::Call, &word) {
                Some(State::Called)
            } else {
                None
            }
        }
        _ => None,
    }
}

// the word `SYSTEM`, behind the catalog and a dot
#[tactic(auto, unfolding(crate::specs::Steps::state_step))]
fn step_from_catalog(catalog: Text, token: Token) -> Option<State>
    ensures { result ≡ state_step (State.CatalogDot catalog) token }
{
    match token {
        Token::Word(word) => {
            if is_keyword(Keyword::System, &word) {
                Some(State::System(catalog))
            } else {
                None
            }
        }
        _ => None,
    }
}

// the procedure's name
#[tactic(auto, unfolding(crate::specs::Steps::state_step))]
fn step_from_system(catalog: Text, token: Token) -> Option<State>
    ensures { result ≡ state_step (State.SystemDot catalog) token }
{
    match token {
        Token::Word(name) | Token::Quoted(name) => Some(State::Procedure(catalog, name)),
        _ => None,
    }
}

// the opening bracket
#[tactic(auto, unfolding(crate::specs::Steps::state_step))]
fn step_from_procedure(alloc: Global, catalog: Text, procedure: Text, token: Token) -> Option<State>
    ensures { result ≡ state_step (State.Procedure catalog procedure) token }
{
    match token {
        Token::Open => Some(State::First(Call {
            catalog,
            procedure,
            args: Items::empty(alloc),
        })),
        _ => None,
    }
}

// the first token in the brackets
#[tactic(auto, unfolding(crate::specs::Steps::state_step))]
fn step_from_first(alloc: Global, call: Call, token: Token) -> Result<Option<State>, AllocError>
    ensures { IfOk result (λ next. next ≡ state_step (State.First call) token) }
{
    match token {
        Token::Close => Ok(Some(State::Closed(call))),
        Token::Word(word) => Ok(Some(State::FirstWord(call, word))),
        Token::Quoted(name) => Ok(Some(State::Named(call, name))),
        token => argument_step(alloc, call, None, ValueState::Nothing, token),
    }
}

// the token behind the first word in the brackets: an arrow, or a part of a value
#[tactic(auto, unfolding(crate::specs::Steps::state_step))]
fn step_from_first_word(
    alloc: Global,
    call: Call,
    word: Text,
    token: Token,
) -> Result<Option<State>, AllocError>
    ensures { IfOk result (λ next. next ≡ state_step (State.FirstWord call word) token) }
{
    match token {
        Token::Arrow => Ok(Some(State::Value(call, Some(word), ValueState::Nothing))),
        token => match begun_by_word(&word) {
            Some(state) => argument_step(alloc, call, None, state, token),
            None => Ok(None),
        },
    }
}

impl State {
    /// One token further. `None` where no statement goes on so.
    #[tactic(auto, unfolding(crate::specs::Steps::state_step))]
    pub fn step(self, alloc: Global, token: Token) -> Result<Option<State>, AllocError>
        ensures { IfOk result (λ next. next ≡ state_step self token) }
    {
        match self {
            State::Start => Ok(step_from_start(token)),
            State::Called => match token {
                Token::Word(name) | Token::Quoted(name) => Ok(Some(State::Catalog(name))),
                _ => Ok(None),
            },
            State::Catalog(catalog) => match token {
                Token::Dot => Ok(Some(State::CatalogDot(catalog))),
                _ => Ok(None),
            },
            State::CatalogDot(catalog) => Ok(step_from_catalog(catalog, token)),
            State::System(catalog) => match token {
                Token::Dot => Ok(Some(State::SystemDot(catalog))),
                _ => Ok(None),
            },
            State::SystemDot(catalog) => Ok(step_from_system(catalog, token)),
            State::Procedure(catalog, procedure) => {
                Ok(step_from_procedure(alloc, catalog, procedure, token))
            }
            State::First(call) => step_from_first(alloc, call, token),
            State::FirstWord(call, word) => step_from_first_word(alloc, call, word, token),
            State::NextName(call) => match token {
                Token::Word(name) | Token::Quoted(name) => Ok(Some(State::Named(call, name))),
                _ => Ok(None),
            },
            State::Named(call, name) => match token {
                Token::Arrow => Ok(Some(State::Value(call, Some(name), ValueState::Nothing))),
                _ => Ok(None),
            },
            State::Value(call, name, state) => argument_step(alloc, call, name, state, token),
            State::Closed(call) => match token {
                Token::Semicolon => Ok(Some(State::Ended(call))),
                _ => Ok(None),
            },
            State::Ended(_) => Ok(None),
        }
    }

    /// The call, where a statement may end here.
    pub fn finish(self) -> Option<Call>
        ensures { result ≡ finished self }
    {
        match self {
            State::Closed(call) | State::Ended(call) => Some(call),
            _ => None,
        }
    }
}
