//! A text is read as a statement, token by token.
ghost use Rattle.std.specs.Prelude.{◌≡◌, ◌≤◌, ℕ, length, IfOk, Ok, Err};
ghost use Rattle.std.specs.Option.{option_map};
ghost use Rattle.std.specs.List.{position, position_or_len};
ghost use Rattle.call_text.specs.declared.call.Call.{Call as AnyCall};
ghost use Rattle.call_text.specs.Statement.{is_no_blank, past_blanks, Spells, IsFault, Answers};
ghost use Rattle.call_text.specs.Steps.{token_step};
ghost use Rattle.call_text.specs.Writing.{CanBeWritten};

use crate::call::Call;
use crate::error::SyntaxErr;
use crate::next::next_token;
use crate::state::State;
use ice_store::Text;
use std::alloc::{AllocError, Global};

fn is_no_blank(b: u8) -> bool
    ensures { result ≡ is_no_blank b }
{
    !(b == b' ' || b == b'\t' || b == b'\n' || b == b'\r')
}

fn blanks_end(bytes: &[u8]) -> Option<usize>
    ensures { result ≡ position is_no_blank bytes.now }
{
    bytes.iter().position(|b| is_no_blank(*b))
}

#[tactic(auto, using(crate::proofs::Positions::position_or))]
fn blanks_len(bytes: &[u8]) -> usize
    ensures value { result ≡ position_or_len is_no_blank bytes.now }
    ensures within { result ≤ length bytes.now }
{
    blanks_end(bytes).unwrap_or(bytes.len())
}

#[tactic(auto, unfolding(crate::specs::Statement::past_blanks))]
fn past_blanks(bytes: &[u8]) -> &[u8]
    ensures value { result.now ≡ past_blanks bytes.now }
    ensures within { length result.now ≤ length bytes.now }
{
    let len = blanks_len(bytes);
    &bytes[len..]
}

// one token further, and past the blanks behind it; `None` where there is no token or no statement goes on with it
fn token_step(
    alloc: Global,
    state: State,
    bytes: &[u8],
) -> Result<Option<(State, &[u8])>, AllocError>
    ensures { IfOk result (λ next. option_map (λ x. (x.0, x.1.now)) next ≡ token_step state bytes.now) }
{
    match next_token(alloc, bytes)? {
        Some((token, after)) => match state.step(alloc, token)? {
            Some(next) => Ok(Some((next, past_blanks(after)))),
            None => Ok(None),
        },
        None => Ok(None),
    }
}

fn read(alloc: Global, bytes: &[u8]) -> Result<Call, SyntaxErr>
    ensures ok { IfOk result (Spells bytes.now) }
    ensures bad { (at : ℕ) → result ≡ Err (SyntaxErr.Bad at) → IsFault bytes.now at }
{
    let mut state = State::Start;
    let mut rest = past_blanks(bytes);
    while !rest.is_empty() {
        let left = rest.len();
        match token_step(alloc, state, rest)? {
            Some((next, after)) => {
                state = next;
                rest = after;
            }
            None => {
                return Err(SyntaxErr::Bad {
                    at: bytes.len() - left,
                });
            }
        }
    }
    match state.finish() {
        Some(call) => Ok(call),
        None => Err(SyntaxErr::Bad { at: bytes.len() }),
    }
}

/// The call that the text spells, by the grammar in `specs/Grammar.antt`. `Bad` with the place of its fault where it
/// spells none, and `Memory` where memory runs out.
pub fn read_statement(alloc: Global, text: &Text) -> Result<Call, SyntaxErr>
    // A text that spells a call is read as this call, unless memory runs out.
    ensures spelled { (c : AnyCall) → Spells text.now c → Answers result (Ok c) }
    // What is read is what the text spells.
    ensures ok { IfOk result (Spells text.now) }
    // A text that is at fault at a place is refused there, unless memory runs out.
    ensures fault { (at : ℕ) → IsFault text.now at → Answers result (Err at) }
    // What is refused is at fault at this place.
    ensures bad { (at : ℕ) → result ≡ Err (SyntaxErr.Bad at) → IsFault text.now at }
    // What is read can be written.
    ensures can_be_written { IfOk result CanBeWritten }
{
    read(alloc, text.inner())
}
