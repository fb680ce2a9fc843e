//! The message line, put on a sink piece by piece, without memory.
ghost use Rattle.std.specs.Prelude.{◌≡◌, ◌++◌, codes};
ghost use Rattle.std.specs.List.{flat_map};
ghost use Rattle.ice_store.specs.Calls.{Rose};
ghost use Rattle.ice_store.specs.Given.{Takes, SinkCause};
ghost use Rattle.run_answers.specs.Escapes.{escaped};
ghost use Rattle.run_answers.specs.Messages.{message_line};
ghost use Rattle.run_answers.specs.Pieces.{piece_text};
ghost use Rattle.run_answers.specs.Puts.{IsPut, TakesPrefix, TakesAll};

use crate::escape::escape_of;
use crate::message::{Piece, pieces_of};
use crate::status::Status;
use ice_store::{Failed, Sink};
use itoa::Buffer;

/// Puts the message line of a status, and nothing where the status is done. The first put that fails is the last one, so
/// that a prefix of the line is taken. Takes no memory.
pub fn put_message<X: Sink>(err: &mut X, status: &Status) -> Result<(), Failed>
    ensures contents { Takes (X.contents err.old) (X.contents err.new) (message_line status.now) result }
    ensures cause { SinkCause (X.faults err.old) (X.faults err.new) result }
    ensures prefix { TakesPrefix (X.contents err.old) (X.contents err.new) (message_line status.now) }
    ensures whole { (Rose (X.faults err.old) (X.faults err.new) → ⊥) → TakesAll (X.contents err.old) (X.contents err.new) (message_line status.now) }
    ensures done { status.now ≡ Status.Done → err.new ≡ err.old }
{
    if status.is_done() {
        return Ok(());
    }
    put_line(err, &pieces_of(status))
}

// the pieces with the program's name before them, and a line feed
fn put_line<X: Sink>(err: &mut X, pieces: &[Piece]) -> Result<(), Failed>
    ensures { IsPut (X.contents err.old) (X.contents err.new) (X.faults err.old) (X.faults err.new) (codes "upkeep: " ++ flat_map piece_text pieces.now ++ codes "\n") result }
{
    err.put(b"upkeep: ")?;
    put_pieces(err, pieces)?;
    err.put(b"\n")
}

fn put_pieces<X: Sink>(err: &mut X, pieces: &[Piece]) -> Result<(), Failed>
    ensures { IsPut (X.contents err.old) (X.contents err.new) (X.faults err.old) (X.faults err.new) (flat_map piece_text pieces.now) result }
{
    for piece in pieces {
        put_piece(err, *piece)?;
    }
    Ok(())
}

fn put_piece<X: Sink>(err: &mut X, piece: Piece) -> Result<(), Failed>
    ensures { IsPut (X.contents err.old) (X.contents err.new) (X.faults err.old) (X.faults err.new) (piece_text piece.entry) result }
{
    match piece {
        Piece::Nothing => Ok(()),
        Piece::Words(words) => err.put(words.as_bytes()),
        Piece::Natural(n) => err.put(Buffer::new().format(n).as_bytes()),
        Piece::Integer(n) => err.put(Buffer::new().format(n).as_bytes()),
        Piece::Content(text) => put_escaped(err, text),
    }
}

// what stands between two escapes is put at once
fn put_escaped<X: Sink>(err: &mut X, text: &[u8]) -> Result<(), Failed>
    ensures { IsPut (X.contents err.old) (X.contents err.new) (X.faults err.old) (X.faults err.new) (escaped text.now) result }
{
    let mut start = 0;
    for i in 0..text.len() {
        if let Some(written) = escape_of(text[i]) {
            err.put(&text[start..i])?;
            err.put(written)?;
            start = i + 1;
        }
    }
    err.put(&text[start..])
}
