//! The text of each status.
ghost use Rattle.std.specs.Prelude.{◌≡◌, ◌+◌, [], ◌∷◌, codes};
ghost use Rattle.std.specs.Fmt.{decimal, signed_decimal};
ghost use Rattle.std.specs.List.{concat, flat_map};
ghost use Rattle.run_answers.specs.Escapes.{escaped};
ghost use Rattle.run_answers.specs.Messages.{shown, or_none, name_of, message_of};
ghost use Rattle.run_answers.specs.Pieces.{piece_text};

use crate::status::Status;
use commit_protocol::Other;
use ice_store::{Place, Text, What, Where};

/// A piece of a message.
#[derive(Clone, Copy)]
pub(crate) enum Piece<'a> {
    Nothing,
    /// Words of the message itself, which hold nothing to escape.
    Words(&'static str),
    Natural(u128),
    Integer(i64),
    /// A text of the statement or the table, which is written with escapes.
    Content(&'a [u8]),
}

use Piece::{Content, Integer, Natural, Nothing, Words};

/// The pieces of a message, in order.
pub(crate) type Pieces<'a> = [Piece<'a>; 4];

// the number of a word, counted from 1
fn counted<'a>(word: usize) -> Piece<'a>
    ensures { piece_text result ≡ decimal (word + 1) }
{
    Natural(word as u128 + 1)
}

fn number<'a>(n: u64) -> Piece<'a>
    ensures { piece_text result ≡ decimal n }
{
    Natural(n as u128)
}

fn signed<'a>(id: &i64) -> Piece<'a>
    ensures { piece_text result ≡ signed_decimal id.now }
{
    Integer(*id)
}

fn written(text: &Text) -> Piece<'_>
    ensures { piece_text result ≡ escaped text.now }
{
    Content(text.inner())
}

fn shown(place: &Place) -> Piece<'_>
    ensures { piece_text result ≡ shown place.now }
{
    Content(place.as_bytes())
}

fn id_or_none<'a>(id: Option<i64>) -> Piece<'a>
    ensures { piece_text result ≡ or_none id }
{
    match id {
        Some(id) => Integer(id),
        None => Words("none"),
    }
}

fn name_of(what: What) -> &'static str
    ensures { result.now ≡ name_of what }
{
    match what {
        What::Codec => "Codec",
        What::FormatVersion => "FormatVersion",
        What::Transform => "Transform",
        What::SchemaSize => "SchemaSize",
        What::BlockBytes => "BlockBytes",
        What::ItemCount => "ItemCount",
        What::FileBytes => "FileBytes",
        What::GroupBytes => "GroupBytes",
        What::NoManifestList => "NoManifestList",
        What::VersionNumber => "VersionNumber",
        What::Sequence => "Sequence",
    }
}

// words alone
fn words<'a>(words: &'static str) -> Pieces<'a>
    ensures { flat_map piece_text result ≡ words.now }
{
    [Words(words), Nothing, Nothing, Nothing]
}

// words, and what they speak of
fn named<'a>(words: &'static str, piece: Piece<'a>) -> Pieces<'a>
    ensures { flat_map piece_text result ≡ concat (words.now ∷ piece_text piece.entry ∷ []) }
{
    [Words(words), piece, Nothing, Nothing]
}

// a relation between two pieces, with words before each
fn related<'a>(
    words: &'static str,
    first: Piece<'a>,
    relation: &'static str,
    second: Piece<'a>,
) -> Pieces<'a>
    ensures { flat_map piece_text result ≡ concat (words.now ∷ piece_text first.entry ∷ relation.now ∷ piece_text second.entry ∷ []) }
{
    [Words(words), first, Words(relation), second]
}

// what is wrong with the statement that is the word with this number, counted from 0
fn statement<'a>(word: usize, fault: &'static str, piece: Piece<'a>) -> Pieces<'a>
    ensures { flat_map piece_text result ≡ concat (codes "statement " ∷ decimal (word + 1) ∷ fault.now ∷ piece_text piece.entry ∷ []) }
{
    related("statement ", counted(word), fault, piece)
}

// how a snapshot stands to something else
fn snapshot<'a>(id: &i64, relation: &'static str, piece: Piece<'a>) -> Pieces<'a>
    ensures { flat_map piece_text result ≡ concat (codes "snapshot " ∷ signed_decimal id.now ∷ relation.now ∷ piece_text piece.entry ∷ []) }
{
    related("snapshot ", signed(id), relation, piece)
}

fn damaged<'a>(place: &'a Place, at: &'a Where) -> Pieces<'a>
    ensures { flat_map piece_text result ≡ message_of (Status.Damaged place.now at.now) }
{
    match at {
        Where::Byte(at) => related("damaged ", shown(place), " at byte ", number(*at)),
        Where::Path(path) => related("damaged ", shown(place), " at field ", written(path)),
    }
}

fn conflict<'a>(place: &'a Place, other: &'a Other) -> Pieces<'a>
    ensures { flat_map piece_text result ≡ message_of (Status.Conflict place.now other.now) }
{
    match other {
        Other::Gone => related("conflict on ", shown(place), ": gone", Nothing),
        Other::Schema => related("conflict on ", shown(place), ": schema", Nothing),
        Other::Manifest => related("conflict on ", shown(place), ": manifest gone", Nothing),
        Other::Delete(by) => related("conflict on ", shown(place), ": delete ", shown(by)),
    }
}

fn too_recent<'a>(older_than: u64, limit: u64) -> Pieces<'a>
    ensures { flat_map piece_text result ≡ message_of (Status.TooRecent older_than limit) }
{
    let limit = number(limit);
    related("older_than ", number(older_than), " is after ", limit)
}

// a table that says another location than where it stands
fn elsewhere<'a>(table: &'a Place, location: &'a Text) -> Pieces<'a>
    ensures { flat_map piece_text result ≡ message_of (Status.LocationDiffers table.now location.now) }
{
    let location = written(location);
    related("table at ", shown(table), " says location ", location)
}

// the commit of a version that may be there
fn unknown<'a>(version: u64) -> Pieces<'a>
    ensures { flat_map piece_text result ≡ message_of (Status.CommitUnknown version) }
{
    related(
        "commit of version ",
        number(version),
        " is unknown",
        Nothing,
    )
}

/// The message of a status in pieces. A status that is done has none.
pub(crate) fn pieces_of(status: &Status) -> Pieces<'_>
    ensures { flat_map piece_text result ≡ message_of status.now }
{
    match status {
        Status::Done => [Nothing, Nothing, Nothing, Nothing],
        Status::BadStatement { word, at } => {
            statement(*word, ": syntax at byte ", number(*at as u64))
        }
        Status::BadArgument { word, name } => statement(*word, ": bad argument ", written(name)),
        Status::UnknownSnapshot { id } => named("unknown snapshot ", signed(id)),
        Status::UnknownRef { name } => named("unknown ref ", written(name)),
        Status::NotAncestor { id, of } => snapshot(id, " is not an ancestor of ", id_or_none(*of)),
        Status::StillReferenced { id, name } => {
            snapshot(id, " is still referenced by ", written(name))
        }
        Status::GcDisabled => words("gc.enabled is false"),
        Status::TooRecent { older_than, limit } => too_recent(*older_than, *limit),
        Status::NoTable { place } => named("no table at ", shown(place)),
        Status::LocationDiffers { table, location } => elsewhere(table, location),
        Status::Missing { place } => named("missing ", shown(place)),
        Status::Damaged { place, at } => damaged(place, at),
        Status::Unsupported { place, what } => {
            related("unsupported ", Words(name_of(*what)), " in ", shown(place))
        }
        Status::OutsidePrefix { path } => named("outside the source prefix: ", written(path)),
        Status::UnreadableDelete { place } => named("unreadable delete file ", shown(place)),
        Status::SamePrefix => words("source and target prefix are the same"),
        Status::UnknownVersion { name } => named("unknown version ", written(name)),
        Status::Conflict { place, other } => conflict(place, other),
        Status::Contended { version } => named("lost the race up to version ", number(*version)),
        Status::StoreFault { place } => named("store failed at ", shown(place)),
        Status::CommitUnknown { version } => unknown(*version),
        Status::OutFault => words("output failed"),
        Status::OutOfMemory => words("out of memory"),
        Status::NameTaken { place } => named("name taken ", shown(place)),
    }
}
