//! Laws of the definitions.
ghost use Rattle.run_refs.specs.Laws.{OneAim, OneSuccessor, OneRefusal, MovesOrIsThere, MovesOrRefuses, IsThereOrRefuses, MainIsCurrent, RefsAreKnown, OneListing, ListsOrLacks, AreDecided, NameNoArgument};

/// On each table a goal has one aim: the ref moves, is there already, or the table refuses, and each in one way. Want of
/// memory aside.
pub fn moves_are_decided()
    ensures aim { OneAim }
    ensures successor { OneSuccessor }
    ensures refusal { OneRefusal }
    ensures moves_or_there { MovesOrIsThere }
    ensures moves_or_refuses { MovesOrRefuses }
    ensures there_or_refuses { IsThereOrRefuses }
{}

/// In well-formed metadata `main` is at the current snapshot, and each ref at a snapshot of the table.
pub fn refs_are_at_snapshots()
    ensures main { MainIsCurrent }
    ensures known { RefsAreKnown }
{}

/// On each table there is one listing from a snapshot, or the table lacks it.
pub fn listings_are_decided()
    ensures one { OneListing }
    ensures lists_or_lacks { ListsOrLacks }
{}

/// The meanings of the ref procedures exclude one another, so that no two of their answers have their cause in one base;
/// and none of them refuses a table for an argument.
pub fn procedures_are_decided()
    ensures decided { AreDecided }
    ensures no_argument { NameNoArgument }
{}
