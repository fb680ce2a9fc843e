//! Worked examples: a table with three snapshots, a branch beside or ahead of `main`, and a tag.
ghost use Rattle.std.specs.Prelude.{◌<◌, ◌^◌};

use crate::moves::{Moved, move_on};
use crate::{AncestorList, Goal, RefMove, list_ancestors};
use commit_protocol::{AttemptErr, Built, Refusal};
use ice_store::Text;
use std::alloc::{AllocError, Global};
use std::test::Fail;
use table_metadata::{EditErr, Meta, read_meta};

// In a function with no clause, so that no proof carries the text.
fn three_snapshots() -> &'static str {
    "{\"current-schema-id\":0,\"current-snapshot-id\":33,\"default-sort-order-id\":0,\"default-spec-id\":0,\"format-version\":2,\"last-column-id\":2,\"last-partition-id\":999,\"last-sequence-number\":3,\"last-updated-ms\":3000,\"location\":\"/w/t\",\"metadata-log\":[],\"partition-specs\":[{\"fields\":[],\"spec-id\":0}],\"properties\":{},\"refs\":{\"main\":{\"snapshot-id\":33,\"type\":\"branch\"}},\"schemas\":[{\"fields\":[{\"id\":1,\"name\":\"id\",\"required\":true,\"type\":\"long\"},{\"id\":2,\"name\":\"name\",\"required\":false,\"type\":\"string\"}],\"schema-id\":0,\"type\":\"struct\"}],\"snapshot-log\":[{\"snapshot-id\":11,\"timestamp-ms\":1000},{\"snapshot-id\":22,\"timestamp-ms\":2000},{\"snapshot-id\":33,\"timestamp-ms\":3000}],\"snapshots\":[{\"manifest-list\":\"/w/t/metadata/l11.avro\",\"sequence-number\":1,\"snapshot-id\":11,\"summary\":{\"operation\":\"append\"},\"timestamp-ms\":1000},{\"manifest-list\":\"/w/t/metadata/l22.avro\",\"parent-snapshot-id\":11,\"sequence-number\":2,\"snapshot-id\":22,\"summary\":{\"operation\":\"append\"},\"timestamp-ms\":2000},{\"manifest-list\":\"/w/t/metadata/l33.avro\",\"parent-snapshot-id\":22,\"sequence-number\":3,\"snapshot-id\":33,\"summary\":{\"operation\":\"append\"},\"timestamp-ms\":3000}],\"sort-orders\":[{\"fields\":[],\"order-id\":0}],\"table-uuid\":\"9c12d441-03fe-4693-9a96-a0705ddf69c1\"}"
}

// What is changed in the table for each case: `side` has a snapshot 44 of parent 11 with a branch `b` on it, and a tag `t`
// on 22; in `ahead` the parent is 33; `empty` has no current snapshot.
fn changes(case: &str) -> &'static str {
    match case {
        "side" =>
            "\"refs\":{=>\"refs\":{\"b\":{\"snapshot-id\":44,\"type\":\"branch\"},\"t\":{\"snapshot-id\":22,\"type\":\"tag\"},;;3000}],\"sort=>3000},{\"manifest-list\":\"/w/t/metadata/l44.avro\",\"parent-snapshot-id\":11,\"sequence-number\":4,\"snapshot-id\":44,\"summary\":{\"operation\":\"append\"},\"timestamp-ms\":4000}],\"sort",
        "ahead" =>
            "\"refs\":{=>\"refs\":{\"b\":{\"snapshot-id\":44,\"type\":\"branch\"},;;3000}],\"sort=>3000},{\"manifest-list\":\"/w/t/metadata/l44.avro\",\"parent-snapshot-id\":33,\"sequence-number\":4,\"snapshot-id\":44,\"summary\":{\"operation\":\"append\"},\"timestamp-ms\":4000}],\"sort",
        _ =>
            "\"current-snapshot-id\":33,=>;;\"refs\":{\"main\":{\"snapshot-id\":33,\"type\":\"branch\"}},=>",
    }
}

// The text with the first `from` in it replaced, or an empty one where there is none.
fn changed(alloc: Global, text: &str, from: &str, to: &str) -> Result<String, AllocError> {
    match text.split_once(from) {
        Some((before, after)) => format!(in alloc; "{before}{to}{after}"),
        None => Ok(String::new(alloc)),
    }
}

fn table_text(alloc: Global, case: &str) -> Result<String, AllocError> {
    let mut text = String::from_str(alloc, three_snapshots())?;
    for change in changes(case).split(";;") {
        let (from, to) = change.split_once("=>").unwrap_or(("", ""));
        text = changed(alloc, text.as_str(), from, to)?;
    }
    Ok(text)
}

// the table of a case
fn table(alloc: Global, case: &str) -> Result<Meta, Fail> {
    let text = table_text(alloc, case)?;
    Ok(read_meta(alloc, text.as_bytes())?)
}

fn text_of(alloc: Global, text: &str) -> Result<Text, AllocError> {
    Text::copy_of(alloc, text.as_bytes())
}

fn forward(alloc: Global, words: &str) -> Result<Goal, AllocError> {
    let (branch, to) = words.split_once(" ").unwrap_or(("", ""));
    let branch = text_of(alloc, branch)?;
    let to = text_of(alloc, to)?;
    Ok(Goal::FastForward { branch, to })
}

fn set_to(alloc: Global, name: &str) -> Result<Goal, AllocError> {
    let name = text_of(alloc, name)?;
    Ok(Goal::SetCurrentTo { name })
}

// the goal that a line of words says
fn goal(alloc: Global, words: &str) -> Result<Goal, AllocError> {
    let (verb, rest) = words.split_once(" ").unwrap_or(("", ""));
    match verb {
        "rollback" => Ok(Goal::Rollback { id: id_of(rest) }),
        "set" => Ok(Goal::SetCurrent { id: id_of(rest) }),
        "set_to" => set_to(alloc, rest),
        _ => forward(alloc, rest),
    }
}

fn id_of(word: &str) -> i64 {
    word.parse::<i64>().unwrap_or(0)
}

fn shown(text: &Text) -> &str {
    std::str::from_utf8(text.inner().as_slice()).unwrap_or("no text")
}

fn shown_id(alloc: Global, id: Option<i64>) -> Result<String, AllocError> {
    match id {
        Some(id) => format!(in alloc; "{id}"),
        None => String::from_str(alloc, "none"),
    }
}

fn shown_refusal(alloc: Global, refusal: &Refusal) -> Result<String, AllocError> {
    match refusal {
        Refusal::UnknownSnapshot { id } => format!(in alloc; "unknown snapshot {id}"),
        Refusal::UnknownRef { name } => {
            let name = shown(name);
            format!(in alloc; "unknown ref {name}")
        }
        Refusal::NotAncestor { id, of } => {
            let of = shown_id(alloc, *of)?;
            let of = of.as_str();
            format!(in alloc; "snapshot {id} is not an ancestor of {of}")
        }
        _ => String::from_str(alloc, "another refusal"),
    }
}

// where the ref was, where it is to be, and the current snapshot of what was built
fn shown_move(alloc: Global, moved: &Moved) -> Result<String, AllocError> {
    let previous = shown_id(alloc, moved.previous)?;
    let previous = previous.as_str();
    let id = moved.id;
    match &moved.built {
        Built::Same => format!(in alloc; "{previous} to {id}, the same"),
        Built::Next(meta) => {
            let current = shown_id(alloc, meta.current())?;
            let current = current.as_str();
            format!(in alloc; "{previous} to {id}, current {current}")
        }
    }
}

fn shown_error(alloc: Global, e: &AttemptErr) -> Result<String, AllocError> {
    match e {
        AttemptErr::Refused(refusal) => shown_refusal(alloc, refusal),
        _ => String::from_str(alloc, "another error"),
    }
}

fn shown_change(alloc: Global, meta: Meta, change: &RefMove) -> Result<String, AllocError> {
    match move_on(alloc, meta, &change.goal, change.now) {
        Ok(moved) => shown_move(alloc, &moved),
        Err(e) => shown_error(alloc, &e),
    }
}

fn change_of(alloc: Global, words: &str) -> Result<RefMove, AllocError> {
    Ok(RefMove::new(goal(alloc, words)?, 9000))
}

fn outcome(alloc: Global, case: &str, words: &str) -> Result<String, Fail> {
    let meta = table(alloc, case)?;
    let change = change_of(alloc, words)?;
    Ok(shown_change(alloc, meta, &change)?)
}

// Each line has a case, the goal, and what comes of it.
fn moves() -> &'static str {
    "side rollback 22: 33 to 22, current 22
side rollback 33: 33 to 33, the same
side rollback 44: snapshot 44 is not an ancestor of 33
side rollback 99: unknown snapshot 99
side set 44: 33 to 44, current 44
side set 33: 33 to 33, the same
side set 99: unknown snapshot 99
side set_to b: 33 to 44, current 44
side set_to t: 33 to 22, current 22
side set_to main: 33 to 33, the same
side set_to x: unknown ref x
side forward b main: snapshot 44 is not an ancestor of 33
side forward main t: snapshot 33 is not an ancestor of 22
side forward t main: unknown ref t
side forward x y: unknown ref x
side forward main y: unknown ref y
ahead forward main b: 33 to 44, current 44
ahead forward main main: 33 to 33, the same
ahead forward b main: snapshot 44 is not an ancestor of 33
empty rollback 11: snapshot 11 is not an ancestor of none
empty set 11: none to 11, current 11
empty forward main main: unknown ref main"
}

#[test]
fn side_branch_is_no_ancestor(rt: HostRuntime) -> Result<(), Fail> {
    for line in moves().lines() {
        let (asked, want) = line.split_once(": ").unwrap_or(("", ""));
        let (case, words) = asked.split_once(" ").unwrap_or(("", ""));
        let found = outcome(rt.alloc(), case, words)?;
        assert_eq!(rt; found.as_str(), want, "{line}");
    }
    Ok(())
}

fn shown_rows(alloc: Global, rows: &AncestorList) -> Result<String, AllocError> {
    let mut text = String::new(alloc);
    for row in rows.inner() {
        let (id, ms) = (row.id, row.ms);
        text.push_str(format!(in alloc; " {id}-{ms}")?.as_str())?;
    }
    Ok(text)
}

fn shown_listing(alloc: Global, meta: &Meta, id: Option<i64>) -> Result<String, AllocError> {
    match list_ancestors(alloc, meta, id) {
        Ok(rows) => shown_rows(alloc, &rows),
        Err(EditErr::UnknownSnapshot { id }) => format!(in alloc; " unknown snapshot {id}"),
        Err(EditErr::Memory) => String::from_str(alloc, " no memory"),
    }
}

fn listing(alloc: Global, case: &str, id: Option<i64>) -> Result<String, Fail> {
    let meta = table(alloc, case)?;
    Ok(shown_listing(alloc, &meta, id)?)
}

// Each line has a case, the id or none, and the rows.
fn listings() -> &'static str {
    "side none: 33-3000 22-2000 11-1000
side 33: 33-3000 22-2000 11-1000
side 44: 44-4000 11-1000
side 99: unknown snapshot 99
empty none:
empty 22: 22-2000 11-1000"
}

#[test]
fn ancestors_listed(rt: HostRuntime) -> Result<(), Fail> {
    for line in listings().lines() {
        let (asked, want) = line.split_once(":").unwrap_or(("", ""));
        let (case, id) = asked.split_once(" ").unwrap_or(("", ""));
        let found = listing(rt.alloc(), case, id.parse::<i64>().ok())?;
        assert_eq!(rt; found.as_str(), want, "{line}");
    }
    Ok(())
}
