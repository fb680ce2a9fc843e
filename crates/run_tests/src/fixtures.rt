//! A table with three snapshots, and runs over it in memory. What a run left is looked at as a text.
use ice_store::{Alone, Bytes, FileRec, Items, Place, Step, Text};
use metadata_tests::three_snapshots;
use std::alloc::{AllocError, Global};
use std::test::Fail;
use store_memory::{CountIds, FailAt, FixedClock, MemSink, MemStore, Quiet};
use upkeep_top::{Outcome, run};

pub(crate) type Solo = MemStore<Quiet<Alone>>;

fn base() -> &'static str {
    "/w/t/metadata/v3.metadata.json"
}

pub(crate) fn next() -> &'static str {
    "/w/t/metadata/v4.metadata.json"
}

pub(crate) fn draft() -> &'static str {
    "/w/t/metadata/00000000-0000-0000-0000-000000000001.metadata.json"
}

pub(crate) fn second_draft() -> &'static str {
    "/w/t/metadata/00000000-0000-0000-0000-000000000002.metadata.json"
}

/// What a run left.
#[derive(Drop)]
pub(crate) struct Ran {
    pub(crate) outcome: Outcome,
    pub(crate) store: Solo,
}

pub(crate) fn text_of(alloc: Global, text: &str) -> Result<Text, Fail> {
    Ok(Text::copy_of(alloc, text.as_bytes())?)
}

pub(crate) fn place(alloc: Global, text: &str) -> Result<Place, Fail> {
    Ok(Place::read(alloc, &text_of(alloc, text)?)?)
}

pub(crate) fn file(alloc: Global, at: &str, content: &[u8]) -> Result<FileRec, Fail> {
    let bytes = Bytes::copy_of(alloc, content)?;
    Ok(FileRec {
        place: place(alloc, at)?,
        bytes,
        ms: 600,
    })
}

// The text with the first `from` in it replaced, or an empty one where there is none.
fn replaced(alloc: Global, text: &str, from: &str, to: &str) -> Result<String, AllocError> {
    match text.split_once(from) {
        Some((before, after)) => format!(in alloc; "{before}{to}{after}"),
        None => Ok(String::new(alloc)),
    }
}

// The table of three snapshots with changes, each `from=>to`, and `;;` between two of them.
fn changed(alloc: Global, changes: &str) -> Result<String, AllocError> {
    let mut text = String::from_str(alloc, three_snapshots())?;
    for change in changes.split(";;") {
        let (from, to) = change.split_once("=>").unwrap_or(("", ""));
        text = replaced(alloc, text.as_str(), from, to)?;
    }
    Ok(text)
}

// the table at version 3 with this content, and nothing else
pub(crate) fn table(alloc: Global, content: &[u8]) -> Result<Vec<FileRec>, Fail> {
    Ok(vec![in alloc; file(alloc, base(), content)?]?)
}

// the words of a text, one a line
pub(crate) fn words_of(alloc: Global, lines: &str) -> Result<Vec<Text>, Fail> {
    let mut words = Vec::new(alloc);
    for line in lines.split("\n") {
        if !line.is_empty() {
            words.push(text_of(alloc, line)?)?;
        }
    }
    Ok(words)
}

pub(crate) fn no_failures(alloc: Global) -> Vec<FailAt> {
    Vec::new(alloc)
}

pub(crate) fn clock(alloc: Global) -> Result<FixedClock, Fail> {
    Ok(FixedClock::new(Items::new(vec![in alloc; 9000]?)))
}

pub(crate) fn sink(alloc: Global) -> Result<MemSink, Fail> {
    Ok(MemSink::new(alloc, 1000, Items::empty(alloc))?)
}

// runs words over these files, at the moment 9000
pub(crate) fn run_over(
    rt: &HostRuntime,
    files: Vec<FileRec>,
    fails: Vec<FailAt>,
    words: &[Text],
    out: &mut MemSink,
    err: &mut MemSink,
) -> Result<Ran, Fail> {
    let alloc = rt.alloc();
    let mut clock = clock(alloc)?;
    let mut ids = CountIds::new();
    let nobody = Quiet { manners: Alone };
    let mut store = MemStore::new(alloc, Items::new(files), 9000, nobody, Items::new(fails))?;
    let outcome = run(rt, words, &mut store, &mut clock, &mut ids, out, err);
    Ok(Ran { outcome, store })
}

fn shown_versions(alloc: Global, outcome: &Outcome) -> Result<String, AllocError> {
    let mut shown = String::new(alloc);
    for version in outcome.committed.inner() {
        let before = shown.as_str();
        shown = format!(in alloc; "{before} {version}")?;
    }
    Ok(shown)
}

// drafts by their numbers, and other places by their text
fn name_of(place: &Place) -> &str {
    let text = std::str::from_utf8(place.as_bytes()).unwrap_or("");
    if text == draft() {
        "draft-1"
    } else if text == second_draft() {
        "draft-2"
    } else {
        text
    }
}

fn shown_places(alloc: Global, outcome: &Outcome) -> Result<String, AllocError> {
    let mut shown = String::new(alloc);
    for place in outcome.left.inner() {
        let before = shown.as_str();
        let left = name_of(place);
        shown = format!(in alloc; "{before} {left}")?;
    }
    Ok(shown)
}

fn word_of(step: &Step) -> &'static str {
    match step {
        Step::Create(_) => "create",
        Step::Append(_, _) => "append",
        Step::Seal(_) => "seal",
        Step::Rename(_, _) => "rename",
        Step::Remove(_) => "remove",
        Step::SyncNames => "sync",
    }
}

fn shown_steps(alloc: Global, store: &Solo) -> Result<String, AllocError> {
    let mut shown = String::new(alloc);
    for event in store.past().events.inner() {
        let before = shown.as_str();
        let step = word_of(&event.step);
        shown = format!(in alloc; "{before} {step}")?;
    }
    Ok(shown)
}

// a label and what it stands for, behind what was shown so far; nothing where that is empty
fn labelled(alloc: Global, before: &str, label: &str, shown: &str) -> Result<String, AllocError> {
    if shown.is_empty() {
        String::from_str(alloc, before)
    } else {
        format!(in alloc; "{before} {label}{shown}")
    }
}

// the status's number, then the versions, the places that were left and the steps, as far as there are any
fn shown_run(alloc: Global, ran: &Ran) -> Result<String, AllocError> {
    let number = ran.outcome.status.number();
    if ran.store.calls == 0 {
        return format!(in alloc; "{number} without a store call");
    }
    let head = format!(in alloc; "{number}")?;
    let versions = shown_versions(alloc, &ran.outcome)?;
    let head = labelled(alloc, head.as_str(), "committed", versions.as_str())?;
    let places = shown_places(alloc, &ran.outcome)?;
    let head = labelled(alloc, head.as_str(), "left", places.as_str())?;
    let steps = shown_steps(alloc, &ran.store)?;
    labelled(alloc, head.as_str(), "by", steps.as_str())
}

pub(crate) fn shown_sink(sink: &MemSink) -> &str {
    std::str::from_utf8(sink.bytes()).unwrap_or("no text")
}

// what a run left, a line feed, what it put on `out`, and behind `! ` what it put on `err`
pub(crate) fn shown(
    alloc: Global,
    ran: &Ran,
    out: &MemSink,
    err: &MemSink,
) -> Result<String, AllocError> {
    let head = shown_run(alloc, ran)?;
    let head = head.as_str();
    let report = shown_sink(out);
    let message = shown_sink(err);
    if message.is_empty() {
        format!(in alloc; "{head}\n{report}")
    } else {
        format!(in alloc; "{head}\n{report}! {message}")
    }
}

// a run of words over a table with this content, with these failures
pub(crate) fn outcome(
    rt: &HostRuntime,
    content: &[u8],
    fails: Vec<FailAt>,
    lines: &str,
) -> Result<String, Fail> {
    let alloc = rt.alloc();
    let words = words_of(alloc, lines)?;
    let files = table(alloc, content)?;
    let mut out = sink(alloc)?;
    let mut err = sink(alloc)?;
    let ran = run_over(rt, files, fails, &words, &mut out, &mut err)?;
    Ok(shown(alloc, &ran, &out, &err)?)
}

// a run of words over the table of three snapshots
pub(crate) fn outcome_of(rt: &HostRuntime, lines: &str) -> Result<String, Fail> {
    outcome(
        rt,
        three_snapshots().as_bytes(),
        no_failures(rt.alloc()),
        lines,
    )
}

// and with these changes of the table
pub(crate) fn outcome_on(rt: &HostRuntime, changes: &str, lines: &str) -> Result<String, Fail> {
    let alloc = rt.alloc();
    let content = changed(alloc, changes)?;
    outcome(rt, content.as_bytes(), no_failures(alloc), lines)
}

// and with the store call of this number failing, its step taken or not
pub(crate) fn outcome_failing(
    rt: &HostRuntime,
    call: u64,
    took: bool,
    lines: &str,
) -> Result<String, Fail> {
    let fails = vec![in rt.alloc(); FailAt { call, took }]?;
    outcome(rt, three_snapshots().as_bytes(), fails, lines)
}
