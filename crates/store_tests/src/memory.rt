use ice_store::{
    Alone, Bytes, Clock, Gone, Ids, Items, Made, Moved, Place, PlaceErr, Sink, Step, Store,
    StoreCall, StoreErr, Text,
};
use std::alloc::Global;
use std::test::Fail;
use store_memory::{
    Choice, CountIds, FailAt, FixedClock, MemSink, MemStore, NumberList, Quiet, Torn,
};

type Solo = MemStore<Quiet<Alone>>;

fn text_of(alloc: Global, text: &str) -> Result<Text, Fail> {
    Ok(Text::copy_of(alloc, text.as_bytes())?)
}

fn place(alloc: Global, text: &str) -> Result<Place, Fail> {
    Ok(Place::read(alloc, &text_of(alloc, text)?)?)
}

// Places.

fn has_text(alloc: Global, text: &str, want: &str) -> Result<bool, Fail> {
    Ok(place(alloc, text)?.text()? == text_of(alloc, want)?)
}

fn joins_to(alloc: Global, text: &str, rest: &str, want: &str) -> Result<bool, Fail> {
    let rest = text_of(alloc, rest)?;
    Ok(place(alloc, text)?.join(&rest)?.text()? == text_of(alloc, want)?)
}

fn bad_at(alloc: Global, text: &str) -> Result<Option<usize>, Fail> {
    match Place::read(alloc, &text_of(alloc, text)?) {
        Err(PlaceErr::Bad { at }) => Ok(Some(at)),
        _ => Ok(None),
    }
}

#[test]
fn place_texts(rt: HostRuntime) -> Result<(), Fail> {
    let alloc = rt.alloc();
    assert!(rt; has_text(alloc, "file:///a//b/", "/a/b")?);
    for (text, at) in [("file://h/a", 7), ("/a/../b", 3), ("a", 0)] {
        assert_eq!(rt; bad_at(alloc, text)?, Some(at), "{text}");
    }
    assert!(rt; joins_to(alloc, "/a", "b/c", "/a/b/c")?);
    Ok(())
}

fn swapped(alloc: Global, text: &str) -> Result<Option<Place>, Fail> {
    let from = place(alloc, "/w/t")?;
    Ok(place(alloc, text)?.swap_prefix(&from, &place(alloc, "/new/t")?)?)
}

fn is_at(alloc: Global, found: Option<Place>, text: &str) -> Result<bool, Fail> {
    match found {
        Some(found) => Ok(found.is(&place(alloc, text)?)),
        None => Ok(false),
    }
}

#[test]
fn place_prefix_swapped(rt: HostRuntime) -> Result<(), Fail> {
    let alloc = rt.alloc();
    assert!(rt; is_at(alloc, swapped(alloc, "/w/t/x")?, "/new/t/x")?);
    assert!(rt; swapped(alloc, "/w/tt")?.is_none());
    Ok(())
}

// Each call of a store on its own, so that a test carries none of their clauses.

fn empty_store(alloc: Global, fails: Vec<FailAt>) -> Result<Solo, Fail> {
    let nobody = Quiet { manners: Alone };
    let files = Items::empty(alloc);
    Ok(MemStore::new(alloc, files, 100, nobody, Items::new(fails))?)
}

fn made(store: &mut Solo, place: &Place) -> Result<bool, StoreErr> {
    Ok(matches!(store.create(place)?, Made::New))
}

fn appended(store: &mut Solo, place: &Place, bytes: &[u8]) -> Result<(), StoreErr> {
    store.append(place, bytes)
}

fn sealed(store: &mut Solo, place: &Place) -> Result<(), StoreErr> {
    store.seal(place)
}

fn synced(store: &mut Solo) -> Result<(), StoreErr> {
    store.sync_names()
}

fn moved(store: &mut Solo, from: &Place, to: &Place) -> Result<bool, StoreErr> {
    Ok(matches!(store.rename_new(from, to)?, Moved::Done))
}

fn removed(store: &mut Solo, place: &Place) -> Result<bool, StoreErr> {
    Ok(matches!(store.remove(place)?, Gone::Done))
}

fn size(store: &mut Solo, place: &Place) -> Result<Option<u64>, StoreErr> {
    store.size(place)
}

fn reads(store: &mut Solo, place: &Place, from: u64, want: &[u8]) -> Result<bool, Fail> {
    match store.read_at(place, from, 5)? {
        Some(bytes) => Ok(bytes.inner().as_slice() == want),
        None => Ok(false),
    }
}

fn lists(store: &mut Solo, dir: &Place, place: &Place, ms: u64, size: u64) -> Result<bool, Fail> {
    let listed = store.names(dir)?;
    match listed.inner().as_slice() {
        [only] => Ok(only.place.is(place) && only.ms == ms && only.size == size),
        _ => Ok(false),
    }
}

fn image(store: &Solo, done: Vec<bool>, torn: Vec<Torn>) -> Result<Solo, Fail> {
    let choice = Choice {
        done: Items::new(done),
        torn: Items::new(torn),
    };
    Ok(store.image(&choice, Alone)?)
}

fn base_len(store: &Solo) -> usize {
    store.past().base.len()
}

#[test]
fn memory_store_calls(rt: HostRuntime) -> Result<(), Fail> {
    let alloc = rt.alloc();
    let w = place(alloc, "/w")?;
    let a = place(alloc, "/w/a")?;
    let b = place(alloc, "/w/b")?;
    let mut store = empty_store(alloc, Vec::new(alloc))?;
    assert!(rt; made(&mut store, &a)?);
    assert!(rt; !made(&mut store, &a)?);
    appended(&mut store, &a, b"xy")?;
    assert!(rt; lists(&mut store, &w, &a, 101, 2)?);
    assert_eq!(rt; size(&mut store, &a)?, Some(2));
    assert!(rt; reads(&mut store, &a, 1, b"y")?);
    sealed(&mut store, &a)?;
    assert_eq!(rt; image_len(&store, alloc, false)?, 0);
    assert_eq!(rt; image_len(&store, alloc, true)?, 1);
    assert!(rt; image_reads(&store, Vec::new(alloc), &a, b"xy")?);
    synced(&mut store)?;
    assert!(rt; moved(&mut store, &a, &b)?);
    synced(&mut store)?;
    assert!(rt; !removed(&mut store, &a)?);
    Ok(())
}

// how many files the image has where the one pending name is done or not
fn image_len(store: &Solo, alloc: Global, is_done: bool) -> Result<usize, Fail> {
    Ok(base_len(&image(store, vec![in alloc; is_done]?, Vec::new(alloc))?))
}

fn image_reads(store: &Solo, torn: Vec<Torn>, place: &Place, want: &[u8]) -> Result<bool, Fail> {
    let alloc = store.alloc;
    let mut left = image(store, vec![in alloc; true]?, torn)?;
    reads(&mut left, place, 0, want)
}

fn torn(alloc: Global, place: &Place, bytes: &[u8]) -> Result<Torn, Fail> {
    Ok(Torn {
        place: place.copy()?,
        bytes: Bytes::copy_of(alloc, bytes)?,
    })
}

#[test]
fn a_crash_tears_an_unsealed_file(rt: HostRuntime) -> Result<(), Fail> {
    let alloc = rt.alloc();
    let a = place(alloc, "/w/a")?;
    let mut store = empty_store(alloc, Vec::new(alloc))?;
    assert!(rt; made(&mut store, &a)?);
    appended(&mut store, &a, b"xy")?;
    let mut items = Vec::new(alloc);
    items.push(torn(alloc, &a, b"q")?)?;
    items.push(torn(alloc, &a, b"zz")?)?;
    assert!(rt; image_reads(&store, items, &a, b"q")?);
    assert!(rt; image_reads(&store, Vec::new(alloc), &a, b"xy")?);
    Ok(())
}

// Failures.

fn ten_calls(store: &mut Solo, a: &Place, b: &Place) {
    let _ = made(store, a);
    let _ = made(store, a);
    let _ = appended(store, a, b"xy");
    let _ = sealed(store, a);
    let _ = synced(store);
    let _ = moved(store, a, b);
    let _ = synced(store);
    let _ = removed(store, b);
    let _ = removed(store, b);
    let _ = size(store, b);
}

// a call by its name, the text of its place, and where it has them its bytes or its second place
fn words_of(call: &StoreCall) -> (&'static str, &[u8], &[u8]) {
    match call {
        StoreCall::Look(place) => ("look", place.as_bytes(), b""),
        StoreCall::Take(Step::Create(place)) => ("create", place.as_bytes(), b""),
        StoreCall::Take(Step::Append(place, more)) => ("append", place.as_bytes(), more.inner()),
        StoreCall::Take(Step::Seal(place)) => ("seal", place.as_bytes(), b""),
        StoreCall::Take(Step::Rename(from, to)) => ("rename", from.as_bytes(), to.as_bytes()),
        StoreCall::Take(Step::Remove(place)) => ("remove", place.as_bytes(), b""),
        StoreCall::Take(Step::SyncNames) => ("sync", b"", b""),
    }
}

fn failing_at(alloc: Global, call: u64, took: bool) -> Result<Solo, Fail> {
    let later = FailAt { call, took: !took };
    let fails = vec![in alloc; FailAt { call, took }, later]?;
    let mut store = empty_store(alloc, fails)?;
    ten_calls(&mut store, &place(alloc, "/w/a")?, &place(alloc, "/w/b")?);
    Ok(store)
}

fn is_marked(store: &Solo, events: usize, name: &str, first: &str, second: &str) -> bool {
    match &store.halted {
        Some(failure) => {
            let words = words_of(&failure.call);
            failure.events == events
                && words.0 == name
                && words.1 == first.as_bytes()
                && words.2 == second.as_bytes()
        }
        None => false,
    }
}

#[test]
fn planned_calls_fail(rt: HostRuntime) -> Result<(), Fail> {
    for (call, took, events, halted, name, first, second) in [
        (0, true, 7, 1, "create", "/w/a", ""),
        (0, false, 7, 0, "create", "/w/a", ""),
        (1, true, 7, 1, "create", "/w/a", ""),
        (2, true, 7, 2, "append", "/w/a", "xy"),
        (3, true, 7, 3, "seal", "/w/a", ""),
        (3, false, 6, 2, "seal", "/w/a", ""),
        (4, true, 7, 4, "sync", "", ""),
        (5, true, 7, 5, "rename", "/w/a", "/w/b"),
        (8, true, 7, 7, "remove", "/w/b", ""),
        (9, true, 7, 7, "look", "/w/b", ""),
    ] {
        let store = failing_at(rt.alloc(), call, took)?;
        assert_eq!(rt;
            (store.past().events.len(), store.faults),
            (events, 1),
            "{call}"
        );
        assert!(rt; is_marked(&store, halted, name, first, second), "{call}");
    }
    let store = failing_at(rt.alloc(), 10, true)?;
    assert_eq!(rt; (store.past().events.len(), store.faults), (7, 0));
    assert!(rt; store.halted.is_none());
    Ok(())
}

// Clock, identifiers and sink.

fn numbers(alloc: Global, number: u64) -> Result<NumberList, Fail> {
    Ok(Items::new(vec![in alloc; number]?))
}

fn now(clock: &mut FixedClock) -> u64 {
    clock.now_ms()
}

fn next(ids: &mut CountIds) -> u128 {
    ids.next()
}

#[test]
fn a_fixed_clock_repeats_its_last_moment(rt: HostRuntime) -> Result<(), Fail> {
    let moments = vec![in rt.alloc(); 5, 9]?;
    let mut clock = FixedClock::new(Items::new(moments));
    for want in [5, 9, 9] {
        assert_eq!(rt; now(&mut clock), want);
    }
    let mut still = FixedClock::new(Items::empty(rt.alloc()));
    assert_eq!(rt; now(&mut still), 0);
    Ok(())
}

#[test]
fn identifiers_count_up(rt: HostRuntime) {
    let mut ids = CountIds::new();
    for want in [1, 2, 3] {
        assert_eq!(rt; next(&mut ids), want);
    }
}

fn put(sink: &mut MemSink, bytes: &[u8]) -> bool {
    sink.put(bytes).is_ok()
}

fn holds(sink: &MemSink, want: &[u8]) -> bool {
    sink.bytes() == want
}

#[test]
fn a_sink_takes_what_fits(rt: HostRuntime) -> Result<(), Fail> {
    let alloc = rt.alloc();
    let mut sink = MemSink::new(alloc, 5, numbers(alloc, 1)?)?;
    assert!(rt; put(&mut sink, b"abc"));
    assert!(rt; !put(&mut sink, b"lost"));
    assert!(rt; holds(&sink, b"abc"));
    assert!(rt; !put(&mut sink, b"defg"));
    assert!(rt; holds(&sink, b"abcde"));
    Ok(())
}
