use ice_store::{Alone, Clock, Gone, Ids, Made, Moved, Place, Sink, Store, StoreErr, Text};
use std::alloc::Global;
use std::io::{ErrorKind, Write};
use std::process::Abort;
use std::test::Fail;
use std::{env, fs, io};
use store_directory::{DirStore, MachineClock, RandomIds, StreamSink};

type RealStore = DirStore<Alone>;

// A place below the folder that the tests run in: each test has a folder of its own there.
fn here(rt: &HostRuntime, rest: &str) -> Result<Place, Fail> {
    let folder = env::current_dir(rt)?;
    let root = Text::copy_of(rt.alloc(), folder.as_path().as_str().as_bytes())?;
    Ok(Place::read(rt.alloc(), &root)?.join(&text(rt.alloc(), rest)?)?)
}

fn text(alloc: Global, words: &str) -> Result<Text, Fail> {
    Ok(Text::copy_of(alloc, words.as_bytes())?)
}

fn create(rt: &HostRuntime, store: &mut RealStore, rest: &str) -> Result<Made, Fail> {
    Ok(store.create(&here(rt, rest)?)?)
}

fn append(rt: &HostRuntime, store: &mut RealStore, rest: &str, bytes: &str) -> Result<(), Fail> {
    Ok(store.append(&here(rt, rest)?, bytes.as_bytes())?)
}

fn seal(rt: &HostRuntime, store: &mut RealStore, rest: &str) -> Result<(), Fail> {
    Ok(store.seal(&here(rt, rest)?)?)
}

fn size(rt: &HostRuntime, store: &mut RealStore, rest: &str) -> Result<Option<u64>, Fail> {
    Ok(store.size(&here(rt, rest)?)?)
}

fn rename(rt: &HostRuntime, store: &mut RealStore, from: &str, to: &str) -> Result<Moved, Fail> {
    Ok(store.rename_new(&here(rt, from)?, &here(rt, to)?)?)
}

fn remove(rt: &HostRuntime, store: &mut RealStore, rest: &str) -> Result<Gone, Fail> {
    Ok(store.remove(&here(rt, rest)?)?)
}

// Whether this part of a file has these bytes.
fn reads(
    store: &mut RealStore,
    place: &Place,
    from: u64,
    len: usize,
    want: &str,
) -> Result<bool, Fail> {
    match store.read_at(place, from, len)? {
        Some(bytes) => Ok(bytes.inner().as_slice() == want.as_bytes()),
        None => Ok(false),
    }
}

// Whether exactly these files are listed, with these sizes, and each was changed since 2020.
fn lists(
    rt: &HostRuntime,
    store: &mut RealStore,
    dir: &str,
    want: &[(&str, u64)],
) -> Result<bool, Fail> {
    let listed = store.names(&here(rt, dir)?)?;
    let mut same = listed.len() == want.len();
    for (found, (rest, size)) in listed.inner().iter().zip(want) {
        let is_same = found.place.is(&here(rt, rest)?) && found.size == *size;
        same = same && is_same && found.ms > 1_577_836_800_000;
    }
    Ok(same)
}

fn make_link(rt: &HostRuntime, from: &str, to: &str) -> Result<(), Fail> {
    Ok(std::os::unix::fs::symlink(rt, from, to)?)
}

#[test]
fn a_real_directory_keeps_files(rt: HostRuntime) -> Result<(), Fail> {
    let store = &mut DirStore::new(rt, Alone);
    assert!(rt; lists(&rt, store, "files", &[])?);
    assert_eq!(rt; size(&rt, store, "files/metadata/a")?, None);
    assert_eq!(rt; create(&rt, store, "files/metadata/a")?, Made::New);
    assert_eq!(rt; create(&rt, store, "files/metadata/a")?, Made::Exists);
    append(&rt, store, "files/metadata/a", "hello ")?;
    append(&rt, store, "files/metadata/a", "world")?;
    seal(&rt, store, "files/metadata/a")?;
    assert_eq!(rt; create(&rt, store, "files/data/x/b")?, Made::New);
    store.sync_names()?;
    assert_eq!(rt; size(&rt, store, "files/metadata/a")?, Some(11));
    let file = here(&rt, "files/metadata/a")?;
    for (from, len, want) in [
        (0, 67_108_865, "hello world"),
        (6, 3, "wor"),
        (11, 3, ""),
        (99, 3, ""),
    ] {
        assert!(rt; reads(store, &file, from, len, want)?, "{want}");
    }
    assert!(rt;
        store
            .read_at(&here(&rt, "files/metadata/a/c")?, 0, 3)?
            .is_none()
    );
    assert_eq!(rt;
        rename(&rt, store, "files/metadata/a", "files/metadata/v1")?,
        Moved::Done
    );
    assert_eq!(rt; create(&rt, store, "files/metadata/a")?, Made::New);
    seal(&rt, store, "files/metadata/a")?;
    store.sync_names()?;
    assert_eq!(rt;
        rename(&rt, store, "files/metadata/a", "files/metadata/v1")?,
        Moved::Exists
    );
    assert!(rt;
        reads(
            store,
            &here(&rt, "files/metadata/v1")?,
            0,
            99,
            "hello world"
        )?
    );
    assert!(rt;
        lists(
            &rt,
            store,
            "files",
            &[
                ("files/data/x/b", 0),
                ("files/metadata/a", 0),
                ("files/metadata/v1", 11)
            ]
        )?
    );
    assert_eq!(rt; remove(&rt, store, "files/data/x/b")?, Gone::Done);
    assert_eq!(rt; remove(&rt, store, "files/data/x/b")?, Gone::Absent);
    store.sync_names()?;
    assert_eq!(rt; store.faults, 0);
    Ok(())
}

#[test]
fn links_and_directories_are_left_alone(rt: HostRuntime) -> Result<(), Fail> {
    let store = &mut DirStore::new(rt, Alone);
    assert_eq!(rt; create(&rt, store, "links/metadata/a")?, Made::New);
    append(&rt, store, "links/metadata/a", "kept")?;
    seal(&rt, store, "links/metadata/a")?;
    store.sync_names()?;
    make_link(&rt, "a", "links/metadata/link")?;
    make_link(&rt, "metadata", "links/again")?;
    assert!(rt; lists(&rt, store, "links", &[("links/metadata/a", 4)])?);
    let again = here(&rt, "links/again/a")?;
    assert_eq!(rt; store.size(&again).err(), Some(StoreErr::Failed));
    assert!(rt; store.names(&here(&rt, "links/again")?).is_err());
    let link = here(&rt, "links/metadata/link")?;
    let file = here(&rt, "links/metadata/a")?;
    assert_eq!(rt; store.size(&link).err(), Some(StoreErr::Failed));
    assert_eq!(rt; store.faults, 3);
    assert!(rt; store.read_at(&link, 0, 9).is_err());
    assert_eq!(rt; store.create(&link).err(), Some(StoreErr::Failed));
    assert_eq!(rt; store.append(&link, b"x").err(), Some(StoreErr::Failed));
    assert_eq!(rt; store.seal(&link).err(), Some(StoreErr::Failed));
    assert_eq!(rt; store.remove(&link).err(), Some(StoreErr::Failed));
    assert_eq!(rt;
        store.rename_new(&file, &link).err(),
        Some(StoreErr::Failed)
    );
    assert_eq!(rt;
        store.remove(&here(&rt, "links/metadata")?).err(),
        Some(StoreErr::Failed)
    );
    assert_eq!(rt; store.faults, 10);
    assert!(rt; reads(store, &file, 0, 9, "kept")?);
    assert!(rt; fs::exists(&rt, "links/metadata/link")?);
    Ok(())
}

// What a sync can't vouch for: a directory that is gone, and a file that isn't the one that was written.
#[test]
fn what_was_taken_away_is_not_durable(rt: HostRuntime) -> Result<(), Fail> {
    let store = &mut DirStore::new(rt, Alone);
    assert_eq!(rt; create(&rt, store, "away/metadata/a")?, Made::New);
    assert_eq!(rt; create(&rt, store, "away/data/b")?, Made::New);
    append(&rt, store, "away/metadata/a", "ours")?;
    fs::remove_file(&rt, "away/metadata/a")?;
    fs::write(&rt, "away/metadata/a", "theirs")?;
    let file = here(&rt, "away/metadata/a")?;
    assert_eq!(rt; store.seal(&file).err(), Some(StoreErr::Failed));
    assert_eq!(rt; store.append(&file, b"x").err(), Some(StoreErr::Failed));
    fs::remove_dir_all(&rt, "away/data")?;
    assert_eq!(rt; store.sync_names().err(), Some(StoreErr::Failed));
    assert_eq!(rt; store.faults, 3);
    Ok(())
}

// how many files were created, up to the first that wasn't
fn create_many(rt: &HostRuntime, store: &mut RealStore, count: usize) -> Result<usize, Fail> {
    for n in 0..count {
        let name = format!(in rt.alloc(); "many/{n}")?;
        match store.create(&here(rt, name.as_str())?) {
            Ok(Made::New) => {}
            _ => return Ok(n),
        }
    }
    Ok(count)
}

#[test]
fn few_files_are_open_at_once(rt: HostRuntime) -> Result<(), Fail> {
    let store = &mut DirStore::new(rt, Alone);
    assert_eq!(rt; create_many(&rt, store, 300)?, 256);
    assert_eq!(rt; store.faults, 1);
    assert_eq!(rt; size(&rt, store, "many/256")?, None);
    seal(&rt, store, "many/7")?;
    assert_eq!(rt; create(&rt, store, "many/256")?, Made::New);
    Ok(())
}

fn puts(rt: &impl Abort, sink: &mut impl Sink, bytes: &str) {
    assert!(rt; sink.put(bytes.as_bytes()).is_ok());
}

#[test]
fn the_machine_answers(rt: HostRuntime) -> Result<(), Fail> {
    let mut clock = MachineClock::new(rt);
    let moment = clock.now_ms();
    assert!(rt;
        1_577_836_800_000 < moment && moment < 4_102_444_800_000,
        "{moment}"
    );
    let mut ids = RandomIds::draw(&rt)?;
    let first = ids.next();
    assert_eq!(rt; ids.next(), first.wrapping_add(1));
    let mut out = StreamSink::new(rt.stdout());
    puts(&rt, &mut out, "put on the standard output\n");
    assert_eq!(rt; out.faults, 0);
    Ok(())
}

// By chance alone two are equal once in 2^128 times.
#[test]
fn identifiers_begin_at_random(rt: HostRuntime) -> Result<(), Fail> {
    let first = RandomIds::draw(&rt)?.next();
    assert!(rt; RandomIds::draw(&rt)?.next() != first);
    Ok(())
}

// Takes all bytes, and counts its flushes, which may fail.
#[derive(Drop)]
struct Flushing {
    flushes: u64,
    fails: bool,
}

impl Write for Flushing {
    fn write(&mut self, buf: &[u8]) -> io::Result<usize> {
        Ok(buf.len())
    }

    fn flush(&mut self) -> io::Result<()> {
        self.flushes = self.flushes.saturating_add(1);
        if self.fails {
            return Err(io::Error::from(ErrorKind::Other));
        }
        Ok(())
    }
}

#[test]
fn a_put_is_flushed(rt: HostRuntime) {
    for fails in [false, true] {
        let mut sink = StreamSink::new(Flushing { flushes: 0, fails });
        assert_eq!(rt; sink.put(b"abc").is_err(), fails);
        assert_eq!(rt; (sink.stream.flushes, sink.faults), (1, u64::from(fails)));
    }
}
