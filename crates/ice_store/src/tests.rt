use crate::{Bytes, Held, Items, NameChange, Place, PlaceErr, Step, Text, Who, is_part};
use std::alloc::Global;
use std::cmp::Ordering;
use std::test::Fail;

fn text_of(alloc: Global, text: &str) -> Result<Text, Fail> {
    Ok(Text::copy_of(alloc, text.as_bytes())?)
}

fn bytes_of(alloc: Global, text: &str) -> Result<Bytes, Fail> {
    Ok(Bytes::copy_of(alloc, text.as_bytes())?)
}

fn place(alloc: Global, text: &str) -> Result<Place, Fail> {
    Ok(Place::read(alloc, &text_of(alloc, text)?)?)
}

fn has_text(alloc: Global, found: &Place, text: &str) -> Result<bool, Fail> {
    Ok(found.text()? == text_of(alloc, text)?)
}

fn offset(e: PlaceErr) -> Result<Option<usize>, PlaceErr> {
    match e {
        PlaceErr::Bad { at } => Ok(Some(at)),
        PlaceErr::Memory => Err(e),
    }
}

// The offset of the fault of an answer.
fn fault(answer: Result<Place, PlaceErr>) -> Result<Option<usize>, Fail> {
    match answer {
        Ok(_) => Ok(None),
        Err(e) => Ok(offset(e)?),
    }
}

#[test]
fn texts_are_read_as_places(rt: HostRuntime) -> Result<(), Fail> {
    let alloc = rt.alloc();
    for (text, want) in [
        ("/a", "/a"),
        ("file:/a", "/a"),
        ("file:///a", "/a"),
        ("//a///b//", "/a/b"),
        ("/", "/"),
        ("file:///", "/"),
        ("/a:b/..c/.d/e f", "/a:b/..c/.d/e f"),
    ] {
        assert!(rt; has_text(alloc, &place(alloc, text)?, want)?, "{text}");
    }
    Ok(())
}

#[test]
fn faults_of_places_are_located(rt: HostRuntime) -> Result<(), Fail> {
    let alloc = rt.alloc();
    for (text, at) in [
        ("", 0),
        ("a/b", 0),
        ("file:", 0),
        ("FILE:/a", 0),
        ("s3://bucket/a", 0),
        ("file://host/a", 7),
        ("file://", 7),
        ("/a/./b", 3),
        ("/a//../.", 4),
        ("file:/a/..", 8),
        ("/a/b\0c/..", 3),
    ] {
        let found = fault(Place::read(alloc, &text_of(alloc, text)?))?;
        assert_eq!(rt; found, Some(at), "{text}");
    }
    Ok(())
}

fn joined(alloc: Global, front: &str, rest: &str) -> Result<Result<Place, PlaceErr>, Fail> {
    Ok(place(alloc, front)?.join(&text_of(alloc, rest)?))
}

#[test]
fn places_are_joined(rt: HostRuntime) -> Result<(), Fail> {
    let alloc = rt.alloc();
    for (front, rest, want) in [
        ("/a", "b/c", "/a/b/c"),
        ("/", "/b//c/", "/b/c"),
        ("/a", "", "/a"),
    ] {
        assert!(rt;
            has_text(alloc, &joined(alloc, front, rest)??, want)?,
            "{rest}"
        );
    }
    assert_eq!(rt; fault(joined(alloc, "/a", "b/../c")?)?, Some(2));
    Ok(())
}

fn is_under(alloc: Global, inner: &str, dir: &str) -> Result<bool, Fail> {
    Ok(place(alloc, inner)?.under(&place(alloc, dir)?))
}

fn depth(alloc: Global, inner: &str, dir: &str) -> Result<Option<usize>, Fail> {
    Ok(
        place(alloc, inner)?
            .below(&place(alloc, dir)?)
            .map(|rest| rest.len()),
    )
}

#[test]
fn places_stand_under_folders(rt: HostRuntime) -> Result<(), Fail> {
    let alloc = rt.alloc();
    for (inner, dir, want) in [
        ("/a/b/c", "/a", Some(2)),
        ("/a", "/a", Some(0)),
        ("/a", "/", Some(1)),
        ("/ab", "/a", None),
        ("/a", "/a/b", None),
    ] {
        assert_eq!(rt;
            is_under(alloc, inner, dir)?,
            want.is_some(),
            "{inner} {dir}"
        );
        assert_eq!(rt; depth(alloc, inner, dir)?, want, "{inner} {dir}");
    }
    Ok(())
}

fn swapped(alloc: Global, text: &str, from: &str, to: &str) -> Result<Option<Place>, Fail> {
    Ok(place(alloc, text)?.swap_prefix(&place(alloc, from)?, &place(alloc, to)?)?)
}

#[test]
fn places_move_between_folders(rt: HostRuntime) -> Result<(), Fail> {
    let alloc = rt.alloc();
    for (text, from, to, want) in [
        ("/a/b/c", "/a", "/x/y", Some("/x/y/b/c")),
        ("/a", "/a", "/", Some("/")),
        ("/ab", "/a", "/x", None),
    ] {
        let found = match swapped(alloc, text, from, to)? {
            None => want.is_none(),
            Some(found) => has_text(alloc, &found, want.unwrap_or(""))?,
        };
        assert!(rt; found, "{text}");
    }
    Ok(())
}

fn order(alloc: Global, first: &str, second: &str) -> Result<Ordering, Fail> {
    Ok(place(alloc, first)?.cmp(&place(alloc, second)?))
}

// By the bytes of their texts a hyphen comes before a slash.
#[test]
fn places_are_ordered_by_their_texts(rt: HostRuntime) -> Result<(), Fail> {
    let alloc = rt.alloc();
    for (first, second, want) in [
        ("/a-b", "/a/b", Ordering::Less),
        ("/a/b", "/a.b", Ordering::Greater),
        ("/", "/a", Ordering::Less),
        ("/a", "file:/a/", Ordering::Equal),
    ] {
        assert_eq!(rt; order(alloc, first, second)?, want, "{first} {second}");
    }
    Ok(())
}

fn has_child(alloc: Global) -> Result<bool, Fail> {
    if !is_part(b"b") {
        return Ok(false);
    }
    let made = place(alloc, "/a")?.child(b"b")?.copy()?;
    let is_named = made.part(1) == Some(&text_of(alloc, "b")?);
    Ok(is_named && made.part(2).is_none() && has_text(alloc, &made, "/a/b")?)
}

#[test]
fn parts_have_names(rt: HostRuntime) -> Result<(), Fail> {
    let alloc = rt.alloc();
    for (name, want) in [
        ("b", true),
        ("...", true),
        ("", false),
        (".", false),
        ("..", false),
        ("b/c", false),
        ("b\0", false),
    ] {
        assert_eq!(rt; is_part(name.as_bytes()), want, "{name}");
    }
    assert!(rt; has_child(alloc)?);
    Ok(())
}

#[test]
fn bytes_have_parts(rt: HostRuntime) -> Result<(), Fail> {
    let alloc = rt.alloc();
    let mut bytes = bytes_of(alloc, "abcd")?;
    bytes.extend(b"ef")?;
    assert_eq!(rt; bytes.copy()?.len(), 6);
    for (from, len, want) in [
        (0, 3, "abc"),
        (4, 10, "ef"),
        (2, 0, ""),
        (6, 1, ""),
        (18446744073709551615, 1, ""),
    ] {
        let part = bytes.part(alloc, from, len)?;
        assert!(rt; part.inner().as_slice() == want.as_bytes(), "{from} {len}");
    }
    Ok(())
}

fn held(alloc: Global, text: &str) -> Result<Held, Fail> {
    Ok(Held {
        place: place(alloc, text)?,
        bytes: bytes_of(alloc, "x")?,
        ms: 7,
        is_sealed: true,
        maker: Some(Who::Us),
    })
}

#[test]
fn records_are_copied(rt: HostRuntime) -> Result<(), Fail> {
    let alloc = rt.alloc();
    let file = held(alloc, "/a")?.copy()?;
    assert!(rt; file.ms == 7 && file.is_sealed && has_text(alloc, &file.place, "/a")?);
    assert!(rt; matches!(Step::Seal(place(alloc, "/a")?).copy()?, Step::Seal(_)));
    assert!(rt; matches!(NameChange::Removed(file).copy()?, NameChange::Removed(_)));
    let mut items = Items::empty(alloc);
    items.push(4)?;
    items.push(5)?;
    assert_eq!(rt; items.pop(), Some(5));
    assert!(rt; items.len() == 1 && items.inner()[0] == 4);
    Ok(())
}
