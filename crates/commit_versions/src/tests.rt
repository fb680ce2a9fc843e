use crate::{draft_place, metadata_folder, version_number, version_place, version_text};
use ice_store::{Place, Text};
use std::alloc::Global;
use std::test::Fail;

fn place(alloc: Global, text: &str) -> Result<Place, Fail> {
    Ok(Place::read(alloc, &text_of(alloc, text)?)?)
}

fn text_of(alloc: Global, text: &str) -> Result<Text, Fail> {
    Ok(Text::copy_of(alloc, text.as_bytes())?)
}

fn number(alloc: Global, text: &str) -> Result<Option<u64>, Fail> {
    Ok(version_number(&place(alloc, "/w/t")?, &place(alloc, text)?))
}

fn is_at(alloc: Global, found: &Place, text: &str) -> Result<bool, Fail> {
    Ok(found.is(&place(alloc, text)?))
}

#[test]
fn version_names_have_numbers(rt: HostRuntime) -> Result<(), Fail> {
    for (name, want) in [
        ("/w/t/metadata/v1.metadata.json", Some(1)),
        ("/w/t/metadata/v10.metadata.json", Some(10)),
        ("/w/t/metadata/v01.metadata.json", Some(0)),
        ("/w/t/metadata/v.metadata.json", Some(0)),
        ("/w/t/metadata/v0.metadata.json", Some(0)),
        (
            "/w/t/metadata/v18446744073709551615.metadata.json",
            Some(18446744073709551615),
        ),
        ("/w/t/metadata/v18446744073709551616.metadata.json", None),
        (
            "/w/t/metadata/v18446744073709551616x.metadata.json",
            Some(0),
        ),
        ("/w/t/metadata/V1.metadata.json", Some(0)),
        ("/w/t/metadata/v1.metadata.json.x", Some(0)),
        ("/w/t/metadata/x/v1.metadata.json", Some(0)),
        ("/w/t/data/v1.metadata.json", Some(0)),
        ("/w/tt/metadata/v1.metadata.json", Some(0)),
        ("/w/t/metadata", Some(0)),
    ] {
        assert_eq!(rt; number(rt.alloc(), name)?, want, "{name}");
    }
    Ok(())
}

fn round(alloc: Global, number: u64) -> Result<Option<u64>, Fail> {
    let table = place(alloc, "/w/t")?;
    if number == 0 {
        return Ok(None);
    }
    Ok(version_number(&table, &version_place(alloc, &table, number)?))
}

#[test]
fn a_version_place_reads_back(rt: HostRuntime) -> Result<(), Fail> {
    for number in [1, 9, 10, 4096, 18446744073709551615] {
        assert_eq!(rt; round(rt.alloc(), number)?, Some(number));
    }
    Ok(())
}

fn draft(alloc: Global) -> Result<Place, Fail> {
    Ok(draft_place(
        alloc,
        &place(alloc, "/w/t")?,
        0x0123_4567_89ab_cdef_0011_2233_4455_6677,
    )?)
}

fn folder(alloc: Global) -> Result<Place, Fail> {
    Ok(metadata_folder(alloc, &place(alloc, "/w/t")?)?)
}

#[test]
fn drafts_and_folders_are_placed(rt: HostRuntime) -> Result<(), Fail> {
    let alloc = rt.alloc();
    let draft_text = "/w/t/metadata/01234567-89ab-cdef-0011-223344556677.metadata.json";
    assert!(rt; is_at(alloc, &draft(alloc)?, draft_text)?);
    assert!(rt; is_at(alloc, &folder(alloc)?, "/w/t/metadata")?);
    Ok(())
}

fn logged(alloc: Global, location: &str) -> Result<Text, Fail> {
    let location = Text::copy_of(alloc, location.as_bytes())?;
    Ok(version_text(alloc, &location, 4)?)
}

#[test]
fn the_log_names_a_version(rt: HostRuntime) -> Result<(), Fail> {
    let alloc = rt.alloc();
    for (location, want) in [
        ("file:///w/t", "file:///w/t/metadata/v4.metadata.json"),
        ("/w/t//", "/w/t/metadata/v4.metadata.json"),
        ("/", "/metadata/v4.metadata.json"),
    ] {
        assert!(rt;
            logged(alloc, location)? == text_of(alloc, want)?,
            "{location}"
        );
    }
    Ok(())
}
