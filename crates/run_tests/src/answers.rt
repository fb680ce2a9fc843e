//! Messages and reports, with texts worked out by hand from the published table.
use crate::fixtures::{place, text_of};
use commit_protocol::{CommitErr, OpenErr, Other, Refusal};
use ice_store::{Items, Place, ReadErr, Text, TextList, What, Where};
use run_answers::{
    CellRows, Status, columns, id_cell, number_cell, optional_id_cell, put_message, report,
    status_of_error, status_of_open, status_of_read, status_of_refusal,
};
use std::alloc::Global;
use std::test::Fail;
use store_memory::MemSink;

fn unsupported(alloc: Global, what: What) -> Result<Status, Fail> {
    let place = place(alloc, "/w/t")?;
    Ok(Status::Unsupported { place, what })
}

fn conflict(alloc: Global, other: Other) -> Result<Status, Fail> {
    let place = place(alloc, "/w/t/data/a")?;
    Ok(Status::Conflict { place, other })
}

fn damaged(alloc: Global, at: Where) -> Result<Status, Fail> {
    let place = place(alloc, "/w/t/m")?;
    Ok(Status::Damaged { place, at })
}

// refusals for what was asked: the status, its number and its line
fn refused(alloc: Global, row: usize) -> Result<(Status, u8, &'static str), Fail> {
    Ok(match row {
        0 => (Status::Done, 0, ""),
        1 => (
            Status::BadStatement { word: 0, at: 39 },
            1,
            "upkeep: statement 1: syntax at byte 39\n",
        ),
        2 => (
            Status::BadArgument {
                word: 9,
                name: text_of(alloc, "re\\tain\n")?,
            },
            1,
            "upkeep: statement 10: bad argument re\\\\tain\\n\n",
        ),
        3 => (
            Status::UnknownSnapshot { id: -7 },
            1,
            "upkeep: unknown snapshot -7\n",
        ),
        4 => (
            Status::UnknownRef {
                name: text_of(alloc, "a\tb")?,
            },
            1,
            "upkeep: unknown ref a\\tb\n",
        ),
        5 => (
            Status::NotAncestor {
                id: 22,
                of: Some(11),
            },
            1,
            "upkeep: snapshot 22 is not an ancestor of 11\n",
        ),
        6 => (
            Status::NotAncestor { id: 22, of: None },
            1,
            "upkeep: snapshot 22 is not an ancestor of none\n",
        ),
        7 => (
            Status::StillReferenced {
                id: 33,
                name: text_of(alloc, "main")?,
            },
            1,
            "upkeep: snapshot 33 is still referenced by main\n",
        ),
        8 => (Status::GcDisabled, 1, "upkeep: gc.enabled is false\n"),
        _ => (
            Status::TooRecent {
                older_than: 9000,
                limit: 0,
            },
            1,
            "upkeep: older_than 9000 is after 0\n",
        ),
    })
}

// refusals for what the table is
fn faulty(alloc: Global, row: usize) -> Result<(Status, u8, &'static str), Fail> {
    Ok(match row {
        0 => (
            Status::NoTable {
                place: place(alloc, "/")?,
            },
            2,
            "upkeep: no table at /\n",
        ),
        1 => (located(alloc)?, 2, LOCATED),
        2 => (
            Status::Missing {
                place: place(alloc, "/w/t/m")?,
            },
            2,
            "upkeep: missing /w/t/m\n",
        ),
        3 => (
            damaged(alloc, Where::Byte(18_446_744_073_709_551_615))?,
            2,
            "upkeep: damaged /w/t/m at byte 18446744073709551615\n",
        ),
        4 => (
            damaged(alloc, Where::Path(text_of(alloc, "properties.a\tb")?))?,
            2,
            "upkeep: damaged /w/t/m at field properties.a\\tb\n",
        ),
        5 => (
            Status::OutsidePrefix {
                path: text_of(alloc, "s3://b/\\x")?,
            },
            2,
            "upkeep: outside the source prefix: s3://b/\\\\x\n",
        ),
        6 => (
            Status::UnreadableDelete {
                place: place(alloc, "/w/t/d")?,
            },
            2,
            "upkeep: unreadable delete file /w/t/d\n",
        ),
        7 => (
            Status::SamePrefix,
            2,
            "upkeep: source and target prefix are the same\n",
        ),
        _ => (
            Status::UnknownVersion {
                name: text_of(alloc, "v9.metadata.json")?,
            },
            2,
            "upkeep: unknown version v9.metadata.json\n",
        ),
    })
}

// the names of what isn't supported
fn limited(alloc: Global, row: usize) -> Result<(Status, u8, &'static str), Fail> {
    let (what, line) = match row {
        0 => (What::Codec, "upkeep: unsupported Codec in /w/t\n"),
        1 => (
            What::FormatVersion,
            "upkeep: unsupported FormatVersion in /w/t\n",
        ),
        2 => (What::Transform, "upkeep: unsupported Transform in /w/t\n"),
        3 => (What::SchemaSize, "upkeep: unsupported SchemaSize in /w/t\n"),
        4 => (What::BlockBytes, "upkeep: unsupported BlockBytes in /w/t\n"),
        5 => (What::ItemCount, "upkeep: unsupported ItemCount in /w/t\n"),
        6 => (What::FileBytes, "upkeep: unsupported FileBytes in /w/t\n"),
        7 => (What::GroupBytes, "upkeep: unsupported GroupBytes in /w/t\n"),
        8 => (
            What::NoManifestList,
            "upkeep: unsupported NoManifestList in /w/t\n",
        ),
        9 => (
            What::VersionNumber,
            "upkeep: unsupported VersionNumber in /w/t\n",
        ),
        _ => (What::Sequence, "upkeep: unsupported Sequence in /w/t\n"),
    };
    Ok((unsupported(alloc, what)?, 2, line))
}

// the ends of a commit, and of the run
fn ended(alloc: Global, row: usize) -> Result<(Status, u8, &'static str), Fail> {
    Ok(match row {
        0 => (
            conflict(alloc, Other::Gone)?,
            3,
            "upkeep: conflict on /w/t/data/a: gone\n",
        ),
        1 => (
            conflict(alloc, Other::Schema)?,
            3,
            "upkeep: conflict on /w/t/data/a: schema\n",
        ),
        2 => (
            conflict(alloc, Other::Manifest)?,
            3,
            "upkeep: conflict on /w/t/data/a: manifest gone\n",
        ),
        3 => (
            conflict(alloc, Other::Delete(place(alloc, "/w/t/data/d\tx")?))?,
            3,
            "upkeep: conflict on /w/t/data/a: delete /w/t/data/d\\tx\n",
        ),
        4 => (
            Status::Contended { version: 104 },
            4,
            "upkeep: lost the race up to version 104\n",
        ),
        5 => (
            Status::StoreFault {
                place: place(alloc, "/w/t")?,
            },
            5,
            "upkeep: store failed at /w/t\n",
        ),
        6 => (
            Status::CommitUnknown { version: 4 },
            6,
            "upkeep: commit of version 4 is unknown\n",
        ),
        7 => (Status::OutFault, 7, "upkeep: output failed\n"),
        8 => (Status::OutOfMemory, 8, "upkeep: out of memory\n"),
        _ => (
            Status::NameTaken {
                place: place(alloc, "/w/t/metadata/x.avro")?,
            },
            9,
            "upkeep: name taken /w/t/metadata/x.avro\n",
        ),
    })
}

fn row(alloc: Global, row: usize) -> Result<(Status, u8, &'static str), Fail> {
    match row {
        0..=9 => refused(alloc, row),
        10..=18 => faulty(alloc, row - 10),
        19..=29 => limited(alloc, row - 19),
        _ => ended(alloc, row.saturating_sub(30)),
    }
}

#[test]
fn a_message_for_every_status(rt: HostRuntime) -> Result<(), Fail> {
    let alloc = rt.alloc();
    for number in 0..40 {
        let (status, exit, line) = row(alloc, number)?;
        let mut err = MemSink::new(alloc, 100, Items::empty(alloc))?;
        let put = put_message(&mut err, &status);
        assert!(rt; put.is_ok(), "{line}");
        assert!(rt; err.bytes() == line.as_bytes(), "{line}");
        assert_eq!(rt; status.number(), exit, "{line}");
    }
    Ok(())
}

const LOCATED: &str = "upkeep: table at /w/t says location /w\\tx\\\\y\\n\n";

fn located(alloc: Global) -> Result<Status, Fail> {
    let table = place(alloc, "/w/t")?;
    Ok(Status::LocationDiffers {
        table,
        location: text_of(alloc, "/w\tx\\y\n")?,
    })
}

// A sink with little room takes what fits; one whose put fails gets no other behind it.
#[test]
fn a_prefix_where_the_sink_fails(rt: HostRuntime) -> Result<(), Fail> {
    let alloc = rt.alloc();
    let status = located(alloc)?;
    for room in 0..LOCATED.len() {
        let mut err = MemSink::new(alloc, room, Items::empty(alloc))?;
        let put = put_message(&mut err, &status);
        assert!(rt; put.is_err(), "{room}");
        assert_eq!(rt; err.bytes().len(), room);
        assert!(rt; LOCATED.as_bytes().starts_with(err.bytes()), "{room}");
    }
    for failing in 0..12 {
        let fails = vec![in alloc; failing]?;
        let mut err = MemSink::new(alloc, 100, Items::new(fails))?;
        let put = put_message(&mut err, &status);
        assert!(rt; put.is_err(), "{failing}");
        assert!(rt; LOCATED.as_bytes().starts_with(err.bytes()), "{failing}");
        assert_eq!(rt; (err.puts, err.faults), (failing + 1, 1));
    }
    Ok(())
}

fn pair(alloc: Global, first: Text, second: Text) -> Result<TextList, Fail> {
    Ok(Items::new(vec![in alloc; first, second]?))
}

fn reported(alloc: Global, rows: CellRows) -> Result<Text, Fail> {
    let names = columns(alloc, &["previous_snapshot_id", "current_snapshot_id"])?;
    Ok(report(alloc, &names, &rows)?)
}

fn id_rows(alloc: Global) -> Result<CellRows, Fail> {
    let lacking = pair(alloc, optional_id_cell(alloc, None)?, id_cell(alloc, -11)?)?;
    let both = pair(
        alloc,
        optional_id_cell(alloc, Some(33))?,
        number_cell(alloc, 9000)?,
    )?;
    Ok(Items::new(vec![in alloc; lacking, both]?))
}

fn text_rows(alloc: Global) -> Result<CellRows, Fail> {
    let row = pair(alloc, text_of(alloc, "a\tb\\")?, text_of(alloc, "\nc")?)?;
    Ok(Items::new(vec![in alloc; row]?))
}

#[test]
fn reports(rt: HostRuntime) -> Result<(), Fail> {
    let alloc = rt.alloc();
    let none = reported(alloc, Items::empty(alloc))?;
    assert!(rt; none == text_of(alloc, "previous_snapshot_id\tcurrent_snapshot_id\n")?);
    let ids = reported(alloc, id_rows(alloc)?)?;
    let want = "previous_snapshot_id\tcurrent_snapshot_id\nnull\t-11\n33\t9000\n";
    assert!(rt; ids == text_of(alloc, want)?);
    let texts = reported(alloc, text_rows(alloc)?)?;
    let want = "previous_snapshot_id\tcurrent_snapshot_id\na\\tb\\\\\t\\nc\n";
    assert!(rt; texts == text_of(alloc, want)?);
    Ok(())
}

// the number of the status of an error
fn number_of(alloc: Global, row: usize) -> Result<u8, Fail> {
    let status = match row {
        0 => status_of_read(ReadErr::Missing {
            place: place(alloc, "/w/t/m")?,
        }),
        1 => status_of_read(ReadErr::StoreFault {
            place: place(alloc, "/w/t/m")?,
        }),
        2 => status_of_refusal(0, Refusal::SamePrefix),
        3 => status_of_open(OpenErr::NoTable {
            place: place(alloc, "/w/t")?,
        }),
        _ => status_of_error(0, CommitErr::Contended { version: 104 }),
    };
    Ok(status.number())
}

#[test]
fn statuses_of_errors(rt: HostRuntime) -> Result<(), Fail> {
    let alloc = rt.alloc();
    for (row, number) in [(0, 2), (1, 5), (2, 2), (3, 2), (4, 4)] {
        assert_eq!(rt; number_of(alloc, row)?, number, "{row}");
    }
    let argument = Refusal::BadArgument {
        name: text_of(alloc, "where")?,
    };
    let mut err = MemSink::new(alloc, 100, Items::empty(alloc))?;
    let put = put_message(&mut err, &status_of_refusal(1, argument));
    assert!(rt; put.is_ok());
    assert!(rt; err.bytes() == b"upkeep: statement 2: bad argument where\n".as_slice());
    Ok(())
}
