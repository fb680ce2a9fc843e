//! The worked rows, and one table of faults. The bytes are those of the Avro specification's grammar, put together by hand.

ghost use Rattle.std.specs.Prelude.{◌≡◌, [], ◌∷◌, IfOk, codes};

use avro_container::{
    Block, BlockErr, Bytes, ContainerCause, ContainerErr, Header, MetaList, NumErr, Text,
    next_block, read_header, read_long, write_block, write_header, write_long,
};
use std::alloc::{AllocError, Global};
use std::test::Fail;

/// A container of the longs 1 and -1 under the schema `"long"`, with the marker 0 to 15.
const TWO_LONGS: &[u8] = b"Obj\x01\x04\x14avro.codec\x08null\x16avro.schema\x0c\"long\"\x00\
\x00\x01\x02\x03\x04\x05\x06\x07\x08\x09\x0a\x0b\x0c\x0d\x0e\x0f\
\x04\x04\x02\x01\
\x00\x01\x02\x03\x04\x05\x06\x07\x08\x09\x0a\x0b\x0c\x0d\x0e\x0f";

const SYNC: [u8; 16] = [0, 1, 2, 3, 4, 5, 6, 7, 8, 9, 10, 11, 12, 13, 14, 15];

fn text(alloc: Global, of: &str) -> Result<Text, AllocError>
    ensures { IfOk result (λ t. t ≡ of.now) }
{
    Ok(Text::new(String::from_str(alloc, of)?))
}

fn bytes(alloc: Global, of: &[u8]) -> Result<Bytes, AllocError>
    ensures { IfOk result (λ b. b ≡ of.now) }
{
    Ok(Bytes::new(Vec::from_slice(alloc, of)?))
}

/// Metadata that name a schema alone: `"long"`.
fn schema_alone(alloc: Global) -> Result<MetaList, AllocError>
    ensures { IfOk result (λ m. m ≡ (codes "avro.schema", 34 ∷ 108 ∷ 111 ∷ 110 ∷ 103 ∷ 34 ∷ []) ∷ []) }
{
    let mut pairs = Vec::new(alloc);
    pairs.push((text(alloc, "avro.schema")?, bytes(alloc, b"\"long\"")?))?;
    Ok(MetaList::new(pairs))
}

/// The bytes, with one of them changed.
fn spoilt(alloc: Global, of: &[u8], at: usize, byte: u8) -> Result<Vec<u8>, AllocError> {
    let mut changed = Vec::from_slice(alloc, of)?;
    if let Some(place) = changed.get_mut(at) {
        *place = byte;
    }
    Ok(changed)
}

fn header_fault(alloc: Global, of: &[u8]) -> Option<(usize, ContainerCause)> {
    match read_header(alloc, of) {
        Err(ContainerErr::Bad { at, cause }) => Some((at, cause)),
        _ => None,
    }
}

fn block_fault(header: &Header, of: &[u8], at: usize) -> Option<(usize, ContainerCause)> {
    match next_block(header, of, at) {
        Err(BlockErr { at, cause }) => Some((at, cause)),
        Ok(_) => None,
    }
}

#[test]
fn longs_written(rt: HostRuntime) -> Result<(), Fail> {
    let table: [(i64, &[u8]); 5] = [
        (64, b"\x80\x01"),
        (-1, b"\x01"),
        (0, b"\x00"),
        (i64::MIN, b"\xff\xff\xff\xff\xff\xff\xff\xff\xff\x01"),
        (i64::MAX, b"\xfe\xff\xff\xff\xff\xff\xff\xff\xff\x01"),
    ];
    for (n, spelling) in table {
        let mut to = Vec::new(rt.alloc());
        write_long(n, &mut to)?;
        assert_eq!(rt; to.as_slice(), spelling, "{n}");
        assert_eq!(rt; read_long(spelling, 0), Ok((n, spelling.len())), "{n}");
    }
    Ok(())
}

#[test]
fn long_numbers_and_array_blocks(rt: HostRuntime) {
    assert_eq!(rt;
        read_long(b"\x80\x80\x80\x80\x80\x80\x80\x80\x80\x80\x01", 0),
        Err(NumErr::TooLong)
    );
    assert_eq!(rt;
        read_long(b"\x80\x80\x80\x80\x80\x80\x80\x80\x80\x02", 0),
        Err(NumErr::TooLong)
    );
    assert_eq!(rt; read_long(b"\x80\x80", 0), Err(NumErr::Short));
    assert_eq!(rt;
        read_long(b"\x80\x00", 0),
        Ok((0, 2)),
        "a spelling that isn't the shortest"
    );
    assert_eq!(rt; read_long(b"\x02", 7), Err(NumErr::Short), "past the end");
}

#[test]
fn container_of_two_longs(rt: HostRuntime) -> Result<(), Fail> {
    let alloc = rt.alloc();
    let meta = schema_alone(alloc)?;
    let mut to = Vec::new(alloc);
    write_header(&meta, &SYNC, &mut to)?;
    assert_eq!(rt; to.len(), 57);
    write_block(2, b"\x02\x01", &SYNC, &mut to)?;
    assert_eq!(rt; to.as_slice(), TWO_LONGS);

    let header = read_header(alloc, TWO_LONGS)?;
    assert_eq!(rt; header.schema_text.as_str(), "\"long\"");
    assert_eq!(rt; header.sync, SYNC);
    assert_eq!(rt; header.end, 57);
    let pairs = header.meta.inner();
    assert_eq!(rt; pairs.len(), 2);
    assert_eq!(rt; pairs[0].0.as_str(), "avro.codec");
    assert_eq!(rt; pairs[0].1.inner().as_slice(), b"null".as_slice());
    let block = next_block(&header, TWO_LONGS, 57);
    assert_eq!(rt;
        block,
        Ok(Some(Block {
            count: 2,
            from: 59,
            to: 61,
            next: 77
        }))
    );
    assert_eq!(rt; next_block(&header, TWO_LONGS, 77), Ok(None));
    Ok(())
}

#[test]
fn cut_and_spoilt_container(rt: HostRuntime) -> Result<(), Fail> {
    let header = read_header(rt.alloc(), TWO_LONGS)?;
    assert_eq!(rt; next_block(&header, &TWO_LONGS[..57], 57), Ok(None));
    assert_eq!(rt;
        block_fault(&header, &TWO_LONGS[..70], 57),
        Some((70, ContainerCause::Short))
    );
    let changed = spoilt(rt.alloc(), TWO_LONGS, 76, 0)?;
    assert_eq!(rt;
        block_fault(&header, &changed, 57),
        Some((61, ContainerCause::BadSync))
    );
    Ok(())
}

#[test]
fn faults_of_headers(rt: HostRuntime) -> Result<(), Fail> {
    let table: [(&str, &[u8], usize, ContainerCause); 14] = [
        ("no magic bytes", b"Obk\x01", 0, ContainerCause::BadMagic),
        ("no front of them", b"Ox", 0, ContainerCause::BadMagic),
        ("a front of them", b"Obj", 3, ContainerCause::Short),
        ("no bytes", b"", 0, ContainerCause::Short),
        (
            "a count of eleven bytes",
            b"Obj\x01\x80\x80\x80\x80\x80\x80\x80\x80\x80\x80\x01",
            4,
            ContainerCause::TooLong,
        ),
        (
            "too many pairs",
            b"Obj\x01\x82\x80\x80\x10",
            4,
            ContainerCause::TooMany,
        ),
        (
            "a key's length below 0",
            b"Obj\x01\x02\x01",
            5,
            ContainerCause::NegativeLength,
        ),
        (
            "a key that isn't UTF-8",
            b"Obj\x01\x02\x02\xff\x00\x00",
            5,
            ContainerCause::BadUtf8,
        ),
        (
            "a block of another size",
            b"Obj\x01\x01\x04\x02a\x00\x00",
            6,
            ContainerCause::BadSize,
        ),
        (
            "no schema",
            b"Obj\x01\x02\x02a\x00\x00",
            4,
            ContainerCause::NoSchema,
        ),
        (
            "another codec",
            b"Obj\x01\x04\x16avro.schema\x02\xff\x14avro.codec\x02a\x00",
            17,
            ContainerCause::BadUtf8,
        ),
        (
            "another codec before it",
            b"Obj\x01\x04\x14avro.codec\x02a\x16avro.schema\x02\xff\x00",
            16,
            ContainerCause::Codec,
        ),
        (
            "another codec after it",
            b"Obj\x01\x04\x16avro.schema\x00\x14avro.codec\x02a\x00",
            29,
            ContainerCause::Codec,
        ),
        (
            "no marker",
            b"Obj\x01\x02\x16avro.schema\x00\x00\x01",
            20,
            ContainerCause::Short,
        ),
    ];
    for (name, of, at, cause) in table {
        assert_eq!(rt; header_fault(rt.alloc(), of), Some((at, cause)), "{name}");
    }
    Ok(())
}

#[test]
fn faults_of_blocks(rt: HostRuntime) -> Result<(), Fail> {
    let header = read_header(rt.alloc(), TWO_LONGS)?;
    let table: [(&str, &[u8], usize, usize, ContainerCause); 7] = [
        (
            "a count below 0",
            b"\x01",
            0,
            0,
            ContainerCause::NegativeCount,
        ),
        (
            "a size below 0",
            b"\x02\x01",
            0,
            1,
            ContainerCause::NegativeCount,
        ),
        (
            "too many objects",
            b"\x82\x80\x80\x10",
            0,
            0,
            ContainerCause::TooMany,
        ),
        (
            "too many bytes",
            b"\x04\x82\x80\x80\x40",
            0,
            1,
            ContainerCause::BlockTooLarge,
        ),
        (
            "a count of eleven bytes",
            b"\x80\x80\x80\x80\x80\x80\x80\x80\x80\x80\x01",
            0,
            0,
            ContainerCause::TooLong,
        ),
        (
            "a body cut short",
            b"\x02\x04\x00",
            0,
            3,
            ContainerCause::Short,
        ),
        ("past the end", b"\x02", 2, 1, ContainerCause::Short),
    ];
    for (name, of, from, at, cause) in table {
        assert_eq!(rt; block_fault(&header, of, from), Some((at, cause)), "{name}");
    }
    Ok(())
}

#[test]
fn last_of_equal_keys(rt: HostRuntime) -> Result<(), Fail> {
    let of = b"Obj\x01\x06\x16avro.schema\x02a\x14avro.codec\x08null\x16avro.schema\x02b\x00\
\x00\x01\x02\x03\x04\x05\x06\x07\x08\x09\x0a\x0b\x0c\x0d\x0e\x0f";
    let header = read_header(rt.alloc(), of)?;
    assert_eq!(rt; header.schema_text.as_str(), "b");
    assert_eq!(rt; header.meta.inner().len(), 3, "all stay");
    Ok(())
}
