use avro_schema::{
    Bytes, Schema, SchemaCause, SchemaErr, Text, TextList, is_within, is_within_limits,
    read_schema, write_schema,
};
use serde_json::Value;
use std::alloc::Global;
use std::process::Abort;
use std::test::Fail;

// The text that is written for the schema that a text spells.
fn rewritten(alloc: Global, text: &str) -> Result<String, Fail> {
    let tree = Value::from_str(alloc, text)?;
    let schema = read_schema(alloc, &tree)?;
    let copied = schema.copy(alloc)?;
    let written = write_schema(alloc, &copied)?;
    Ok(written.to_string(alloc)?)
}

// The fault of a text, its cause and its path.
fn fault(alloc: Global, text: &str) -> Result<String, Fail> {
    let tree = Value::from_str(alloc, text)?;
    match read_schema(alloc, &tree) {
        Ok(_) => Ok(String::from_str(alloc, "none")?),
        Err(SchemaErr::Memory) => Ok(String::from_str(alloc, "memory")?),
        Err(SchemaErr::Bad { path, cause }) => told(alloc, cause, path.as_str()),
    }
}

fn told(alloc: Global, cause: SchemaCause, path: &str) -> Result<String, Fail> {
    Ok(format!(in alloc; "{cause:?} at {path}")?)
}

fn same(rt: &impl Abort, alloc: Global, text: &str) -> Result<(), Fail> {
    let written = rewritten(alloc, text)?;
    assert_eq!(rt; written.as_str(), text);
    Ok(())
}

fn gives(rt: &impl Abort, alloc: Global, text: &str, wanted: &str) -> Result<(), Fail> {
    let written = rewritten(alloc, text)?;
    assert_eq!(rt; written.as_str(), wanted, "{text}");
    Ok(())
}

fn faulty(rt: &impl Abort, alloc: Global, text: &str, wanted: &str) -> Result<(), Fail> {
    let found = fault(alloc, text)?;
    assert_eq!(rt; found.as_str(), wanted, "{text}");
    Ok(())
}

#[test]
fn schema_long_and_recursive(rt: HostRuntime) -> Result<(), Fail> {
    same(&rt, rt.alloc(), r#""long""#)?;
    faulty(
        &rt,
        rt.alloc(),
        r#"{"type": "record", "name": "node", "fields": [{"name": "next", "type": "node"}]}"#,
        "Recursive at fields[0].type",
    )
}

fn written_forms() -> [(&'static str, &'static str); 21] {
    [
        (r#"{"type": "null"}"#, r#""null""#),
        (
            r#"["null", "boolean", "float", "double", "bytes", "null", ["int"]]"#,
            r#"["null","boolean","float","double","bytes","null",["int"]]"#,
        ),
        (
            r#"{"type": "int", "logicalType": "date"}"#,
            r#"{"logicalType":"date","type":"int"}"#,
        ),
        (r#"{"type": "long", "logicalType": "date"}"#, r#""long""#),
        (
            r#"{"type": "long", "logicalType": "time-micros"}"#,
            r#"{"logicalType":"time-micros","type":"long"}"#,
        ),
        (
            r#"{"type": "long", "logicalType": "timestamp-micros"}"#,
            r#"{"adjust-to-utc":false,"logicalType":"timestamp-micros","type":"long"}"#,
        ),
        (
            r#"{"type": "long", "logicalType": "timestamp-micros", "adjust-to-utc": true}"#,
            r#"{"adjust-to-utc":true,"logicalType":"timestamp-micros","type":"long"}"#,
        ),
        (
            r#"{"type": "bytes", "logicalType": "decimal", "precision": 9}"#,
            r#"{"logicalType":"decimal","precision":9,"scale":0,"type":"bytes"}"#,
        ),
        (
            r#"{"type": "bytes", "logicalType": "decimal", "scale": 2}"#,
            r#""bytes""#,
        ),
        (
            r#"{"type": "bytes", "logicalType": "decimal", "precision": 4294967296}"#,
            r#""bytes""#,
        ),
        (
            r#"{"type": "bytes", "logicalType": "decimal", "precision": 4, "scale": -1}"#,
            r#""bytes""#,
        ),
        (
            r#"{"type": "string", "logicalType": "uuid"}"#,
            r#"{"logicalType":"uuid","type":"string"}"#,
        ),
        (
            r#"{"type": "fixed", "size": 16, "name": "md5"}"#,
            r#"{"name":"md5","size":16,"type":"fixed"}"#,
        ),
        (
            r#"{"type": "fixed", "size": 16, "name": "a.b.md5", "logicalType": "uuid"}"#,
            r#"{"logicalType":"uuid","name":"md5","size":16,"type":"fixed"}"#,
        ),
        (
            r#"{"type": "fixed", "size": 15, "name": "md5", "logicalType": "uuid"}"#,
            r#"{"name":"md5","size":15,"type":"fixed"}"#,
        ),
        (
            r#"{"type": "fixed", "size": 4, "name": "d", "logicalType": "decimal", "precision": 9, "scale": 2}"#,
            r#"{"logicalType":"decimal","name":"d","precision":9,"scale":2,"size":4,"type":"fixed"}"#,
        ),
        (
            r#"{"type": "enum", "name": "Suit", "symbols": ["SPADES", "HEARTS", "DIAMONDS", "CLUBS"]}"#,
            r#"{"name":"Suit","symbols":["SPADES","HEARTS","DIAMONDS","CLUBS"],"type":"enum"}"#,
        ),
        (
            r#"{"type": "array", "items": "string", "default": []}"#,
            r#"{"items":"string","type":"array"}"#,
        ),
        (
            r#"{"type": "array", "items": "string", "element-id": 7, "logicalType": "map"}"#,
            r#"{"element-id":7,"items":"string","logicalType":"map","type":"array"}"#,
        ),
        (
            r#"{"type": "map", "values": "long", "key-id": -1, "value-id": 2147483647}"#,
            r#"{"key-id":-1,"type":"map","value-id":2147483647,"values":"long"}"#,
        ),
        (
            r#"{"type": "map", "values": "long", "key-id": 2147483648}"#,
            r#"{"type":"map","values":"long"}"#,
        ),
    ]
}

#[test]
fn types_are_written_in_one_form(rt: HostRuntime) -> Result<(), Fail> {
    let forms = written_forms();
    for (text, wanted) in &forms {
        gives(&rt, rt.alloc(), text, wanted)?;
    }
    Ok(())
}

#[test]
fn records_are_written_in_one_form(rt: HostRuntime) -> Result<(), Fail> {
    same(
        &rt,
        rt.alloc(),
        r#"{"fields":[{"field-id":1,"name":"id","type":"long"},{"default":null,"field-id":2,"name":"name","type":["null","string"]}],"name":"table","type":"record"}"#,
    )?;
    gives(
        &rt,
        rt.alloc(),
        r#"{"type": "record", "name": "x.r", "namespace": "y", "doc": "d", "fields": [{"name": "a", "type": {"type": "fixed", "name": "f", "size": 1}, "default": "b"}, {"name": "a", "type": ["int", "null"]}, {"name": "c", "type": "z.f"}, {"name": "d", "type": ["null", {"type": "x.f"}]}]}"#,
        r#"{"fields":[{"name":"a","type":{"name":"f","size":1,"type":"fixed"}},{"name":"a","type":["int","null"]},{"name":"c","type":"f"},{"default":null,"name":"d","type":["null","f"]}],"name":"r","type":"record"}"#,
    )
}

fn faults() -> [(&'static str, &'static str); 24] {
    [
        ("null", "BadForm at "),
        ("1", "BadForm at "),
        ("{}", "BadForm at type"),
        (r#"{"type": {"type": "long"}}"#, "BadForm at type"),
        (r#"{"type": "x"}"#, "UnknownName at type"),
        (r#""a.long""#, "UnknownName at "),
        (r#"{"type": "array"}"#, "BadForm at items"),
        (r#"{"type": "array", "items": "x"}"#, "UnknownName at items"),
        (
            r#"{"type": "map", "values": ["int", {"type": "array", "items": "y"}]}"#,
            "UnknownName at values[1].items",
        ),
        (r#"{"type": "map", "items": "int"}"#, "BadForm at values"),
        (r#"{"type": "fixed", "name": "f"}"#, "BadForm at size"),
        (
            r#"{"type": "fixed", "name": "f", "size": 4294967296}"#,
            "BadForm at size",
        ),
        (r#"{"type": "fixed", "size": 4}"#, "BadForm at name"),
        (
            r#"{"type": "fixed", "name": "a.long", "size": 4}"#,
            "BadForm at name",
        ),
        (r#"{"type": "enum", "name": "e"}"#, "BadForm at symbols"),
        (
            r#"{"type": "enum", "name": "string", "symbols": []}"#,
            "BadForm at name",
        ),
        (
            r#"{"type": "enum", "name": "e", "symbols": ["A", 1]}"#,
            "BadForm at symbols[1]",
        ),
        (r#"{"type": "record", "name": "r"}"#, "BadForm at fields"),
        (
            r#"{"type": "record", "name": "r", "fields": [{"type": "int"}]}"#,
            "BadForm at fields[0].name",
        ),
        (
            r#"{"type": "record", "name": "r", "fields": [{"name": "a", "type": "int"}, {"name": "b"}]}"#,
            "BadForm at fields[1].type",
        ),
        (
            r#"[{"type": "fixed", "name": "a.f", "size": 1}, {"type": "fixed", "name": "b.f", "size": 1}]"#,
            "BadForm at [1].name",
        ),
        (
            r#"["f", {"type": "fixed", "name": "f", "size": 1}]"#,
            "UnknownName at [0]",
        ),
        (
            r#"{"type": "record", "name": "LongList", "aliases": ["LinkedLongs"], "fields": [{"name": "value", "type": "long"}, {"name": "next", "type": ["null", "LongList"]}]}"#,
            "Recursive at fields[1].type[1]",
        ),
        (
            r#"{"type": "record", "name": "r", "fields": [{"name": "a", "type": {"type": "record", "name": "r", "fields": []}}]}"#,
            "BadForm at fields[0].type.name",
        ),
    ]
}

#[test]
fn faults_with_their_paths(rt: HostRuntime) -> Result<(), Fail> {
    let table = faults();
    for (text, wanted) in &table {
        faulty(&rt, rt.alloc(), text, wanted)?;
    }
    Ok(())
}

// So many copies of a text.
fn repeated(alloc: Global, part: &str, times: u32) -> Result<String, Fail> {
    let mut text = String::new(alloc);
    for _ in 0..times {
        text.push_str(part)?;
    }
    Ok(text)
}

// An int within so many arrays.
fn arrays(alloc: Global, depth: u32) -> Result<String, Fail> {
    let front = repeated(alloc, r#"{"items":"#, depth)?;
    let back = repeated(alloc, r#","type":"array"}"#, depth)?;
    Ok(format!(in alloc; "{front}\"int\"{back}")?)
}

#[test]
fn types_within_one_another_at_the_limit(rt: HostRuntime) -> Result<(), Fail> {
    let deepest = arrays(rt.alloc(), 31)?;
    same(&rt, rt.alloc(), deepest.as_str())?;
    let deeper = arrays(rt.alloc(), 32)?;
    let path = repeated(rt.alloc(), ".items", 32)?;
    let wanted = format!(in rt.alloc(); "TooDeep at {}", path.as_str().trim_start_matches('.'))?;
    faulty(&rt, rt.alloc(), deeper.as_str(), wanted.as_str())
}

#[test]
fn a_reference_is_as_deep_as_its_type(rt: HostRuntime) -> Result<(), Fail> {
    let inner = arrays(rt.alloc(), 29)?;
    let record = format!(in rt.alloc();
        r#"{{"fields":[{{"name":"a","type":{inner}}}],"name":"r","type":"record"}}"#
    )?;
    let fits = format!(in rt.alloc(); r#"[{record},"r"]"#)?;
    same(&rt, rt.alloc(), fits.as_str())?;
    let deeper = format!(in rt.alloc(); r#"[{record},{{"items":"r","type":"array"}}]"#)?;
    faulty(&rt, rt.alloc(), deeper.as_str(), "TooDeep at [1].items")
}

// A record of so many fields.
fn record(alloc: Global, name: &str, count: u32) -> Result<String, Fail> {
    let fields = repeated(alloc, r#"{"name":"a","type":"int"},"#, count)?;
    Ok(format!(in alloc;
        r#"{{"fields":[{fields}{{"name":"z","type":["null","int"]}}],"name":"{name}","type":"record"}}"#
    )?)
}

#[test]
fn record_fields_at_the_limit(rt: HostRuntime) -> Result<(), Fail> {
    let widest = record(rt.alloc(), "r", 4095)?;
    let read = fault(rt.alloc(), widest.as_str())?;
    assert_eq!(rt; read.as_str(), "none");
    let wider = record(rt.alloc(), "r", 4096)?;
    faulty(&rt, rt.alloc(), wider.as_str(), "TooWide at fields[4096]")?;
    let half = record(rt.alloc(), "h", 2046)?;
    let twice = format!(in rt.alloc();
        r#"{{"fields":[{{"name":"a","type":{half}}},{{"name":"b","type":"h"}}],"name":"r","type":"record"}}"#
    )?;
    let fits = fault(rt.alloc(), twice.as_str())?;
    assert_eq!(rt; fits.as_str(), "none");
    let thrice = format!(in rt.alloc(); r#"[{twice},"h"]"#)?;
    faulty(&rt, rt.alloc(), thrice.as_str(), "TooWide at [1]")
}

#[test]
fn a_wide_schema_is_written_as_itself(rt: HostRuntime) -> Result<(), Fail> {
    let wide = wide_schema();
    same(&rt, rt.alloc(), wide)
}

fn wide_schema() -> &'static str {
    r#"{"fields":[{"field-id":1,"name":"flag","type":"boolean"},{"field-id":2,"name":"day","type":{"logicalType":"date","type":"int"}},{"field-id":3,"name":"at","type":{"adjust-to-utc":true,"logicalType":"timestamp-micros","type":"long"}},{"default":null,"field-id":4,"name":"price","type":["null",{"logicalType":"decimal","name":"f4","precision":9,"scale":2,"size":4,"type":"fixed"}]},{"field-id":5,"name":"key","type":{"logicalType":"uuid","name":"f5","size":16,"type":"fixed"}},{"field-id":6,"name":"parts","type":{"element-id":7,"items":{"fields":[{"field-id":8,"name":"a","type":"float"},{"field-id":9,"name":"b","type":"f5"}],"name":"r7","type":"record"},"type":"array"}},{"field-id":10,"name":"pairs","type":{"element-id":13,"items":{"fields":[{"field-id":11,"name":"key","type":"r7"},{"default":null,"field-id":12,"name":"value","type":["null","bytes"]}],"name":"k11_v12","type":"record"},"logicalType":"map","type":"array"}},{"field-id":14,"name":"words","type":{"key-id":15,"type":"map","value-id":16,"values":"string"}},{"name":"suit","type":{"name":"Suit","symbols":["SPADES","HEARTS"],"type":"enum"}},{"name":"again","type":"Suit"}],"name":"table","type":"record"}"#
}

#[test]
fn depth_is_tested(rt: HostRuntime) -> Result<(), Fail> {
    let text = arrays(rt.alloc(), 2)?;
    let tree = Value::from_str(rt.alloc(), text.as_str())?;
    let schema = read_schema(rt.alloc(), &tree)?;
    assert!(rt; is_within_limits(&schema));
    assert!(rt; is_within(&schema, 3));
    assert!(rt; !is_within(&schema, 2));
    Ok(())
}

#[test]
fn texts_and_bytes_hold_what_they_are_given(rt: HostRuntime) -> Result<(), Fail> {
    let text = Text::new(String::from_str(rt.alloc(), "abc")?);
    let mut texts = Vec::new(rt.alloc());
    texts.push(text.copy()?)?;
    let list = TextList::new(texts);
    let copied = list.copy(rt.alloc())?.into_inner();
    assert_eq!(rt; copied.len(), 1);
    assert_eq!(rt; list.inner().len(), 1);
    assert_eq!(rt; text.inner().as_str(), "abc");
    let inner = text.into_inner();
    assert_eq!(rt; inner.as_str(), "abc");
    let bytes = Bytes::new(Vec::from_slice(rt.alloc(), b"abc")?);
    let copy = bytes.copy()?;
    assert_eq!(rt; copy.as_slice(), b"abc".as_slice());
    assert_eq!(rt; bytes.inner().len(), 3);
    let back = bytes.into_inner();
    assert_eq!(rt; back.as_slice(), b"abc".as_slice());
    Ok(())
}

fn crosses_threads<T: Send + Sync>(_value: &T) {}

#[test]
fn schemas_cross_threads(rt: HostRuntime) -> Result<(), Fail> {
    let schema = Schema::Choice {
        name: Text::new(String::from_str(rt.alloc(), "e")?),
        symbols: TextList::new(Vec::new(rt.alloc())),
    };
    crosses_threads(&schema);
    let bytes = Bytes::new(Vec::new(rt.alloc()));
    crosses_threads(&bytes);
    Ok(())
}
