use crate::mapping::mapped;
use crate::tables::{ID_AND_NAME, STRUCT_OF_INT, one_column, schema_of};
use avro_schema::read_schema;
use ice_schema::{Nullness, Projection, Source, projects};
use serde_json::Value;
use std::alloc::Global;
use std::process::Abort;
use std::test::Fail;

fn mark(nullness: Nullness) -> &'static str {
    match nullness {
        Nullness::Required => "",
        Nullness::Wrapped => "+",
        Nullness::NullFirst => "?",
        Nullness::NullSecond => "~",
    }
}

// A projection as text: `=` stays, `L` is widened, `{..}` is a record, `[..]` an array, `<..>` a map.
#[cycle(shown)]
fn shown(alloc: Global, projection: &Projection) -> Result<String, Fail> {
    match projection {
        Projection::Kept => Ok(String::from_str(alloc, "=")?),
        Projection::Widened => Ok(String::from_str(alloc, "L")?),
        Projection::Record(sources) => shown_sources(alloc, sources.as_slice()),
        Projection::Array(item) => {
            let item = shown_source(alloc, item.get())?;
            Ok(format!(in alloc; "[{item}]")?)
        }
        Projection::Map(value) => {
            let value = shown_source(alloc, value.get())?;
            Ok(format!(in alloc; "<{value}>")?)
        }
    }
}

// The place in the file, how null is taken over, and the projection; `null` where the file lacks it.
#[cycle(shown)]
fn shown_source(alloc: Global, source: &Source) -> Result<String, Fail> {
    match source {
        Source::Absent => Ok(String::from_str(alloc, "null")?),
        Source::Present {
            place,
            nullness,
            value,
        } => {
            let value = shown(alloc, value)?;
            let mark = mark(*nullness);
            Ok(format!(in alloc; "{place}{mark}{value}")?)
        }
    }
}

#[cycle(shown)]
fn shown_sources(alloc: Global, sources: &[Source]) -> Result<String, Fail> {
    let mut text = String::from_str(alloc, "{")?;
    for source in sources {
        text.push_str(shown_source(alloc, source)?.as_str())?;
        text.push_str(";")?;
    }
    text.push_str("}")?;
    Ok(text)
}

// The projection of a file's schema to a schema, from their texts.
fn projected(alloc: Global, file: &str, current: &str) -> Result<String, Fail> {
    let tree = Value::from_str(alloc, file)?;
    let file = read_schema(alloc, &tree)?;
    let current = schema_of(alloc, current)?;
    match projects(alloc, &file, &current)? {
        Some(projection) => shown(alloc, &projection),
        None => Ok(String::from_str(alloc, "none")?),
    }
}

// A file with one field of this type under the id 7 projects so to one column with the id 7.
fn gives(
    rt: &impl Abort,
    alloc: Global,
    file: &str,
    required: bool,
    ty: &str,
    wanted: &str,
) -> Result<(), Fail> {
    let record = format!(in alloc;
        r#"{{"type":"record","name":"r","fields":[{{"name":"x","type":{file},"field-id":7}}]}}"#
    )?;
    let current = one_column(alloc, required, ty)?;
    let found = projected(alloc, record.as_str(), current.as_str())?;
    assert_eq!(rt; found.as_str(), wanted, "{file} as {ty}");
    Ok(())
}

#[test]
fn schema_mapped_and_projected(rt: HostRuntime) -> Result<(), Fail> {
    let text = mapped(rt.alloc(), ID_AND_NAME)?;
    assert_eq!(&rt;
        text.as_str(),
        r#"{"fields":[{"field-id":1,"name":"id","type":"long"},{"default":null,"field-id":2,"name":"name","type":["null","string"]}],"name":"table","type":"record"}"#
    );
    let itself = projected(rt.alloc(), text.as_str(), ID_AND_NAME)?;
    assert_eq!(&rt; itself.as_str(), "{0=;1?=;}");
    Ok(())
}

// The column `a b` with the id 3 beside a column `_3`.
const ONE_NAME: &str =
    r#"{"fields":[{"id":3,"name":"a b","required":true,"type":"long"},{"id":4,"name":"_3","required":true,"type":"int"}],"schema-id":0,"type":"struct"}"#;

#[test]
fn columns_under_one_name_stay_apart(rt: HostRuntime) -> Result<(), Fail> {
    let text = mapped(rt.alloc(), ONE_NAME)?;
    assert_eq!(&rt;
        text.as_str(),
        r#"{"fields":[{"field-id":3,"name":"_3","type":"long"},{"field-id":4,"name":"_3","type":"int"}],"name":"table","type":"record"}"#
    );
    let itself = projected(rt.alloc(), text.as_str(), ONE_NAME)?;
    assert_eq!(&rt; itself.as_str(), "{0=;1=;}");
    Ok(())
}

const BY_ID: [(&str, &str); 4] = [
    (
        r#"{"type":"record","name":"t","fields":[{"name":"id","type":"string","field-id":2},{"name":"name","type":"long","field-id":1}]}"#,
        "{1=;0+=;}",
    ),
    (
        r#"{"type":"record","name":"t","fields":[{"name":"id","type":"long"},{"name":"x","type":"long","field-id":1}]}"#,
        "{1=;null;}",
    ),
    (
        r#"{"type":"record","name":"t","fields":[{"name":"name","type":["null","string"],"field-id":2}]}"#,
        "none",
    ),
    (r#""long""#, "none"),
];

#[test]
fn columns_found_by_id(rt: HostRuntime) -> Result<(), Fail> {
    for (file, wanted) in BY_ID {
        let found = projected(rt.alloc(), file, ID_AND_NAME)?;
        assert_eq!(&rt; found.as_str(), wanted, "{file}");
    }
    Ok(())
}

const UUID: &str = r#"{"type":"fixed","name":"u","size":16,"logicalType":"uuid"}"#;

const PRIMITIVE: [(&str, bool, &str, &str); 12] = [
    (r#""int""#, true, r#""int""#, "{0=;}"),
    (r#""int""#, true, r#""long""#, "{0L;}"),
    (r#""long""#, true, r#""int""#, "none"),
    (r#""int""#, true, r#""date""#, "none"),
    (r#""float""#, true, r#""double""#, "none"),
    (r#"["null","int"]"#, false, r#""long""#, "{0?L;}"),
    (r#"["int","null"]"#, false, r#""long""#, "{0~L;}"),
    (r#""int""#, false, r#""int""#, "{0+=;}"),
    (r#"["null","int"]"#, true, r#""int""#, "none"),
    (r#"["null","int","long"]"#, false, r#""int""#, "none"),
    (UUID, true, r#""uuid""#, "{0=;}"),
    (UUID, true, r#""fixed[16]""#, "none"),
];

#[test]
fn primitive_types_projected(rt: HostRuntime) -> Result<(), Fail> {
    for (file, required, ty, wanted) in PRIMITIVE {
        gives(&rt, rt.alloc(), file, required, ty, wanted)?;
    }
    Ok(())
}

#[test]
fn decimals_projected(rt: HostRuntime) -> Result<(), Fail> {
    for (size, precision, scale, wanted) in [
        (4, 9, 2, "{0=;}"),
        (5, 9, 2, "none"),
        (4, 8, 2, "none"),
        (4, 9, 1, "none"),
    ] {
        let file = format!(in rt.alloc();
            r#"{{"type":"fixed","name":"d","size":{size},"logicalType":"decimal","precision":{precision},"scale":{scale}}}"#
        )?;
        gives(
            &rt,
            rt.alloc(),
            file.as_str(),
            true,
            r#""decimal(9,2)""#,
            wanted,
        )?;
    }
    Ok(())
}

const RECORD: &str =
    r#"{"type":"record","name":"s","fields":[{"name":"y","type":"long","field-id":9},{"name":"z","type":["int","null"],"field-id":8}]}"#;

const STRINGS: &str = r#"{"type":"array","items":"string","element-id":9}"#;

const INTS_BY_NAME: &str = r#"{"type":"map","values":"int","key-id":8,"value-id":9}"#;

const DOUBLES_BY_INT: &str =
    r#"{"type":"array","logicalType":"map","items":{"type":"record","name":"e","fields":[{"name":"value","type":"double","field-id":9},{"name":"key","type":"int","field-id":8}]}}"#;

const NESTED: [(&str, &str, &str); 7] = [
    (RECORD, STRUCT_OF_INT, "{0{1~=;};}"),
    (
        STRINGS,
        r#"{"type":"list","element-id":9,"element-required":false,"element":"string"}"#,
        "{0[0+=];}",
    ),
    (
        STRINGS,
        r#"{"type":"list","element-id":9,"element-required":true,"element":"int"}"#,
        "none",
    ),
    (
        INTS_BY_NAME,
        r#"{"type":"map","key-id":8,"key":"string","value-id":9,"value-required":true,"value":"long"}"#,
        "{0<0L>;}",
    ),
    (
        INTS_BY_NAME,
        r#"{"type":"map","key-id":8,"key":"int","value-id":9,"value-required":true,"value":"int"}"#,
        "none",
    ),
    (
        DOUBLES_BY_INT,
        r#"{"type":"map","key-id":8,"key":"int","value-id":9,"value-required":false,"value":"double"}"#,
        "{0[0{1=;0+=;}];}",
    ),
    (
        DOUBLES_BY_INT,
        r#"{"type":"list","element-id":9,"element-required":true,"element":"int"}"#,
        "none",
    ),
];

#[test]
fn nested_types_projected(rt: HostRuntime) -> Result<(), Fail> {
    for (file, ty, wanted) in NESTED {
        gives(&rt, rt.alloc(), file, true, ty, wanted)?;
    }
    Ok(())
}
