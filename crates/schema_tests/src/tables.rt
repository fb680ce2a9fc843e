use avro_schema::Text;
use ice_schema::read_schema;
use schema_types::Schema;
use serde_json::Value;
use std::alloc::{AllocError, Global};
use std::test::Fail;

pub(crate) fn text(alloc: Global, text: &str) -> Result<Text, AllocError> {
    Ok(Text::new(String::from_str(alloc, text)?))
}

// The schema that a text spells.
pub(crate) fn schema_of(alloc: Global, text: &str) -> Result<Schema, Fail> {
    let tree = Value::from_str(alloc, text)?;
    Ok(read_schema(alloc, &tree)?)
}

// The text of a schema of one column with the id 7, from its type's text.
pub(crate) fn one_column(alloc: Global, required: bool, ty: &str) -> Result<String, Fail> {
    Ok(format!(in alloc;
        r#"{{"fields":[{{"id":7,"name":"c","required":{required},"type":{ty}}}],"schema-id":0,"type":"struct"}}"#
    )?)
}

// The columns id and name of the worked table.
pub(crate) const ID_AND_NAME: &str =
    r#"{"fields":[{"id":1,"name":"id","required":true,"type":"long"},{"id":2,"name":"name","required":false,"type":"string"}],"schema-id":0,"type":"struct"}"#;

// A struct of an int under the id 8, which may be null.
pub(crate) const STRUCT_OF_INT: &str =
    r#"{"type":"struct","fields":[{"id":8,"name":"a b","required":false,"type":"int"}]}"#;
