ghost use Rattle.std.specs.Prelude.{◌≡◌, IfOk};

use crate::schema::{Field, FieldList, Logical, Schema, SchemaList};
use crate::text::Text;
use sqlite_items::{Boxed, Items};
use std::alloc::{AllocError, Global};

impl Schema {
    /// An equal schema of its own.
    pub fn copy(&self, alloc: Global) -> Result<Schema, AllocError>
        ensures { IfOk result (λ s. s ≡ self.now) }
    {
        copy_schema(alloc, self)
    }
}

fn copy_fixed(name: &Text, size: u32, logical: Logical) -> Result<Schema, AllocError>
    ensures { IfOk result (λ s. s ≡ Schema.Fix name.now size logical) }
{
    Ok(Schema::Fix {
        name: name.copy()?,
        size,
        logical,
    })
}

// a map of these values
fn map_of(
    alloc: Global,
    value: Schema,
    key_id: Option<i32>,
    value_id: Option<i32>,
) -> Result<Schema, AllocError>
    ensures { IfOk result (λ s. s ≡ Schema.Pairs value key_id value_id) }
{
    Ok(Schema::Pairs {
        value: Boxed::new(alloc, value)?,
        key_id,
        value_id,
    })
}

#[cycle(copy)]
fn copy_schema(alloc: Global, schema: &Schema) -> Result<Schema, AllocError>
    ensures { IfOk result (λ s. s ≡ schema.now) }
{
    Ok(match schema {
        Schema::Null => Schema::Null,
        Schema::Bool => Schema::Bool,
        Schema::Int(logical) => Schema::Int(*logical),
        Schema::Long(logical) => Schema::Long(*logical),
        Schema::Float4 => Schema::Float4,
        Schema::Float8 => Schema::Float8,
        Schema::Blob(logical) => Schema::Blob(*logical),
        Schema::Str(logical) => Schema::Str(*logical),
        Schema::Fix {
            name,
            size,
            logical,
        } => copy_fixed(name, *size, *logical)?,
        Schema::Choice { name, symbols } => Schema::Choice {
            name: name.copy()?,
            symbols: symbols.copy(alloc)?,
        },
        Schema::List {
            item,
            element_id,
            is_map,
        } => Schema::List {
            item: Boxed::new(alloc, copy_schema(alloc, item.get())?)?,
            element_id: *element_id,
            is_map: *is_map,
        },
        Schema::Pairs {
            value,
            key_id,
            value_id,
        } => map_of(alloc, copy_schema(alloc, value.get())?, *key_id, *value_id)?,
        Schema::Fields { name, fields } => Schema::Fields {
            name: name.copy()?,
            fields: copy_fields(alloc, fields.as_slice())?,
        },
        Schema::Union { branches } => Schema::Union {
            branches: copy_branches(alloc, branches.as_slice())?,
        },
    })
}

#[cycle(copy)]
fn copy_fields(alloc: Global, fields: &[Field]) -> Result<FieldList, AllocError>
    ensures { IfOk result (λ fs. fs ≡ fields.now) }
{
    let mut copied = Items::new(alloc);
    for field in fields {
        let schema = copy_schema(alloc, &field.schema)?;
        copied.push(Field {
            name: field.name.copy()?,
            schema,
            field_id: field.field_id,
        })?;
    }
    Ok(copied)
}

#[cycle(copy)]
fn copy_branches(alloc: Global, branches: &[Schema]) -> Result<SchemaList, AllocError>
    ensures { IfOk result (λ ss. ss ≡ branches.now) }
{
    let mut copied = Items::new(alloc);
    for branch in branches {
        copied.push(copy_schema(alloc, branch)?)?;
    }
    Ok(copied)
}
