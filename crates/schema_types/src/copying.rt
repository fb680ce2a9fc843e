ghost use Rattle.std.specs.Prelude.{◌≡◌, IfOk};

use crate::types::{
    ColType, Column, ColumnList, PartField, PartFieldList, PartType, Schema, Spec, SpecField,
    SpecFieldList,
};
use sqlite_items::{Boxed, Items};
use std::alloc::{AllocError, Global};

impl ColType {
    /// An equal type of its own.
    pub fn copy(&self, alloc: Global) -> Result<ColType, AllocError>
        ensures { IfOk result (λ t. t ≡ self.now) }
    {
        copy_type(alloc, self)
    }
}

impl Column {
    /// An equal column of its own.
    pub fn copy(&self, alloc: Global) -> Result<Column, AllocError>
        ensures { IfOk result (λ c. c ≡ self.now) }
    {
        copy_column(alloc, self)
    }
}

// a list of these elements
fn list_of(
    alloc: Global,
    element_id: i32,
    required: bool,
    element: ColType,
) -> Result<ColType, AllocError>
    ensures { IfOk result (λ t. t ≡ ColType.List element_id required element) }
{
    Ok(ColType::List {
        element_id,
        required,
        element: Boxed::new(alloc, element)?,
    })
}

// a map of these keys and values
fn map_of(
    alloc: Global,
    key_id: i32,
    key: ColType,
    value_id: i32,
    required: bool,
    value: ColType,
) -> Result<ColType, AllocError>
    ensures { IfOk result (λ t. t ≡ ColType.Map key_id key value_id required value) }
{
    Ok(ColType::Map {
        key_id,
        key: Boxed::new(alloc, key)?,
        value_id,
        required,
        value: Boxed::new(alloc, value)?,
    })
}

#[cycle(copy)]
fn copy_type(alloc: Global, ty: &ColType) -> Result<ColType, AllocError>
    ensures { IfOk result (λ t. t ≡ ty.now) }
{
    Ok(match ty {
        ColType::Boolean => ColType::Boolean,
        ColType::Int => ColType::Int,
        ColType::Long => ColType::Long,
        ColType::Float => ColType::Float,
        ColType::Double => ColType::Double,
        ColType::Decimal { precision, scale } => ColType::Decimal {
            precision: *precision,
            scale: *scale,
        },
        ColType::Date => ColType::Date,
        ColType::Time => ColType::Time,
        ColType::Timestamp => ColType::Timestamp,
        ColType::Timestamptz => ColType::Timestamptz,
        ColType::Str => ColType::Str,
        ColType::Uuid => ColType::Uuid,
        ColType::Fixed(length) => ColType::Fixed(*length),
        ColType::Binary => ColType::Binary,
        ColType::Struct(columns) => ColType::Struct(copy_columns(alloc, columns.as_slice())?),
        ColType::List {
            element_id,
            required,
            element,
        } => list_of(
            alloc,
            *element_id,
            *required,
            copy_type(alloc, element.get())?,
        )?,
        ColType::Map {
            key_id,
            key,
            value_id,
            required,
            value,
        } => {
            let key = copy_type(alloc, key.get())?;
            let value = copy_type(alloc, value.get())?;
            map_of(alloc, *key_id, key, *value_id, *required, value)?
        }
    })
}

#[cycle(copy)]
fn copy_column(alloc: Global, column: &Column) -> Result<Column, AllocError>
    ensures { IfOk result (λ c. c ≡ column.now) }
{
    let ty = copy_type(alloc, &column.ty)?;
    Ok(Column {
        id: column.id,
        name: column.name.copy()?,
        required: column.required,
        ty,
    })
}

#[cycle(copy)]
fn copy_columns(alloc: Global, columns: &[Column]) -> Result<ColumnList, AllocError>
    ensures { IfOk result (λ cs. cs ≡ columns.now) }
{
    let mut copied = Items::new(alloc);
    for column in columns {
        copied.push(copy_column(alloc, column)?)?;
    }
    Ok(copied)
}

impl Schema {
    /// An equal schema of its own.
    pub fn copy(&self, alloc: Global) -> Result<Schema, AllocError>
        ensures { IfOk result (λ s. s ≡ self.now) }
    {
        Ok(Schema {
            id: self.id,
            columns: copy_columns(alloc, self.columns.as_slice())?,
        })
    }
}

impl SpecField {
    /// An equal field of its own.
    pub fn copy(&self) -> Result<SpecField, AllocError>
        ensures { IfOk result (λ f. f ≡ self.now) }
    {
        Ok(SpecField {
            field_id: self.field_id,
            source_id: self.source_id,
            name: self.name.copy()?,
            transform: self.transform,
        })
    }
}

fn copy_spec_fields(alloc: Global, fields: &[SpecField]) -> Result<SpecFieldList, AllocError>
    ensures { IfOk result (λ fs. fs ≡ fields.now) }
{
    let mut copied = Items::new(alloc);
    for field in fields {
        copied.push(field.copy()?)?;
    }
    Ok(copied)
}

impl Spec {
    /// An equal spec of its own.
    pub fn copy(&self, alloc: Global) -> Result<Spec, AllocError>
        ensures { IfOk result (λ s. s ≡ self.now) }
    {
        Ok(Spec {
            id: self.id,
            fields: copy_spec_fields(alloc, self.fields.as_slice())?,
        })
    }
}

impl PartField {
    /// An equal field of its own.
    pub fn copy(&self, alloc: Global) -> Result<PartField, AllocError>
        ensures { IfOk result (λ f. f ≡ self.now) }
    {
        let ty = self.ty.copy(alloc)?;
        Ok(PartField {
            field_id: self.field_id,
            name: self.name.copy()?,
            ty,
            transform: self.transform,
        })
    }
}

fn copy_part_fields(alloc: Global, fields: &[PartField]) -> Result<PartFieldList, AllocError>
    ensures { IfOk result (λ fs. fs ≡ fields.now) }
{
    let mut copied = Items::new(alloc);
    for field in fields {
        copied.push(field.copy(alloc)?)?;
    }
    Ok(copied)
}

impl PartType {
    /// An equal type of its own.
    pub fn copy(&self, alloc: Global) -> Result<PartType, AllocError>
        ensures { IfOk result (λ t. t ≡ self.now) }
    {
        Ok(PartType {
            fields: copy_part_fields(alloc, self.fields.as_slice())?,
        })
    }
}
