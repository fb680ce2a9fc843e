ghost use Rattle.std.specs.Prelude.{◌≡◌, IfOk, Ok, true};
ghost use Rattle.serde_json.specs.View.{view};
ghost use Rattle.schema_types.specs.declared.types.Schema.{Schema};
ghost use Rattle.schema_types.specs.declared.types.Spec.{Spec};
ghost use Rattle.schema_types.specs.Known.{has_known_transforms};
ghost use Rattle.schema_trees.specs.Reading.{Gives, spec_of};
ghost use Rattle.schema_trees.specs.Spelling.{SpellsSpec, SpellsNoSpec, OnFault};
ghost use Rattle.schema_trees.specs.TypeReading.{schema_of};
ghost use Rattle.schema_trees.specs.TypeSpelling.{SpellsSchema, SpellsNoSchema};
ghost use Rattle.schema_trees.specs.TypeWriting.{written_schema, IsSchema};
ghost use Rattle.schema_trees.specs.Writing.{written_spec, IsSpec};

use crate::fault::JsonErr;
use crate::{schema_reading, schema_writing, spec_reading, spec_writing};
use schema_types::{Schema, Spec};
use serde_json::Value;
use std::alloc::{AllocError, Global};

/// The schema that a JSON tree spells (Iceberg table specification, Appendix C, "Schemas").
///
/// `Bad` has the path of the first fault. The members of an object are tried in byte order of their keys, each with what
/// lies within it, and the items of an array in their order: so the root's `type` is tried last. But in an object that
/// is the type of a column, element, key or value its `type` is tried first, since it says which members there are.
/// In this order, of two equal ids of columns, elements, keys and values the later one is at fault, and a type that lies
/// within 128 others is. Other members count for nothing.
pub fn read_schema(alloc: Global, tree: &Value) -> Result<Schema, JsonErr>
    // What is read is spelled so.
    ensures found { IfOk result (SpellsSchema (view tree.now)) }
    // What is spelled so is read, unless memory runs out.
    ensures only { (s : Schema) → SpellsSchema (view tree.now) s → Gives result (Ok s) }
    // A fault comes only where the tree spells no schema.
    ensures none { OnFault result (SpellsNoSchema (view tree.now)) }
    // The first fault and its path.
    ensures fault { Gives result (schema_of (view tree.now)) }
{
    schema_reading::read(alloc, tree)
}

/// The partition spec that a JSON tree spells (Iceberg table specification, Appendix C, "Partition Specs").
///
/// `Bad` has the path of the first fault: the members of an object come in byte order of their keys, and of two equal
/// field ids the later one is at fault. Other members count for nothing.
pub fn read_spec(alloc: Global, tree: &Value) -> Result<Spec, JsonErr>
    // What is read is spelled so.
    ensures found { IfOk result (SpellsSpec (view tree.now)) }
    // What is spelled so is read, unless memory runs out.
    ensures only { (s : Spec) → SpellsSpec (view tree.now) s → Gives result (Ok s) }
    // A fault comes only where the tree spells no spec.
    ensures none { OnFault result (SpellsNoSpec (view tree.now)) }
    // The first fault and its path.
    ensures fault { Gives result (spec_of (view tree.now)) }
{
    spec_reading::read(alloc, tree)
}

/// The JSON tree that is written for a partition spec: an object with the members of the Rust type alone.
///
/// An unknown transform has no spelling. Whether the spec has one, `Spec::has_known_transforms` tells.
pub fn spec_tree(alloc: Global, spec: &Spec) -> Result<Value, AllocError>
    requires known { has_known_transforms spec.now ≡ true }
    ensures written { IfOk result (λ v. view v ≡ written_spec spec.now) }
    // It is one of the spellings of a spec such as is read.
    ensures spelled { IfOk result (λ v. IsSpec spec.now → SpellsSpec (view v) spec.now) }
    // So it is read as that spec.
    ensures again { IfOk result (λ v. IsSpec spec.now → spec_of (view v) ≡ Ok spec.now) }
{
    spec_writing::tree_of(alloc, spec)
}

/// The JSON tree that is written for a schema: an object with the members of the Rust types alone.
pub fn schema_tree(alloc: Global, schema: &Schema) -> Result<Value, AllocError>
    ensures written { IfOk result (λ v. view v ≡ written_schema schema.now) }
    // It is one of the spellings of a schema such as is read.
    ensures spelled { IfOk result (λ v. IsSchema schema.now → SpellsSchema (view v) schema.now) }
    // So it is read as that schema.
    ensures again { IfOk result (λ v. IsSchema schema.now → schema_of (view v) ≡ Ok schema.now) }
{
    schema_writing::tree_of(alloc, schema)
}
