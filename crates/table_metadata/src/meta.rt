//! Metadata: its tree, with a typed view beside it.
ghost use Rattle.std.specs.Prelude.{◌≡◌, ◌≢◌, ◌≤◌, ◌<◌, ◌^◌, ◌↔◌, ◌++◌, ◌∷◌, [], false, true, Some, None, List, ℕ, IfOk, IfErr, OnOk, IsUtf8, IsSome, IsTrue, is_some, option_map, unwrap_or, pos, codes, FitsSigned};
ghost use Rattle.std.specs.Int.{w64};
ghost use Rattle.serde_json.specs.Data.{Data, depth};
ghost use Rattle.serde_json.specs.Find.{get};
ghost use Rattle.serde_json.specs.Read.{max_depth, read};
ghost use Rattle.serde_json.specs.View.{view};
ghost use Rattle.serde_json.specs.Written.{compact_text};
ghost use Rattle.metadata_form.specs.Fault.{form_fault};
ghost use Rattle.metadata_form.specs.declared.fault.MetaCause.TheVariants.{NotJson};
ghost use Rattle.metadata_view.specs.Fault.{fault_of};
ghost use Rattle.metadata_view.specs.View.{value_in, uuid_of, location_of, last_sequence_of, updated_of, current_of, current_schema_id_of, default_spec_id_of, snapshots_of, refs_of, ref_with, statistics_of, property_of};
ghost use Rattle.table_metadata.specs.Spelling.{Spells, IsRefused, IsReadAs, IsUnknown, IsFaultOf};
ghost use Rattle.metadata_snapshots.specs.Edits.{without_snapshots};
ghost use Rattle.metadata_snapshots.specs.Conditions.{IsTextual, IsNewId, IsKnownParent, IsIntOrNone};
ghost use Rattle.table_metadata.specs.Conditions.{CanLose, OthersStay, added_fields, taken_fields};
ghost use Rattle.table_metadata.specs.Edits.{with_ref, with_snapshot, next_version, next_keeping, version_limit, kept_versions, HasVersionLimit};
ghost use Rattle.metadata_view.specs.Walk.{IsWalk, IsAncestor, snapshot_with};
ghost use Rattle.table_metadata.specs.declared.cause.MetaErr.TheVariants.{Bad};
ghost use Rattle.table_metadata.specs.declared.cause.EditErr.TheVariants.{UnknownSnapshot};

use crate::cause::{EditErr, MetaErr};
use crate::conditions::{has_child, has_name, is_kept, leaves_whole};
use crate::edits;
use ice_store::{Bytes, Items, Text, TextList, natural_of};
use metadata_form::{Fault, MetaCause, form_fault};
use metadata_snapshots::{PairTexts, as_str};
use metadata_view::{
    IdList, Index, Indexed, Property, Ref, RefList, Snapshot, SnapshotList, StatisticsList, Typed,
    double_id, find, has, index_of, links_fault, on_walk, typed_view, walk,
};
use serde_json::Value;
use std::alloc::{AllocError, Global};
use std::marker::Model;

/// How many items of the metadata log a table keeps where its property `write.metadata.previous-versions-max` is absent.
pub const DEFAULT_VERSIONS: u64 = 100;

/// Well-formed metadata, which contracts see as its JSON tree.
#[derive(Drop)]
pub struct Meta {
    tree: Value,
    typed: Typed,
    index: Index,
}

impl Model for Meta {
    ghost use Rattle.serde_json.specs.contracts.value.Value as e;
    ghost use Rattle.std.specs.Coded.{codes};
    ghost use Rattle.serde_json.specs.declared.value.Value.{Value as Json};

    ghost Value = { Json };

    ghost coded = { Prim.hlevel (codes, e.the_row.coded) };

    ghost use Rattle.table_metadata.specs.MetaIs.{IsTyped};

    ghost view = { λ m. m.tree };

    ghost invariant = { λ m. IsTyped m };
}

fn parse(alloc: Global, bytes: &[u8]) -> Result<Value, MetaErr>
    ensures ok { IfOk result (λ v. IsUtf8 bytes.now × (read bytes.now ≡ Some (view v))) }
    ensures nests { IfOk result (λ v. depth (view v) ≤ max_depth) }
    ensures err { IfErr result (λ e. IsRefused bytes.now e) }
{
    match Value::from_slice(alloc, bytes) {
        Ok(value) => Ok(value),
        Err(e) => if e.is_memory() {
            Err(MetaErr::Memory)
        } else {
            Err(no_json(alloc))
        },
    }
}

fn no_json(alloc: Global) -> MetaErr
    ensures { result ≡ Bad [] NotJson }
{
    MetaErr::Bad {
        path: Text::new(Vec::new(alloc)),
        cause: MetaCause::NotJson,
    }
}

fn refusal(fault: Fault) -> MetaErr
    ensures { result ≡ Bad fault.path fault.cause }
{
    MetaErr::Bad {
        path: fault.path,
        cause: fault.cause,
    }
}

// What the tree of well-formed metadata says.
fn meta_of(alloc: Global, tree: Value) -> Result<Meta, AllocError>
    requires sound { fault_of (view tree) ≡ None }
    requires shallow { depth (view tree) ≤ max_depth }
    ensures { IfOk result (λ m. m ≡ tree) }
{
    let typed = typed_view(alloc, &tree)?;
    let index = match index_of(alloc, typed.snapshots.inner())? {
        Indexed::Whole(index) => index,
        Indexed::Double(_) => unreachable!(),
    };
    Ok(Meta { tree, typed, index })
}

// The metadata that a tree of the right form is, unless something is wrong among its snapshots.
#[tactic(auto, unfolding(metadata_view::specs::Fault::fault_of, metadata_view::specs::Fault::snapshots_fault))]
fn linked(alloc: Global, tree: Value) -> Result<Meta, MetaErr>
    requires form { form_fault (view tree) ≡ None }
    requires shallow { depth (view tree) ≤ max_depth }
    ensures ok { IfOk result (λ m. m ≡ tree) }
    ensures err { IfErr result (IsFaultOf (view tree)) }
{
    let typed = typed_view(alloc, &tree)?;
    let index = match index_of(alloc, typed.snapshots.inner())? {
        Indexed::Whole(index) => index,
        Indexed::Double(place) => return Err(refusal(double_id(alloc, place)?)),
    };
    match links_fault(alloc, &index, typed.snapshots.inner(), &tree)? {
        Some(fault) => Err(refusal(fault)),
        None => Ok(Meta { tree, typed, index }),
    }
}

fn read(alloc: Global, bytes: &[u8]) -> Result<Meta, MetaErr>
    ensures ok { IfOk result (λ m. Spells bytes.now (view m)) }
    ensures err { IfErr result (λ e. IsRefused bytes.now e) }
{
    let tree = parse(alloc, bytes)?;
    match form_fault(alloc, &tree)? {
        Some(fault) => Err(refusal(fault)),
        None => linked(alloc, tree),
    }
}

/// The metadata that the bytes spell.
pub fn read_meta(alloc: Global, bytes: &[u8]) -> Result<Meta, MetaErr>
    // What is read is spelled so.
    ensures ok { IfOk result (λ m. Spells bytes.now (view m)) }
    // What is spelled so is read, unless memory runs out.
    ensures taken { (d : Data) → Spells bytes.now d → IsReadAs d result }
    // Which cause it is, where nothing is spelled.
    ensures err { IfErr result (λ e. IsRefused bytes.now e) }
{
    read(alloc, bytes)
}

/// The written spelling: compact JSON with keys in byte order.
pub fn write_meta(alloc: Global, meta: &Meta) -> Result<Bytes, AllocError>
    ensures text { IfOk result (λ b. b ≡ compact_text (view meta.now)) }
    ensures spells { IfOk result (λ b. Spells b (view meta.now)) }
{
    written(alloc, &meta.tree)
}

fn written(alloc: Global, tree: &Value) -> Result<Bytes, AllocError>
    requires sound { fault_of (view tree.now) ≡ None }
    requires shallow { depth (view tree.now) ≤ max_depth }
    ensures text { IfOk result (λ b. b ≡ compact_text (view tree.now)) }
    ensures spells { IfOk result (λ b. Spells b (view tree.now)) }
{
    Ok(Bytes::new(tree.to_vec(alloc)?))
}

fn copied(tree: &Value) -> Result<Value, AllocError>
    ensures { IfOk result (λ v. view v ≡ view tree.now) }
{
    tree.clone()
}

// The metadata with a ref, of the tree of well-formed metadata.
fn with_ref(alloc: Global, tree: Value, name: &Text, id: i64, ms: u64) -> Result<Meta, AllocError>
    requires sound { fault_of (view tree) ≡ None }
    requires shallow { depth (view tree) ≤ max_depth }
    requires utf8 { IsUtf8 name.now }
    requires known { IsSome (snapshot_with (snapshots_of (view tree)) id) }
    requires moment { ms < 2 ^ 63 }
    ensures { IfOk result (λ m. view m ≡ with_ref name.now id ms (view tree)) }
{
    let tree = edits::with_ref(alloc, tree, as_str(name), id, ms)?;
    meta_of(alloc, tree)
}

fn id_of(snapshot: &Snapshot) -> i64
    ensures { result ≡ snapshot.now.id }
{
    snapshot.id
}

fn sequence_of(snapshot: &Snapshot) -> i64
    ensures { result ≡ snapshot.now.sequence }
{
    snapshot.sequence
}

fn or_zero(number: &Option<i64>) -> i64
    ensures { result ≡ unwrap_or number.now (pos 0) }
{
    number.unwrap_or(0)
}

// A law for proofs: the numbers of a snapshot fit 64 bits.
fn numbers_fit(snapshot: &Snapshot)
    ensures id { FitsSigned w64 snapshot.now.id }
    ensures sequence { FitsSigned w64 snapshot.now.sequence }
    ensures parent { FitsSigned w64 (unwrap_or snapshot.now.parent (pos 0)) }
    ensures schema { FitsSigned w64 (unwrap_or snapshot.now.schema_id (pos 0)) }
{
    let (_id, _sequence) = (id_of(snapshot), sequence_of(snapshot));
    let (_parent, _schema) = (or_zero(&snapshot.parent), or_zero(&snapshot.schema_id));
}

// The metadata with a new snapshot, of the tree of well-formed metadata.
fn with_snapshot(
    alloc: Global,
    tree: Value,
    snapshot: &Snapshot,
    summary: &PairTexts,
    ms: u64,
) -> Result<Meta, AllocError>
    requires sound { fault_of (view tree) ≡ None }
    requires shallow { depth (view tree) ≤ max_depth }
    requires texts { IsTextual snapshot.now summary.now }
    requires id { IsNewId (snapshots_of (view tree)) snapshot.now.id }
    requires parent { IsKnownParent (snapshots_of (view tree)) snapshot.now.parent }
    requires schema { IsIntOrNone snapshot.now.schema_id }
    requires made { snapshot.now.ms < 2 ^ 63 }
    requires moment { ms < 2 ^ 63 }
    ensures { IfOk result (λ m. view m ≡ with_snapshot snapshot.now summary.now ms (view tree)) }
{
    numbers_fit(snapshot);
    let tree = edits::with_snapshot(alloc, tree, snapshot, summary.inner().as_slice(), ms)?;
    meta_of(alloc, tree)
}

// The metadata without snapshots, of the tree of well-formed metadata.
fn without_snapshots(
    alloc: Global,
    tree: Value,
    ids: &IdList,
    refs: &TextList,
) -> Result<Meta, AllocError>
    requires sound { fault_of (view tree) ≡ None }
    requires shallow { depth (view tree) ≤ max_depth }
    requires whole { CanLose ids.now refs.now (view tree) }
    ensures { IfOk result (λ m. view m ≡ without_snapshots ids.now refs.now (view tree)) }
{
    let tree = metadata_snapshots::without_snapshots(
        alloc,
        tree,
        ids.inner().as_slice(),
        refs.inner().as_slice(),
    )?;
    meta_of(alloc, tree)
}

impl Meta {
    /// `table-uuid`, as it is written.
    pub fn uuid(&self) -> &Text
        ensures { result.now ≡ uuid_of (view self.now) }
    {
        &self.typed.uuid
    }

    /// `location`, as it is written.
    pub fn location(&self) -> &Text
        ensures text { result.now ≡ location_of (view self.now) }
        ensures utf8 { IsUtf8 result.now }
    {
        &self.typed.location
    }

    /// `last-sequence-number`.
    pub fn last_sequence(&self) -> i64
        ensures { result ≡ last_sequence_of (view self.now) }
    {
        self.typed.last_sequence
    }

    /// `last-updated-ms`: milliseconds since 1970-01-01 UTC.
    pub fn last_updated_ms(&self) -> u64
        ensures { result ≡ updated_of (view self.now) }
    {
        self.typed.last_updated_ms
    }

    /// `current-snapshot-id`; absent, null and -1 stand for none.
    pub fn current(&self) -> Option<i64>
        ensures { result ≡ current_of (view self.now) }
    {
        self.typed.current
    }

    /// The snapshots, in the order of `snapshots`.
    pub fn snapshots(&self) -> &SnapshotList
        ensures { result.now ≡ snapshots_of (view self.now) }
    {
        &self.typed.snapshots
    }

    /// The refs, in byte order of their names. The branch `main` is among them also where only `current-snapshot-id`
    /// gives it.
    pub fn refs(&self) -> &RefList
        ensures { result.now ≡ refs_of (view self.now) }
    {
        &self.typed.refs
    }

    /// Whether the table has a snapshot with this id.
    pub fn has_snapshot(&self, id: i64) -> bool
        ensures { result ≡ is_some (snapshot_with (snapshots_of (view self.now)) id) }
    {
        has(&self.index, self.typed.snapshots.inner(), id)
    }

    /// The snapshot with this id.
    pub fn snapshot(&self, id: i64) -> Option<&Snapshot>
        ensures { option_map (λ s. s.now) result ≡ snapshot_with (snapshots_of (view self.now)) id }
    {
        find(&self.index, self.typed.snapshots.inner(), id)
    }

    /// The ref with this name; `main` also where only `current-snapshot-id` gives it.
    pub fn reference(&self, name: &Text) -> Option<&Ref>
        ensures { option_map (λ r. r.now) result ≡ ref_with (refs_of (view self.now)) name.now }
    {
        ref_with(self.typed.refs.inner(), name)
    }

    /// The items of `statistics`, and then those of `partition-statistics`.
    pub fn statistics(&self) -> &StatisticsList
        ensures { result.now ≡ statistics_of (view self.now) }
    {
        &self.typed.statistics
    }

    /// `schemas`: an array of objects, which are read where they are needed.
    pub fn schemas_tree(&self) -> &Value
        ensures { Some (view result.now) ≡ get (codes "schemas") (view self.now) }
    {
        self.tree.get("schemas").unwrap()
    }

    /// `partition-specs`: an array of objects, which are read where they are needed.
    pub fn specs_tree(&self) -> &Value
        ensures { Some (view result.now) ≡ get (codes "partition-specs") (view self.now) }
    {
        self.tree.get("partition-specs").unwrap()
    }

    /// `current-schema-id`; it names a schema of `schemas`.
    pub fn current_schema_id(&self) -> i32
        ensures { result ≡ current_schema_id_of (view self.now) }
    {
        self.typed.current_schema_id
    }

    /// `default-spec-id`; it names a spec of `partition-specs`.
    pub fn default_spec_id(&self) -> i32
        ensures { result ≡ default_spec_id_of (view self.now) }
    {
        self.typed.default_spec_id
    }

    /// The whole tree.
    pub fn tree(&self) -> &Value
        ensures { result.now ≡ self.now }
    {
        &self.tree
    }

    /// The value of a property of the table.
    pub fn property(&self, name: &str) -> Option<&Text>
        ensures { option_map (λ t. t.now) result ≡ property_of name.now (view self.now) }
    {
        value_of(self.typed.properties.inner(), name)
    }

    /// The snapshot and its parents, as far as they are in the table; none where the id is unknown.
    pub fn ancestors(&self, alloc: Global, id: i64) -> Result<IdList, AllocError>
        ensures { IfOk result (λ ids. IsWalk (snapshots_of (view self.now)) (Some id) ids) }
    {
        let ids = walk(alloc, &self.index, self.typed.snapshots.inner(), Some(id))?;
        Ok(Items::new(ids))
    }

    /// Whether the snapshot `id` is the snapshot `of` or one of its ancestors.
    pub fn ancestor_of(&self, id: i64, of: i64) -> bool
        ensures { IsTrue result ↔ IsAncestor (snapshots_of (view self.now)) id of }
    {
        on_walk(&self.index, self.typed.snapshots.inner(), id, Some(of))
    }

    /// The metadata with the ref `name` at the snapshot `id`, at the moment `ms` or, where that is later, at the
    /// metadata's own. Where there is no such ref it is made, as a branch. `main` moves the current snapshot too, and
    /// adds to the snapshot log. Every other field stays.
    pub fn with_ref(&self, alloc: Global, name: &Text, id: i64, ms: u64) -> Result<Meta, EditErr>
        requires utf8 { IsUtf8 name.now }
        requires moment { ms < 2 ^ 63 }
        ensures ok { IfOk result (λ m. view m ≡ with_ref name.now id ms (view self.now)) }
        ensures stays { IfOk result (λ m. (key : List ℕ) → key ≢ codes "refs" → key ≢ codes "current-snapshot-id"
            → key ≢ codes "snapshot-log" → get key (view m) ≡ get key (view self.now)) }
        ensures known { OnOk result (IsSome (snapshot_with (snapshots_of (view self.now)) id)) }
        ensures refused { snapshot_with (snapshots_of (view self.now)) id ≡ None → result ≡ Err (UnknownSnapshot id) }
        ensures unknown { IfErr result (λ e. IsUnknown (snapshot_with (snapshots_of (view self.now)) id) id e) }
    {
        if !has(&self.index, self.typed.snapshots.inner(), id) {
            return Err(EditErr::UnknownSnapshot { id });
        }
        let copy = copied(&self.tree)?;
        Ok(with_ref(alloc, copy, name, id, ms)?)
    }

    /// The same metadata with the ref, as `with_ref` says, without a copy.
    pub fn into_with_ref(
        self,
        alloc: Global,
        name: &Text,
        id: i64,
        ms: u64,
    ) -> Result<Meta, AllocError>
        requires utf8 { IsUtf8 name.now }
        requires known { IsSome (snapshot_with (snapshots_of (view self)) id) }
        requires moment { ms < 2 ^ 63 }
        ensures { IfOk result (λ m. view m ≡ with_ref name.now id ms (view self)) }
    {
        with_ref(alloc, self.into_tree(), name, id, ms)
    }

    /// Whether a new snapshot may have this id: it isn't -1, and is neither the id nor the parent of a snapshot of the
    /// table.
    pub fn is_new_id(&self, id: i64) -> bool
        ensures { IsTrue result ↔ IsNewId (snapshots_of (view self.now)) id }
    {
        id != -1 && !self.has_snapshot(id) && !has_child(self.typed.snapshots.inner(), id)
    }

    /// Whether a new snapshot may have this parent: none, or a snapshot of the table.
    pub fn knows_parent(&self, parent: Option<i64>) -> bool
        ensures { IsTrue result ↔ IsKnownParent (snapshots_of (view self.now)) parent }
    {
        match parent {
            Some(id) => self.has_snapshot(id),
            None => true,
        }
    }

    /// The metadata with a new snapshot, whose summary has these texts beside its operation, and with `main` at it since
    /// the moment `ms` or, where that is later, the metadata's own. `last-sequence-number` becomes the snapshot's. Every
    /// other field stays (Iceberg table specification, Snapshots).
    pub fn with_snapshot(
        &self,
        alloc: Global,
        snapshot: &Snapshot,
        summary: &PairTexts,
        ms: u64,
    ) -> Result<Meta, AllocError>
        requires texts { IsTextual snapshot.now summary.now }
        requires id { IsNewId (snapshots_of (view self.now)) snapshot.now.id }
        requires parent { IsKnownParent (snapshots_of (view self.now)) snapshot.now.parent }
        requires schema { IsIntOrNone snapshot.now.schema_id }
        requires made { snapshot.now.ms < 2 ^ 63 }
        requires moment { ms < 2 ^ 63 }
        ensures ok { IfOk result (λ m. view m ≡ with_snapshot snapshot.now summary.now ms (view self.now)) }
        ensures snapshots { IfOk result (λ m. snapshots_of (view m) ≡ snapshots_of (view self.now) ++ snapshot.now ∷ []) }
        ensures stays { IfOk result (λ m. OthersStay added_fields (view self.now) (view m)) }
    {
        numbers_fit(snapshot);
        let copy = copied(&self.tree)?;
        with_snapshot(alloc, copy, snapshot, summary, ms)
    }

    /// The same metadata with the snapshot, as `with_snapshot` says, without a copy.
    pub fn into_with_snapshot(
        self,
        alloc: Global,
        snapshot: &Snapshot,
        summary: &PairTexts,
        ms: u64,
    ) -> Result<Meta, AllocError>
        requires texts { IsTextual snapshot.now summary.now }
        requires id { IsNewId (snapshots_of (view self)) snapshot.now.id }
        requires parent { IsKnownParent (snapshots_of (view self)) snapshot.now.parent }
        requires schema { IsIntOrNone snapshot.now.schema_id }
        requires made { snapshot.now.ms < 2 ^ 63 }
        requires moment { ms < 2 ^ 63 }
        ensures { IfOk result (λ m. view m ≡ with_snapshot snapshot.now summary.now ms (view self)) }
    {
        with_snapshot(alloc, self.into_tree(), snapshot, summary, ms)
    }

    /// Whether the snapshots of these ids may go with the refs of these names: `main` isn't among the names, and neither
    /// the current snapshot nor that of a ref which stays is among the ids.
    pub fn can_lose(&self, ids: &IdList, refs: &TextList) -> bool
        ensures { IsTrue result ↔ CanLose ids.now refs.now (view self.now) }
    {
        let (ids, names) = (ids.inner().as_slice(), refs.inner().as_slice());
        !has_name(names, b"main")
            && is_kept(ids, self.typed.current)
            && leaves_whole(ids, names, self.typed.refs.inner())
    }

    /// The metadata without the snapshots of these ids, their items of `statistics` and `partition-statistics`, the refs
    /// of these names, and the items of `snapshot-log` up to the last one of such a snapshot. No ref that stays names
    /// such a snapshot, and `main` stays. Every other field stays (Iceberg table specification, Snapshots).
    pub fn without_snapshots(
        &self,
        alloc: Global,
        ids: &IdList,
        refs: &TextList,
    ) -> Result<Meta, AllocError>
        requires whole { CanLose ids.now refs.now (view self.now) }
        ensures ok { IfOk result (λ m. view m ≡ without_snapshots ids.now refs.now (view self.now)) }
        ensures stays { IfOk result (λ m. OthersStay taken_fields (view self.now) (view m)) }
    {
        let copy = copied(&self.tree)?;
        without_snapshots(alloc, copy, ids, refs)
    }

    /// The same metadata without the snapshots, as `without_snapshots` says, without a copy.
    pub fn into_without_snapshots(
        self,
        alloc: Global,
        ids: &IdList,
        refs: &TextList,
    ) -> Result<Meta, AllocError>
        requires whole { CanLose ids.now refs.now (view self) }
        ensures { IfOk result (λ m. view m ≡ without_snapshots ids.now refs.now (view self)) }
    {
        without_snapshots(alloc, self.into_tree(), ids, refs)
    }

    // The typed view goes before an edit makes a new one.
    fn into_tree(self) -> Value
        ensures tree { view result ≡ view self }
        ensures sound { fault_of (view self) ≡ None }
        ensures shallow { depth (view self) ≤ max_depth }
    {
        self.tree
    }

    fn version_limit(&self) -> Option<u64>
        ensures { result ≡ version_limit (view self.now) }
    {
        match self.property("write.metadata.previous-versions-max") {
            Some(text) => natural_of(text.inner().as_slice()),
            None => Some(DEFAULT_VERSIONS),
        }
    }

    /// Whether the property `write.metadata.previous-versions-max` is absent or of its form: decimal digits up to
    /// 2^63 - 1.
    pub fn has_version_limit(&self) -> bool
        ensures { IsTrue result ↔ HasVersionLimit (view self.now) }
    {
        self.version_limit().is_some()
    }

    fn kept_versions(&self) -> u64
        ensures value { result ≡ kept_versions (version_limit (view self.now)) }
        ensures some { 0 < result }
    {
        self.version_limit().unwrap_or(DEFAULT_VERSIONS).max(1)
    }

    /// The metadata of the next version: updated at `ms` or, where that is later, at its own moment. The text
    /// `previous` of the metadata file before it goes to the metadata log, of which the last items stay, as many as
    /// `write.metadata.previous-versions-max` says (100 where it is absent), at least 1. Every other field stays.
    pub fn next_version(&self, alloc: Global, previous: &Text, ms: u64) -> Result<Meta, AllocError>
        requires utf8 { IsUtf8 previous.now }
        requires moment { ms < 2 ^ 63 }
        requires limit { HasVersionLimit (view self.now) }
        ensures ok { IfOk result (λ m. view m ≡ next_version previous.now ms (view self.now)) }
        ensures stays { IfOk result (λ m. (key : List ℕ) → key ≢ codes "last-updated-ms"
            → key ≢ codes "metadata-log" → get key (view m) ≡ get key (view self.now)) }
    {
        let most = self.kept_versions();
        let copy = copied(&self.tree)?;
        let tree = next_tree(alloc, copy, previous, ms, most)?;
        meta_of(alloc, tree)
    }

    /// The written spelling of the next version, as `next_version` says, without a copy of the tree.
    pub fn into_next_version_bytes(
        self,
        alloc: Global,
        previous: &Text,
        ms: u64,
    ) -> Result<Bytes, AllocError>
        requires utf8 { IsUtf8 previous.now }
        requires moment { ms < 2 ^ 63 }
        requires limit { HasVersionLimit (view self) }
        ensures text { IfOk result (λ b. b ≡ compact_text (next_version previous.now ms (view self))) }
        ensures spells { IfOk result (λ b. Spells b (next_version previous.now ms (view self))) }
    {
        let most = self.kept_versions();
        let tree = next_tree(alloc, self.into_tree(), previous, ms, most)?;
        written(alloc, &tree)
    }
}

// The tree of the next version, which keeps so many items of the metadata log.
fn next_tree(
    alloc: Global,
    tree: Value,
    previous: &Text,
    ms: u64,
    most: u64,
) -> Result<Value, AllocError>
    requires sound { fault_of (view tree) ≡ None }
    requires shallow { depth (view tree) ≤ max_depth }
    requires utf8 { IsUtf8 previous.now }
    requires moment { ms < 2 ^ 63 }
    requires some { 0 < most }
    ensures tree { IfOk result (λ t. view t ≡ next_keeping most previous.now ms (view tree)) }
    ensures sound { IfOk result (λ t. fault_of (view t) ≡ None) }
    ensures shallow { IfOk result (λ t. depth (view t) ≤ max_depth) }
{
    edits::next_version(alloc, tree, as_str(previous), ms, most)
}

fn ref_with<'r>(refs: &'r [Ref], name: &Text) -> Option<&'r Ref>
    ensures { option_map (λ r. r.now) result ≡ ref_with refs.now name.now }
{
    for reference in refs {
        if reference.name.inner().as_slice() == name.inner().as_slice() {
            return Some(reference);
        }
    }
    None
}

fn value_of<'p>(properties: &'p [Property], name: &str) -> Option<&'p Text>
    ensures { option_map (λ t. t.now) result ≡ value_in name.now properties.now }
{
    for property in properties {
        if name.as_bytes() == property.name.inner().as_slice() {
            return Some(&property.value);
        }
    }
    None
}
