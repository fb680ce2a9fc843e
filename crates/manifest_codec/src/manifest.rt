//! Manifests.

use avro_schema::Text;
use manifest_entries::Entry;
use sqlite_items::Items;

/// Entries of a manifest, in order.
pub type EntryList = Items<Entry>;

/// A manifest (Apache Iceberg specification, "Manifests").
#[derive(Debug, Drop)]
pub struct Manifest {
    /// The value of `partition-spec-id`, 0 where that is no i32 in decimal.
    pub spec_id: i32,
    /// Whether the files are delete files: `content` is `deletes`.
    pub is_deletes: bool,
    /// The value of `schema`, empty where it lacks or isn't UTF-8; so are the next two.
    pub schema_text: Text,
    /// The value of `schema-id`.
    pub schema_id: Text,
    /// The value of `partition-spec`.
    pub spec_text: Text,
    pub entries: EntryList,
}
