//! Tests of the crates of metadata, over one worked table.
#![tactic(auto)]

#[cfg(test)]
mod forms;
#[cfg(test)]
mod snapshots;
#[cfg(test)]
mod tables;

/// The metadata of a table with the snapshots 11, 22 and 33, each the parent of the next; the branch `main` is at 33.
// It has no clause, so that no proof carries the text.
pub fn three_snapshots() -> &'static str {
    "{\"current-schema-id\":0,\"current-snapshot-id\":33,\"default-sort-order-id\":0,\"default-spec-id\":0,\"format-version\":2,\"last-column-id\":2,\"last-partition-id\":999,\"last-sequence-number\":3,\"last-updated-ms\":3000,\"location\":\"/w/t\",\"metadata-log\":[],\"partition-specs\":[{\"fields\":[],\"spec-id\":0}],\"properties\":{},\"refs\":{\"main\":{\"snapshot-id\":33,\"type\":\"branch\"}},\"schemas\":[{\"fields\":[{\"id\":1,\"name\":\"id\",\"required\":true,\"type\":\"long\"},{\"id\":2,\"name\":\"name\",\"required\":false,\"type\":\"string\"}],\"schema-id\":0,\"type\":\"struct\"}],\"snapshot-log\":[{\"snapshot-id\":11,\"timestamp-ms\":1000},{\"snapshot-id\":22,\"timestamp-ms\":2000},{\"snapshot-id\":33,\"timestamp-ms\":3000}],\"snapshots\":[{\"manifest-list\":\"/w/t/metadata/l11.avro\",\"sequence-number\":1,\"snapshot-id\":11,\"summary\":{\"operation\":\"append\"},\"timestamp-ms\":1000},{\"manifest-list\":\"/w/t/metadata/l22.avro\",\"parent-snapshot-id\":11,\"sequence-number\":2,\"snapshot-id\":22,\"summary\":{\"operation\":\"append\"},\"timestamp-ms\":2000},{\"manifest-list\":\"/w/t/metadata/l33.avro\",\"parent-snapshot-id\":22,\"sequence-number\":3,\"snapshot-id\":33,\"summary\":{\"operation\":\"append\"},\"timestamp-ms\":3000}],\"sort-orders\":[{\"fields\":[],\"order-id\":0}],\"table-uuid\":\"9c12d441-03fe-4693-9a96-a0705ddf69c1\"}"
}
