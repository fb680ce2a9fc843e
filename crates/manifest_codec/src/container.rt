//! Files whose objects are records.

use avro_container::Header;
use avro_schema::Schema;

/// A container file's header, and the schema of its objects.
#[derive(Debug, Drop)]
pub(crate) struct Container {
    pub(crate) header: Header,
    pub(crate) schema: Schema,
}
