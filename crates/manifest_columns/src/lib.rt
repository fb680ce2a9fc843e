//! The columns of manifest lists and manifests (Apache Iceberg specification, "Manifests" and "Manifest Lists"), as data:
//! tables of them, where a file's own schema has them, what is wrong with that schema, and the schema that is written.
#![tactic(auto)]

mod column;
mod faults;
mod name;
mod places;
mod shapes;
mod slots;
mod tables;
mod written;

pub use column::{Column, Kind};
pub use faults::{Fault, least_fault, smaller};
pub use name::{Name, RecordName};
pub use places::{place_of, schema_of};
pub use shapes::{fields_of, type_of};
pub use slots::{PlaceList, Slot, SlotList, slot_of, slots_of};
pub use tables::{
    data_file_columns, entry_columns, row_columns, summary_columns, written_data_file_columns,
    written_entry_columns, written_row_columns, written_summary_columns,
};
pub use written::{written_field, written_fields, written_record};
