//! What a record of a manifest or manifest list holds for a column: values read out of it, and values that are written.
//! Unions are taken off, and null is what isn't there.
#![tactic(auto)]

mod field_err;
mod lists;
mod pairs;
mod places;
mod reading;
mod setting;
mod writing;
mod written_lists;

pub use field_err::FieldErr;
pub use lists::{IdList, IntList, set_ints, set_longs};
pub use pairs::{IntBytesList, IntLongList, set_int_bytes, set_int_longs};
pub use places::{fields_in, held, items_in};
pub use reading::{
    bool_of, bytes_of, int_of, long_of, optional_bool_of, optional_bytes_of, optional_long_of,
};
pub use setting::{
    set_content, set_count, set_int, set_long, set_optional_bytes, set_optional_int,
    set_optional_text, set_text,
};
pub use writing::{
    content, count, null, optional_bool, optional_bytes, optional_int, optional_long,
    optional_text, some,
};
pub use written_lists::{optional_int_bytes, optional_int_longs, optional_ints, optional_longs};
