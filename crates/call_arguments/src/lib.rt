//! The arguments of the procedures, after Iceberg's Spark procedures: which there are, and which argument of a statement
//! is wrong or lacks.
//!
//! - `procedure`: the procedures and their names.
//! - `table`: the argument table, a line for each argument of a procedure.
//! - `options`: the table of options of the rewrites, and the values in a map.
//! - `number`: numbers as a statement writes them.
//! - `form`: whether a value is of the form that its line asks for.
//! - `check`: the first wrong argument, and the first required one that lacks.
#![tactic(auto)]

mod check;
mod form;
mod number;
mod options;
mod procedure;
mod table;

pub use check::{accepted_arguments, bad_argument, value_of};
pub use number::{LARGEST_INT, count_of, int_of, long_of};
pub use options::{OptionName, flag_option, number_option};
pub use procedure::{Procedure, procedure_named};
pub use table::ArgName;
