//! The fields of which texts about the nodes of a tree are made: the report, its readers and the
//! picture.
#![tactic(auto)]

mod fields;

pub use fields::{answer, write_number, write_path, write_status};
