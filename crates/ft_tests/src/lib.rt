//! Runs the tool over files in memory, for the crates that test rows.
//!
//! A row has words, the text that the tool writes and the status that it returns. The crate promises
//! nothing; test crates share it to compare the tool's answer with a row. An error names what differs.
#![tactic(auto)]

mod rows;
mod sources;

pub use rows::{
    Row, check_altered, check_file, check_row, check_rows, check_script, status_of,
    status_with_script, worked_objects,
};
pub use sources::{declared, repeated};
