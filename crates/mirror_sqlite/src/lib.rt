//! The mirror of the catalogue in SQLite: its two tables, and the statements on them.
#![tactic(auto)]

pub mod faults;
mod file_mirror;
mod keeping;
mod questions;
pub mod reading;
pub mod replacing;
mod sql_mirror;
pub mod tables;
pub mod texts;

pub use file_mirror::FileMirror;
pub use sql_mirror::SqlMirror;
