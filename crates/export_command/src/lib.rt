//! The catalogue of the office on a disk, written out: the program's command `export`.
#![tactic(auto)]

mod exporting;

pub use exporting::export;
