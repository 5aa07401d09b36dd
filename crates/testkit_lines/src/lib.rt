//! Lines of 80 columns, calls on a file of observations, and batches that are judged, for the crates that test them.
//!
//! No function asserts anything, since no library may stop the program, and few have a clause: what the calls promise
//! would then stand in the proof of every test.
#![tactic(auto)]

mod batch_calls;
mod file_calls;
mod line_calls;

pub use batch_calls::{LIVE, Row, Who, rulings_on, tables};
pub use file_calls::{ENTRY, HOME, begin_track, counts, name, observe, retract, seen, set_home};
pub use line_calls::{line_of, with};
