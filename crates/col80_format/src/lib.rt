//! The 80-column format for optical astrometric observations, as the Minor Planet Center describes it:
//! single lines, and batches of lines, whole or in pieces.
#![tactic(auto)]

mod batch;
mod form;
pub mod laws;
mod magnitude;
mod names;
mod reader;
mod reading;
mod writing;

pub use reader::{EightyReader, split_batch};
pub use reading::read_line;
pub use writing::{Front, Letters, write_line};
