//! The answers to queries, read from an office of any kind.
//!
//! An office is whatever can be read as the trait [`Shelf`](act_model::Shelf) asks. [`answer`] gives the text that
//! tells what a query asks, or `UnknownThing` where the thing isn't there. All texts are lines that end in a line feed.
#![tactic(auto)]

mod answering;
mod exporting;
mod half_month;
mod isolated;
mod lines;
mod name;
mod object;
mod pages;
mod pieces;
mod reading;
mod tracklet;
mod tracks;
mod walk;
mod writing;

pub use answering::answer;
pub use exporting::{ExportFault, export};
pub use pages::{PAGE_BYTES, Pages};
