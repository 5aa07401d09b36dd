//! A made-up workload: the requests of one officer by which an office in memory gets this many objects, and the summary
//! of the office after them.
//!
//! The request with a given place is a written function of the seed and the place (`specs/Workloads.antt`), and so is
//! the summary of them all (`specs/Summaries.antt`). The requests are made one after another, and no list of them is
//! kept.
#![tactic(auto)]

mod counting;
mod generating;
mod lines;
mod requests;
mod running;
mod summaries;

pub use summaries::summary;
