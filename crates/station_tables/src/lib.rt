//! The office's own tables: which stations serve on which days, and which letter and which word stand for the same
//! catalogue, band or mode.
//!
//! Officers enter the rows one at a time, and each line of a batch is judged against those that were entered before.
#![tactic(auto)]

mod codes;
mod keys;
mod kind;
mod serving;
mod stations;
mod tables;

pub use kind::Kind;
pub use serving::Serving;
pub use tables::Tables;
