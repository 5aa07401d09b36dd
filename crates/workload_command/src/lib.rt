//! The summary of a made-up workload, written out: the program's command `workload`.
#![tactic(auto)]

mod working;

pub use working::workload;
